//! The search for the packings that are known at sites.
ghost use Rattle.std.specs.Prelude.{◌≡◌, ◌↔◌, ◌<◌, ◌≤◌, ◌⊎◌, ℕ, List, Some, false, Any, IfOk, OnOk, Contains, drop, length, option_map, slice_get};
ghost use Rattle.trace_core.specs.Chains.{sites_at};
ghost use mathlib.Core.Logic.{inl};
ghost use Rattle.trace_core.specs.Gaps.{ShipsTo};
ghost use Rattle.trace_core.specs.PutIn.{filled};
ghost use Rattle.gap_core.specs.Adding.{AddsNothing, AddsTo};
ghost use Rattle.gap_core.specs.Searches.{LetsWait, TellsAll, TellsOne, IsPassedAt};
ghost use Rattle.gap_core.specs.Sources.{AreKnown, AreOwn, IsFilledAt, IsFilledBy, IsFilledIn, IsTold, IsToldTo, Keeps};

use crate::item_lists::ItemList;
use crate::shipments::{places_to, shipped_items};
use crate::sources::{Source, Sources, either, note_source, pass_item};
use crate::walks::walk;
use epc_core::Epc;
use event_json::{Action, Body};
use std::alloc::{AllocError, Global};
use std::collections::BTreeMap;
use trace_core::Captured;

/// For each container the sites that packed something into it, each with the sites at which that is known: with itself,
/// and with those to which the container came from there, over however many sites. Sites are named by their places
/// among the given ones.
///
/// # Errors
/// Out of memory.
pub fn known_packings(
    alloc: Global,
    sites: &[&Captured],
) -> Result<BTreeMap<Epc, Sources>, AllocError>
    // Not covered: how many visits of sites it takes.
    ensures { IfOk result (AreKnown (sites_at sites.now)) }
{
    let mut index = own_packings(alloc, sites)?;
    let mut waiting = all_places(alloc, sites.len())?;
    let mut turn = 0;
    while turn < waiting.len() {
        let at = place_at(waiting.as_slice(), turn);
        turn += 1;
        tell_all(alloc, sites, at, turn, &mut index, &mut waiting)?;
    }
    Ok(index)
}

/// The place that stands at a turn.
fn place_at(waiting: &[usize], turn: usize) -> usize
    requires { turn < length waiting.now }
    ensures { slice_get waiting.now turn ≡ Some result }
{
    waiting[turn]
}

/// For each container the sites that packed something into it, each as known there.
pub fn own_packings(
    alloc: Global,
    sites: &[&Captured],
) -> Result<BTreeMap<Epc, Sources>, AllocError>
    ensures { IfOk result (AreOwn (sites_at sites.now)) }
{
    let mut index = BTreeMap::new(alloc);
    for at in 0..sites.len() {
        note_own(alloc, sites[at], at, &mut index)?;
    }
    Ok(index)
}

/// Notes what a site packed, which stands at a place.
fn note_own(
    alloc: Global,
    site: &Captured,
    at: usize,
    index: &mut BTreeMap<Epc, Sources>,
) -> Result<(), AllocError>
    ensures { OnOk result (AddsTo (Keeps index.old) (Keeps index.new) (IsFilledIn site.now at)) }
{
    for place in 0..site.len() {
        note_event(alloc, site, at, place, index)?;
    }
    Ok(())
}

/// Notes what the event at a place packed, at the site of a place.
fn note_event(
    alloc: Global,
    site: &Captured,
    at: usize,
    place: usize,
    index: &mut BTreeMap<Epc, Sources>,
) -> Result<(), AllocError>
    ensures { OnOk result (AddsTo (Keeps index.old) (Keeps index.new)
        (IsFilledAt site.now.events at place)) }
{
    match site.event(place) {
        Some(event) => note_filled(alloc, event.body(), at, index),
        None => Ok(()),
    }
}

/// Notes what an event packed, at the site of a place.
fn note_filled(
    alloc: Global,
    body: &Body,
    at: usize,
    index: &mut BTreeMap<Epc, Sources>,
) -> Result<(), AllocError>
    ensures { OnOk result (AddsTo (Keeps index.old) (Keeps index.new) (IsFilledBy body.now at)) }
{
    match filled(body) {
        Some(item) => note_source(alloc, item, Source { at, from: at }, index),
        None => Ok(()),
    }
}

/// The container that an event fills.
pub fn filled(body: &Body) -> Option<&Epc>
    ensures { option_map (λ i. i.now) result ≡ filled body.now }
{
    match body {
        Body::Pack {
            action: Action::Add,
            parent,
            ..
        } => parent.as_ref(),
        _ => None,
    }
}

/// So many places, from 0.
fn all_places(alloc: Global, count: usize) -> Result<Vec<usize>, AllocError>
    ensures { IfOk result (λ places. (k : ℕ) → Contains places.items k ↔ (k < count)) }
{
    let mut places = Vec::new(alloc);
    for place in 0..count {
        places.push(place)?;
    }
    Ok(places)
}

/// Tells each site what is known at the site of a place of what was sent there. A site to which that is new waits, from
/// a turn on.
fn tell_all(
    alloc: Global,
    sites: &[&Captured],
    at: usize,
    turn: usize,
    index: &mut BTreeMap<Epc, Sources>,
    waiting: &mut Vec<usize>,
) -> Result<(), AllocError>
    requires at { at < length sites.now }
    requires turn { turn ≤ length waiting.old.items }
    ensures { OnOk result (TellsAll (sites_at sites.now) at turn index.old index.new waiting.old.items
        waiting.new.items) }
{
    for to in 0..sites.len() {
        tell_one(alloc, sites, at, to, turn, index, waiting)?;
    }
    Ok(())
}

/// Tells the site of a place what is known at that of another one of what was sent there. If that is new, it waits, from
/// a turn on.
fn tell_one(
    alloc: Global,
    sites: &[&Captured],
    at: usize,
    to: usize,
    turn: usize,
    index: &mut BTreeMap<Epc, Sources>,
    waiting: &mut Vec<usize>,
) -> Result<(), AllocError>
    requires at { at < length sites.now }
    requires to { to < length sites.now }
    requires turn { turn ≤ length waiting.old.items }
    ensures { OnOk result (TellsOne (sites_at sites.now) at to turn index.old index.new
        waiting.old.items waiting.new.items) }
{
    if to == at {
        return Ok(());
    }
    let new = tell(alloc, sites, at, to, index)?;
    wait_if(new, to, turn, waiting)?;
    Ok(())
}

/// Lets a place wait from a turn on, if that is asked for.
fn wait_if(new: bool, place: usize, turn: usize, waiting: &mut Vec<usize>) -> Result<(), AllocError>
    requires { turn ≤ length waiting.old.items }
    ensures waits { OnOk result ((new ≡ false) ⊎ Contains (drop turn waiting.new.items) place) }
    ensures kept { OnOk result (LetsWait place turn waiting.old.items waiting.new.items) }
{
    if !new {
        return Ok(());
    }
    let_wait(place, turn, waiting)?;
    Ok(())
}

/// Lets a place wait, unless it waits already, from a turn on.
fn let_wait(place: usize, turn: usize, waiting: &mut Vec<usize>) -> Result<(), AllocError>
    requires { turn ≤ length waiting.old.items }
    ensures waits { OnOk result (Contains (drop turn waiting.new.items) place) }
    ensures kept { OnOk result (LetsWait place turn waiting.old.items waiting.new.items) }
{
    if waiting[turn..].contains(&place) {
        return Ok(());
    }
    waiting.push(place)?;
    Ok(())
}

/// Tells the site of a place what is known at that of another one of what was sent there, and returns whether any of
/// that is new.
fn tell(
    alloc: Global,
    sites: &[&Captured],
    at: usize,
    to: usize,
    index: &mut BTreeMap<Epc, Sources>,
) -> Result<bool, AllocError>
    requires at { at < length sites.now }
    requires to { to < length sites.now }
    requires other { at ≡ to → ⊥ }
    ensures added { OnOk result (AddsTo (Keeps index.old) (Keeps index.new)
        (IsTold (sites_at sites.now) index.old at to)) }
    ensures new { IfOk result (λ new. new ≡ false
        → AddsNothing (Keeps index.old) (Keeps index.new)) }
{
    let sent = sent_to(alloc, sites, index, at, to)?;
    pass_all(alloc, &sent, at, to, index)
}

/// Tells what is known of each item of a list, and returns whether any of that is new.
fn pass_all(
    alloc: Global,
    sent: &ItemList,
    at: usize,
    to: usize,
    index: &mut BTreeMap<Epc, Sources>,
) -> Result<bool, AllocError>
    requires { at ≡ to → ⊥ }
    ensures added { OnOk result (AddsTo (Keeps index.old) (Keeps index.new)
        (λ m. (k : ℕ) × (k < length sent.now) × IsPassedAt sent.now index.old at to k m)) }
    ensures new { IfOk result (λ new. new ≡ false
        → AddsNothing (Keeps index.old) (Keeps index.new)) }
{
    let mut some = false;
    for place in 0..sent.len() {
        let new = pass_at(alloc, sent, place, at, to, index)?;
        some = either(some, new);
    }
    Ok(some)
}

/// Tells what is known of the item at a place of a list.
fn pass_at(
    alloc: Global,
    sent: &ItemList,
    place: usize,
    at: usize,
    to: usize,
    index: &mut BTreeMap<Epc, Sources>,
) -> Result<bool, AllocError>
    ensures added { OnOk result (AddsTo (Keeps index.old) (Keeps index.new)
        (IsPassedAt sent.now index.old at to place)) }
    ensures new { IfOk result (λ new. new ≡ false
        → AddsNothing (Keeps index.old) (Keeps index.new)) }
{
    match sent.get(place) {
        Some(item) => pass_item(alloc, item, at, to, index),
        None => Ok(false),
    }
}

/// What the site of a place sent to the site of another one: what it ships there, and all that is known to lie in that.
fn sent_to(
    alloc: Global,
    sites: &[&Captured],
    index: &BTreeMap<Epc, Sources>,
    at: usize,
    to: usize,
) -> Result<ItemList, AllocError>
    requires at { at < length sites.now }
    requires to { to < length sites.now }
    ensures { IfOk result (λ sent. (i : List ℕ) → Contains sent i
        ↔ IsToldTo (sites_at sites.now) index.now at to i) }
{
    let starts = starts_to(alloc, sites[at], sites[to])?;
    walk(alloc, sites, index, at, starts)
}

/// What a site ships to another one.
pub fn starts_to(alloc: Global, site: &Captured, to: &Captured) -> Result<ItemList, AllocError>
    ensures { IfOk result (λ starts. (i : List ℕ) → Contains starts i
        ↔ Any (λ e. ShipsTo i (inl to.now.me) e.body) site.now.events) }
{
    let places = places_to(alloc, site, to.me())?;
    shipped_items(alloc, site, places.as_slice())
}
