//! The places of events that pack containers, or ship them on.
ghost use Rattle.std.specs.Prelude.{◌≡◌, ◌↔◌, ◌<◌, ℕ, List, IfOk, OnOk, IsTrue, Some, length, option_map, slice_get};
ghost use Rattle.std.specs.BTreeMap.{get};
ghost use Rattle.trace_core.specs.declared.pairs.Pair.{Pair};
ghost use Rattle.trace_core.specs.Chains.{sites_at};
ghost use Rattle.trace_core.specs.Pairs.{Packs, pair_cmp};
ghost use Rattle.trace_core.specs.Sites.{SiteEvents};
ghost use Rattle.gap_core.specs.Adding.{AddsTo, ByOne, ByOneAt};
ghost use Rattle.gap_core.specs.LineEvents.{BodyDoes, children_in, EventDoes, Holds, IsFirstAt, IsKept, IsWantedOf, SiteDoes, SomeDoes};
ghost use Rattle.gap_core.specs.Sources.{AreKnown};
ghost use Rattle.gap_core.specs.declared.event_places.Kind.TheVariants.{FirstPacking, LastShipment};

use crate::elsewhere::{is_same, ships_elsewhere};
use crate::item_lists::ItemList;
use crate::places::Places;
use crate::searches::filled;
use crate::site_gaps::sent_by;
use crate::sources::Sources;
use crate::touched::items_at;
use epc_core::Epc;
use event_json::{Body, SiteNo};
use std::alloc::{AllocError, Global};
use std::collections::BTreeMap;
use trace_core::{Captured, Pair};

/// Which events are looked for.
#[derive(Clone, Copy)]
pub enum Kind {
    /// The first by which a site put something into a container.
    FirstPacking,
    /// The last by which a site shipped a container elsewhere.
    LastShipment,
}

/// For each of some pairs the place of its event.
pub fn places_of(
    alloc: Global,
    sites: &[&Captured],
    known: &BTreeMap<Epc, Sources>,
    kind: Kind,
    pairs: &[Pair],
) -> Result<BTreeMap<Pair, usize>, AllocError>
    requires known { AreKnown (sites_at sites.now) known.now }
    ensures { IfOk result (λ index. (m : Pair × ℕ) → Holds kind index m
        ↔ SomeDoes kind (sites_at sites.now) pairs.now m) }
{
    let mut index = BTreeMap::new(alloc);
    for at in 0..sites.len() {
        note_site(alloc, sites, known, kind, pairs, at, &mut index)?;
    }
    Ok(index)
}

/// Notes the events of the site of a place, if it is the first of its number.
fn note_site(
    alloc: Global,
    sites: &[&Captured],
    known: &BTreeMap<Epc, Sources>,
    kind: Kind,
    pairs: &[Pair],
    at: usize,
    index: &mut BTreeMap<Pair, usize>,
) -> Result<(), AllocError>
    requires known { AreKnown (sites_at sites.now) known.now }
    requires at { at < length sites.now }
    ensures { OnOk result (AddsTo (Holds kind index.old) (Holds kind index.new)
        (SiteDoes kind (sites_at sites.now) pairs.now at)) }
{
    if !is_first(sites, at) {
        return Ok(());
    }
    let wanted = items_at(alloc, sites[at], pairs)?;
    if wanted.len() == 0 {
        return Ok(());
    }
    note_events(alloc, sites, known, kind, at, sites[at], &wanted, index)
}

/// Whether no earlier site has the number of the one at a place.
fn is_first(sites: &[&Captured], at: usize) -> bool
    requires { at < length sites.now }
    ensures { IsTrue result ↔ ((s : SiteEvents) × IsFirstAt (sites_at sites.now) at s) }
{
    for place in 0..at {
        if have_one_number(sites[place], sites[at]) {
            return false;
        }
    }
    true
}

/// Whether two sites have one number.
fn have_one_number(a: &Captured, b: &Captured) -> bool
    ensures { IsTrue result ↔ (a.now.me ≡ b.now.me) }
{
    is_same(a.me(), b.me())
}

/// Notes the events of a site.
fn note_events(
    alloc: Global,
    sites: &[&Captured],
    known: &BTreeMap<Epc, Sources>,
    kind: Kind,
    at: usize,
    site: &Captured,
    wanted: &ItemList,
    index: &mut BTreeMap<Pair, usize>,
) -> Result<(), AllocError>
    requires known { AreKnown (sites_at sites.now) known.now }
    requires at { at < length sites.now }
    requires stands { slice_get (sites_at sites.now) at ≡ Some site.now }
    ensures { OnOk result (AddsTo (Holds kind index.old) (Holds kind index.new)
        (λ m. (place : ℕ) × EventDoes kind (sites_at sites.now) site.now wanted.now place m)) }
{
    for place in 0..site.len() {
        note_event(alloc, sites, known, kind, at, site, wanted, place, index)?;
    }
    Ok(())
}

/// Notes the event at a place.
fn note_event(
    alloc: Global,
    sites: &[&Captured],
    known: &BTreeMap<Epc, Sources>,
    kind: Kind,
    at: usize,
    site: &Captured,
    wanted: &ItemList,
    place: usize,
    index: &mut BTreeMap<Pair, usize>,
) -> Result<(), AllocError>
    requires known { AreKnown (sites_at sites.now) known.now }
    requires at { at < length sites.now }
    requires stands { slice_get (sites_at sites.now) at ≡ Some site.now }
    ensures { OnOk result (AddsTo (Holds kind index.old) (Holds kind index.new)
        (EventDoes kind (sites_at sites.now) site.now wanted.now place)) }
{
    match kind {
        Kind::FirstPacking => note_packing(alloc, sites, site, wanted, place, index),
        Kind::LastShipment => note_shipment(alloc, sites, known, at, site, wanted, place, index),
    }
}

/// Notes the event at a place, if it puts something into a wanted container.
fn note_packing(
    alloc: Global,
    sites: &[&Captured],
    site: &Captured,
    wanted: &ItemList,
    place: usize,
    index: &mut BTreeMap<Pair, usize>,
) -> Result<(), AllocError>
    ensures { OnOk result (AddsTo (Holds FirstPacking index.old) (Holds FirstPacking index.new)
        (EventDoes FirstPacking (sites_at sites.now) site.now wanted.now place)) }
{
    match site.event(place) {
        Some(event) => note_body(alloc, site.me(), event.body(), wanted, place, index),
        None => Ok(()),
    }
}

/// Notes an event, if it puts something into a wanted container.
fn note_body(
    alloc: Global,
    me: SiteNo,
    body: &Body,
    wanted: &ItemList,
    place: usize,
    index: &mut BTreeMap<Pair, usize>,
) -> Result<(), AllocError>
    ensures { OnOk result (AddsTo (Holds FirstPacking index.old) (Holds FirstPacking index.new)
        (BodyDoes me wanted.now place body.now)) }
{
    match packed_in(body) {
        Some(container) => note_wanted(
            alloc,
            Kind::FirstPacking,
            me,
            wanted,
            place,
            container,
            index,
        ),
        None => Ok(()),
    }
}

/// The container into which an event puts something.
fn packed_in(body: &Body) -> Option<&Epc>
    ensures { (p : List ℕ) → (option_map (λ i. i.now) result ≡ Some p)
        ↔ ((child : List ℕ) × Packs p child body.now) }
{
    if children_in(body).len() == 0 {
        return None;
    }
    filled(body)
}

/// The items that an aggregation names with its parent.
fn children_in(body: &Body) -> &[Epc]
    ensures { result.now ≡ children_in body.now }
{
    match body {
        Body::Pack { children, .. } => children.as_slice(),
        Body::Note { .. } | Body::Ship { .. } | Body::Make { .. } => &[],
    }
}

/// Notes the event at a place, if it ships wanted containers elsewhere.
fn note_shipment(
    alloc: Global,
    sites: &[&Captured],
    known: &BTreeMap<Epc, Sources>,
    at: usize,
    site: &Captured,
    wanted: &ItemList,
    place: usize,
    index: &mut BTreeMap<Pair, usize>,
) -> Result<(), AllocError>
    requires known { AreKnown (sites_at sites.now) known.now }
    requires at { at < length sites.now }
    requires stands { slice_get (sites_at sites.now) at ≡ Some site.now }
    ensures { OnOk result (AddsTo (Holds LastShipment index.old) (Holds LastShipment index.new)
        (EventDoes LastShipment (sites_at sites.now) site.now wanted.now place)) }
{
    if !ships_elsewhere(site, place) {
        return Ok(());
    }
    let places = Places::one(alloc, place)?;
    let sent = sent_by(alloc, sites, known, at, places.as_slice())?;
    note_sent(alloc, site.me(), wanted, place, &sent, index)
}

/// Notes the event at a place, which ships some items.
fn note_sent(
    alloc: Global,
    me: SiteNo,
    wanted: &ItemList,
    place: usize,
    sent: &ItemList,
    index: &mut BTreeMap<Pair, usize>,
) -> Result<(), AllocError>
    ensures { OnOk result (AddsTo (Holds LastShipment index.old) (Holds LastShipment index.new)
        (ByOne sent.now (IsWantedOf LastShipment me wanted.now place))) }
{
    for turn in 0..sent.len() {
        note_sent_at(alloc, me, wanted, place, sent, turn, index)?;
    }
    Ok(())
}

/// Notes it for the item at a place of their list.
fn note_sent_at(
    alloc: Global,
    me: SiteNo,
    wanted: &ItemList,
    place: usize,
    sent: &ItemList,
    turn: usize,
    index: &mut BTreeMap<Pair, usize>,
) -> Result<(), AllocError>
    ensures { OnOk result (AddsTo (Holds LastShipment index.old) (Holds LastShipment index.new)
        (ByOneAt sent.now (IsWantedOf LastShipment me wanted.now place) turn)) }
{
    match sent.get(turn) {
        Some(item) => note_wanted(alloc, Kind::LastShipment, me, wanted, place, item, index),
        None => Ok(()),
    }
}

/// Notes the place of an event for an item at a site, if that is wanted.
fn note_wanted(
    alloc: Global,
    kind: Kind,
    me: SiteNo,
    wanted: &ItemList,
    place: usize,
    item: &Epc,
    index: &mut BTreeMap<Pair, usize>,
) -> Result<(), AllocError>
    ensures { OnOk result (AddsTo (Holds kind index.old) (Holds kind index.new)
        (IsWantedOf kind me wanted.now place item.now)) }
{
    if !wanted.has(item) {
        return Ok(());
    }
    let pair = pair_at(alloc, me, item)?;
    note_place(kind, pair, place, index)
}

/// Notes the place of an event for a pair, unless a better one is kept.
fn note_place(
    kind: Kind,
    pair: Pair,
    place: usize,
    index: &mut BTreeMap<Pair, usize>,
) -> Result<(), AllocError>
    ensures { OnOk result (AddsTo (Holds kind index.old) (Holds kind index.new)
        (λ m. (pair ≡ m.0) × IsKept kind place m.1)) }
{
    if holds(index, kind, &pair, place) {
        return Ok(());
    }
    index.insert(pair, place)?;
    Ok(())
}

/// Whether a place is kept of a pair that is no worse.
fn holds(index: &BTreeMap<Pair, usize>, kind: Kind, pair: &Pair, place: usize) -> bool
    ensures { IsTrue result ↔ Holds kind index.now (pair.now, place) }
{
    match place_of(index, pair) {
        Some(kept) => is_kept(kind, kept, place),
        None => false,
    }
}

/// Whether one place is no worse than another one.
fn is_kept(kind: Kind, kept: usize, place: usize) -> bool
    ensures { IsTrue result ↔ IsKept kind kept place }
{
    match kind {
        Kind::FirstPacking => kept <= place,
        Kind::LastShipment => place <= kept,
    }
}

/// An item at a site.
pub fn pair_at(alloc: Global, site: SiteNo, item: &Epc) -> Result<Pair, AllocError>
    ensures { IfOk result (λ pair. pair ≡ record { site = site; item = item.now }) }
{
    Ok(Pair {
        site,
        item: item.copy(alloc)?,
    })
}

/// The place that is kept of a pair.
pub fn place_of(index: &BTreeMap<Pair, usize>, pair: &Pair) -> Option<usize>
    ensures { result ≡ get pair_cmp index.now pair.now }
{
    index.get(pair).copied()
}
