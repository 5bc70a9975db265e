//! What is missed of the shipments of sites.
ghost use Rattle.std.specs.Prelude.{◌≡◌, ◌↔◌, ◌<◌, ◌++◌, ◌∷◌, [], IfOk, OnOk, Contains, length};
ghost use Rattle.trace_core.specs.declared.pairs.Pair.{Pair};
ghost use Rattle.trace_core.specs.Chains.{sites_at};
ghost use Rattle.trace_core.specs.Pairs.{IsStrictlyAscending};
ghost use Rattle.gap_core.specs.Adding.{AddsToList};
ghost use Rattle.gap_core.specs.Missed.{IsMissedAt, IsMissedBy, IsMissedIn, IsMissedOfAt, IsMissedPair};
ghost use Rattle.gap_core.specs.Sources.{AreKnown, AreOwn};

use crate::batches::batches_of;
use crate::item_lists::ItemList;
use crate::places::Places;
use crate::searches::{known_packings, own_packings};
use crate::site_gaps::sent_by;
use crate::sources::Sources;
use epc_core::Epc;
use event_json::SiteNo;
use std::alloc::{AllocError, Global};
use std::collections::BTreeMap;
use trace_core::{Captured, Pair, in_order};

/// All items that sites sent to other places, by what is known at them, while their own packings don't say so: each as
/// a pair with the site that sent it, ascending and without repeats. A recall that reaches such a pair misses where it
/// went.
///
/// # Errors
/// Out of memory.
pub fn missed_pairs(alloc: Global, sites: &[&Captured]) -> Result<Vec<Pair>, AllocError>
    ensures ascending { IfOk result (λ pairs. IsStrictlyAscending pairs.items) }
    ensures exact { IfOk result (λ pairs. (p : Pair) → Contains pairs.items p
        ↔ IsMissedPair (sites_at sites.now) p) }
{
    let own = own_packings(alloc, sites)?;
    let known = known_packings(alloc, sites)?;
    let mut missed = Vec::new(alloc);
    for at in 0..sites.len() {
        note_site(alloc, sites, &own, &known, at, &mut missed)?;
    }
    in_order(missed)
}

/// Notes what is missed of the shipments of the site of a place, by what each site packed and by what is known at each.
fn note_site(
    alloc: Global,
    sites: &[&Captured],
    own: &BTreeMap<Epc, Sources>,
    known: &BTreeMap<Epc, Sources>,
    at: usize,
    missed: &mut Vec<Pair>,
) -> Result<(), AllocError>
    requires own { AreOwn (sites_at sites.now) own.now }
    requires known { AreKnown (sites_at sites.now) known.now }
    requires at { at < length sites.now }
    ensures { OnOk result (AddsToList missed.old.items missed.new.items
        (IsMissedAt (sites_at sites.now) at)) }
{
    let batches = batches_of(alloc, sites[at])?;
    for places in batches.as_slice() {
        note_batch(alloc, sites, own, known, at, places, missed)?;
    }
    Ok(())
}

/// Notes what is missed of the shipments at some places.
fn note_batch(
    alloc: Global,
    sites: &[&Captured],
    own: &BTreeMap<Epc, Sources>,
    known: &BTreeMap<Epc, Sources>,
    at: usize,
    places: &Places,
    missed: &mut Vec<Pair>,
) -> Result<(), AllocError>
    requires { at < length sites.now }
    ensures { OnOk result (AddsToList missed.old.items missed.new.items
        (IsMissedBy (sites_at sites.now) own.now known.now at places.now)) }
{
    let told = sent_by(alloc, sites, own, at, places.as_slice())?;
    let sent = sent_by(alloc, sites, known, at, places.as_slice())?;
    note_all(alloc, sites, at, &sent, &told, missed)
}

/// Notes those of some items that aren't told.
pub fn note_all(
    alloc: Global,
    sites: &[&Captured],
    at: usize,
    sent: &ItemList,
    told: &ItemList,
    missed: &mut Vec<Pair>,
) -> Result<(), AllocError>
    requires { at < length sites.now }
    ensures { OnOk result (AddsToList missed.old.items missed.new.items (λ p. Contains sent.now p.item
        × IsMissedIn (sites_at sites.now) at told.now p.item p)) }
{
    for place in 0..sent.len() {
        note_at(alloc, sites, at, sent, place, told, missed)?;
    }
    Ok(())
}

/// Notes the item at a place of a list, if it isn't told.
fn note_at(
    alloc: Global,
    sites: &[&Captured],
    at: usize,
    sent: &ItemList,
    place: usize,
    told: &ItemList,
    missed: &mut Vec<Pair>,
) -> Result<(), AllocError>
    requires { at < length sites.now }
    ensures { OnOk result (AddsToList missed.old.items missed.new.items
        (IsMissedOfAt (sites_at sites.now) at sent.now told.now place)) }
{
    match sent.get(place) {
        Some(item) => note_item(alloc, sites, at, told, item, missed),
        None => Ok(()),
    }
}

/// Notes an item, if it isn't told.
fn note_item(
    alloc: Global,
    sites: &[&Captured],
    at: usize,
    told: &ItemList,
    item: &Epc,
    missed: &mut Vec<Pair>,
) -> Result<(), AllocError>
    requires { at < length sites.now }
    ensures { OnOk result (AddsToList missed.old.items missed.new.items
        (IsMissedIn (sites_at sites.now) at told.now item.now)) }
{
    if told.has(item) {
        return Ok(());
    }
    push_pair(alloc, sites[at].me(), item, missed)
}

/// Adds an item at a site.
fn push_pair(
    alloc: Global,
    site: SiteNo,
    item: &Epc,
    missed: &mut Vec<Pair>,
) -> Result<(), AllocError>
    ensures { OnOk result (missed.new.items ≡ missed.old.items ++ record {
      site = site;
      item = item.now;
    } ∷ []) }
{
    missed.push(Pair {
        site,
        item: item.copy(alloc)?,
    })?;
    Ok(())
}
