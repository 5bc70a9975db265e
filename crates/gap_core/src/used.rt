//! Containers that were taken into transformations, while what lies in them wasn't.
ghost use Rattle.std.specs.Prelude.{◌↔◌, ◌<◌, IfOk, OnOk, Contains, length};
ghost use Rattle.std.specs.List.Sorted.{IsStrictlySortedBy};
ghost use Rattle.trace_core.specs.Chains.{sites_at};
ghost use Rattle.gap_core.specs.Adding.{AddsToList, ByOne, ByOneAt};
ghost use Rattle.gap_core.specs.GapItems.{gap_item_cmp};
ghost use Rattle.gap_core.specs.Sources.{AreKnown};
ghost use Rattle.gap_core.specs.Used.{IsLeft, IsLeftOf, IsUsedAt, IsUsedChild, IsUsedFirst, IsUsedWith};
ghost use Rattle.gap_core.specs.declared.gap_items.GapItem.{GapItem};

use crate::gap_items::GapItem;
use crate::inputs::inputs_with;
use crate::item_lists::ItemList;
use crate::searches::known_packings;
use crate::site_gaps::push_gap;
use crate::sources::Sources;
use crate::walks::walk;
use epc_core::Epc;
use event_json::SiteNo;
use std::alloc::{AllocError, Global};
use std::collections::BTreeMap;
use trace_core::{Captured, in_order};

/// All items that lie in a container which a site took into a transformation, and that it didn't take in with it: by
/// site, then by container, then by item. `by` is the site itself.
///
/// # Errors
/// Out of memory.
pub fn used_items(alloc: Global, sites: &[&Captured]) -> Result<Vec<GapItem>, AllocError>
    ensures ascending { IfOk result (λ items. IsStrictlySortedBy gap_item_cmp items.items) }
    ensures exact { IfOk result (λ items. (g : GapItem) → Contains items.items g
        ↔ IsUsedChild (sites_at sites.now) g) }
{
    let known = known_packings(alloc, sites)?;
    let mut used = Vec::new(alloc);
    for at in 0..sites.len() {
        note_site(alloc, sites, &known, at, &mut used)?;
    }
    in_order(used)
}

/// Notes those of the site of a place.
fn note_site(
    alloc: Global,
    sites: &[&Captured],
    known: &BTreeMap<Epc, Sources>,
    at: usize,
    used: &mut Vec<GapItem>,
) -> Result<(), AllocError>
    requires known { AreKnown (sites_at sites.now) known.now }
    requires at { at < length sites.now }
    ensures { OnOk result (AddsToList used.old.items used.new.items
        (IsUsedAt (sites_at sites.now) at)) }
{
    for place in 0..sites[at].len() {
        note_event(alloc, sites, known, at, place, used)?;
    }
    Ok(())
}

/// Notes those of the transformation whose first part is the event at a place, if it is one's.
fn note_event(
    alloc: Global,
    sites: &[&Captured],
    known: &BTreeMap<Epc, Sources>,
    at: usize,
    place: usize,
    used: &mut Vec<GapItem>,
) -> Result<(), AllocError>
    requires known { AreKnown (sites_at sites.now) known.now }
    requires at { at < length sites.now }
    ensures { OnOk result (AddsToList used.old.items used.new.items
        (IsUsedFirst (sites_at sites.now) at place)) }
{
    match sites[at].first_part(place) {
        Some(first) => {
            if first == place {
                note_group(alloc, sites, known, at, place, used)
            } else {
                Ok(())
            }
        }
        None => Ok(()),
    }
}

/// Notes those of the transformation of the event at a place.
fn note_group(
    alloc: Global,
    sites: &[&Captured],
    known: &BTreeMap<Epc, Sources>,
    at: usize,
    place: usize,
    used: &mut Vec<GapItem>,
) -> Result<(), AllocError>
    requires known { AreKnown (sites_at sites.now) known.now }
    requires at { at < length sites.now }
    ensures { OnOk result (AddsToList used.old.items used.new.items
        (IsUsedWith (sites_at sites.now) at place)) }
{
    let inputs = inputs_with(alloc, sites[at], place)?;
    note_containers(alloc, sites, known, at, &inputs, used)
}

/// Notes what lies in some inputs of a transformation and isn't among them.
fn note_containers(
    alloc: Global,
    sites: &[&Captured],
    known: &BTreeMap<Epc, Sources>,
    at: usize,
    inputs: &ItemList,
    used: &mut Vec<GapItem>,
) -> Result<(), AllocError>
    requires known { AreKnown (sites_at sites.now) known.now }
    requires at { at < length sites.now }
    ensures { OnOk result (AddsToList used.old.items used.new.items
        (ByOne inputs.now (IsLeft (sites_at sites.now) at inputs.now))) }
{
    for place in 0..inputs.len() {
        note_container_at(alloc, sites, known, at, inputs, place, used)?;
    }
    Ok(())
}

/// Notes what lies in the input at a place and isn't among them.
fn note_container_at(
    alloc: Global,
    sites: &[&Captured],
    known: &BTreeMap<Epc, Sources>,
    at: usize,
    inputs: &ItemList,
    place: usize,
    used: &mut Vec<GapItem>,
) -> Result<(), AllocError>
    requires known { AreKnown (sites_at sites.now) known.now }
    requires at { at < length sites.now }
    ensures { OnOk result (AddsToList used.old.items used.new.items
        (ByOneAt inputs.now (IsLeft (sites_at sites.now) at inputs.now) place)) }
{
    match inputs.get(place) {
        Some(container) => note_left(alloc, sites, known, at, container, inputs, used),
        None => Ok(()),
    }
}

/// Notes what lies in a container and isn't among the inputs.
fn note_left(
    alloc: Global,
    sites: &[&Captured],
    known: &BTreeMap<Epc, Sources>,
    at: usize,
    container: &Epc,
    inputs: &ItemList,
    used: &mut Vec<GapItem>,
) -> Result<(), AllocError>
    requires known { AreKnown (sites_at sites.now) known.now }
    requires at { at < length sites.now }
    ensures { OnOk result (AddsToList used.old.items used.new.items
        (IsLeft (sites_at sites.now) at inputs.now container.now)) }
{
    let mut starts = ItemList::new(alloc, sites[at].hash_keys());
    starts.note(alloc, container)?;
    let inside = walk(alloc, sites, known, at, starts)?;
    note_untaken(alloc, sites[at].me(), container, inputs, &inside, used)
}

/// Notes those of some items that aren't among the inputs.
fn note_untaken(
    alloc: Global,
    site: SiteNo,
    container: &Epc,
    inputs: &ItemList,
    inside: &ItemList,
    used: &mut Vec<GapItem>,
) -> Result<(), AllocError>
    ensures { OnOk result (AddsToList used.old.items used.new.items
        (ByOne inside.now (IsLeftOf site container.now inputs.now))) }
{
    for place in 0..inside.len() {
        note_item_at(alloc, site, container, inputs, inside, place, used)?;
    }
    Ok(())
}

/// Notes the item at a place of a list, if it isn't among the inputs.
fn note_item_at(
    alloc: Global,
    site: SiteNo,
    container: &Epc,
    inputs: &ItemList,
    inside: &ItemList,
    place: usize,
    used: &mut Vec<GapItem>,
) -> Result<(), AllocError>
    ensures { OnOk result (AddsToList used.old.items used.new.items
        (ByOneAt inside.now (IsLeftOf site container.now inputs.now) place)) }
{
    match inside.get(place) {
        Some(item) => note_item(alloc, site, container, inputs, item, used),
        None => Ok(()),
    }
}

/// Notes an item, if it isn't among the inputs.
fn note_item(
    alloc: Global,
    site: SiteNo,
    container: &Epc,
    inputs: &ItemList,
    item: &Epc,
    used: &mut Vec<GapItem>,
) -> Result<(), AllocError>
    ensures { OnOk result (AddsToList used.old.items used.new.items
        (IsLeftOf site container.now inputs.now item.now)) }
{
    if inputs.has(item) {
        return Ok(());
    }
    push_gap(alloc, site, container, site, item, used)
}
