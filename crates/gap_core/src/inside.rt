//! What lies in an item by the packings of all sites.
ghost use Rattle.std.specs.Prelude.{◌≡◌, ◌↔◌, ℕ, List, Some, IfOk, OnOk, Contains, slice_get};
ghost use Rattle.trace_core.specs.Chains.{sites_at};
ghost use Rattle.trace_core.specs.Relations.{ReachedFrom};
ghost use Rattle.gap_core.specs.Adding.{AddsToList, NotesThose};
ghost use Rattle.gap_core.specs.Inside.{AreInside, IsPackedBySome};

use crate::item_lists::ItemList;
use crate::walks::note_children;
use epc_core::Epc;
use std::alloc::{AllocError, Global};
use trace_core::{Captured, in_order};

/// The items that lie in an item at any depth, by the packings of all sites: by whichever site and whenever they were
/// put there, whether or not they were taken out again. By their keys, each once. The item itself is among them only
/// where it was put into something that lies in it.
///
/// # Errors
/// Out of memory.
pub fn items_inside(alloc: Global, sites: &[&Captured], item: &Epc) -> Result<Vec<Epc>, AllocError>
    ensures { IfOk result (λ items. AreInside (sites_at sites.now) item.now items.items) }
{
    if sites.is_empty() {
        return Ok(Vec::new(alloc));
    }
    let mut children = ItemList::new(alloc, sites[0].hash_keys());
    note_packed(alloc, sites, item, &mut children)?;
    let inside = walk(alloc, sites, children)?;
    in_order(listed(alloc, &inside)?)
}

/// The given items, and all that lies in them. Comes to each item once.
fn walk(alloc: Global, sites: &[&Captured], starts: ItemList) -> Result<ItemList, AllocError>
    ensures { IfOk result (λ found. (i : List ℕ) → Contains found i
        ↔ ReachedFrom (IsPackedBySome (sites_at sites.now)) starts i) }
{
    let mut found = starts;
    let mut place = 0;
    while place < found.len() {
        note_contents(alloc, sites, place, &mut found)?;
        place += 1;
    }
    Ok(found)
}

/// Notes what was put into the item at a place of a list.
fn note_contents(
    alloc: Global,
    sites: &[&Captured],
    place: usize,
    found: &mut ItemList,
) -> Result<(), AllocError>
    ensures { OnOk result ((i : List ℕ) → slice_get found.old place ≡ Some i
        → NotesThose (IsPackedBySome (sites_at sites.now) i) found.old found.new) }
{
    match found.get(place) {
        Some(item) => {
            let item = item.copy(alloc)?;
            note_packed(alloc, sites, &item, found)
        }
        None => Ok(()),
    }
}

/// Notes what sites put into an item.
fn note_packed(
    alloc: Global,
    sites: &[&Captured],
    item: &Epc,
    found: &mut ItemList,
) -> Result<(), AllocError>
    ensures { OnOk result (NotesThose (IsPackedBySome (sites_at sites.now) item.now) found.old
        found.new) }
{
    for site in sites {
        note_children(alloc, site, item, found)?;
    }
    Ok(())
}

/// The items of a list.
fn listed(alloc: Global, found: &ItemList) -> Result<Vec<Epc>, AllocError>
    ensures { IfOk result (λ items. (i : List ℕ) → Contains items.items i ↔ Contains found.now i) }
{
    let mut items = Vec::new(alloc);
    for place in 0..found.len() {
        push_at(alloc, found, place, &mut items)?;
    }
    Ok(items)
}

/// Adds the item at a place of a list.
fn push_at(
    alloc: Global,
    found: &ItemList,
    place: usize,
    items: &mut Vec<Epc>,
) -> Result<(), AllocError>
    ensures { OnOk result (AddsToList items.old.items items.new.items
        (λ i. slice_get found.now place ≡ Some i)) }
{
    match found.get(place) {
        Some(item) => {
            items.push(item.copy(alloc)?)?;
            Ok(())
        }
        None => Ok(()),
    }
}
