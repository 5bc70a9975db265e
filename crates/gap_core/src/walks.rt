//! Walks from items down to what lies in them.
ghost use Rattle.std.specs.Prelude.{◌≡◌, ◌↔◌, IfOk, OnOk, List, ℕ, Contains, slice_get};
ghost use Rattle.trace_core.specs.Chains.{sites_at};
ghost use Rattle.trace_core.specs.Numbers.{numbered};
ghost use Rattle.trace_core.specs.Pairs.{Carries};
ghost use Rattle.trace_core.specs.Relations.{ReachedFrom};
ghost use Rattle.gap_core.specs.Adding.{NotesThose};
ghost use Rattle.gap_core.specs.Sources.{LiesIn, IsPackedAt, IsPackedBySource};

use crate::item_lists::ItemList;
use crate::sources::{Source, Sources, sources_of};
use epc_core::Epc;
use std::alloc::{AllocError, Global};
use std::collections::BTreeMap;
use trace_core::Captured;

/// The given items, and all that lies in them at the site of a place, by the packings whose sources are given. Comes to
/// each item once.
pub fn walk(
    alloc: Global,
    sites: &[&Captured],
    index: &BTreeMap<Epc, Sources>,
    at: usize,
    starts: ItemList,
) -> Result<ItemList, AllocError>
    ensures { IfOk result (λ found. (i : List ℕ) → Contains found i
        ↔ ReachedFrom (LiesIn (sites_at sites.now) index.now at) starts i) }
{
    let mut found = starts;
    let mut place = 0;
    while place < found.len() {
        note_contents(alloc, sites, index, at, place, &mut found)?;
        place += 1;
    }
    Ok(found)
}

/// Notes what lies in the item at a place of a list.
fn note_contents(
    alloc: Global,
    sites: &[&Captured],
    index: &BTreeMap<Epc, Sources>,
    at: usize,
    place: usize,
    found: &mut ItemList,
) -> Result<(), AllocError>
    ensures { OnOk result ((i : List ℕ) → slice_get found.old place ≡ Some i
        → NotesThose (LiesIn (sites_at sites.now) index.now at i) found.old found.new) }
{
    match found.get(place) {
        Some(item) => {
            let item = item.copy(alloc)?;
            note_inside(alloc, sites, index, at, &item, found)
        }
        None => Ok(()),
    }
}

/// Notes what lies in an item.
pub fn note_inside(
    alloc: Global,
    sites: &[&Captured],
    index: &BTreeMap<Epc, Sources>,
    at: usize,
    item: &Epc,
    found: &mut ItemList,
) -> Result<(), AllocError>
    ensures { OnOk result (NotesThose (LiesIn (sites_at sites.now) index.now at item.now) found.old
        found.new) }
{
    for source in sources_of(index, item) {
        note_from(alloc, sites, at, *source, item, found)?;
    }
    Ok(())
}

/// Notes what a source that is known at the site of a place packed into an item.
fn note_from(
    alloc: Global,
    sites: &[&Captured],
    at: usize,
    source: Source,
    item: &Epc,
    found: &mut ItemList,
) -> Result<(), AllocError>
    ensures { OnOk result (NotesThose (IsPackedBySource (sites_at sites.now) at item.now source)
        found.old found.new) }
{
    if source.at == at {
        note_packed(alloc, sites, source.from, item, found)
    } else {
        Ok(())
    }
}

/// Notes what the site of a place packed into an item.
fn note_packed(
    alloc: Global,
    sites: &[&Captured],
    from: usize,
    item: &Epc,
    found: &mut ItemList,
) -> Result<(), AllocError>
    ensures { OnOk result (NotesThose (IsPackedAt (sites_at sites.now) from item.now) found.old
        found.new) }
{
    if from < sites.len() {
        note_children(alloc, sites[from], item, found)
    } else {
        Ok(())
    }
}

/// Notes what a site packed into an item.
pub fn note_children(
    alloc: Global,
    site: &Captured,
    item: &Epc,
    found: &mut ItemList,
) -> Result<(), AllocError>
    ensures { OnOk result (NotesThose (Carries site.now.events item.now) found.old found.new) }
{
    for number in site.children_of(item) {
        note_number(alloc, site, *number, found)?;
    }
    Ok(())
}

/// Notes the item that has a number at a site, if there is one.
fn note_number(
    alloc: Global,
    site: &Captured,
    number: usize,
    found: &mut ItemList,
) -> Result<(), AllocError>
    ensures { OnOk result (NotesThose (λ c. slice_get (numbered site.now.events) number ≡ Some c)
        found.old found.new) }
{
    match site.item(number) {
        Some(item) => found.note(alloc, item),
        None => Ok(()),
    }
}
