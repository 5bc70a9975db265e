//! Lots that a recall holds at one site and that another one names, where no recall holds them.

ghost use Rattle.std.specs.Prelude.{◌≡◌, ◌↔◌, IfOk, IsTrue, OnOk, Contains};
ghost use Rattle.gap_core.specs.Adding.{AddsToList, ByOne};
ghost use Rattle.item_spellings.specs.LotParts.{IsLot};
ghost use Rattle.site_core.specs.ItemSets as set;
ghost use Rattle.site_recovery.specs.Checking.{records_at};
ghost use Rattle.trace_core.specs.Pairs.{IsStrictlyAscending};
ghost use Rattle.trace_core.specs.declared.pairs.Pair.{Pair};
ghost use Rattle.folder_questions.specs.Lots.{HoldsLot, IsFree, IsFreeAt, IsLotGap, Names};

use epc_core::Epc;
use item_spellings::is_lot;
use site_core::{ItemSet, Quarantine, SiteState};
use std::alloc::{AllocError, Global};
use trace_core::{Pair, in_order};

/// The lots that some recall holds at one of the sites, each at every site of which an event names it and where no
/// recall holds it: by site and item, each once.
pub(crate) fn lot_gaps(alloc: Global, records: &[&SiteState]) -> Result<Vec<Pair>, AllocError>
    ensures ascending { IfOk result (λ lots. IsStrictlyAscending lots.items) }
    ensures exact { IfOk result (λ lots. (p : Pair) → Contains lots.items p
        ↔ IsLotGap (records_at records.now) p) }
{
    let mut lots = Vec::new(alloc);
    for state in records {
        note_held(alloc, state.quarantine(), &mut lots)?;
    }
    // A lot that is held under many recalls is looked for once.
    let lots = in_order(lots)?;
    let mut found = Vec::new(alloc);
    for lot in lots.as_slice() {
        note_lot(alloc, records, lot, &mut found)?;
    }
    in_order(found)
}

/// Notes the lots that are held under some recall.
fn note_held(alloc: Global, quarantine: &Quarantine, lots: &mut Vec<Epc>) -> Result<(), AllocError>
    ensures { OnOk result (AddsToList lots.old.items lots.new.items (HoldsLot quarantine.now)) }
{
    for (_, items) in quarantine.by_recall() {
        note_all(alloc, items, lots)?;
    }
    Ok(())
}

/// Notes those of some items that are lots.
fn note_all(alloc: Global, items: &ItemSet, lots: &mut Vec<Epc>) -> Result<(), AllocError>
    ensures { OnOk result (AddsToList lots.old.items lots.new.items
        (λ i. Contains (set.items items.now) i × IsLot i)) }
{
    for item in items.items() {
        note_item(alloc, item, lots)?;
    }
    Ok(())
}

/// Notes an item, if it is a lot.
fn note_item(alloc: Global, item: &Epc, lots: &mut Vec<Epc>) -> Result<(), AllocError>
    ensures { OnOk result (AddsToList lots.old.items lots.new.items
        (λ i. (item.now ≡ i) × IsLot i)) }
{
    if is_lot(item) {
        lots.push(item.copy(alloc)?)?;
    }
    Ok(())
}

/// Notes a lot at each site that names it and where no recall holds it.
fn note_lot(
    alloc: Global,
    records: &[&SiteState],
    lot: &Epc,
    found: &mut Vec<Pair>,
) -> Result<(), AllocError>
    ensures { OnOk result (AddsToList found.old.items found.new.items
        (ByOne (records_at records.now) (IsFreeAt lot.now))) }
{
    for state in records {
        note_at(alloc, state, lot, found)?;
    }
    Ok(())
}

/// Notes a lot at a site, if that names it and no recall holds it there.
fn note_at(
    alloc: Global,
    state: &SiteState,
    lot: &Epc,
    found: &mut Vec<Pair>,
) -> Result<(), AllocError>
    ensures { OnOk result (AddsToList found.old.items found.new.items (IsFreeAt lot.now state.now)) }
{
    if is_gap(state, lot) {
        found.push(Pair {
            site: state.me(),
            item: lot.copy(alloc)?,
        })?;
    }
    Ok(())
}

/// Whether a site names an item and no recall holds it there.
fn is_gap(state: &SiteState, item: &Epc) -> bool
    ensures { IsTrue result ↔ (Names state.now item.now × IsFree state.now item.now) }
{
    state.captured().mentions(item) && is_free(state, item)
}

/// Whether no recall holds an item at a site.
fn is_free(state: &SiteState, item: &Epc) -> bool
    ensures { IsTrue result ↔ IsFree state.now item.now }
{
    state.quarantine().least_holder(item).is_none()
}
