//! The rows of what is quarantined, read back.
ghost use Rattle.std.specs.Prelude.{◌≡◌, ◌≤◌, ◌↔◌, ◌++◌, ◌∷◌, [], T, IfOk, IfErr, IfSome, IsNone, IsSome, IsTrue, flat_map};
ghost use Rattle.std.specs.FinMap.{entries, get, is_sorted};
ghost use Rattle.event_json.specs.declared.limits.TheConstants.{MAX_SITES};
ghost use Rattle.frame_core.specs.Numbers.{Recall};
ghost use Rattle.site_core.specs.Quarantines.{HasNoEmptySet};
ghost use Rattle.site_core.specs.Records.{IsRecallAmong};
ghost use Rattle.site_rows.specs.Appending.{IsAppended, IsAdded};
ghost use Rattle.site_rows.specs.BadRows.{Tells, IsFaultOf, IsHeldRow, IsHeldEntry, IsQuarantineTable};
ghost use Rattle.site_rows.specs.Laws.{HoldsKeys};
ghost use Rattle.site_rows.specs.RecordRows.{quarantine_rows};
ghost use Rattle.site_rows.specs.HeldItems.{held_cmp, held_of, all_held, IsLast};

use crate::reading_entries::TableFault;
use crate::reading_numbers::{item_of, recall_of};
use crate::rows::QuarantineRow;
use epc_core::Epc;
use frame_core::RecallId;
use site_core::Quarantine;
use std::alloc::{AllocError, Global};
use std::cmp::Ordering;

/// The quarantine whose items the rows are, by recall and item.
///
/// # Errors
/// The first row that is no quarantined item's, or that doesn't come after the row before it; and out of memory.
pub(crate) fn quarantine_of(
    alloc: Global,
    sites: u64,
    rows: &[QuarantineRow],
) -> Result<Quarantine, TableFault>
    requires few { sites ≤ MAX_SITES }
    ensures rows { IfOk result (λ q. rows.now ≡ flat_map quarantine_rows (entries q)) }
    ensures among { IfOk result (λ q. (r : Recall) → IsSome (get q r) → IsRecallAmong sites r) }
    ensures no_empty_set { IfOk result HasNoEmptySet }
    ensures items { IfOk result HoldsKeys }
    ensures bad { IfErr result (λ fault. IsFaultOf (IsQuarantineTable sites) rows.now fault) }
{
    let mut quarantine = Quarantine::new(alloc);
    for (place, row) in rows.iter().enumerate() {
        if !add_held(alloc, sites, row, &mut quarantine)? {
            return Err(TableFault::BadRow(place as u64 + 1));
        }
    }
    // The recalls show the proof that none of them is without items.
    let _recalls = quarantine.by_recall().len();
    Ok(quarantine)
}

/// Adds the item of a row at the end, and returns whether it is one that comes there.
fn add_held(
    alloc: Global,
    sites: u64,
    row: &QuarantineRow,
    quarantine: &mut Quarantine,
) -> Result<bool, AllocError>
    requires few { sites ≤ MAX_SITES }
    ensures { IfOk result (λ added. IsAdded held_cmp (IsHeldEntry sites row.now)
        (all_held quarantine.old) (all_held quarantine.new) added) }
{
    let Some(held) = held_row(alloc, sites, row)? else {
        return Ok(false);
    };
    let (recall, item) = held;
    let added = hold_last(quarantine, recall, item)?;
    Ok(added)
}

/// The recall and the item of a row.
fn held_row(
    alloc: Global,
    sites: u64,
    row: &QuarantineRow,
) -> Result<Option<(RecallId, Epc)>, AllocError>
    requires few { sites ≤ MAX_SITES }
    ensures { IfOk result (λ held. Tells held (λ p. IsHeldRow sites row.now p.0 p.1)) }
{
    let Some(recall) = recall_of(sites, row.recall_site, row.recall_no) else {
        return Ok(None);
    };
    match item_of(alloc, &row.item)? {
        Some(item) => Ok(Some((recall, item))),
        None => Ok(None),
    }
}

/// Quarantines an item that comes after all others, and returns whether it does.
fn hold_last(quarantine: &mut Quarantine, recall: RecallId, item: Epc) -> Result<bool, AllocError>
    ensures { IfOk result (λ added. IsAppended held_cmp (all_held quarantine.old)
        (held_of recall item) (all_held quarantine.new) added) }
{
    // The recalls show the proof that none of them is without items.
    let _recalls = quarantine.by_recall().len();
    if !comes_last(quarantine, recall, &item) {
        return Ok(false);
    }
    quarantine.hold(recall, item)?;
    Ok(true)
}

/// Whether an item comes after all that are quarantined.
fn comes_last(quarantine: &Quarantine, recall: RecallId, item: &Epc) -> bool
    ensures { IsTrue result ↔ T (is_sorted held_cmp
        (all_held quarantine.now ++ held_of recall item.now ∷ [])) }
{
    match last_held(quarantine) {
        Some(last) => last.0.cmp(&recall).then(last.1.cmp(item)) == Ordering::Less,
        None => true,
    }
}

/// The last item that is quarantined, with its recall.
fn last_held(quarantine: &Quarantine) -> Option<(RecallId, &Epc)>
    ensures some { IfSome result (λ p. IsLast (all_held quarantine.now) (held_of p.0 p.1.now)) }
    ensures none { IsNone result → all_held quarantine.now ≡ [] }
{
    let Some((recall, items)) = quarantine.by_recall().last_key_value() else {
        return None;
    };
    match items.items().last() {
        Some(item) => Some((*recall, item)),
        None => None,
    }
}
