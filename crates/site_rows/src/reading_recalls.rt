//! The rows of a site's part in recalls, read back.
ghost use Rattle.std.specs.Prelude.{◌≡◌, ◌≤◌, ℕ, Some, map, IfOk, IfErr};
ghost use Rattle.std.specs.FinMap.{entries, get};
ghost use Rattle.std.specs.Ordering.{nat_cmp};
ghost use Rattle.event_json.specs.declared.limits.TheConstants.{MAX_SITES};
ghost use Rattle.frame_core.specs.Identifiers.{recall_cmp, message_cmp};
ghost use Rattle.frame_core.specs.Numbers.{Recall, Message};
ghost use Rattle.frame_core.specs.Tables.{as_map};
ghost use Rattle.frame_core.specs.declared.rows.Row.{Row};
ghost use Rattle.scholten_core.specs.declared.own_recalls.Own.{Own};
ghost use Rattle.site_core.specs.Records.{IsNumber, IsRecallAmong, IsMessageAmong, IsRowAmong};
ghost use Rattle.site_rows.specs.BadRows.{Tells, IsFaultOf, IsOutboxTable, IsSeenTable, IsParentTable, IsRecallTable, IsOutboxEntry, IsSeenEntry, IsParentEntry, IsOwnEntry};
ghost use Rattle.site_rows.specs.RecordRows.{outbox_row, seen_row, parent_row, recall_row};
ghost use Rattle.site_rows.specs.Texts.{IsItemText};

use crate::reading_entries::{EntryRow, TableFault, append, entries_of};
use crate::reading_numbers::{item_of, message_of, number_of, recall_of, site_of};
use crate::rows::{OutboxRow, ParentRow, RecallRow, SeenRow};
use frame_core::{MsgId, RecallId, Row};
use scholten_core::Own;
use std::alloc::{AllocError, Global};
use std::collections::BTreeMap;

impl EntryRow<u64, Row> for OutboxRow {
    ghost use Rattle.site_rows.specs.BadRows.{IsOutboxEntry};

    ghost is = { IsOutboxEntry };

    fn add(
        &self,
        alloc: Global,
        sites: u64,
        entries: &mut BTreeMap<u64, Row>,
    ) -> Result<bool, AllocError> {
        let Some((number, message)) = outbox_entry(alloc, sites, self)? else {
            return Ok(false);
        };
        let added = append(entries, number, message)?;
        Ok(added)
    }
}

/// The entry of a row.
fn outbox_entry(
    alloc: Global,
    sites: u64,
    row: &OutboxRow,
) -> Result<Option<(u64, Row)>, AllocError>
    requires few { sites ≤ MAX_SITES }
    ensures { IfOk result (λ e. Tells e (λ e. IsOutboxEntry sites row.now e.0 e.1)) }
{
    let Some(number) = number_of(row.number) else {
        return Ok(None);
    };
    let Some(dest) = site_of(sites, row.dest) else {
        return Ok(None);
    };
    let Some(recall) = recall_of(sites, row.recall_site, row.recall_no) else {
        return Ok(None);
    };
    match item_of(alloc, &row.item)? {
        Some(item) => Ok(Some((number, Row { dest, recall, item }))),
        None => Ok(None),
    }
}

impl EntryRow<MsgId, RecallId> for SeenRow {
    ghost use Rattle.site_rows.specs.BadRows.{IsSeenEntry};

    ghost is = { IsSeenEntry };

    fn add(
        &self,
        _alloc: Global,
        sites: u64,
        entries: &mut BTreeMap<MsgId, RecallId>,
    ) -> Result<bool, AllocError> {
        let Some((message, recall)) = seen_entry(sites, self) else {
            return Ok(false);
        };
        let added = append(entries, message, recall)?;
        Ok(added)
    }
}

/// The entry of a row.
fn seen_entry(sites: u64, row: &SeenRow) -> Option<(MsgId, RecallId)>
    requires few { sites ≤ MAX_SITES }
    ensures { Tells result (λ e. IsSeenEntry sites row.now e.0 e.1) }
{
    let message = message_of(sites, row.sender, row.number);
    let under = recall_of(sites, row.recall_site, row.recall_no);
    match (message, under) {
        (Some(message), Some(under)) => Some((message, under)),
        _ => None,
    }
}

impl EntryRow<RecallId, MsgId> for ParentRow {
    ghost use Rattle.site_rows.specs.BadRows.{IsParentEntry};

    ghost is = { IsParentEntry };

    fn add(
        &self,
        _alloc: Global,
        sites: u64,
        entries: &mut BTreeMap<RecallId, MsgId>,
    ) -> Result<bool, AllocError> {
        let Some((recall, message)) = parent_entry(sites, self) else {
            return Ok(false);
        };
        let added = append(entries, recall, message)?;
        Ok(added)
    }
}

/// The entry of a row.
fn parent_entry(sites: u64, row: &ParentRow) -> Option<(RecallId, MsgId)>
    requires few { sites ≤ MAX_SITES }
    ensures { Tells result (λ e. IsParentEntry sites row.now e.0 e.1) }
{
    let under = recall_of(sites, row.recall_site, row.recall_no);
    let message = message_of(sites, row.sender, row.number);
    match (under, message) {
        (Some(under), Some(message)) => Some((under, message)),
        _ => None,
    }
}

impl EntryRow<u64, Own> for RecallRow {
    ghost use Rattle.site_rows.specs.BadRows.{IsOwnEntry};

    ghost is = { λ _. IsOwnEntry };

    fn add(
        &self,
        alloc: Global,
        _sites: u64,
        entries: &mut BTreeMap<u64, Own>,
    ) -> Result<bool, AllocError> {
        let Some((number, own)) = own_entry(alloc, self)? else {
            return Ok(false);
        };
        let added = append(entries, number, own)?;
        Ok(added)
    }
}

/// The entry of a row.
fn own_entry(alloc: Global, row: &RecallRow) -> Result<Option<(u64, Own)>, AllocError>
    ensures { IfOk result (λ e. Tells e (λ e. IsOwnEntry row.now e.0 e.1)) }
{
    let Some(number) = number_of(row.number) else {
        return Ok(None);
    };
    if row.ended != 0 && row.ended != 1 {
        return Ok(None);
    }
    let ended = row.ended == 1;
    match item_of(alloc, &row.root)? {
        Some(root) => Ok(Some((number, Own { root, ended }))),
        None => Ok(None),
    }
}

/// The messages that aren't signalled, by number.
///
/// # Errors
/// The first row that is no such entry's, or whose key doesn't come after the key before it; and out of memory.
pub(crate) fn outbox_of(
    alloc: Global,
    sites: u64,
    rows: &[OutboxRow],
) -> Result<BTreeMap<u64, Row>, TableFault>
    requires few { sites ≤ MAX_SITES }
    ensures rows { IfOk result (λ m. rows.now ≡ map outbox_row (entries (as_map nat_cmp m))) }
    ensures among { IfOk result (λ m. (n : ℕ) (row : Row) → get (as_map nat_cmp m) n ≡ Some row
        → IsRowAmong sites n row × IsItemText row.item) }
    ensures bad { IfErr result (λ fault. IsFaultOf (IsOutboxTable sites) rows.now fault) }
{
    entries_of(alloc, sites, rows)
}

/// The messages that were handled, each with its recall.
///
/// # Errors
/// The first row that is no such entry's, or whose key doesn't come after the key before it; and out of memory.
pub(crate) fn seen_of(
    alloc: Global,
    sites: u64,
    rows: &[SeenRow],
) -> Result<BTreeMap<MsgId, RecallId>, TableFault>
    requires few { sites ≤ MAX_SITES }
    ensures rows { IfOk result (λ m. rows.now ≡ map seen_row (entries (as_map message_cmp m))) }
    ensures among { IfOk result (λ t. (m : Message) (r : Recall)
        → get (as_map message_cmp t) m ≡ Some r → IsMessageAmong sites m × IsRecallAmong sites r) }
    ensures bad { IfErr result (λ fault. IsFaultOf (IsSeenTable sites) rows.now fault) }
{
    entries_of(alloc, sites, rows)
}

/// The parents, by recall.
///
/// # Errors
/// The first row that is no such entry's, or whose key doesn't come after the key before it; and out of memory.
pub(crate) fn parents_of(
    alloc: Global,
    sites: u64,
    rows: &[ParentRow],
) -> Result<BTreeMap<RecallId, MsgId>, TableFault>
    requires few { sites ≤ MAX_SITES }
    ensures rows { IfOk result (λ m. rows.now ≡ map parent_row (entries (as_map recall_cmp m))) }
    ensures among { IfOk result (λ t. (r : Recall) (m : Message)
        → get (as_map recall_cmp t) r ≡ Some m → IsRecallAmong sites r × IsMessageAmong sites m) }
    ensures bad { IfErr result (λ fault. IsFaultOf (IsParentTable sites) rows.now fault) }
{
    entries_of(alloc, sites, rows)
}

/// The own recalls, by number.
///
/// # Errors
/// The first row that is no such entry's, or whose key doesn't come after the key before it; and out of memory.
pub(crate) fn own_of(alloc: Global, rows: &[RecallRow]) -> Result<BTreeMap<u64, Own>, TableFault>
    ensures rows { IfOk result (λ m. rows.now ≡ map recall_row (entries (as_map nat_cmp m))) }
    ensures among { IfOk result (λ m. (n : ℕ) (own : Own) → get (as_map nat_cmp m) n ≡ Some own
        → IsNumber n × IsItemText own.root) }
    ensures bad { IfErr result (λ fault. IsFaultOf IsRecallTable rows.now fault) }
{
    entries_of(alloc, 0, rows)
}
