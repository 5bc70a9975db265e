//! Rows of what one step adds, each found at the record after it, or at what it leaves beside that.
ghost use Rattle.std.specs.Prelude.{◌≡◌, ◌+◌, ◌++◌, ◌∷◌, [], ℕ, List, Some, cond, length, map, nat_lt, pos, IfOk};
ghost use Rattle.std.specs.FinMap as finite;
ghost use Rattle.std.specs.List.{enumerate_from};
ghost use Rattle.std.specs.Ordering.{nat_cmp};
ghost use Rattle.frame_core.specs.Numbers.{Recall};
ghost use Rattle.frame_core.specs.Outboxes.{numbered, row_for};
ghost use Rattle.frame_core.specs.declared.rows.Row.{Row};
ghost use Rattle.scholten_core.specs.Engagement.{Engagement};
ghost use Rattle.scholten_core.specs.OwnRecalls.{with_end};
ghost use Rattle.scholten_core.specs.declared.own_recalls.Own.{Own};
ghost use Rattle.site_rows.specs.RecordRows.{quarantine_row, outbox_row, seen_row, parent_row, recall_row};
ghost use Rattle.site_rows.specs.StepRows.{numbers_of, numbers_changed};

use crate::changes::{Numbers, RecallKey};
use crate::numbers::stored;
use crate::recall_rows::{message_row, own_row};
use crate::rows::{OutboxRow, ParentRow, QuarantineRow, RecallRow, SeenRow};
use crate::texts::Text;
use epc_core::Epc;
use event_json::Sequence;
use frame_core::{MsgId, RecallId, Row, tables};
use scholten_core::Own;
use site_core::SiteState;
use std::alloc::{AllocError, Global};

/// The rows of items that come under a recall.
pub fn rows_held(
    alloc: Global,
    recall: RecallId,
    items: &[Epc],
) -> Result<Sequence<QuarantineRow>, AllocError>
    ensures { IfOk result (λ rows. rows ≡ map (quarantine_row recall) items.now) }
{
    let recall_site = stored(recall.site.number())?;
    let recall_no = stored(recall.number)?;
    let mut rows = Vec::new(alloc);
    for item in items {
        rows.push(QuarantineRow {
            recall_site,
            recall_no,
            item: Text::of_item(alloc, item)?,
        })?;
    }
    Ok(Sequence::from_vec(rows))
}

/// The rows of the messages that got numbers from this one on, where the site numbered them just now.
pub fn numbered_rows(
    alloc: Global,
    state: &SiteState,
    from: u64,
) -> Result<Sequence<OutboxRow>, AllocError>
    ensures { (before : finite.FinMap nat_cmp Row) (r : Recall) (out : List (ℕ × List ℕ))
        → state.now.engagement.outbox ≡ numbered before from r out
        → state.now.engagement.next_message ≡ from + length out
        → IfOk result (λ rows. rows ≡ map outbox_row (enumerate_from from (map (row_for r) out))) }
{
    let mut rows = Vec::new(alloc);
    for number in from..state.next_message() {
        if let Some(row) = tables::get(state.outbox(), number) {
            rows.push(message_row(alloc, number, row)?)?;
        }
    }
    Ok(Sequence::from_vec(rows))
}

/// The row of a message that is seen under a recall.
pub fn seen_rows_of(
    alloc: Global,
    message: MsgId,
    recall: RecallId,
) -> Result<Sequence<SeenRow>, AllocError>
    ensures { IfOk result (λ rows. rows ≡ seen_row (message, recall) ∷ []) }
{
    let mut rows = Vec::new(alloc);
    rows.push(SeenRow {
        sender: stored(message.site.number())?,
        number: stored(message.number)?,
        recall_site: stored(recall.site.number())?,
        recall_no: stored(recall.number)?,
    })?;
    Ok(Sequence::from_vec(rows))
}

/// The row of a message as the parent of a recall, where its signal is owed.
pub fn parent_rows_of(
    alloc: Global,
    message: MsgId,
    recall: RecallId,
    owed: bool,
) -> Result<Sequence<ParentRow>, AllocError>
    ensures { IfOk result (λ rows. rows ≡ cond owed (parent_row (recall, message) ∷ []) []) }
{
    let mut rows = Vec::new(alloc);
    if owed {
        rows.push(ParentRow {
            recall_site: stored(recall.site.number())?,
            recall_no: stored(recall.number)?,
            sender: stored(message.site.number())?,
            number: stored(message.number)?,
        })?;
    }
    Ok(Sequence::from_vec(rows))
}

/// The row of the own recall of this number.
pub fn own_rows_at(
    alloc: Global,
    state: &SiteState,
    number: u64,
) -> Result<Sequence<RecallRow>, AllocError>
    ensures { (own : Own) → finite.get state.now.engagement.own number ≡ Some own
        → IfOk result (λ rows. rows ≡ recall_row (number, own) ∷ []) }
{
    let mut rows = Vec::new(alloc);
    if let Some(own) = tables::get(state.own_recalls(), number) {
        rows.push(own_row(alloc, number, own)?)?;
    }
    Ok(Sequence::from_vec(rows))
}

/// The row of an own recall once it has ended.
fn ended_row(alloc: Global, number: u64, own: &Own) -> Result<RecallRow, AllocError>
    ensures { IfOk result (λ row. row ≡ recall_row (number, with_end own.now)) }
{
    Ok(RecallRow {
        number: stored(number)?,
        root: Text::of_item(alloc, &own.root)?,
        ended: 1,
    })
}

/// The row of the own recall of this number, once it has ended.
pub fn ended_rows_at(
    alloc: Global,
    state: &SiteState,
    number: u64,
) -> Result<Sequence<RecallRow>, AllocError>
    ensures { (own : Own) → finite.get state.now.engagement.own number ≡ Some own
        → IfOk result (λ rows. rows ≡ recall_row (number, with_end own) ∷ []) }
{
    let mut rows = Vec::new(alloc);
    if let Some(own) = tables::get(state.own_recalls(), number) {
        rows.push(ended_row(alloc, number, own)?)?;
    }
    Ok(Sequence::from_vec(rows))
}

/// The number of a message, as a key of a table.
pub fn message_keys(alloc: Global, number: u64) -> Result<Sequence<i64>, AllocError>
    ensures { IfOk result (λ keys. keys ≡ pos number ∷ []) }
{
    let mut keys = Vec::new(alloc);
    keys.push(stored(number)?)?;
    Ok(Sequence::from_vec(keys))
}

/// The recall of the message of this number, as a key of a table.
pub fn recall_keys_at(
    alloc: Global,
    state: &SiteState,
    number: u64,
) -> Result<Sequence<RecallKey>, AllocError>
    ensures { (row : Row) → finite.get state.now.engagement.outbox number ≡ Some row
        → IfOk result (λ keys. keys ≡ record {
          site = pos row.recall.site;
          number = pos row.recall.number;
        } ∷ []) }
{
    let mut keys = Vec::new(alloc);
    if let Some(row) = tables::get(state.outbox(), number) {
        keys.push(RecallKey {
            site: stored(row.recall.site.number())?,
            number: stored(row.recall.number)?,
        })?;
    }
    Ok(Sequence::from_vec(keys))
}

/// The numbers that a site gives next.
pub fn numbers_of(state: &SiteState) -> Result<Numbers, AllocError>
    ensures { IfOk result (λ numbers. numbers ≡ numbers_of state.now.engagement) }
{
    Ok(Numbers {
        next_message: stored(state.next_message())?,
        next_recall: stored(state.next_recall())?,
    })
}

/// The numbers that a site gives next, where its next message had this number and it numbered messages since.
pub fn numbers_changed(next: u64, new: &SiteState) -> Result<Option<Numbers>, AllocError>
    ensures { (old : Engagement) → next ≡ old.next_message
        → IfOk result (λ numbers. numbers ≡ numbers_changed old new.now.engagement) }
{
    if next < new.next_message() {
        Ok(Some(numbers_of(new)?))
    } else {
        Ok(None)
    }
}
