//! The rows of a site's part in recalls: what is quarantined, its messages, its parents and its own recalls.
ghost use Rattle.std.specs.Prelude.{◌≡◌, ◌++◌, All, IfOk, OnOk, flat_map, map};
ghost use Rattle.std.specs.FinMap as finite;
ghost use Rattle.site_core.specs.ItemSets as set;
ghost use Rattle.site_rows.specs.RecordRows.{quarantine_row, quarantine_rows, outbox_row, seen_row, parent_row, recall_row};
ghost use Rattle.site_rows.specs.Laws.{AreOfItems, BeganWithItems, HoldsKeys};
ghost use Rattle.site_rows.specs.Texts.{IsItemText};

use crate::numbers::stored;
use crate::rows::{OutboxRow, ParentRow, QuarantineRow, RecallRow, SeenRow};
use crate::texts::Text;
use event_json::Sequence;
use frame_core::{RecallId, Row};
use scholten_core::Own;
use site_core::{ItemSet, Quarantine, SiteState};
use std::alloc::{AllocError, Global};

/// Adds the items of one recall.
fn push_held(
    alloc: Global,
    recall: RecallId,
    items: &ItemSet,
    rows: &mut Vec<QuarantineRow>,
) -> Result<(), AllocError>
    ensures rows { OnOk result (rows.new.items ≡ rows.old.items ++ map (quarantine_row recall)
        (set.items items.now)) }
    ensures items { OnOk result (All IsItemText (set.items items.now)) }
{
    let recall_site = stored(recall.site.number())?;
    let recall_no = stored(recall.number)?;
    for item in items.items() {
        rows.push(QuarantineRow {
            recall_site,
            recall_no,
            item: Text::of_item(alloc, item)?,
        })?;
    }
    Ok(())
}

/// The rows of what is quarantined, by recall and item.
pub fn quarantine_rows(
    alloc: Global,
    quarantine: &Quarantine,
) -> Result<Sequence<QuarantineRow>, AllocError>
    ensures rows { IfOk result (λ rows.
        rows ≡ flat_map quarantine_rows (finite.entries quarantine.now)) }
    ensures items { IfOk result (λ _. HoldsKeys quarantine.now) }
{
    let mut rows = Vec::new(alloc);
    for (recall, items) in quarantine.by_recall() {
        push_held(alloc, *recall, items, &mut rows)?;
    }
    Ok(Sequence::from_vec(rows))
}

/// The row of an unsignalled message.
pub fn message_row(alloc: Global, number: u64, row: &Row) -> Result<OutboxRow, AllocError>
    ensures row { IfOk result (λ message. message ≡ outbox_row (number, row.now)) }
    ensures item { IfOk result (λ _. IsItemText row.now.item) }
{
    Ok(OutboxRow {
        number: stored(number)?,
        dest: stored(row.dest.number())?,
        recall_site: stored(row.recall.site.number())?,
        recall_no: stored(row.recall.number)?,
        item: Text::of_item(alloc, &row.item)?,
    })
}

/// The rows of the messages that aren't signalled, by number.
pub fn outbox_rows(alloc: Global, state: &SiteState) -> Result<Sequence<OutboxRow>, AllocError>
    ensures rows { IfOk result (λ rows.
        rows ≡ map outbox_row (finite.entries state.now.engagement.outbox)) }
    ensures items { IfOk result (λ _. AreOfItems state.now.engagement.outbox) }
{
    let mut rows = Vec::new(alloc);
    for (number, row) in state.outbox() {
        rows.push(message_row(alloc, *number, row)?)?;
    }
    Ok(Sequence::from_vec(rows))
}

/// The rows of the messages that were handled, by sender and number.
pub fn seen_rows(alloc: Global, state: &SiteState) -> Result<Sequence<SeenRow>, AllocError>
    ensures { IfOk result (λ rows. rows ≡ map seen_row (finite.entries state.now.engagement.seen)) }
{
    let mut rows = Vec::new(alloc);
    for (message, recall) in state.seen() {
        rows.push(SeenRow {
            sender: stored(message.site.number())?,
            number: stored(message.number)?,
            recall_site: stored(recall.site.number())?,
            recall_no: stored(recall.number)?,
        })?;
    }
    Ok(Sequence::from_vec(rows))
}

/// The rows of the parents, by recall.
pub fn parent_rows(alloc: Global, state: &SiteState) -> Result<Sequence<ParentRow>, AllocError>
    ensures { IfOk result (λ rows. rows
        ≡ map parent_row (finite.entries state.now.engagement.parents)) }
{
    let mut rows = Vec::new(alloc);
    for (recall, message) in state.parents() {
        rows.push(ParentRow {
            recall_site: stored(recall.site.number())?,
            recall_no: stored(recall.number)?,
            sender: stored(message.site.number())?,
            number: stored(message.number)?,
        })?;
    }
    Ok(Sequence::from_vec(rows))
}

/// The row of an own recall.
pub fn own_row(alloc: Global, number: u64, own: &Own) -> Result<RecallRow, AllocError>
    ensures row { IfOk result (λ row. row ≡ recall_row (number, own.now)) }
    ensures item { IfOk result (λ _. IsItemText own.now.root) }
{
    Ok(RecallRow {
        number: stored(number)?,
        root: Text::of_item(alloc, &own.root)?,
        ended: i64::from(own.ended),
    })
}

/// The rows of the recalls that the site began, by number.
pub fn recall_rows(alloc: Global, state: &SiteState) -> Result<Sequence<RecallRow>, AllocError>
    ensures rows { IfOk result (λ rows.
        rows ≡ map recall_row (finite.entries state.now.engagement.own)) }
    ensures items { IfOk result (λ _. BeganWithItems state.now.engagement.own) }
{
    let mut rows = Vec::new(alloc);
    for (number, own) in state.own_recalls() {
        rows.push(own_row(alloc, *number, own)?)?;
    }
    Ok(Sequence::from_vec(rows))
}
