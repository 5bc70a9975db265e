//! The rows of what a site keeps.
ghost use Rattle.std.specs.Prelude.{◌≡◌, ◌∷◌, [], IfOk};
ghost use Rattle.site_rows.specs.Laws.{HoldsItems, IsKept};
ghost use Rattle.site_rows.specs.RecordRows.{store_row, rows_of};
ghost use Rattle.site_rows.specs.declared.tables.Version.TheVariants.{Second};

use crate::address_rows::{address_rows, rows_of_sites};
use crate::event_rows::{event_rows, pack_rows, packed_rows, part_rows};
use crate::numbers::stored;
use crate::recall_rows::{outbox_rows, parent_rows, quarantine_rows, recall_rows, seen_rows};
use crate::rows::{Rows, StoreRow};
use crate::tables::Version;
use event_json::Sequence;
use site_core::SiteState;
use std::alloc::{AllocError, Global};

/// The row of the site itself.
fn store_rows(alloc: Global, state: &SiteState) -> Result<Sequence<StoreRow>, AllocError>
    ensures { IfOk result (λ rows. rows ≡ store_row Second state.now ∷ []) }
{
    let mut rows = Vec::new(alloc);
    rows.push(StoreRow {
        version: Version::Second.number(),
        me: stored(state.me().number())?,
        next_message: stored(state.next_message())?,
        next_recall: stored(state.next_recall())?,
    })?;
    Ok(Sequence::from_vec(rows))
}

/// The rows of all tables of the second version that stand for what a site keeps. It can be read back from them: its
/// events are within their limits, and its texts are those of items, sites and plain destinations, in UTF-8. Fails
/// where memory runs out.
pub fn rows_of(alloc: Global, state: &SiteState) -> Result<Rows, AllocError>
    // The rows of a record are exactly those that it stands for.
    ensures rows { IfOk result (λ rows. rows ≡ rows_of state.now) }
    ensures kept { IfOk result (λ _. IsKept state.now) }
    ensures items { IfOk result (λ _. HoldsItems state.now) }
{
    // Their readers show the proof that the sites are in order and the record is sound.
    let _known = (state.sites().len(), state.me());
    Ok(Rows {
        version: Version::Second,
        store: store_rows(alloc, state)?,
        site: rows_of_sites(alloc, state.sites())?,
        address: address_rows(alloc, state.sites())?,
        event: event_rows(alloc, state.captured(), 0)?,
        part: part_rows(alloc, state.sites(), state.captured(), 0)?,
        pack: pack_rows(alloc, state.captured(), 0)?,
        packed: packed_rows(alloc, state.captured(), 0)?,
        quarantine: quarantine_rows(alloc, state.quarantine())?,
        outbox: outbox_rows(alloc, state)?,
        seen: seen_rows(alloc, state)?,
        parent: parent_rows(alloc, state)?,
        recall: recall_rows(alloc, state)?,
    })
}
