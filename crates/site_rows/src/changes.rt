//! The rows that a step changes.
use crate::rows::{
    EventRow, OutboxRow, PackRow, PackedRow, ParentRow, PartRow, QuarantineRow, RecallRow, SeenRow,
};
use event_json::Sequence;

/// The numbers that a site gives next.
#[derive(Clone, Copy, Debug, PartialEq, Eq)]
pub struct Numbers {
    /// The number of its next message.
    pub next_message: i64,
    /// The number of its next recall.
    pub next_recall: i64,
}

/// A recall, as a key of a table.
#[derive(Clone, Copy, Debug, PartialEq, Eq)]
pub struct RecallKey {
    /// The site that began it.
    pub site: i64,
    /// Its number there.
    pub number: i64,
}

/// The rows that a step changes. They are written in the order of the fields.
#[derive(Debug, Drop)]
pub struct RowChanges {
    /// Events to insert.
    pub event: Sequence<EventRow>,
    /// Members of their lists to insert.
    pub part: Sequence<PartRow>,
    /// Packs to insert.
    pub pack: Sequence<PackRow>,
    /// Their children to insert.
    pub packed: Sequence<PackedRow>,
    /// Quarantined items to insert.
    pub quarantine: Sequence<QuarantineRow>,
    /// Messages to put in place of those of their numbers, or besides the others.
    pub outbox: Sequence<OutboxRow>,
    /// Handled messages to insert.
    pub seen: Sequence<SeenRow>,
    /// Parents to insert.
    pub parent: Sequence<ParentRow>,
    /// The numbers of messages to take out of the outbox.
    pub signalled: Sequence<i64>,
    /// The recalls whose parents are to be taken out.
    pub left: Sequence<RecallKey>,
    /// Own recalls to put in place of those of their numbers, or besides the others.
    pub recall: Sequence<RecallRow>,
    /// The next numbers, where they changed.
    pub numbers: Option<Numbers>,
}
