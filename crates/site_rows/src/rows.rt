//! The rows of the tables of a site's file. Numbers are as a database keeps them; each table's rows ascend by its key.
use crate::tables::Version;
use crate::texts::Text;
use event_json::Sequence;

/// The one row of `store`.
#[derive(Clone, Copy, Debug, PartialEq, Eq)]
pub struct StoreRow {
    /// The number of the version of the tables, 1 or 2.
    pub version: i64,
    /// The site's own number.
    pub me: i64,
    /// The number that its next message gets.
    pub next_message: i64,
    /// The number that its next recall gets.
    pub next_recall: i64,
}

/// A site, by its number.
#[derive(Debug, Drop, PartialEq, Eq)]
pub struct SiteRow {
    /// Its number, from 0.
    pub no: i64,
    /// Its name.
    pub name: Text,
}

/// A destination text that stands for a site, by the text.
#[derive(Debug, Drop, PartialEq, Eq)]
pub struct AddressRow {
    /// The text.
    pub text: Text,
    /// The number of the site.
    pub site: i64,
    /// Its place among the site's addresses, from 0.
    pub place: i64,
}

/// A captured event, by its number.
#[derive(Debug, Drop, PartialEq, Eq)]
pub struct EventRow {
    /// Its number, from 1, in the order captured.
    pub no: i64,
    /// Its eventID, where it has one.
    pub id: Option<Text>,
    /// The seconds of its instant from 1970 in UTC, by the floor.
    pub seconds: i64,
    /// The rest of its instant in nanoseconds, 0 to 999,999,999.
    pub nanos: i64,
    /// 0 where items were seen, 1 where they were shipped, 2 where they were made, 3 where they were packed.
    pub kind: i64,
    /// Its transformationID, where it has one.
    pub make_id: Option<Text>,
}

/// A member of a list of an event, by event, role and place.
#[derive(Debug, Drop, PartialEq, Eq)]
pub struct PartRow {
    /// The number of the event.
    pub event: i64,
    /// 0 an item seen or shipped, 1 a site that they were shipped to, 2 a destination outside, 3 an input, 4 an output.
    pub role: i64,
    /// Its place in its list, from 0.
    pub place: i64,
    /// The item's key, the site's name, or the destination's text.
    pub text: Text,
}

/// A pack: what was put into a container, seen in it or taken out of it, by event.
#[derive(Debug, Drop, PartialEq, Eq)]
pub struct PackRow {
    /// The number of the event.
    pub event: i64,
    /// 0 where items were put in, 1 where they were seen in it, 2 where they were taken out.
    pub action: i64,
    /// The container's key, where the event names one; what is put in has one.
    pub parent: Option<Text>,
}

/// An item of such an event, by event and place.
#[derive(Debug, Drop, PartialEq, Eq)]
pub struct PackedRow {
    /// The number of the event.
    pub event: i64,
    /// Its place in the event's list, from 0.
    pub place: i64,
    /// The item's key.
    pub text: Text,
}

/// An item that is quarantined under a recall, by recall and item.
#[derive(Debug, Drop, PartialEq, Eq)]
pub struct QuarantineRow {
    /// The site that began the recall.
    pub recall_site: i64,
    /// The recall's number there.
    pub recall_no: i64,
    /// The item's key.
    pub item: Text,
}

/// A message that isn't signalled, by its number.
#[derive(Debug, Drop, PartialEq, Eq)]
pub struct OutboxRow {
    /// Its number.
    pub number: i64,
    /// The site that it is for.
    pub dest: i64,
    /// The site that began its recall.
    pub recall_site: i64,
    /// The recall's number there.
    pub recall_no: i64,
    /// The key of the item that is recalled.
    pub item: Text,
}

/// A message that was handled, by sender and number.
#[derive(Clone, Copy, Debug, PartialEq, Eq)]
pub struct SeenRow {
    /// The site that sent it.
    pub sender: i64,
    /// Its number there.
    pub number: i64,
    /// The site that began its recall.
    pub recall_site: i64,
    /// The recall's number there.
    pub recall_no: i64,
}

/// The message that engaged the site for a recall, by recall.
#[derive(Clone, Copy, Debug, PartialEq, Eq)]
pub struct ParentRow {
    /// The site that began the recall.
    pub recall_site: i64,
    /// The recall's number there.
    pub recall_no: i64,
    /// The site that sent the message.
    pub sender: i64,
    /// The message's number there.
    pub number: i64,
}

/// A recall that the site began, by its number.
#[derive(Debug, Drop, PartialEq, Eq)]
pub struct RecallRow {
    /// Its number.
    pub number: i64,
    /// The key of the item that it was begun with.
    pub root: Text,
    /// 1 where its end is recorded, else 0.
    pub ended: i64,
}

/// The rows of all tables of a site's file.
#[derive(Debug, Drop, PartialEq, Eq)]
pub struct Rows {
    /// The version of the tables; the first one has no tables `pack` and `packed`.
    pub version: Version,
    /// The row of `store`.
    pub store: Sequence<StoreRow>,
    /// The rows of `site`.
    pub site: Sequence<SiteRow>,
    /// The rows of `address`.
    pub address: Sequence<AddressRow>,
    /// The rows of `event`.
    pub event: Sequence<EventRow>,
    /// The rows of `part`.
    pub part: Sequence<PartRow>,
    /// The rows of `pack`.
    pub pack: Sequence<PackRow>,
    /// The rows of `packed`.
    pub packed: Sequence<PackedRow>,
    /// The rows of `quarantine`.
    pub quarantine: Sequence<QuarantineRow>,
    /// The rows of `outbox`.
    pub outbox: Sequence<OutboxRow>,
    /// The rows of `seen`.
    pub seen: Sequence<SeenRow>,
    /// The rows of `parent`.
    pub parent: Sequence<ParentRow>,
    /// The rows of `recall`.
    pub recall: Sequence<RecallRow>,
}
