//! What a start, a message and a signal did.
use frame_core::{MsgId, RecallId};

/// What beginning a recall did.
#[derive(Clone, Copy, Debug, PartialEq, Eq)]
pub struct Began {
    /// The recall that began.
    pub recall: RecallId,
    /// How many messages were numbered.
    pub numbered: u64,
    /// Whether it ended at once, since there is nobody to notify.
    pub ended: bool,
}

/// What receiving a message of a recall did.
#[derive(Clone, Copy, Debug, PartialEq, Eq)]
pub enum Received {
    /// The message was seen before, and nothing changed.
    Repeat,
    /// The message engaged the site: it is the parent, and its signal is owed until the site has no
    /// unsignalled message of the recall.
    Owe { numbered: u64 },
    /// The message's signal is due at once.
    SignalNow { numbered: u64 },
}

/// What a signal for a message of the site did.
#[derive(Clone, Copy, Debug, PartialEq, Eq)]
pub enum Signalled {
    /// No unsignalled message has the number, and nothing changed.
    Stale,
    /// The message is signalled, and nothing follows.
    Cleared,
    /// It was the recall's last one here: the parent goes, and its signal is due.
    ParentDue(MsgId),
    /// It was the last one of a recall that this site began, and the recall ended.
    Ended(RecallId),
}
