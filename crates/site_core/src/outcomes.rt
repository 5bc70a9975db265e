//! What a step did, or why it was refused.
ghost use Rattle.std.specs.Prelude.{◌≡◌, IfOk};
ghost use Rattle.site_core.specs.Told.{told_signal};
ghost use Rattle.site_core.specs.Steps.{changes};

use crate::capturing::CaptureFault;
use epc_core::Epc;
use event_json::{DocFault, ReadFault};
use frame_core::{MsgId, NumberFault, RecallId};
use scholten_core::Signalled;
use std::alloc::{AllocError, Global};
use thiserror::Error;

/// What a step did.
#[derive(Clone, Copy, Debug, PartialEq, Eq)]
pub enum Effects {
    /// A document was captured: how many of its events were fresh, how many the site knew, and how many
    /// are of a type that isn't traced.
    Captured {
        fresh: u64,
        known: u64,
        skipped: u64,
    },
    /// A recall was started: how many items came under it here, how many messages were numbered, and
    /// whether it has ended, since there is nobody to notify.
    Started {
        recall: RecallId,
        quarantined: u64,
        numbered: u64,
        ended: bool,
    },
    /// A message of a recall was taken: how many items came under it here, how many messages were
    /// numbered, and whether its signal is owed until they are signalled; otherwise it is due at once.
    Received {
        quarantined: u64,
        numbered: u64,
        owed: bool,
    },
    /// The message was seen before, and nothing changed.
    Repeat,
    /// No unsignalled message has the number of the signal, and nothing changed.
    Stale,
    /// The message is signalled, and nothing follows.
    Cleared,
    /// The message was the recall's last one here: the site is no longer engaged, and the signal of its
    /// parent is due.
    ParentDue(MsgId),
    /// The message was the last one of a recall that this site began, and the recall has ended.
    Ended(RecallId),
}

impl Effects {
    /// Whether the step changed the record.
    pub fn changes(&self) -> bool
        ensures { result ≡ changes self.now }
    {
        match self {
            Effects::Captured { fresh, .. } => *fresh > 0,
            Effects::Repeat | Effects::Stale => false,
            _ => true,
        }
    }

    /// What a signal did.
    pub(crate) fn of_signal(signalled: Signalled) -> Effects
        ensures { result ≡ told_signal signalled }
    {
        match signalled {
            Signalled::Stale => Effects::Stale,
            Signalled::Cleared => Effects::Cleared,
            Signalled::ParentDue(parent) => Effects::ParentDue(parent),
            Signalled::Ended(recall) => Effects::Ended(recall),
        }
    }
}

/// Why a step was refused. Nothing was changed then.
#[derive(Debug, Drop, PartialEq, Eq, Error)]
pub enum Refusal {
    /// Memory ran out.
    #[error("memory ran out")]
    NoMemory,
    /// An event of the document would lead out of the quarantine of a recall.
    #[error("event {event} would lead out of a quarantine")]
    Blocked {
        /// The least recall whose quarantine the event would lead out of from that item.
        recall: RecallId,
        /// The least item that the event would lead on from.
        item: Epc,
        /// The event's place among those that were read, from 1, skipped ones left out.
        event: u64,
    },
    /// An event of the document has the eventID of an event with other content.
    #[error("the eventID of event {event} is taken")]
    IdTaken {
        /// The event's place among those that were read, from 1, skipped ones left out.
        event: u64,
    },
    /// No captured event names the item, and it isn't quarantined.
    #[error("the site doesn't know the item")]
    UnknownItem,
    /// The frame isn't for this site, or says what no site can have sent.
    #[error("the frame isn't for this site")]
    NotMine,
    /// The recall, or a message of it, would get a number past 2^62.
    #[error("the numbers are spent")]
    NumbersSpent,
    /// The document has this fault.
    #[error("{0}")]
    Doc(DocFault),
}

impl Refusal {
    /// An equal refusal.
    pub fn copy(&self, alloc: Global) -> Result<Refusal, AllocError>
        ensures { IfOk result (λ refusal. refusal ≡ self.now) }
    {
        Ok(match self {
            Refusal::NoMemory => Refusal::NoMemory,
            Refusal::Blocked {
                recall,
                item,
                event,
            } => Refusal::Blocked {
                recall: *recall,
                item: item.copy(alloc)?,
                event: *event,
            },
            Refusal::IdTaken { event } => Refusal::IdTaken { event: *event },
            Refusal::UnknownItem => Refusal::UnknownItem,
            Refusal::NotMine => Refusal::NotMine,
            Refusal::NumbersSpent => Refusal::NumbersSpent,
            Refusal::Doc(fault) => Refusal::Doc(*fault),
        })
    }
}

impl From<AllocError> for Refusal {
    ghost use Rattle.std.specs.Prelude.{◌≡◌};
    ghost use Rattle.site_core.specs.declared.outcomes.Refusal.TheVariants.{NoMemory};

    ghost from_gives = { λ _ refusal. refusal ≡ NoMemory };

    fn from(_: AllocError) -> Refusal {
        Refusal::NoMemory
    }
}

impl From<NumberFault> for Refusal {
    ghost use Rattle.std.specs.Prelude.{◌≡◌};
    ghost use Rattle.site_core.specs.Told.{told_numbers};

    ghost from_gives = { λ fault refusal. refusal ≡ told_numbers fault };

    fn from(fault: NumberFault) -> Refusal {
        match fault {
            NumberFault::NoMemory => Refusal::NoMemory,
            NumberFault::NumbersSpent => Refusal::NumbersSpent,
        }
    }
}

impl From<ReadFault> for Refusal {
    ghost use Rattle.std.specs.Prelude.{◌≡◌};
    ghost use Rattle.site_core.specs.Told.{told_reading};

    ghost from_gives = { λ fault refusal. refusal ≡ told_reading fault };

    fn from(fault: ReadFault) -> Refusal {
        match fault {
            ReadFault::NoMemory => Refusal::NoMemory,
            ReadFault::Doc(fault) => Refusal::Doc(fault),
        }
    }
}

impl From<CaptureFault> for Refusal {
    ghost use Rattle.std.specs.Prelude.{◌≡◌};
    ghost use Rattle.site_core.specs.Told.{told_capture};

    ghost from_gives = { λ fault refusal. refusal ≡ told_capture fault };

    fn from(fault: CaptureFault) -> Refusal {
        match fault {
            CaptureFault::NoMemory => Refusal::NoMemory,
            CaptureFault::IdTaken { event } => Refusal::IdTaken { event },
            CaptureFault::Blocked {
                recall,
                item,
                event,
            } => Refusal::Blocked {
                recall,
                item,
                event,
            },
        }
    }
}
