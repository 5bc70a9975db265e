//! The events of a world, and their answers.
ghost use Rattle.std.specs.Prelude.{◌≡◌};
ghost use Rattle.world_core.specs.Turns.{site_of};

use epc_core::Epc;
use event_json::{Sequence, SiteNo};
use keeper_core::{Keep, KeepFault};
use site_core::Effects;

/// What a site is given.
#[derive(Debug, Drop)]
pub enum WorldInput {
    /// To capture the events of a document, which has these bytes.
    Capture(Sequence<u8>),
    /// To start a recall of an item.
    Start(Epc),
    /// To take the frame that was sent at this place, from 1.
    Deliver(u64),
}

/// What may happen next. A frame that is never delivered is lost; one that is delivered again, or sent again, is
/// a repeat.
#[derive(Debug, Drop)]
pub enum WorldEvent {
    /// A step of a site.
    Step {
        site: SiteNo,
        input: WorldInput,
    },
    /// A site sends the frame at a place, from 1, of those that its record makes emittable.
    Send {
        site: SiteNo,
        place: u64,
    },
    /// A site stops within a step.
    Stop {
        site: SiteNo,
        input: WorldInput,
        keep: Keep,
    },
    /// A site that is closed is opened.
    Reopen {
        site: SiteNo,
    },
}

impl WorldEvent {
    /// Where it happens.
    pub fn site(&self) -> SiteNo
        ensures { result ≡ site_of self.now }
    {
        match self {
            WorldEvent::Step { site, .. } => *site,
            WorldEvent::Stop { site, .. } => *site,
            WorldEvent::Send { site, .. } => *site,
            WorldEvent::Reopen { site } => *site,
        }
    }
}

/// The answer to an event. The tests come in this order: no such site, closed, no such frame, and then the step.
#[derive(Debug, Drop, PartialEq, Eq)]
pub enum Answer {
    /// The step was done, and is kept.
    Done(Effects),
    /// The step wasn't done, or it isn't known whether it was: never `NoMemory`. Any event but `Reopen` at a closed
    /// site is answered `Fault(Closed)`.
    Fault(KeepFault),
    /// The frame was sent, at this place, from 1, among all that were ever sent.
    Sent(u64),
    /// A frame was named that wasn't sent or is for another site, or that isn't emittable. Nothing changed.
    NoFrame,
    /// The world has no such site.
    NoSite,
    /// The site is closed now, and nothing is reported of the step.
    Stopped,
    /// The site is open again.
    Reopened,
    /// The site is still closed: never `NoMemory`.
    NotReopened(KeepFault),
    /// The site is open already. Nothing changed.
    NotClosed,
    /// Memory ran out. Nothing changed.
    NoMemory,
}
