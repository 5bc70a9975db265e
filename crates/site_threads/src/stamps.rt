//! Counts by which a site says whether a step changed its record.
ghost use Rattle.std.specs.Prelude.{◌≡◌};
ghost use Rattle.site_threads.specs.Stamps.{stamp};

use site_core::SiteState;

/// The counts of a record of which every step that changes it changes one: a capture the events, a start the next
/// recall, a message the messages seen, a signal the messages that wait for one.
#[derive(Clone, Copy)]
pub struct Stamp {
    pub events: usize,
    pub next_recall: u64,
    pub seen: usize,
    pub waiting: usize,
}

/// The counts of a record.
pub fn stamp_of(state: &SiteState) -> Stamp
    ensures { result ≡ stamp state.now }
{
    Stamp {
        events: state.captured().len(),
        next_recall: state.next_recall(),
        seen: state.seen().len(),
        waiting: state.outbox().len(),
    }
}
