//! What is left of a site's run beside its keeper.
ghost use Rattle.site_threads.specs.Jobs.{AreNumbered};

use crate::desks::DeskOut;
use crate::jobs::{Entry, Job};
use crate::turns::TurnCause;
use event_json::SiteNo;
use site_core::SiteState;
use std::fmt;
use std::snapshot::Snapshot;

/// What is left of a site's run beside its keeper.
#[derive(Drop)]
pub struct RunLog {
    /// The site.
    pub site: SiteNo,
    /// The steps of the run, in order.
    pub entries: Vec<Entry>,
    /// The record that the site began with, for proofs alone.
    pub start: Snapshot<SiteState>,
    /// Its end of its desk.
    pub out: DeskOut,
    /// The job that was taken from the desk last, where it wasn't done.
    pub pending: Option<Job>,
    /// How many turns its gate was asked for.
    pub turns: u64,
    /// Why the site ended its run before its time, where it did.
    pub fault: Option<TurnCause>,
    ghost numbered: { AreNumbered entries.items },
}

impl fmt::Debug for RunLog {
    fn fmt<W: fmt::Write>(&self, f: &mut fmt::Formatter<W>) -> fmt::Result {
        write!(f, "{} steps in {} turns", self.entries.len(), self.turns)
    }
}
