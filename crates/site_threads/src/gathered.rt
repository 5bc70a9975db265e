//! What a run of all sites gives back: receipts are confirmed, and desks settled, by the lists of steps.
ghost use Rattle.std.specs.Prelude.{◌≡◌, ◌↔◌, ◌≤◌, All, IsTrue, cond, is_ok, length, take};
ghost use Rattle.site_threads.specs.Ends.{hears, puts, IsDesk, AreEnds, AreFirst};
ghost use Rattle.site_threads.specs.Gathering.{IsConfirmed, FitsEnd};
ghost use Rattle.site_threads.specs.Jobs.{IsEntered, entry_of, is_stop, jobs_in, receipts_in, stops_in};

use crate::desks::{Desk, taken_of};
use crate::gather::GatherCause;
use crate::jobs::{Entry, Receipt, Reply, is_stop};
use crate::lists::RunLog;
use keeper_core::SiteKeeper;
use thiserror::Error;

/// The sites after a run of all of them, in the order of their numbers.
#[derive(Drop)]
pub struct Gathered<K: SiteKeeper> {
    /// Their keepers, each open.
    pub keepers: Vec<K>,
    /// The steps of each, and its end of its desk.
    pub lists: Vec<RunLog>,
    /// Whether the system gave fewer threads than sites, so that sites shared threads.
    pub shared: bool,
}

/// A run of all sites that has no answer, with what it leaves, in the order of the sites.
#[derive(Debug, Drop, Error)]
#[error("{cause}")]
pub struct GatherFault<K> {
    pub keepers: Vec<K>,
    /// The steps of each site, and its end of its desk; none where no site began a turn.
    pub lists: Vec<RunLog>,
    /// Why; of several sites that ended their runs, the least is named.
    pub cause: GatherCause,
}

/// A receipt that names no step of its site's list with that job and that reply.
#[derive(Clone, Copy, Debug, PartialEq, Eq, Error)]
#[error("the list has no such step")]
pub struct Stranger;

/// Whether the step is the one that the receipt names.
fn is_step_of(entry: &Entry, receipt: &Receipt) -> bool
    ensures { IsTrue result ↔ (entry.now ≡ entry_of receipt.now) }
{
    entry.number == receipt.number
        && entry.reply == receipt.reply
        && entry.input.is_of(&receipt.job)
}

/// In how many of these steps the site stopped.
fn stops_among(entries: &[Entry]) -> usize
    ensures { result ≡ stops_in entries.now }
{
    let mut stops = 0;
    for entry in entries {
        stops += stops_of(entry.reply.same());
    }
    stops
}

/// 1 where the site stopped in the step, and else 0.
fn stops_of(reply: Reply) -> usize
    ensures one { result ≡ cond (is_stop reply) 1 0 }
    ensures few { result ≤ 1 }
{
    if is_stop(reply) { 1 } else { 0 }
}

impl RunLog {
    /// Whether the list has the receipt's job with its reply at its number. Only the step at that place is looked at.
    pub fn has(&self, receipt: &Receipt) -> bool
        ensures { IsTrue result ↔ IsEntered self.now.entries.items receipt.now }
    {
        if receipt.number == 0 {
            return false;
        }
        match self.entries.get((receipt.number - 1) as usize) {
            None => false,
            Some(entry) => is_step_of(entry, receipt),
        }
    }

    /// In how many steps of the list the site stopped.
    pub fn stops(&self) -> usize
        ensures { result ≡ stops_in self.now.entries.items }
    {
        stops_among(self.entries.as_slice())
    }

    /// How many jobs of a desk stand in the list: the first ones that were put. The receipts that came from the desk
    /// are the first of those of the list's jobs, so that each of them is confirmed.
    pub fn settle(self, desk: Desk) -> u64
        requires desk { IsDesk desk × AreEnds desk self.out }
        requires jobs { FitsEnd self }
        // The jobs that the site's end took are the first ones put, in order.
        // Not covered: that a job is taken.
        ensures jobs { (result ≡ length (jobs_in self.entries.items))
            × (jobs_in self.entries.items ≡ take result (puts desk)) }
        // The receipts that came from a desk are the first ones of those of its site's list, in order: the site, the
        // number of the step, the job and the reply. So each of them is confirmed.
        // Not covered: when a receipt comes: a desk that always reports that the other end was dropped meets the
        // clauses.
        ensures heard { AreFirst (hears desk) (receipts_in self.site self.entries.items) }
        ensures confirmed { All (IsEntered self.entries.items) (hears desk) }
    {
        let RunLog { out, pending, .. } = self;
        let taken = taken_of(desk, out);
        if pending.is_some() { taken - 1 } else { taken }
    }
}

impl<K: SiteKeeper> Gathered<K> {
    /// Confirms a receipt: `Ok` exactly where its site's list has its job with its reply at its number.
    pub fn confirm(&self, receipt: &Receipt) -> Result<(), Stranger>
        ensures { IsTrue (is_ok result) ↔ IsConfirmed self.now.lists.items receipt.now }
    {
        match self.lists.get(receipt.site.number() as usize) {
            None => Err(Stranger),
            Some(list) => {
                if list.has(receipt) {
                    Ok(())
                } else {
                    Err(Stranger)
                }
            }
        }
    }
}
