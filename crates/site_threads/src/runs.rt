//! The sites of a run, each in a thread of its own.
ghost use Rattle.std.specs.Prelude.{◌≡◌, ◌↔◌, ◌+◌, ◌-◌, ◌++◌, ◌^◌, ◌<◌, ◌≤◌, ℕ, List, None, true, All, IfSome, IsSome, IsTrue, is_none, length, min, slice_index_or};
ghost use Rattle.std.specs.List.{AllZip, list_all};
ghost use Rattle.site_threads.specs.Ends.{takes, tells, IsOut, SameOut};
ghost use Rattle.site_threads.specs.Jobs.{option_items};
ghost use Rattle.site_threads.specs.Keepers.{shown_if};
ghost use Rattle.site_threads.specs.Resting.{HaveEnded, IsAtRest, IsDone};
ghost use Rattle.site_threads.specs.Runs.{IsReady, SameRun, EndedBy, IsBetween, IsSliced, Ran, goes_on};
ghost use Rattle.site_threads.specs.Running.{marks_in};
ghost use Rattle.site_threads.specs.Sites.{Running};
ghost use Rattle.site_threads.specs.declared.jobs.Job.{Job};

use crate::counts::RunCounts;
use crate::desks::DeskOut;
use crate::following::{are_same, view_of};
use crate::gates::Gate;
use crate::jobs::Job;
use crate::sites::RunningSite;
use crate::stamps::Stamp;
use crate::turns::{TurnCause, TurnFault, TurnReport, lost};
use event_json::SiteNo;
use keeper_core::SiteKeeper;
use site_core::SiteState;
use std::sync::Wait;
use std::thread;
use std::thread::Threads;
use std::time::{Clock, Duration};

/// How many turns a site makes at most before it leaves its thread to the next site, where sites share threads.
const SLICE: u64 = 50;

/// The job that was given back, or the next one.
fn next_job<R: Wait>(rt: &R, pending: Option<Job>, out: &mut DeskOut) -> Option<Job>
    requires { IsOut out.old }
    ensures out { IsOut out.new × SameOut out.old out.new }
    ensures told { (tells out.new ≡ tells out.old) × (out.new.dropped ≡ out.old.dropped) }
    ensures job { (done : List Job) → done ++ option_items pending ≡ takes out.old
        → done ++ option_items result ≡ takes out.new }
{
    match pending {
        Some(job) => Some(job),
        None => out.next(rt),
    }
}

/// Reports to a gate how many messages of a site wait for a signal.
fn tell_open<K: SiteKeeper, G: Gate>(gate: &mut G, keeper: &Option<K>, me: SiteNo) {
    if let Some(state) = view_of(keeper) {
        gate.tell_open(me, state.outbox().len());
    }
}

/// Why a site ends its run: nothing where memory ran out, since then the job goes into the next turn.
fn ends_run(cause: TurnCause) -> Option<TurnCause>
    ensures { IfSome result (λ why. why ≡ cause) }
{
    match cause {
        TurnCause::NoMemory => None,
        cause => Some(cause),
    }
}

/// Sleeps for so many microseconds, where they aren't 0.
fn pause<R: Clock>(rt: &R, micros: u64) {
    if micros > 0 {
        thread::sleep(rt, Duration::from_micros(micros));
    }
}

/// How many microseconds a site sleeps after one more turn in which nothing was done: 100 for each of them, at most
/// 1,000.
fn longer(micros: u64) -> u64 {
    micros.min(900) + 100
}

/// Whether each recall that a site began has ended.
fn have_ended(state: &SiteState) -> bool
    ensures { IsTrue result ↔ HaveEnded state.now }
{
    for (_, own) in state.own_recalls() {
        if !own.ended {
            return false;
        }
    }
    true
}

/// Whether no message of a site waits for a signal, and each recall that it began has ended.
fn is_at_rest(state: &SiteState) -> bool
    ensures { IsTrue result → IsAtRest state.now }
{
    state.outbox().is_empty() && have_ended(state)
}

/// What was done in a turn.
#[derive(Clone, Copy)]
enum Turned {
    /// A job was done, or the site's record changed.
    Changed,
    /// Neither.
    Idle,
    /// The site ended its run.
    Ended,
}

/// What was done in a turn without a job, by the stamps of the records before and after it.
fn without_job(before: Stamp, after: Stamp) -> Turned
    ensures { goes_on result ≡ true }
{
    if are_same(before, after) {
        Turned::Idle
    } else {
        Turned::Changed
    }
}

impl<K: SiteKeeper, G: Gate> RunningSite<'_, K, G> {
    /// One turn.
    fn one_turn<R: Wait>(&mut self, rt: &R) -> Turned
        requires few { marks_in self.old.seat.logs < 2 ^ 61 }
        requires going { self.old.fault ≡ None }
        ensures same { SameRun K.stored self.old self.new }
        ensures marks { marks_in self.new.seat.logs ≤ marks_in self.old.seat.logs + 18 }
        ensures turns { self.new.turns ≡ min (self.old.turns + 1) (2 ^ 64 - 1) }
        ensures going { goes_on result ≡ is_none self.new.fault }
        ensures on { self.new.ended ≡ self.old.ended }
        ensures why { IfSome self.new.fault (EndedBy K.shown K.reopens G.gives_up self.new) }
    {
        tell_open(&mut self.gate, &self.keeper, self.me);
        let before = self.stamp;
        let job = next_job(rt, self.pending.take(), &mut self.out);
        match self.turn(job) {
            Ok(report) => {
                let TurnReport { receipt, .. } = report;
                match receipt {
                    None => without_job(before, self.stamp),
                    Some(receipt) => {
                        self.out.tell(rt, receipt);
                        Turned::Changed
                    }
                }
            }
            Err(fault) => {
                let TurnFault { cause, job } = fault;
                self.pending = job;
                self.fault = ends_run(cause);
                if self.fault.is_some() {
                    Turned::Ended
                } else {
                    without_job(before, self.stamp)
                }
            }
        }
    }

    /// Whether no recall of the site's own is open, and none is to begin: its end counts the desk as gone, no job is in
    /// hand, no message waits for a signal, and each recall that it began has ended.
    fn is_done(&self) -> bool
        ensures { IsTrue result → IsDone K.shown self.now.keeper self.now.out self.now.pending }
    {
        if !self.out.gone || self.pending.is_some() {
            return false;
        }
        match view_of(&self.keeper) {
            Some(state) => is_at_rest(state),
            None => false,
        }
    }

    /// Ends the run of the site, with a last opening of a keeper that is closed.
    fn end(&mut self)
        requires few { marks_in self.old.seat.logs < 2 ^ 61 }
        requires fine { self.old.fault ≡ None }
        ensures same { SameRun K.stored self.old self.new }
        ensures ended { self.new.ended ≡ true }
        ensures turns { self.new.turns ≡ self.old.turns }
        ensures done { IsDone K.shown self.old.keeper self.old.out self.old.pending
            → IsDone K.shown self.new.keeper self.new.out self.new.pending }
        ensures open { self.new.fault ≡ None → IsSome (shown_if K.shown self.new.keeper) }
        ensures why { IfSome self.new.fault (EndedBy K.shown K.reopens G.gives_up self.new) }
    {
        self.ended = true;
        if let Err(fault) = self.open_again() {
            drop(self.fault.replace(lost(fault)));
        }
    }

    /// A slice of the turns of a run, and with the last one the end of it. After a turn in which nothing was done the
    /// site sleeps, so that a run doesn't end while other sites write; or leaves its thread to others, where sites
    /// share threads. A site that has ended its run does nothing.
    ///
    /// A site takes itself off the open ones once it is done; where none is left, a site that is done makes no further
    /// turn.
    pub(crate) fn go<R: Wait + Clock>(&mut self, rt: &R, counts: &RunCounts, turns: u64)
        requires between { IsBetween K.shown K.reopens G.gives_up turns self.old }
        requires turns { turns ≤ 1000000 }
        ensures sliced { IsSliced K.shown K.reopens G.gives_up turns K.stored self.old self.new }
    {
        if self.ended {
            return;
        }
        counts.begin(rt);
        let until = self.turns.saturating_add(SLICE);
        let mut micros = 0;
        for _ in self.turns..turns {
            pause(rt, micros);
            if counts.none_open() && self.is_done() {
                break;
            }
            match self.one_turn(rt) {
                Turned::Ended => {
                    self.ended = true;
                    return;
                }
                Turned::Changed => micros = 0,
                Turned::Idle => micros = longer(micros),
            }
            let done = self.counted && self.is_done();
            counts.take_off(done, &mut self.counted);
            if counts.are_shared() && (micros > 0 || self.turns >= until) {
                return;
            }
        }
        self.end();
    }
}

/// A slice of the turns of each site, in a thread of its own where one can be made.
fn run_slices<K: SiteKeeper + Send, G: Gate + Send, R: Threads + Wait + Clock + Sync>(
    rt: &R,
    counts: &RunCounts,
    runs: &mut [RunningSite<'_, K, G>],
    turns: u64,
)
    requires count { 0 < length runs.old }
    requires between { All (IsBetween K.shown K.reopens G.gives_up turns) runs.old }
    requires turns { turns ≤ 1000000 }
    ensures count { length runs.new ≡ length runs.old }
    ensures each { (i : ℕ) (d : Running K G) → i < length runs.old
        → IsSliced K.shown K.reopens G.gives_up turns K.stored (slice_index_or runs.old i d)
        (slice_index_or runs.new i d) }
{
    let threads = runs.len();
    thread::for_each_mut(
        rt,
        runs,
        threads,
        &|_, run: &mut RunningSite<'_, K, G>|
            requires { IsBetween K.shown K.reopens G.gives_up turns run.now × (turns ≤ 1000000) }
            ensures { IsSliced K.shown K.reopens G.gives_up turns K.stored run.entry.now
                run.exit.now }
        { run.go(rt, counts, turns) },
    );
}

/// Whether each site has ended its run.
fn have_run<K: SiteKeeper, G: Gate>(runs: &[RunningSite<'_, K, G>]) -> bool
    ensures { result ≡ list_all (λ r. r.ended) runs.now }
{
    runs.iter().all(|run| run.ended)
}

/// Each site takes its turns in a thread of its own, where one can be made. Where sites share threads, they take them
/// in slices, one site after another, until each has ended its run.
pub fn run_all<K: SiteKeeper + Send, G: Gate + Send, R: Threads + Wait + Clock + Sync>(
    rt: &R,
    counts: &RunCounts,
    runs: &mut [RunningSite<'_, K, G>],
    turns: u64,
)
    requires count { 0 < length runs.old }
    requires ready { All IsReady runs.old }
    requires turns { turns ≤ 1000000 }
    ensures { AllZip (Ran K.shown K.reopens G.gives_up K.stored turns) runs.old runs.new }
{
    // A site that goes on made a turn in each slice.
    for _ in 0..turns + 1 {
        run_slices(rt, counts, runs, turns);
        if have_run(runs) {
            break;
        }
    }
}
