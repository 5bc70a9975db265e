//! One turn of a site.
ghost use Rattle.std.specs.Prelude.{◌≡◌, ◌+◌, ◌++◌, ◌^◌, ◌<◌, ◌≤◌, Some, IfOk, IfErr, IfSome, IsSome, Option, map, option_map};
ghost use Rattle.site_core.specs.Records.{Record};
ghost use Rattle.site_threads.specs.Answering.{Delivers, DoesJob, Opened};
ghost use Rattle.site_threads.specs.Jobs.{entry_of, jobs_in, option_items, receipts_in};
ghost use Rattle.site_threads.specs.Keepers.{shown_if};
ghost use Rattle.site_threads.specs.Passing.{AnswersInTurn, PassNothing, PostsAfterTaking, TakesAfterJob, incoming};
ghost use Rattle.site_threads.specs.Running.{marks_in};
ghost use Rattle.site_threads.specs.Sites.{Continues, at_next_turn};
ghost use Rattle.site_threads.specs.Turns.{HindersTurn, lost};

use crate::gates::{Gate, Pass};
use crate::jobs::{Job, Ready, Receipt};
use crate::sites::RunningSite;
use keeper_core::{KeepFault, SiteKeeper};
use thiserror::Error;

/// Why a turn was not made.
#[derive(Debug, Drop, Error)]
pub enum TurnCause {
    /// Memory ran out.
    #[error("memory ran out")]
    NoMemory,
    /// The gate gave up.
    #[error("the gate gave up")]
    GaveUp,
    /// The keeper was closed, and couldn't be opened again.
    #[error("the site is lost: {0}")]
    Lost(KeepFault),
}

/// A turn that was not made, and its job.
#[derive(Debug, Drop, Error)]
#[error("{cause}")]
pub struct TurnFault {
    pub cause: TurnCause,
    /// The job that was given.
    pub job: Option<Job>,
}

/// What was done in a turn.
#[derive(Drop)]
pub struct TurnReport {
    /// The receipt of the job that was given.
    pub receipt: Option<Receipt>,
    /// How many of the frames that were taken were entered.
    pub applied: u64,
    /// How many of them were lost, since memory ran out in their step.
    pub lost: u64,
    /// How many frames were posted.
    pub posted: u64,
    /// How many frames weren't offered, since memory ran out for their copies.
    pub uncopied: u64,
}

impl<K: SiteKeeper, G: Gate> RunningSite<'_, K, G> {
    /// One turn: the site does the job, asks each other site once, in the order of their numbers, takes at most one
    /// frame from each, and posts at most one to each. It waits for nobody.
    ///
    /// A frame that is taken is entered, or counted as lost where its step found no memory. To each other site it
    /// offers the signal of the message that it took from there in this turn, where that may be sent; else its next
    /// message for that site: the one of the least number behind the message posted there last, and where there is
    /// none, the one of the least number of all. Where memory runs out for the copy of such a frame, it isn't offered,
    /// and is counted. A frame that is offered is posted, unless the last one that went that way still lies in its
    /// mailbox. A step in which the site stops is the last one of the turn: from then on nobody is asked, no frame is
    /// taken, and none is offered.
    ///
    /// First the gate is asked, and a closed keeper is opened again. Each step is marked on the wire after its keeper
    /// answered it and before a frame is posted; as the turn returns, the record last marked is the one that the keeper
    /// shows, or, while it is closed, the one before the step in which it stopped. The site is marked at most 18 times.
    ///
    /// # Errors
    /// `NoMemory`, `GaveUp` where the gate gave up, or `Lost` where the keeper was closed and an opening of it was
    /// refused; each gives the job back, and nothing was done but the opening, and the mark that belongs to it.
    pub fn turn(&mut self, job: Option<Job>) -> Result<TurnReport, TurnFault>
        requires few { marks_in self.old.seat.logs < 2 ^ 61 }
        ensures same { Continues K.stored 18 (at_next_turn self.old) self.new }
        ensures job { IfOk result (λ report. (option_map (λ x. x.job) report.receipt ≡ job)
            × IfSome report.receipt (λ x. x.site ≡ self.old.me)) }
        // A step of a turn is a stop exactly where the keeper is closed after it, and no step of that turn comes behind
        // it.
        //
        // All other sites are asked where the keeper is open after the turn, none where it is closed after the job, and
        // else all up to the one whose frame it stopped in.
        //
        // The frames that it notes from the wire are for it, at most one from each other site; as many steps as it
        // counts come of them, and those that it counts as lost are the others.
        ensures entered { IfOk result (TakesAfterJob K.shown self.old self.new) }
        // The frame for another site is the signal of the message that was taken from there in this turn, where the
        // record that the keeper shows makes it emittable; else the message that waits for a signal of that site and
        // has the least number behind the message posted there last; else the one of the least number of all.
        //
        // Just these frames are offered, ascending by site, but for so many as are counted for want of memory for their
        // copies; none while the keeper is closed. Those that went are the frames sent, as many as are counted. Each
        // goes from the site to another, and the record makes it emittable.
        // Not covered: that memory ran out for a copy that is counted so: no clause of an allocation says when it
        // fails.
        ensures sent { IfOk result (PostsAfterTaking K.shown self.old self.new) }
        // A job's reply says what the keeper was asked and returned, by what its kind promises.
        //
        // From there on the keeper was asked for the step of each frame that was noted, one after another. The step was
        // entered with what is reported of the answer; or memory ran out, for a frame for which the keeper copies its
        // record, and that frame is lost. No other is.
        // Not covered: when a keeper answers that memory ran out: that is said by its kind.
        ensures answers { IfOk result (AnswersInTurn K.shown K.may K.applies K.reopens self.old
            self.new) }
        // A turn that is done adds the job with its reply, and its receipt names just that step; and then one step for
        // each frame that it counts, and nothing else.
        ensures jobs { IfOk result (λ report. jobs_in self.new.entries ≡ jobs_in self.old.entries ++
            option_items job) }
        ensures receipts { IfOk result (λ report. receipts_in self.old.me self.new.entries
            ≡ receipts_in self.old.me self.old.entries ++ option_items report.receipt) }
        ensures posted { IfOk result (λ report. report.posted +
            report.uncopied ≤ self.old.wire.sites) }
        // A turn that isn't made (`NoMemory`, `GaveUp`, `Lost`) gives its job back, asks nobody, offers, notes and
        // sends no frame, and leaves the list, and an open keeper's record, as they were.
        ensures back { IfErr result (λ fault. (fault.job ≡ job)
            × (self.new.entries ≡ self.old.entries)
            × PassNothing self.old self.new) }
        ensures unchanged { IfErr result (λ fault. (r : Record)
            → shown_if K.shown self.old.keeper ≡ Some r → shown_if K.shown self.new.keeper ≡ Some
            r) }
        // `GaveUp` comes only where the gate, asked for that turn, gave up by the meaning that its kind gives to that;
        // and `Lost` only where the keeper was closed and `reopen` refused it, for another reason than memory.
        ensures why { IfErr result (λ fault. HindersTurn K.shown K.reopens G.gives_up fault.cause
            self.old.gate self.new.me self.new.turns self.old.keeper self.new.keeper) }
    {
        if let Err(cause) = self.begin() {
            return Err(TurnFault { cause, job });
        }
        let room = self.wire.sites() + 1;
        if self.entries.reserve(room).is_err() {
            return Err(TurnFault {
                cause: TurnCause::NoMemory,
                job,
            });
        }
        match Ready::of(self.alloc, job) {
            Err(job) => Err(TurnFault {
                cause: TurnCause::NoMemory,
                job,
            }),
            Ok(ready) => self.go_on(ready),
        }
    }

    /// What a turn begins with: the gate, and the opening of a closed keeper.
    fn begin(&mut self) -> Result<(), TurnCause>
        requires few { marks_in self.old.seat.logs < 2 ^ 62 }
        ensures same { Continues K.stored 1 (at_next_turn self.old) self.new }
        ensures entries { self.new.entries ≡ self.old.entries }
        ensures passes { PassNothing self.old self.new }
        ensures open { IfOk result (λ _. IsSome (shown_if K.shown self.new.keeper)) }
        ensures opened { IfOk result (λ _. Opened K.shown K.reopens self.old.keeper
            self.new.keeper) }
        ensures stays { (r : Record) → shown_if K.shown self.old.keeper ≡ Some r
            → shown_if K.shown self.new.keeper ≡ Some r }
        ensures why { IfErr result (λ cause. HindersTurn K.shown K.reopens G.gives_up cause
            self.old.gate self.new.me self.new.turns self.old.keeper self.new.keeper) }
    {
        self.turns = self.turns.saturating_add(1);
        match self.gate.enter(self.me, self.turns) {
            Pass::GiveUp => Err(TurnCause::GaveUp),
            Pass::Go => match self.open_again() {
                Ok(()) => Ok(()),
                Err(fault) => Err(lost(fault)),
            },
        }
    }

    /// What a turn continues with: the job, and the frames.
    fn go_on(&mut self, ready: Option<Ready>) -> Result<TurnReport, TurnFault>
        requires few { marks_in self.old.seat.logs < 2 ^ 61 + 1 }
        requires open { IsSome (shown_if K.shown self.old.keeper) }
        requires room { self.old.wire.sites + 1 ≤ self.old.room }
        ensures same { Continues K.stored 17 self.old self.new }
        ensures job { IfOk result (λ report. (option_map (λ x. x.job) report.receipt ≡ option_map
            (λ x. x.job) ready) × IfSome report.receipt (λ x. x.site ≡ self.old.me)) }
        ensures entered { IfOk result (TakesAfterJob K.shown self.old self.new) }
        ensures sent { IfOk result (PostsAfterTaking K.shown self.old self.new) }
        ensures answers { IfOk result (λ report. (left : Option K)
            × DoesJob K.shown K.may K.applies self.old.keeper report.receipt left
            × Delivers K.shown K.may K.applies left self.new.keeper
            (incoming self.old.seat.logs).noted (incoming self.new.seat.logs).noted
            (self.old.entries ++ map entry_of (option_items report.receipt)) self.new.entries) }
        ensures posted { IfOk result (λ report. report.posted +
            report.uncopied ≤ self.old.wire.sites) }
        ensures back { IfErr result (λ fault. (fault.job ≡ option_map (λ x. x.job) ready)
            × (self.new.entries ≡ self.old.entries)
            × PassNothing self.old self.new × (fault.cause ≡ TurnCause.NoMemory)
            × (shown_if K.shown self.new.keeper ≡ shown_if K.shown self.old.keeper)) }
    {
        match self.do_job(ready) {
            Err(job) => Err(TurnFault {
                cause: TurnCause::NoMemory,
                job: Some(job),
            }),
            Ok(receipt) => {
                let received = self.receive_all();
                let given = self.send_all();
                Ok(TurnReport {
                    receipt,
                    applied: received.entered,
                    lost: received.lost,
                    posted: given.posted,
                    uncopied: given.uncopied,
                })
            }
        }
    }
}

/// Why a site that couldn't be opened makes no turn.
pub(crate) fn lost(fault: KeepFault) -> TurnCause
    ensures { result ≡ lost fault }
{
    match fault {
        KeepFault::NoMemory => TurnCause::NoMemory,
        fault => TurnCause::Lost(fault),
    }
}
