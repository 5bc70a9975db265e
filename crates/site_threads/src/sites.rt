//! One running site: as it begins, opening it again, a step of it, and what it leaves.
ghost use Rattle.std.specs.Prelude.{◌≡◌, ◌+◌, ◌^◌, ◌<◌, [], ◌∷◌, ◌++◌, Some, None, Err, IfOk, IfErr, IfSome, IsSome, is_some, not, false, length, map, option_map};
ghost use Rattle.keeper_core.specs.Keeping.{Applies, HindersOpening};
ghost use Rattle.site_core.specs.Records.{Record};
ghost use Rattle.site_core.specs.Steps.{CopiesRecord};
ghost use Rattle.wire_core.specs.Seats.{IsSeatOf};
ghost use Rattle.site_threads.specs.Answering.{DoesJob, IsShort, Opened, AnsweredStep};
ghost use Rattle.site_threads.specs.Ends.{IsOut};
ghost use Rattle.site_threads.specs.Jobs.{entry_of, is_stop, open_after, option_items};
ghost use Rattle.site_threads.specs.Keepers.{shown_if, may_if};
ghost use Rattle.site_threads.specs.Parting.{HasKeeper, LeavesList};
ghost use Rattle.site_threads.specs.Passing.{PassNothing};
ghost use Rattle.site_threads.specs.Running.{MayDeliver, marks_in};
ghost use Rattle.site_threads.specs.Sites.{Continues, IsSite};
ghost use Rattle.site_threads.specs.Starting.{IsLastMarked};
ghost use Rattle.site_threads.specs.Turns.{IsRefused};

use crate::asked::Asked;
use crate::desks::DeskOut;
use crate::following::{follow, follow_shown, view_of};
use crate::gates::Gate;
use crate::jobs::{Entry, Job, Ready, Receipt, Reply, answered, is_delivery};
use crate::lists::RunLog;
use crate::rounds::Round;
use crate::stamps::{Stamp, stamp_of};
use crate::turns::TurnCause;
use event_json::{MAX_SITES, SiteNo};
use frame_core::MsgId;
use keeper_core::{KeepFault, SiteKeeper};
use site_core::{Effects, SiteInput, SiteState};
use std::alloc::Global;
use std::marker::Model;
use std::snapshot::Snapshot;
use wire_core::{Seat, Wire};

/// A running site: its keeper, the seat that holds it alone, the list of its steps, the gate to its turns, and the desk
/// that it takes its jobs from.
///
/// Between any two calls its seat is one of its wire, the steps lead to the record last marked, and that is the one
/// that the keeper shows; or the keeper is closed since the last step, and may be opened in that record or in the one
/// after it.
#[derive(Drop)]
pub struct RunningSite<'w, K: SiteKeeper, G: Gate> {
    /// The wire that it is at.
    pub(crate) wire: &'w Wire,
    /// Its seat there.
    pub(crate) seat: Seat,
    /// Its number.
    pub(crate) me: SiteNo,
    /// Its keeper. None only within a call that opens it again.
    pub(crate) keeper: Option<K>,
    /// The stamp of the record last marked.
    pub(crate) stamp: Stamp,
    /// The steps of this run, in order.
    pub(crate) entries: Vec<Entry>,
    /// The record that it began with, for proofs alone.
    pub(crate) start: Snapshot<SiteState>,
    /// Its seat before its first turn, for proofs alone.
    pub(crate) first: Snapshot<Seat>,
    /// By site, the message that was taken from it in this turn.
    pub(crate) owed: [Option<MsgId>; MAX_SITES],
    /// By site, how far its messages were posted.
    pub(crate) rounds: [Round; MAX_SITES],
    pub(crate) gate: G,
    /// How many turns the gate was asked for. At 2^64 - 1 the count stays.
    pub(crate) turns: u64,
    /// Its end of its desk.
    pub(crate) out: DeskOut,
    /// A job that a turn gave back.
    pub(crate) pending: Option<Job>,
    /// Why the site ended its run before its time.
    pub(crate) fault: Option<TurnCause>,
    /// Whether it counts among the sites that may have an open recall of their own, or begin one.
    pub(crate) counted: bool,
    /// Whether it has ended its run, and makes no further turn.
    pub(crate) ended: bool,
    pub(crate) alloc: Global,
}

impl<'w, K: SiteKeeper, G: Gate> Model for RunningSite<'w, K, G> {
    ghost use Rattle.std.specs.Coded.{codes};
    ghost use Rattle.site_core.specs.Codes.{coded_record};
    ghost use Rattle.wire_core.specs.Seats.{coded_line, coded_seat};
    ghost use Rattle.site_threads.specs.Sites.{Running, IsSite};

    ghost Value = { Running K G };

    ghost coded = { Prim.hlevel (codes, coded_record, coded_line, coded_seat) };

    ghost use Rattle.site_threads.specs.Views.{running};

    ghost view = { running };

    ghost invariant = { λ s. IsSite K.shown K.may (running s) };
}

impl<'w, K: SiteKeeper, G: Gate> RunningSite<'w, K, G> {
    /// The site `me`, which the seat holds alone, with its keeper, open in the record last marked, the gate to its
    /// turns, and its end of a desk. Its list of steps is empty. Does not allocate.
    pub fn new(
        alloc: Global,
        wire: &'w Wire,
        keeper: K,
        gate: G,
        out: DeskOut,
        seat: Seat,
        me: SiteNo,
    ) -> RunningSite<'w, K, G>
        requires seat { IsSeatOf wire.now seat }
        requires start { (r : Record) × (K.shown keeper ≡ Some r) × IsLastMarked seat.logs me r }
        requires desk { IsOut out }
        ensures seat { (result.wire ≡ wire.now) × (result.me ≡ me) × (result.seat ≡ seat)
            × (result.first ≡ seat) }
        ensures start { (result.keeper ≡ Some keeper) × (Some result.start ≡ K.shown keeper)
            × (result.entries ≡ []) }
        ensures desk { (result.out ≡ out) × (result.pending ≡ None) }
        ensures turns { (result.turns ≡ 0) × (result.fault ≡ None) × (result.ended ≡ false) }
    {
        let Some(state) = keeper.view() else {
            unreachable!()
        };
        let stamp = stamp_of(state);
        let start = Snapshot::of(state);
        let first = Snapshot::of(&seat);
        RunningSite {
            wire,
            seat,
            me,
            keeper: Some(keeper),
            stamp,
            entries: Vec::new(alloc),
            start,
            first,
            owed: [None; MAX_SITES],
            rounds: [Round::new(); MAX_SITES],
            gate,
            turns: 0,
            out,
            pending: None,
            fault: None,
            counted: true,
            ended: false,
            alloc,
        }
    }

    /// The keeper, the seat, and what else is left of the site's run.
    pub fn finish(self) -> (K, Seat, RunLog)
        ensures site { IsSite K.shown K.may self.entry }
        ensures keeper { HasKeeper self.entry result.0 }
        ensures seat { result.1 ≡ self.entry.seat }
        ensures list { LeavesList self.entry result.2 }
    {
        let RunningSite {
            seat,
            me: site,
            keeper,
            entries,
            start,
            out,
            pending,
            turns,
            fault,
            ..
        } = self;
        let Some(keeper) = keeper else { unreachable!() };
        let list = RunLog {
            site,
            entries,
            start,
            out,
            pending,
            turns,
            fault,
        };
        (keeper, seat, list)
    }

    /// The record that the keeper shows. `None` while it is closed.
    pub fn view(&self) -> Option<&SiteState>
        ensures { option_map (λ r. r.now) result ≡ shown_if K.shown self.now.keeper }
    {
        view_of(&self.keeper)
    }

    /// Opens the keeper again, where it is closed, and marks the step in which it stopped, where that was kept.
    ///
    /// # Errors
    /// What keeps it from being opened; it is closed then as before.
    pub(crate) fn open_again(&mut self) -> Result<(), KeepFault>
        requires few { marks_in self.old.seat.logs < 2 ^ 62 }
        ensures same { Continues K.stored 1 self.old self.new }
        ensures entries { self.new.entries ≡ self.old.entries }
        ensures passes { PassNothing self.old self.new }
        ensures open { IfOk result (λ _. IsSome (shown_if K.shown self.new.keeper)) }
        ensures opened { IfOk result (λ _. Opened K.shown K.reopens self.old.keeper
            self.new.keeper) }
        ensures stays { (r : Record) → shown_if K.shown self.old.keeper ≡ Some r
            → shown_if K.shown self.new.keeper ≡ Some r }
        ensures closed { IfErr result (λ fault. HindersOpening fault
            × IsRefused K.shown K.reopens fault self.old.keeper self.new.keeper) }
    {
        if view_of(&self.keeper).is_some() {
            return Ok(());
        }
        let Some(keeper) = self.keeper.take() else {
            unreachable!()
        };
        match keeper.reopen() {
            Err(unopened) => {
                self.keeper = Some(unopened.keeper);
                Err(unopened.fault)
            }
            Ok(keeper) => {
                let Some(record) = keeper.view() else {
                    unreachable!()
                };
                let Some(entry) = self.entries.last() else {
                    unreachable!()
                };
                self.stamp = follow(
                    self.wire,
                    &mut self.seat,
                    self.stamp,
                    entry.input.input(),
                    record,
                );
                self.keeper = Some(keeper);
                Ok(())
            }
        }
    }

    /// Applies an input, marks the step and enters it, with what is kept of the input.
    ///
    /// # Errors
    /// What was to be kept, where there is no memory: nothing was done.
    pub(crate) fn take_in(&mut self, input: SiteInput, asked: Asked) -> Result<Reply, Asked>
        requires few { marks_in self.old.seat.logs < 2 ^ 62 }
        requires open { IsSome (shown_if K.shown self.old.keeper) }
        requires asked { asked ≡ input }
        requires noted { MayDeliver input self.old.seat.logs }
        requires room { 0 < self.old.room }
        ensures same { Continues K.stored 1 self.old self.new }
        ensures entered { IfOk result (λ reply. self.new.entries ≡ self.old.entries ++
            (record { number = length self.old.entries + 1; input = asked; reply = reply }) ∷ []) }
        ensures told { IfOk result (λ reply. AnsweredStep K.shown K.may K.applies self.old.keeper
            input reply self.new.keeper) }
        ensures stopped { IfOk result (λ reply. is_some (shown_if K.shown self.new.keeper) ≡ not
            (is_stop reply)) }
        ensures passes { PassNothing self.old self.new }
        ensures owed { self.new.owed ≡ self.old.owed }
        ensures back { IfErr result (λ back. (back ≡ asked) × (self.new.entries ≡ self.old.entries)
            × (shown_if K.shown self.new.keeper ≡ shown_if K.shown self.old.keeper)) }
        ensures short { IfErr result (λ _. IsShort K.shown K.may K.applies self.old.keeper input
            self.new.keeper) }
    {
        let frame = is_delivery(&input);
        let Some(reply) = answered(apply_to(&mut self.keeper, input), frame) else {
            return Err(asked);
        };
        self.stamp = follow_shown(
            &self.keeper,
            self.wire,
            &mut self.seat,
            self.stamp,
            asked.input(),
        );
        let number = self.entries.len() as u64 + 1;
        let entered = reply.same();
        // There is room for it.
        let _ = self.entries.push(Entry {
            number,
            input: asked,
            reply: entered,
        });
        Ok(reply)
    }

    /// Does a job, and gives its receipt.
    ///
    /// # Errors
    /// The job, where there is no memory: nothing was done.
    pub(crate) fn do_job(&mut self, ready: Option<Ready>) -> Result<Option<Receipt>, Job>
        requires few { marks_in self.old.seat.logs < 2 ^ 62 }
        requires open { IsSome (shown_if K.shown self.old.keeper) }
        requires room { 0 < self.old.room }
        ensures same { Continues K.stored 1 self.old self.new }
        ensures job { IfOk result (λ receipt.
            (option_map (λ x. x.job) receipt ≡ option_map (λ x. x.job) ready)
            × IfSome receipt (λ x. x.site ≡ self.old.me)) }
        ensures entered { IfOk result (λ receipt. self.new.entries ≡ self.old.entries ++ map
            entry_of (option_items receipt)) }
        ensures told { IfOk result (λ receipt. DoesJob K.shown K.may K.applies self.old.keeper
            receipt self.new.keeper) }
        ensures stopped { IfOk result (λ receipt. is_some
            (shown_if K.shown self.new.keeper) ≡ open_after receipt) }
        ensures passes { PassNothing self.old self.new }
        ensures back { IfErr result (λ job. (Some job ≡ option_map (λ x. x.job) ready)
            × (self.new.entries ≡ self.old.entries)
            × (shown_if K.shown self.new.keeper ≡ shown_if K.shown self.old.keeper)) }
    {
        let Some(ready) = ready else {
            return Ok(None);
        };
        let Ready {
            job,
            entry,
            receipt,
        } = ready;
        let site = self.me;
        let number = self.entries.len() as u64 + 1;
        let input = job.into_input();
        let asked = Asked::of(&input, Some(entry));
        match self.take_in(input, asked) {
            Err(asked) => {
                drop(asked);
                Err(receipt)
            }
            Ok(reply) => Ok(Some(Receipt {
                site,
                number,
                job: receipt,
                reply,
            })),
        }
    }
}

/// A step of an open keeper.
fn apply_to<K: SiteKeeper>(keeper: &mut Option<K>, input: SiteInput) -> Result<Effects, KeepFault>
    requires { IsSome (shown_if K.shown keeper.old) }
    ensures step { (old : Record) → shown_if K.shown keeper.old ≡ Some old
        → Applies old input result (shown_if K.shown keeper.new) (may_if K.may keeper.new) }
    ensures asked { (k : K) → keeper.old ≡ Some k → (left : K) × (keeper.new ≡ Some left)
        × K.applies k input result left }
    ensures memory { (r : Record) → shown_if K.shown keeper.old ≡ Some r
        → result ≡ Err KeepFault.NoMemory → CopiesRecord r input }
    ensures there { IsSome keeper.new }
    ensures stored { IfSome keeper.old K.stored → IfSome keeper.new K.stored }
{
    match keeper {
        None => Err(KeepFault::Closed),
        Some(keeper) => keeper.apply(input),
    }
}
