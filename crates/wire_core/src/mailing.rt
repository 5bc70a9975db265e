//! What sites do over a wire.

ghost use Rattle.std.specs.Prelude.{◌≡◌, ◌<◌, ◌≤◌, List, [], ◌++◌, length, map, IfOk, MatchOption};
ghost use Rattle.std.specs.Slots.{IsFull};
ghost use Rattle.event_json.specs.declared.limits.TheConstants.{MAX_SITES};
ghost use Rattle.site_recovery.specs.Checking.{records_at};
ghost use Rattle.world_core.specs.Turns.{addressee};
ghost use Rattle.wire_core.specs.declared.views.Log.{Log};
ghost use Rattle.wire_core.specs.Answers.{MatchPost, MayPost, MayTake, MayMark};
ghost use Rattle.wire_core.specs.Changes.{on, asks, offers, sends, receives, marks, below, from, Level, AllBut, OneMore, Sent};
ghost use Rattle.wire_core.specs.Fitting.{RecordsFit};
ghost use Rattle.wire_core.specs.Frames.{sender};
ghost use Rattle.wire_core.specs.Rule.{logs_from};
ghost use Rattle.wire_core.specs.Seats.{IsSeatOf, HoldsAll, AreAllLogs, Gathered};

use crate::calls::{Post, mark_on, post_on, split_on, take_on};
use crate::rules::Opening;
use crate::steps::join;
use crate::wires::{Seat, Wire};
use atomic_table::{Closed, Table};
use event_json::{MAX_SITES, SiteNo};
use frame_core::Frame;
use site_core::{SiteInput, SiteState};
use std::alloc::{AllocError, Global};
use std::snapshot::Snapshot;

impl Wire {
    /// The wire between sites that have these records, 2 to [`MAX_SITES`], in the order of their numbers, and a seat
    /// that holds all of them.
    ///
    /// # Errors
    /// Out of memory. No other call on a wire allocates.
    pub fn new(alloc: Global, records: &[&SiteState]) -> Result<(Wire, Seat), AllocError>
        requires fit { RecordsFit (records_at records.now) [] }
        requires count { (2 ≤ length records.now) × (length records.now ≤ MAX_SITES) }
        ensures { IfOk result (λ r. IsSeatOf r.0 r.1 × (r.0.sites ≡ length records.now)
            × (r.1.logs ≡ logs_from 0 (records_at records.now))
            × (r.0.start ≡ records_at records.now)) }
    {
        let opening = snapshots(alloc, records)?;
        let slots = MAX_SITES * records.len();
        let words = Vec::from_elem(alloc, 0, MAX_SITES + slots)?;
        let (table, token) = Table::vacant(alloc, words.as_slice(), slots, &opening)?;
        Ok((Wire { table }, Seat { token }))
    }

    /// How many sites it joins, 2 to [`MAX_SITES`].
    pub fn sites(&self) -> usize
        ensures count { result ≡ self.now.sites }
        ensures few { (2 ≤ result) × (result ≤ MAX_SITES) }
    {
        self.table.slot_count() / MAX_SITES
    }

    /// Sends a frame that the record last marked of its sender makes emittable, to another site. `Full`, with the
    /// frame, where the last one sent that way still lies in the mailbox or is just being taken: then nothing changed,
    /// but that the frame was offered.
    pub fn post(&self, seat: &mut Seat, frame: Frame) -> Post
        requires seat { IsSeatOf self.now seat.old }
        requires may { MayPost self.now.sites frame seat.old.logs }
        // Not covered: in which order sites move.
        ensures seat { IsSeatOf self.now seat.new }
        ensures answer { MatchPost result
            ((seat.new.logs ≡ on (sender frame) (sends frame) seat.old.logs)
            × Level (sender frame) (addressee frame) seat.old.logs) (λ f. (f ≡ frame)
            × (seat.new.logs ≡ on (sender frame) (offers frame) seat.old.logs)
            × Sent (sender frame) (addressee frame) seat.old.logs
            × OneMore (sender frame) (addressee frame) seat.old.logs) }
    {
        post_on(&self.table.shared, &mut seat.token, frame)
    }

    /// The frame that lies in the mailbox from another site to `me`. `None` where none lies there: then nothing
    /// changed, but that the site was asked.
    pub fn take(&self, seat: &mut Seat, me: SiteNo, other: SiteNo) -> Option<Frame>
        requires seat { IsSeatOf self.now seat.old }
        requires may { MayTake self.now.sites me other seat.old.logs }
        // Not covered: that a full mailbox is ever emptied.
        ensures seat { IsSeatOf self.now seat.new }
        ensures answer { MatchOption result ((seat.new.logs ≡ on me (asks other) seat.old.logs)
            × Level other me seat.old.logs)
            (λ f. (seat.new.logs ≡ on me (receives other f) seat.old.logs) × (sender f ≡ other)
            × (addressee f ≡ me) × AllBut other me f seat.old.logs) }
    {
        take_on(&self.table.shared, &mut seat.token, me, other)
    }

    /// Marks a step of the site that the record names, by an input that is looked at by proofs alone: from now on this
    /// is its record. A site is marked at most 2^62 times.
    pub fn mark(&self, seat: &mut Seat, input: &Snapshot<SiteInput>, new: &SiteState)
        requires seat { IsSeatOf self.now seat.old }
        requires may { MayMark input.now.value new.now seat.old.logs }
        ensures seat { IsSeatOf self.now seat.new }
        ensures marked { seat.new.logs ≡ on new.now.engagement.me (marks input.now.value new.now)
            seat.old.logs }
    {
        mark_on(&self.table.shared, &mut seat.token, input, new);
    }

    /// The sites below `at`, and the others. Either seat may come to hold none.
    pub fn split(&self, seat: Seat, at: SiteNo) -> (Seat, Seat)
        requires { IsSeatOf self.now seat }
        ensures seats { IsSeatOf self.now result.0 × IsSeatOf self.now result.1 }
        ensures parts { (result.0.logs ≡ below at seat.logs) × (result.1.logs ≡ from at seat.logs) }
    {
        let Seat { mut token } = seat;
        let other = split_on(&self.table.shared, &mut token, at);
        (Seat { token }, Seat { token: other })
    }

    /// The sites of both seats.
    pub fn join(&self, seat: Seat, other: Seat) -> Seat
        requires { IsSeatOf self.now seat × IsSeatOf self.now other }
        ensures seat { IsSeatOf self.now result }
        ensures sites { result.logs ≡ seat.logs ++ other.logs }
    {
        let Seat { mut token } = seat;
        let Seat { token: other } = other;
        join(&self.table.shared, &mut token, other);
        Seat { token }
    }

    /// Ends the wire, by a seat that holds all sites. What they did is a run of the world: from the records that the
    /// wire was made with to those last marked, it handed to each site the inputs marked of it, and sent the frames
    /// that were posted. What still lies in a mailbox is lost.
    pub fn close(self, seat: Seat)
        requires { IsSeatOf self seat × HoldsAll self.sites seat.logs }
        // What the sites did is a run of the world, from the records that the wire was made with.
        ensures { (all : List Log) × AreAllLogs self.sites seat.logs all × Gathered self.start all }
    {
        let Wire { table } = self;
        let Seat { token } = seat;
        discard(table.close_with(token));
    }
}

/// The records, for proofs alone.
fn snapshots(alloc: Global, records: &[&SiteState]) -> Result<Opening, AllocError>
    ensures { IfOk result (λ v. map (λ s. s.value) v.items ≡ records_at records.now) }
{
    let mut opening = Vec::new(alloc);
    for record in records {
        opening.push(Snapshot::of(*record))?;
    }
    Ok(opening)
}

/// Drops the frames that lie in the slots, and frees the table.
fn discard(mut closed: Closed<Option<Frame>, Global>)
    requires { IsFull closed.words × IsFull closed.slots }
{
    let mut i = 0;
    while i < closed.slot_count() {
        drop(closed.take(i));
        i += 1;
    }
    closed.free();
}
