//! Jobs for a site from another thread, and their receipts back.
ghost use Rattle.std.specs.Prelude.{◌≡◌, ◌<◌, ◌≤◌, true, false, [], ◌∷◌, ◌++◌, length, take, IfOk, IfSome, IsTrue, ◌↔◌, MatchResult};
ghost use Rattle.site_threads.specs.Desks.{is_spent, fault_job};
ghost use Rattle.site_threads.specs.Jobs.{option_items};
ghost use Rattle.site_threads.specs.Ends.{puts, takes, hears, tells, IsDesk, IsOut, IsUnused, AreEnds, AreFirst, SameDesk, SameOut, SendsReceipt};

use crate::jobs::{Job, Receipt};
use crossbeam_channel::protocol::{Join, Lesson, Outcome, Protocol, Split};
use crossbeam_channel::{Pass, RuledReceiver, RuledSender, TryRecvError, bounded_with};
use std::alloc::{AllocError, Global};
use std::collections::LinkedList;
use std::sync::Wait;
use thiserror::Error;

/// What a pass may do, put and take, and what it has put and taken. No value of it is made.
pub struct Hand<T> {
    pub puts: bool,
    pub takes: bool,
    pub put: LinkedList<T>,
    pub taken: LinkedList<T>,
}

/// What was put is what was taken, and then what is still to be taken.
pub struct InOrder;

impl<T> Protocol<T, Hand<T>> for InOrder {
    ghost use Rattle.std.specs.Prelude.{true, []};
    ghost use Rattle.site_threads.specs.Desks.{hand, WasHandedOn};

    ghost holds = { WasHandedOn };

    ghost first = { hand true true [] [] };
}

/// Parts a pass into one that may put and one that may take, and joins them.
pub struct Roles;

impl<T> Split<Hand<T>> for Roles {
    ghost use Rattle.std.specs.Prelude.{true, false, []};
    ghost use Rattle.site_threads.specs.Desks.{hand};

    ghost left = { λ v. hand true false v.put [] };

    ghost right = { λ v. hand false true [] v.taken };
}

impl<T> Join<Hand<T>> for Roles {
    ghost use Rattle.std.specs.Prelude.{true, false, []};
    ghost use Rattle.site_threads.specs.Desks.{hand};

    ghost both = { λ v w. hand true true v.put w.taken };

    ghost spent = { hand false false [] [] };
}

/// One more was put.
pub struct Puts;

impl<T> Outcome<T, Hand<T>> for Puts {
    ghost use Rattle.site_threads.specs.Desks.{hand};

    ghost then = { λ v x w. w ≡ hand v.puts v.takes (v.put ++ x ∷ []) v.taken };
}

impl<T> Lesson<T, Hand<T>> for Puts {
    ghost use Rattle.std.specs.Prelude.{⊤};

    ghost fact = { λ v items. ⊤ };
}

/// One more was taken.
pub struct Takes;

impl<T> Outcome<T, Hand<T>> for Takes {
    ghost use Rattle.site_threads.specs.Desks.{hand};

    ghost then = { λ v x w. w ≡ hand v.puts v.takes v.put (v.taken ++ x ∷ []) };
}

impl<T> Lesson<T, Hand<T>> for Takes {
    ghost use Rattle.std.specs.Prelude.{⊤};

    ghost fact = { λ v items. ⊤ };
}

/// A pass that may do both knows what is still to be taken.
pub struct Total;

impl<T> Lesson<T, Hand<T>> for Total {
    ghost fact = { λ v items. v.put ≡ v.taken ++ items };
}

/// Why a job wasn't put. It comes back.
#[derive(Debug, Drop, Error)]
pub enum DeskFault {
    /// As many jobs were put as the desk takes in its life.
    #[error("the desk takes no more jobs")]
    Spent(Job),
    /// The channel reported that the other end was dropped.
    #[error("the site's end of the desk is gone")]
    Gone(Job),
}

/// The end of a desk that puts jobs for a site, and gets their receipts.
#[derive(Drop)]
pub struct Desk {
    pub to: RuledSender<Job, Hand<Job>, InOrder>,
    pub pass: Pass<Job, Hand<Job>>,
    pub receipts: RuledReceiver<Receipt, Hand<Receipt>, InOrder>,
    pub listener: Pass<Receipt, Hand<Receipt>>,
    /// How many jobs were put.
    pub count: u64,
    /// How many it takes in its life.
    pub limit: u64,
}

/// The site's end of a desk.
#[derive(Drop)]
pub struct DeskOut {
    pub from: RuledReceiver<Job, Hand<Job>, InOrder>,
    pub pass: Pass<Job, Hand<Job>>,
    pub receipts: RuledSender<Receipt, Hand<Receipt>, InOrder>,
    pub teller: Pass<Receipt, Hand<Receipt>>,
    /// How many jobs were taken.
    pub count: u64,
    /// How many there can be.
    pub limit: u64,
    /// Whether this end counts the desk as gone, so that no job comes from it any more: as many were taken as there can
    /// be, or the channel reported that the other end was dropped, and that no job is left.
    pub gone: bool,
    /// Whether the channel reported, as a receipt was to be sent, that the other end was dropped: none is sent any
    /// more.
    pub dropped: bool,
}

impl Desk {
    /// A desk that takes `limit` jobs in its life, 1 to 1,000, and its other end.
    ///
    /// # Errors
    /// Out of memory. No other call on a desk allocates.
    pub fn new(alloc: Global, limit: u64) -> Result<(Desk, DeskOut), AllocError>
        requires { (1 ≤ limit) × (limit ≤ 1000) }
        ensures ends { IfOk result (λ r. IsDesk r.0 × IsOut r.1 × AreEnds r.0 r.1) }
        ensures start { IfOk result (λ r. (puts r.0 ≡ []) × (hears r.0 ≡ []) × IsUnused r.1
            × (r.0.limit ≡ limit)) }
        ensures held { IfOk result (λ r. (r.1.gone ≡ false) × (r.1.dropped ≡ false)) }
    {
        let room = limit as usize;
        let (to, from, mut pass) = bounded_with::<Job, Hand<Job>, InOrder, Global>(alloc, room)?;
        let taker = to.another::<Roles>(&mut pass);
        let (tells, receipts, mut teller) = bounded_with::<Receipt, Hand<Receipt>, InOrder, Global>(
            alloc, room,
        )?;
        let listener = tells.another::<Roles>(&mut teller);
        Ok((
            Desk {
                to,
                pass,
                receipts,
                listener,
                count: 0,
                limit,
            },
            DeskOut {
                from,
                pass: taker,
                receipts: tells,
                teller,
                count: 0,
                limit,
                gone: false,
                dropped: false,
            },
        ))
    }

    /// Puts a job. Its place at this desk, from 1.
    ///
    /// # Errors
    /// `Spent` exactly after as many jobs as the desk takes, and `Gone`; both with the job, and nothing changed.
    pub fn put<R: Wait>(&mut self, rt: &R, job: Job) -> Result<u64, DeskFault>
        requires { IsDesk self.old }
        // Not covered: `Gone` may come at any time.
        ensures desk { IsDesk self.new × SameDesk self.old self.new }
        ensures heard { hears self.new ≡ hears self.old }
        ensures put { MatchResult result (λ place. (puts self.new ≡ puts self.old ++ job ∷ [])
            × (place ≡ length (puts self.new)) × (length (puts self.old) < self.old.limit))
            (λ fault. (fault_job fault ≡ job) × (puts self.new ≡ puts self.old)
            × (IsTrue (is_spent fault) ↔ (length (puts self.old) ≡ self.old.limit))) }
    {
        if self.count == self.limit {
            return Err(DeskFault::Spent(job));
        }
        match self.to.send_as::<Puts, R>(rt, &mut self.pass, job) {
            Ok(()) => {
                self.count += 1;
                Ok(self.count)
            }
            Err(fault) => Err(DeskFault::Gone(fault.into_inner())),
        }
    }

    /// The next receipt, waited for. `None` where the channel reported that the other end was dropped.
    ///
    /// Once the run has ended, [`RunLog::settle`](crate::RunLog::settle) says which receipts these were.
    pub fn receipt<R: Wait>(&mut self, rt: &R) -> Option<Receipt>
        requires { IsDesk self.old }
        ensures desk { IsDesk self.new × SameDesk self.old self.new
            × (puts self.new ≡ puts self.old) }
        ensures heard { hears self.new ≡ hears self.old ++ option_items result }
    {
        self.receipts
            .recv_as::<Takes, R>(rt, &mut self.listener)
            .ok()
    }
}

impl DeskOut {
    /// An end of a desk at which no job is ever put.
    ///
    /// # Errors
    /// Where there is no memory for it.
    pub fn none(alloc: Global) -> Result<DeskOut, AllocError>
        ensures { IfOk result (λ o. IsUnused o × (o.limit ≡ 0) × (o.gone ≡ true)) }
    {
        let (_, from, pass) = bounded_with::<Job, Hand<Job>, InOrder, Global>(alloc, 1)?;
        let (receipts, _, teller) = bounded_with::<Receipt, Hand<Receipt>, InOrder, Global>(
            alloc, 1,
        )?;
        Ok(DeskOut {
            from,
            pass,
            receipts,
            teller,
            count: 0,
            limit: 0,
            gone: true,
            dropped: false,
        })
    }

    /// The next job, if one is there. With the last one that there can be the desk counts as gone; where none is there
    /// it may count as gone from then on.
    pub fn next<R: Wait>(&mut self, rt: &R) -> Option<Job>
        requires { IsOut self.old }
        ensures out { IsOut self.new × SameOut self.old self.new }
        ensures taken { takes self.new ≡ takes self.old ++ option_items result }
        ensures told { (tells self.new ≡ tells self.old) × (self.new.dropped ≡ self.old.dropped) }
        ensures held { IfSome result (λ _. length (takes self.new) < self.new.limit
            → self.new.gone ≡ self.old.gone) }
        // The call that returns the last job that the desk takes in its life counts the desk as gone, no other call
        // that returns a job changes that, and what counts as gone stays so.
        // Not covered: that the channel says so only once the other end was dropped and no job is left.
        ensures gone { IsTrue self.old.gone → IsTrue self.new.gone }
        ensures spent { length (takes self.new) ≡ self.new.limit → IsTrue self.new.gone }
    {
        if self.count == self.limit {
            return None;
        }
        match self.from.try_recv_as::<Takes, R>(rt, &mut self.pass) {
            Ok(job) => {
                self.count += 1;
                self.gone = self.gone || self.count == self.limit;
                Some(job)
            }
            Err(why) => {
                self.gone = self.gone || matches!(why, TryRecvError::Disconnected);
                None
            }
        }
    }

    /// Sends a receipt back, unless the channel reports that the other end was dropped, or did so before. There is room
    /// for a receipt of each job, so that this doesn't wait.
    pub fn tell<R: Wait>(&mut self, rt: &R, receipt: Receipt)
        requires { IsOut self.old }
        ensures out { IsOut self.new × SameOut self.old self.new }
        ensures taken { (takes self.new ≡ takes self.old) × (self.new.gone ≡ self.old.gone) }
        // The site sends the receipt of each job that it does, in order, and no other; where its channel reports that
        // the desk was dropped, none from then on, and its end of the desk says so.
        // Not covered: that the channel says so only once the desk was dropped.
        ensures told { SendsReceipt self.old receipt self.new }
    {
        if self.dropped {
            return;
        }
        match self
            .receipts
            .send_as::<Puts, R>(rt, &mut self.teller, receipt)
        {
            Ok(()) => {}
            Err(_) => self.dropped = true,
        }
    }
}

/// How many jobs were taken from a desk: the first ones that were put. The receipts that came from it are the first
/// ones that were sent.
pub fn taken_of(desk: Desk, out: DeskOut) -> u64
    requires { IsDesk desk × IsOut out × AreEnds desk out }
    ensures taken { (result ≡ length (takes out)) × (takes out ≡ take result (puts desk)) }
    ensures heard { AreFirst (hears desk) (tells out) }
{
    let Desk {
        to,
        mut pass,
        listener,
        ..
    } = desk;
    let DeskOut {
        pass: other,
        receipts,
        mut teller,
        count,
        ..
    } = out;
    to.absorb::<Roles>(&mut pass, other);
    to.learn_as::<Total>(&mut pass);
    receipts.absorb::<Roles>(&mut teller, listener);
    receipts.learn_as::<Total>(&mut teller);
    count
}
