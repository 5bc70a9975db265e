//! A record that a database keeps: its steps, over any store.
ghost use Rattle.std.specs.Prelude.{◌≡◌, ◌⊎◌, false, true, IfErr, IsTrue, is_ok};
ghost use Rattle.sqlite.specs.State.{HasCleanDisk};
ghost use Rattle.sqlite.specs.Held.{state};
ghost use Rattle.site_core.specs.Steps.{CopiesRecord};
ghost use Rattle.site_tables.specs.HonestDisks.{OnHonestDisk};
ghost use Rattle.site_store.specs.Faults.{IsCaused, closing_fault};
ghost use Rattle.site_store.specs.Kept.{StepsKept, AppliesKept, StopsInStep, StopsKept, KeepsAfter, KeepsStopped, failures_after, is_idle};
ghost use Rattle.site_store.specs.StepWritten.{Keeps};

use crate::faults::{is_of_device, lacks_memory, one_more};
use crate::standing::{Standing, Untaken};
use keeper_core::{Keep, KeepFault};
use site_core::{Effects, SiteInput, look};
use sqlite::{Alter, Connection, Error};
use std::alloc::{AllocError, Global};

/// A record with what a keeper knows of it.
#[derive(Debug, Drop)]
pub struct Kept {
    /// The record, or while it is closed the one before the step that failed, with the input of that.
    pub standing: Standing,
    /// Whether steps are taken.
    pub is_open: bool,
    /// How often the device has failed. At 2^64 - 1 the count stays.
    pub failures: u64,
    /// How many statements the last step ran that had effects.
    pub statements: u64,
    /// Where memory comes from.
    pub alloc: Global,
}

impl Kept {
    /// The failure of a step, which is pending: closed, to be opened in the record before it or in the one after it.
    fn close(&mut self, error: &Error) -> KeepFault
        ensures is { result ≡ closing_fault error.now }
        ensures kind { (result ≡ KeepFault.Device) ⊎ (result ≡ KeepFault.Store) }
        ensures closed { self.new ≡ record self.old {
          is_open = false;
          failures = failures_after result self.old.failures;
        } }
    {
        self.is_open = false;
        if is_of_device(error) {
            self.failures = one_more(self.failures);
            KeepFault::Device
        } else {
            KeepFault::Store
        }
    }

    /// A step that a look at the record doesn't answer.
    #[tactic(auto, using(crate::proofs::KeptFailures::refused_step, crate::proofs::KeptFailures::refused_keeps, crate::proofs::Caused::refused_caused))]
    fn step<S: Alter>(
        &mut self,
        conn: &mut Connection<S>,
        input: SiteInput,
    ) -> Result<Effects, KeepFault>
        requires copies { CopiesRecord self.old.standing.state input }
        ensures steps { StepsKept self.old input result self.new }
        ensures disk { OnHonestDisk S.Store conn.new
            (Keeps self.old.standing.state (state S.Store conn.old)
            → KeepsAfter self.new result (state S.Store conn.new)) }
        ensures cause { OnHonestDisk S.Store conn.new
            (Keeps self.old.standing.state (state S.Store conn.old)
            → IfErr result (IsCaused (state S.Store conn.old) (state S.Store conn.new))) }
        ensures clean { OnHonestDisk S.Store conn.new (HasCleanDisk (state S.Store conn.old)) }
        ensures calls { IsTrue (is_idle result) → conn.new ≡ conn.old }
    {
        match self.standing.step(self.alloc, conn, input) {
            Ok((effects, statements)) => {
                self.statements = statements;
                Ok(effects)
            }
            Err(Untaken::Refused(refusal)) => Err(KeepFault::from(refusal)),
            Err(Untaken::NoMemory) => Err(KeepFault::NoMemory),
            Err(Untaken::Failed(error)) => Err(self.close(&error)),
        }
    }

    /// A step of an open one. The record changes once its rows are written.
    #[tactic(auto, using(crate::proofs::KeptFailures::refused_look, crate::proofs::KeptFailures::refused_keeps, crate::proofs::Caused::refused_caused))]
    fn take<S: Alter>(
        &mut self,
        conn: &mut Connection<S>,
        input: SiteInput,
    ) -> Result<Effects, KeepFault>
        ensures steps { StepsKept self.old input result self.new }
        ensures disk { OnHonestDisk S.Store conn.new
            (Keeps self.old.standing.state (state S.Store conn.old)
            → KeepsAfter self.new result (state S.Store conn.new)) }
        ensures cause { OnHonestDisk S.Store conn.new
            (Keeps self.old.standing.state (state S.Store conn.old)
            → IfErr result (IsCaused (state S.Store conn.old) (state S.Store conn.new))) }
        ensures clean { OnHonestDisk S.Store conn.new (HasCleanDisk (state S.Store conn.old)) }
        ensures calls { IsTrue (is_idle result) → conn.new ≡ conn.old }
    {
        match look(self.standing.state(), &input) {
            Some(Ok(effects)) => {
                self.statements = 0;
                Ok(effects)
            }
            Some(Err(refusal)) => Err(KeepFault::from(refusal)),
            None => self.step(conn, input),
        }
    }

    /// A step of the site.
    ///
    /// # Errors
    /// As those of a step of a keeper.
    pub fn apply<S: Alter>(
        &mut self,
        conn: &mut Connection<S>,
        input: SiteInput,
    ) -> Result<Effects, KeepFault>
        ensures steps { AppliesKept self.old.is_open self.old input result self.new }
        ensures disk { OnHonestDisk S.Store conn.new
            (Keeps self.old.standing.state (state S.Store conn.old)
            → KeepsAfter self.new result (state S.Store conn.new)) }
        ensures cause { OnHonestDisk S.Store conn.new
            (Keeps self.old.standing.state (state S.Store conn.old)
            → IfErr result (IsCaused (state S.Store conn.old) (state S.Store conn.new))) }
        ensures clean { OnHonestDisk S.Store conn.new (HasCleanDisk (state S.Store conn.old)) }
        ensures calls { IsTrue (is_idle result) → conn.new ≡ conn.old }
    {
        if !self.is_open {
            return Err(KeepFault::Closed);
        }
        self.take(conn, input)
    }

    /// A stop in a step of an open one, once its rows are written.
    #[tactic(auto, using(crate::proofs::KeptStops::stopped_without, crate::proofs::KeptStops::stopped_open, crate::proofs::KeptStops::stopped_shut, crate::proofs::KeptStops::without_keeps, crate::proofs::KeptStops::open_keeps, crate::proofs::KeptStops::shut_keeps))]
    fn stop_in_step<S: Alter>(
        &mut self,
        conn: &mut Connection<S>,
        input: SiteInput,
    ) -> Result<(), AllocError>
        requires is_open { self.old.is_open ≡ true }
        ensures stops { StopsInStep self.old input (is_ok result) self.new }
        ensures disk { OnHonestDisk S.Store conn.new
            (Keeps self.old.standing.state (state S.Store conn.old)
            → KeepsStopped self.new (is_ok result) (state S.Store conn.new)) }
        ensures clean { OnHonestDisk S.Store conn.new (HasCleanDisk (state S.Store conn.old)) }
    {
        let answer = self.take(conn, input);
        if lacks_memory(&answer) {
            return Err(AllocError);
        }
        if !self.is_open {
            return Ok(());
        }
        self.standing.settle();
        self.is_open = false;
        Ok(())
    }

    /// A stop: without a step, or in a step once its rows are written. On a closed one it changes nothing.
    ///
    /// # Errors
    /// Where memory runs out. It is open then, with the record that it had.
    pub fn stop<S: Alter>(
        &mut self,
        conn: &mut Connection<S>,
        input: SiteInput,
        keep: Keep,
    ) -> Result<(), AllocError>
        ensures stops { StopsKept self.old.is_open self.old input keep (is_ok result) self.new }
        ensures disk { OnHonestDisk S.Store conn.new (IsTrue self.old.is_open
            → Keeps self.old.standing.state (state S.Store conn.old)
            → KeepsStopped self.new (is_ok result) (state S.Store conn.new)) }
        ensures clean { OnHonestDisk S.Store conn.new (HasCleanDisk (state S.Store conn.old)) }
        ensures calls { self.old.is_open ≡ false → conn.new ≡ conn.old }
    {
        if !self.is_open {
            return Ok(());
        }
        match keep {
            Keep::Old => {
                self.standing.settle();
                self.is_open = false;
                Ok(())
            }
            Keep::New => self.stop_in_step(conn, input),
        }
    }
}
