//! A keeper in memory.
ghost use Rattle.std.specs.Prelude.{◌≡◌, ◌⊎◌, ◌≤◌, ⊤, true, Some, None, Ok, Err, IfOk, IfErr, MatchResult, is_ok};
ghost use Rattle.site_core.specs.Records.{Record};
ghost use Rattle.site_core.specs.Steps.{CopiesRecord};
ghost use Rattle.keeper_core.specs.Keeping.{Applies, Stops, StaysClosed, HindersOpening, Rises};
ghost use Rattle.keeper_core.specs.Memory.{shown_in, MayIn, may_be_opened_in, StepsIn, StopsIn, FailsIn, AppliesIn, StopsWhereOpen, ReopensIn, one_more};

use crate::faults::{Keep, KeepFault, Unopened};
use crate::keepers::SiteKeeper;
use site_core::{Effects, Refusal, SiteInput, SiteState};
use std::alloc::AllocError;
use std::marker::Model;

/// A keeper in memory, which stops where it is armed to.
#[derive(Debug, Drop)]
pub struct MemoryKeeper {
    state: SiteState,
    is_open: bool,
    armed: Option<Keep>,
    failures: u64,
}

impl Model for MemoryKeeper {
    ghost use Rattle.keeper_core.specs.Memory.{InMemory, coded_keeper};

    ghost Value = { InMemory };

    ghost coded = { coded_keeper };

    ghost view = { λ k. record
        { state = k.state; is_open = k.is_open; armed = k.armed; failures = k.failures } };
}

impl MemoryKeeper {
    /// An open keeper of a state. Does not allocate.
    pub fn new(state: SiteState) -> MemoryKeeper
        ensures { result ≡ record { state = state; is_open = true; armed = None; failures = 0 } }
    {
        MemoryKeeper {
            state,
            is_open: true,
            armed: None,
            failures: 0,
        }
    }

    /// Makes the next step a stop that returns `Device`. It stays armed where the step finds the keeper closed, or
    /// no memory.
    pub fn arm(&mut self, keep: Keep)
        ensures { self.new ≡ record self.old { armed = Some keep } }
    {
        self.armed = Some(keep);
    }

    /// The step of an open keeper, in place.
    fn step(&mut self, input: &SiteInput) -> Result<Effects, KeepFault>
        ensures { StepsIn self.old input.now result self.new }
    {
        Ok(self.state.apply(input)?)
    }

    /// The stop of an open keeper, in place.
    fn close(&mut self, input: &SiteInput, keep: Keep) -> Result<(), AllocError>
        ensures { StopsIn self.old input.now keep (is_ok result) self.new }
    {
        match keep {
            Keep::Old => {}
            Keep::New => {
                if matches!(self.state.apply(input), Err(Refusal::NoMemory)) {
                    return Err(AllocError);
                }
            }
        }
        self.is_open = false;
        Ok(())
    }

    /// The step of an open keeper that is armed.
    fn fail(&mut self, input: &SiteInput, keep: Keep) -> Result<Effects, KeepFault>
        ensures { FailsIn self.old input.now keep result self.new }
    {
        match self.close(input, keep) {
            Err(_) => Err(KeepFault::NoMemory),
            Ok(()) => {
                self.armed = None;
                self.failures = one_more(self.failures);
                Err(KeepFault::Device)
            }
        }
    }
}

/// One failure more. The count stays at the greatest number.
fn one_more(failures: u64) -> u64
    ensures { result ≡ one_more failures }
{
    if failures == u64::MAX {
        failures
    } else {
        failures + 1
    }
}

impl SiteKeeper for MemoryKeeper {
    ghost shown = { shown_in };

    ghost may = { MayIn };

    ghost may_be_opened = { may_be_opened_in };

    ghost failed = { λ k. k.failures };

    // It has no store that could refuse a step.
    ghost store_failed = { λ _. ⊥ };

    // Nothing of it outlives a crash.
    ghost stored = { λ _. ⊤ };

    // What a keeper in memory does is settled: nothing fails but an armed step, which leaves the record that it was
    // armed with; a stop leaves the record that it is to keep; and an opening is never prevented.
    ghost applies = { λ k. AppliesIn k.is_open k.armed k };

    ghost stops = { λ k. StopsWhereOpen k.is_open k };

    ghost reopens = { ReopensIn };

    fn view(&self) -> Option<&SiteState> {
        if self.is_open {
            Some(&self.state)
        } else {
            None
        }
    }

    fn failures(&self) -> u64 {
        self.failures
    }

    fn apply(&mut self, input: SiteInput) -> Result<Effects, KeepFault>
        ensures open { (old : Record) → shown_in self.old ≡ Some old
            → Applies old input result (shown_in self.new) (MayIn self.new) }
        ensures memory { (old : Record) → shown_in self.old ≡ Some old
            → result ≡ Err KeepFault.NoMemory → CopiesRecord old input }
        ensures closed { shown_in self.old ≡ None → (result ≡ Err KeepFault.Closed)
            × (self.new ≡ self.old) }
        ensures cause { result ≡ Err KeepFault.Device → Rises self.old.failures self.new.failures }
        ensures store { result ≡ Err KeepFault.Store → ⊥ }
        ensures count { self.old.failures ≤ self.new.failures }
        ensures stored { ⊤ → ⊤ }
        ensures kind { AppliesIn self.old.is_open self.old.armed self.old input result self.new }
    {
        if !self.is_open {
            return Err(KeepFault::Closed);
        }
        match self.armed {
            None => self.step(&input),
            Some(keep) => self.fail(&input, keep),
        }
    }

    fn stop(&mut self, input: SiteInput, keep: Keep) -> Result<(), AllocError>
        ensures open { (old : Record) → shown_in self.old ≡ Some old
            → Stops old input keep (Rises self.old.failures self.new.failures ⊎ ⊥)
            (is_ok result) (shown_in self.new) (MayIn self.new) }
        ensures closed { shown_in self.old ≡ None → self.new ≡ self.old }
        ensures count { self.old.failures ≤ self.new.failures }
        ensures stored { ⊤ → ⊤ }
        ensures kind { StopsWhereOpen self.old.is_open self.old input keep (is_ok result) self.new }
    {
        if !self.is_open {
            return Ok(());
        }
        self.close(&input, keep)
    }

    fn reopen(self) -> Result<Self, Unopened<Self>>
        ensures open { (r : Record) → shown_in self ≡ Some r → result ≡ Ok self }
        ensures opened { shown_in self ≡ None → IfOk result (λ keeper. (r : Record) × MayIn self r
            × (shown_in keeper ≡ Some r)) }
        ensures unopened { IfErr result (λ u. HindersOpening u.fault
            × StaysClosed (MayIn self) (shown_in u.keeper) (MayIn u.keeper)) }
        ensures cause { IfErr result (λ u. u.fault ≡ KeepFault.Device
            → Rises self.failures u.keeper.failures) }
        ensures count { MatchResult result (λ keeper. self.failures ≤ keeper.failures)
            (λ u. self.failures ≤ u.keeper.failures) }
        ensures stored { ⊤ → MatchResult result (λ _. ⊤) (λ _. ⊤) }
        ensures kind { ReopensIn self result }
    {
        let mut keeper = self;
        keeper.is_open = true;
        Ok(keeper)
    }
}
