//! What keeps the record of one site.
ghost use Rattle.std.specs.Prelude.{◌≡◌, ◌⊎◌, ℕ, ◌≤◌, Bool, Option, Some, None, Result, Ok, Err, IfOk, IfErr, MatchResult, is_ok, option_map};
ghost use Rattle.site_core.specs.Records.{Record};
ghost use Rattle.site_core.specs.Steps.{CopiesRecord};
ghost use Rattle.site_core.specs.declared.inputs.SiteInput.{SiteInput};
ghost use Rattle.site_core.specs.declared.outcomes.Effects.{Effects};
ghost use Rattle.keeper_core.specs.declared.faults.Keep.{Keep};
ghost use Rattle.keeper_core.specs.declared.faults.KeepFault.{KeepFault};
ghost use Rattle.keeper_core.specs.declared.faults.Unopened.{Unopened};
ghost use Rattle.keeper_core.specs.Keeping.{Applies, Stops, StaysClosed, HindersOpening, Rises};

use crate::faults::{Keep, KeepFault, Unopened};
use site_core::{Effects, SiteInput, SiteState};
use std::alloc::AllocError;

/// What keeps the record of one site. It is open and shows the record, or closed, by a stop or by a failure,
/// until it is opened again. A step that was answered stands after every stop and every opening. So it does on its
/// device: what a crash leaves there is handed on from call to call, also by a call that fails.
pub trait SiteKeeper: Drop {
    /// The record that it shows. None while it is closed.
    ghost shown: { Self → Option Record };

    /// The records in which it may be opened while it is closed.
    ghost may: { Self → Record → Type 0 };

    /// While it is closed it may be opened in some record: there is at least one, so claims about all of them aren't
    /// vacuous.
    ghost may_be_opened: { (k : Self) → shown k ≡ None → (r : Record) × may k r };

    /// How often the device has failed.
    ghost failed: { Self → ℕ };

    /// The store failed in the step that closed it.
    ghost store_failed: { Self → Type 0 };

    /// A crash leaves on the device the record that it shows, or, while it is closed, one of those in which it may be
    /// opened, and no other: now, or before the openings that failed since. A keeper without a device has none to lose.
    ghost stored: { Self → Type 0 };

    /// What a step, a stop and an opening do to a keeper of this kind, for a caller that knows the kind. A kind
    /// that promises no more than the clauses below promises nothing here.
    ghost applies: { Self → SiteInput → Result Effects KeepFault → Self → Type 0 };

    ghost stops: { Self → SiteInput → Keep → Bool → Self → Type 0 };

    ghost reopens: { Self → Result Self (Unopened Self) → Type 0 };

    /// The record, or None while the keeper is closed.
    fn view(&self) -> Option<&SiteState>
        ensures { option_map (λ state. state.now) result ≡ shown self.now };

    /// How often the device has failed, at most 2^64 - 1 times: there the count stays.
    fn failures(&self) -> u64
        ensures { result ≡ failed self.now };

    /// A step of the site. Once its effects are answered, the record after it is kept.
    ///
    /// # Errors
    /// `Closed` exactly while the keeper is closed, and nothing changes. `Refused` where the step refuses the
    /// input, and `NoMemory`, but for no input that a look at the record answers: the keeper stays open with the
    /// record that it had. After `Device`, which comes only where [`SiteKeeper::failures`] rose, and after `Store`
    /// it is closed, to be opened in the record before the input or in the one after it.
    fn apply(&mut self, input: SiteInput) -> Result<Effects, KeepFault>
        // A step that is answered is kept. A refusal and out of memory leave the record as it was.
        //
        // A failure closes the keeper, which is then opened in the record before the input or in the one after it, and
        // in no third.
        ensures open { (old : Record) → shown self.old ≡ Some old
            → Applies old input result (shown self.new) (may self.new) }
        ensures memory { (old : Record) → shown self.old ≡ Some old
            → result ≡ Err KeepFault.NoMemory → CopiesRecord old input }
        ensures closed { shown self.old ≡ None → (result ≡ Err KeepFault.Closed)
            × (self.new ≡ self.old) }
        // A failure of the device is returned only where the count of failures rose.
        // Not covered: the keeper makes that count itself.
        ensures cause { result ≡ Err KeepFault.Device → Rises (failed self.old) (failed self.new) }
        ensures store { result ≡ Err KeepFault.Store → store_failed self.new }
        ensures count { failed self.old ≤ failed self.new }
        // Where a crash leaves on the device the record that the keeper shows, or one in which it may be opened, it
        // does so afterwards, whether the step is done or failed.
        // Not covered: of a keeper in memory nothing outlives a crash.
        ensures stored { stored self.old → stored self.new }
        ensures kind { applies self.old input result self.new };

    /// A step in which the site stops, so that nothing is reported of it: the keeper is closed then, to be opened in
    /// the record that is to be kept. That is the old one, or the new one: the record after the input, and the old one
    /// only where the input is refused, or the device or the store failed. On a closed keeper it changes nothing.
    ///
    /// # Errors
    /// Where memory runs out, and an open keeper stays open with the record that it had.
    fn stop(&mut self, input: SiteInput, keep: Keep) -> Result<(), AllocError>
        // The keeper is closed without a result, to be opened in the old record; or, where the new one is to be kept,
        // in the one after the input, and then in the old one only where the input is refused, or the device or the
        // store failed.
        // Not covered: an error of the database: no clause ties `store_failed` to it in a stop.
        ensures open { (old : Record) → shown self.old ≡ Some old
            → Stops old input keep (Rises (failed self.old) (failed self.new) ⊎ store_failed self.new)
            (is_ok result) (shown self.new) (may self.new) }
        ensures closed { shown self.old ≡ None → self.new ≡ self.old }
        ensures count { failed self.old ≤ failed self.new }
        ensures stored { stored self.old → stored self.new }
        ensures kind { stops self.old input keep (is_ok result) self.new };

    /// Opens a closed keeper, in one of the records that the stop may have left. An open one is given back as it
    /// is.
    ///
    /// # Errors
    /// The keeper, still closed, with no other records than before, and why: `NoMemory`, `Store`, or `Device`, which
    /// comes only where [`SiteKeeper::failures`] rose.
    fn reopen(self) -> Result<Self, Unopened<Self>>
        ensures open { (r : Record) → shown self ≡ Some r → result ≡ Ok self }
        ensures opened { shown self ≡ None → IfOk result (λ keeper. (r : Record) × may self r
            × (shown keeper ≡ Some r)) }
        ensures unopened { IfErr result (λ u. HindersOpening u.fault
            × StaysClosed (may self) (shown u.keeper) (may u.keeper)) }
        ensures cause { IfErr result (λ u. u.fault ≡ KeepFault.Device
            → Rises (failed self) (failed u.keeper)) }
        ensures count { MatchResult result (λ keeper. failed self ≤ failed keeper)
            (λ u. failed self ≤ failed u.keeper) }
        ensures stored { stored self → MatchResult result stored (λ u. stored u.keeper) }
        ensures kind { reopens self result };
}
