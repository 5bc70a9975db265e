//! A record that a step changes in place, and takes back where its rows aren't written.
ghost use Rattle.std.specs.Prelude.{◌≡◌, ℕ, IsTrue, IfOk, IfErr, MatchOption};
ghost use Rattle.sqlite.specs.State.{HasCleanDisk};
ghost use Rattle.sqlite.specs.Held.{state};
ghost use Rattle.frame_core.specs.declared.frames.Frame.TheVariants as frames;
ghost use Rattle.site_core.specs.Steps.{CopiesRecord};
ghost use Rattle.site_core.specs.Undoing.{IsSignal};
ghost use Rattle.site_core.specs.declared.inputs.SiteInput.{SiteInput as Asked};
ghost use Rattle.site_tables.specs.HonestDisks.{OnHonestDisk};
ghost use Rattle.site_store.specs.Findable.{MayBeFound};
ghost use Rattle.site_store.specs.Standing.{alone, AreFound, IsNextOf};
ghost use Rattle.site_store.specs.StepTried.{StepsTo, LeavesTried, FailsTried, is_idle_try};
ghost use Rattle.site_store.specs.StepWritten.{Keeps};

use crate::writing::{Unwritten, write_found};
use frame_core::{Frame, MsgId};
use site_core::step_laws::{an_answer_tells_a_change, an_input_has_one_outcome};
use site_core::{Effects, Refusal, SiteInput, SiteState};
use site_rows::laws::signals_keep_items;
use site_rows::{changes_of, signal_changes_of};
use sqlite::{Alter, Connection, Error};
use std::alloc::{AllocError, Global};
use std::marker::Model;

/// A record, and while a failure keeps it closed the input of the step that failed, whose rows may be written.
#[derive(Debug, Drop)]
pub struct Standing {
    state: SiteState,
    pending: Option<SiteInput>,
}

impl Model for Standing {
    ghost use Rattle.site_store.specs.Standing.{Standing, coded_standing, AreFound};

    ghost Value = { Standing };

    ghost coded = { coded_standing };

    ghost view = { λ s. record { state = s.state; pending = s.pending } };

    // Each record in which it may be opened is found where tables list its rows.
    ghost invariant = { λ s. AreFound (record { state = s.state; pending = s.pending }) };
}

/// Why a step wasn't taken.
#[derive(Debug, Drop)]
pub enum Untaken {
    /// It is refused. Nothing is changed.
    Refused(Refusal),
    /// Memory ran out. Nothing is changed, and the tables have the rows of before.
    NoMemory,
    /// The database's error. The tables have the rows of before or those of after.
    Failed(Error),
}

impl Standing {
    /// A record alone, which is found where tables list its rows. Does not allocate.
    pub fn new(state: SiteState) -> Standing
        requires { MayBeFound state }
        ensures { result ≡ alone state }
    {
        Standing {
            state,
            pending: None,
        }
    }

    /// The record.
    pub fn state(&self) -> &SiteState
        ensures { result.now ≡ self.now.state }
    {
        &self.state
    }

    /// The record alone, whatever was asked.
    pub fn settle(&mut self)
        ensures { self.new ≡ alone self.old.state }
    {
        self.pending = None;
    }

    /// The record after the step that failed, made on a copy.
    ///
    /// # Errors
    /// Out of memory.
    pub fn after(&self, alloc: Global) -> Result<Option<SiteState>, AllocError>
        ensures { IfOk result (IsNextOf self.now) }
    {
        let Some(input) = &self.pending else {
            return Ok(None);
        };
        an_input_has_one_outcome();
        let mut next = self.state.copy(alloc)?;
        match next.apply(input) {
            Ok(_) => Ok(Some(next)),
            Err(Refusal::NoMemory) => Err(AllocError),
            Err(_) => Ok(None),
        }
    }

    /// Each record in which it may be opened is found where tables list its rows. It exposes the invariant to proofs,
    /// and has no effect at run time.
    pub fn show_records(&self)
        ensures { AreFound self.now }
    {
        let _ = &self.pending;
    }

    /// A step that a look at the record doesn't answer, and how many statements it ran: those of its rows, and the two
    /// that begin and commit. A signal is foreseen and done once its rows are written; another step is done first, and
    /// taken back where they aren't.
    ///
    /// # Errors
    /// As [`Untaken`] says.
    pub fn step<S: Alter>(
        &mut self,
        alloc: Global,
        conn: &mut Connection<S>,
        input: SiteInput,
    ) -> Result<(Effects, u64), Untaken>
        requires copies { CopiesRecord self.old.state input }
        ensures steps { StepsTo self.old input result self.new }
        ensures disk { OnHonestDisk S.Store conn.new (Keeps self.old.state (state S.Store conn.old)
            → LeavesTried self.new result (state S.Store conn.new)) }
        ensures cause { OnHonestDisk S.Store conn.new (Keeps self.old.state (state S.Store conn.old)
            → IfErr result (FailsTried (state S.Store conn.old) (state S.Store conn.new))) }
        ensures clean { OnHonestDisk S.Store conn.new (HasCleanDisk (state S.Store conn.old)) }
        ensures calls { IsTrue (is_idle_try result) → conn.new ≡ conn.old }
    {
        match message_signalled(&input) {
            Some(message) => self.clear(alloc, conn, input, message),
            None => self.change(alloc, conn, input),
        }
    }

    /// A step that is no signal.
    fn change<S: Alter>(
        &mut self,
        alloc: Global,
        conn: &mut Connection<S>,
        input: SiteInput,
    ) -> Result<(Effects, u64), Untaken>
        requires no_signal { IsSignal input → ⊥ }
        ensures steps { StepsTo self.old input result self.new }
        ensures disk { OnHonestDisk S.Store conn.new (Keeps self.old.state (state S.Store conn.old)
            → LeavesTried self.new result (state S.Store conn.new)) }
        ensures cause { OnHonestDisk S.Store conn.new (Keeps self.old.state (state S.Store conn.old)
            → IfErr result (FailsTried (state S.Store conn.old) (state S.Store conn.new))) }
        ensures clean { OnHonestDisk S.Store conn.new (HasCleanDisk (state S.Store conn.old)) }
        ensures calls { IsTrue (is_idle_try result) → conn.new ≡ conn.old }
    {
        let (effects, undo) = match self.state.apply_noted(&input) {
            Ok(done) => done,
            Err(refusal) => return Err(Untaken::Refused(refusal)),
        };
        if !effects.changes() {
            // Effects that change nothing leave an equal record.
            an_answer_tells_a_change();
            self.pending = None;
            return Ok((effects, 0));
        }
        let changes = changes_of(alloc, &input, &effects, &undo, &self.state);
        match write_found(alloc, conn, changes) {
            Ok(written) => {
                self.pending = None;
                Ok((effects, written.saturating_add(2)))
            }
            Err(Unwritten::NoMemory) => {
                self.state.take_back(&input, &effects, undo);
                Err(Untaken::NoMemory)
            }
            Err(Unwritten::Failed(error)) => {
                an_input_has_one_outcome();
                self.state.take_back(&input, &effects, undo);
                self.pending = Some(input);
                Err(Untaken::Failed(error))
            }
        }
    }

    /// A signal for this message.
    fn clear<S: Alter>(
        &mut self,
        alloc: Global,
        conn: &mut Connection<S>,
        input: SiteInput,
        message: MsgId,
    ) -> Result<(Effects, u64), Untaken>
        requires signal { (by : ℕ) × (input ≡ Asked.Deliver (frames.Signal message by)) }
        requires copies { CopiesRecord self.old.state input }
        ensures steps { StepsTo self.old input result self.new }
        ensures disk { OnHonestDisk S.Store conn.new (Keeps self.old.state (state S.Store conn.old)
            → LeavesTried self.new result (state S.Store conn.new)) }
        ensures cause { OnHonestDisk S.Store conn.new (Keeps self.old.state (state S.Store conn.old)
            → IfErr result (FailsTried (state S.Store conn.old) (state S.Store conn.new))) }
        ensures clean { OnHonestDisk S.Store conn.new (HasCleanDisk (state S.Store conn.old)) }
        ensures calls { IsTrue (is_idle_try result) → conn.new ≡ conn.old }
    {
        let effects = self.state.foresee(message);
        let changes = signal_changes_of(alloc, &self.state, message, &effects);
        // The record after it is found, too.
        signals_keep_items();
        match write_found(alloc, conn, changes) {
            Ok(written) => {
                an_input_has_one_outcome();
                // It does what was foreseen, and needs no memory.
                let _ = self.state.apply(&input);
                self.pending = None;
                Ok((effects, written.saturating_add(2)))
            }
            Err(Unwritten::NoMemory) => Err(Untaken::NoMemory),
            Err(Unwritten::Failed(error)) => {
                self.pending = Some(input);
                Err(Untaken::Failed(error))
            }
        }
    }
}

/// The message that an input signals, if it is a signal.
fn message_signalled(input: &SiteInput) -> Option<MsgId>
    ensures { MatchOption result (IsSignal input.now → ⊥) (λ m. (by : ℕ)
        × (input.now ≡ Asked.Deliver (frames.Signal m by))) }
{
    match input {
        SiteInput::Deliver(Frame::Signal { id, .. }) => Some(*id),
        SiteInput::Deliver(Frame::Recall { .. }) => None,
        SiteInput::Capture(_) => None,
        SiteInput::Start(_) => None,
    }
}
