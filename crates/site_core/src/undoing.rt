//! How a step that was done in place is taken back, and how a signal is foreseen.
ghost use Rattle.std.specs.Prelude.{◌≡◌, ◌⊎◌, ℕ, Err, Some, None, IfOk, IfErr, OnErr};
ghost use Rattle.frame_core.specs.declared.frames.Frame.TheVariants as frames;
ghost use Rattle.frame_core.specs.declared.rows.Row.{Row};
ghost use Rattle.scholten_core.specs.FreeNumbers.{HasFreeNumbers};
ghost use Rattle.site_core.specs.Records.{Record};
ghost use Rattle.site_core.specs.Steps.{Does, Refuses, TakesMemory, CopiesRecord, HasRow, reply};
ghost use Rattle.site_core.specs.Undoing.{IsSignal, IsUndoOf, IsWholeBefore, CapturedFrom, StartedFrom, TookFrom, TookFrame};

use crate::inputs::SiteInput;
use crate::looks::look;
use crate::outcomes::{Effects, Refusal};
use crate::shortcuts::Shortcuts;
use crate::states::SiteState;
use epc_core::Epc;
use frame_core::{Frame, MsgId, RecallId};
use scholten_core::Received;
use std::alloc::AllocError;

/// What takes back a step that was done in place, and finds its rows.
#[derive(Debug, Drop)]
pub struct StepUndo {
    /// How many events were captured before it.
    pub captured: usize,
    /// The number that the next message had before it.
    pub next_message: u64,
    /// The items that came under the recall by it, ascending; none for a capture, a repeat and a signal.
    pub held: Vec<Epc>,
    /// The record before it, where a message or a recall stands at a number that comes next, which no run leads
    /// to; else none.
    pub whole: Option<SiteState>,
}

impl SiteState {
    /// The step of a site, in place, with what takes it back.
    ///
    /// # Errors
    /// As those of [`SiteState::apply`]. Nothing is changed then.
    pub fn apply_noted(&mut self, input: &SiteInput) -> Result<(Effects, StepUndo), Refusal>
        ensures done { IfOk result (λ made. Does self.old input.now made.0 self.new) }
        // What takes the step back is how many events stood, the next message's number, what came under a recall, and
        // the record itself only where numbers that come next are taken, to which no run leads.
        ensures undo { IfOk result (λ made. IsUndoOf made.1 self.old input.now) }
        ensures refused { IfErr result (λ why. Refuses self.old input.now why) }
        ensures unchanged { OnErr result (self.new ≡ self.old) }
        ensures memory { result ≡ Err Refusal.NoMemory → TakesMemory self.old input.now }
    {
        let captured = self.captured.len();
        let next_message = self.next_message();
        match look(self, input) {
            Some(Ok(effects)) => {
                let held = Vec::new(self.alloc);
                Ok((
                    effects,
                    StepUndo {
                        captured,
                        next_message,
                        held,
                        whole: None,
                    },
                ))
            }
            Some(Err(refusal)) => Err(refusal),
            None => {
                let whole = self.whole_before(input)?;
                let (effects, held) = self.change(input)?;
                Ok((
                    effects,
                    StepUndo {
                        captured,
                        next_message,
                        held,
                        whole,
                    },
                ))
            }
        }
    }

    /// The record as it stands, where the input numbers messages and numbers that come next are taken.
    fn whole_before(&self, input: &SiteInput) -> Result<Option<SiteState>, AllocError>
        requires { CopiesRecord self.now input.now }
        ensures whole { IfOk result (λ whole. IsWholeBefore self.now input.now whole) }
        ensures memory { OnErr result (TakesMemory self.now input.now) }
    {
        match input {
            SiteInput::Capture(_) => Ok(None),
            SiteInput::Start(_) => self.whole_where_taken(),
            SiteInput::Deliver(Frame::Recall { .. }) => self.whole_where_taken(),
            SiteInput::Deliver(Frame::Signal { .. }) => Ok(None),
        }
    }

    /// The record as it stands, where numbers that come next are taken.
    fn whole_where_taken(&self) -> Result<Option<SiteState>, AllocError>
        ensures { IfOk result (λ whole. (whole ≡ Some self.now)
            ⊎ ((whole ≡ None) × HasFreeNumbers self.now.engagement)) }
    {
        if self.diffusion.has_free_numbers() {
            return Ok(None);
        }
        Ok(Some(self.copy(self.alloc)?))
    }

    /// Takes a step back that was done in place and is no signal. Nothing is needed for it, but that memory may run
    /// out in finding out whether what is quarantined is closed inside the site: then that isn't known, and the
    /// answers stay the same.
    pub fn take_back(&mut self, input: &SiteInput, effects: &Effects, undo: StepUndo)
        requires done { (old : Record) × Does old input.now effects.now self.old
            × IsUndoOf undo old input.now }
        requires no_signal { IsSignal input.now → ⊥ }
        // Not covered: that it needs no memory but for what is known of the quarantine beside it.
        ensures { (old : Record) → Does old input.now effects.now self.old
            → IsUndoOf undo old input.now → self.new ≡ old }
    {
        let StepUndo {
            captured,
            next_message,
            held,
            whole,
        } = undo;
        if let Some(whole) = whole {
            *self = whole;
            return;
        }
        match input {
            SiteInput::Capture(_) => self.take_back_capture(captured),
            SiteInput::Start(_) => self.take_back_start(next_message, held),
            SiteInput::Deliver(frame) => self.take_back_frame(frame, effects, next_message, held),
        }
    }

    /// Takes the events back that a document brought.
    fn take_back_capture(&mut self, captured: usize)
        requires { (old : Record) × CapturedFrom old self.old captured }
        ensures { (old : Record) → CapturedFrom old self.old captured → self.new ≡ old }
    {
        self.captured.truncate(captured);
        self.shortcuts = Shortcuts::found(self.alloc, &self.captured, &self.quarantine);
    }

    /// Takes the start of a recall back.
    fn take_back_start(&mut self, next_message: u64, held: Vec<Epc>)
        requires { (old : Record) × StartedFrom old self.old next_message held.items }
        ensures { (old : Record) → StartedFrom old self.old next_message held.items
            → self.new ≡ old }
    {
        let recall = RecallId {
            site: self.diffusion.me(),
            number: self.diffusion.next_recall() - 1,
        };
        self.quarantine.release_items(recall, held);
        self.diffusion.take_back_begin(next_message);
        self.shortcuts = Shortcuts::found(self.alloc, &self.captured, &self.quarantine);
    }

    /// Takes a frame back that is no signal.
    fn take_back_frame(
        &mut self,
        frame: &Frame,
        effects: &Effects,
        next_message: u64,
        held: Vec<Epc>,
    )
        requires { (old : Record) × TookFrame old self.old frame.now effects.now next_message
            held.items }
        ensures { (old : Record) → TookFrame old self.old frame.now effects.now next_message
            held.items → self.new ≡ old }
    {
        match frame {
            Frame::Recall { id, recall, .. } => {
                self.take_back_message(*id, *recall, effects, next_message, held)
            }
            Frame::Signal { .. } => {}
        }
    }

    /// Takes a message of a recall back, by its effects. A repeat changed nothing.
    fn take_back_message(
        &mut self,
        message: MsgId,
        recall: RecallId,
        effects: &Effects,
        next_message: u64,
        held: Vec<Epc>,
    )
        requires { (old : Record) × TookFrom old self.old message recall effects.now next_message
            held.items }
        ensures { (old : Record) → TookFrom old self.old message recall effects.now next_message
            held.items → self.new ≡ old }
    {
        if let Effects::Received { numbered, owed, .. } = effects {
            let answer = reply(*numbered, *owed);
            self.quarantine.release_items(recall, held);
            self.diffusion
                .take_back_receive(message, recall, answer, next_message);
            self.shortcuts = Shortcuts::found(self.alloc, &self.captured, &self.quarantine);
        }
    }

    /// What a signal does whose message stands and went to the site that signals it, found at the record before
    /// it. Does not allocate.
    pub fn foresee(&self, message: MsgId) -> Effects
        ensures { (by : ℕ) (row : Row) → HasRow self.now message row → row.dest ≡ by
            → (t : Record) × Does self.now (SiteInput.Deliver (frames.Signal message by)) result t }
    {
        Effects::of_signal(self.diffusion.foresee(message.number))
    }
}

/// What receiving a message answered, by what was told of it.
fn reply(numbered: u64, owed: bool) -> Received
    ensures { result ≡ reply numbered owed }
{
    if owed {
        Received::Owe { numbered }
    } else {
        Received::SignalNow { numbered }
    }
}
