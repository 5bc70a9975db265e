//! The step of a site: what an input makes of its record.
ghost use Rattle.std.specs.Prelude.{◌≡◌, Err, IfOk, IfErr, OnErr};
ghost use Rattle.frame_core.specs.declared.frames.Frame.TheVariants as frames;
ghost use Rattle.site_core.specs.Steps.{Does, Refuses, TakesMemory, CopiesRecord, changes};
ghost use Rattle.site_core.specs.Stepping.{IsStepped, stepped_to};
ghost use Rattle.site_core.specs.Undoing.{NewlyHeldBy};

use crate::capturing::capture_knowing;
use crate::inputs::SiteInput;
use crate::looks::look;
use crate::outcomes::{Effects, Refusal};
use crate::plans::{begin_planned, plan_message, plan_start, receive_planned};
use crate::states::SiteState;
use epc_core::Epc;
use event_json::{SiteNo, read_document};
use frame_core::{Frame, MsgId, RecallId};
use std::alloc::Global;

/// What a step made of a record.
#[derive(Debug, Drop)]
pub enum Stepped {
    /// Nothing changed.
    Same(Effects),
    /// The site is this one from now on.
    Next(SiteState, Effects),
}

/// The step of a site, which leaves the site as it is: what it does with an input, and what it is afterwards
/// where that is another.
///
/// # Errors
/// In the order in which they are tested: for a document `Doc`, and then its first event that is refused, by
/// `IdTaken` before `Blocked`; for a start `UnknownItem`, then `NumbersSpent`; for a frame `NotMine`, then
/// `NumbersSpent`. `NoMemory` may come before any, but not for a frame that changes nothing.
pub fn step(alloc: Global, state: &SiteState, input: &SiteInput) -> Result<Stepped, Refusal>
    // The step on a copy does what the step in place does, and runs out of memory where that may, and for a signal
    // whose row stands.
    ensures done { IfOk result (λ stepped. IsStepped state.now input.now stepped) }
    ensures refused { IfErr result (λ why. Refuses state.now input.now why) }
    ensures memory { result ≡ Err Refusal.NoMemory → CopiesRecord state.now input.now }
{
    match look(state, input) {
        Some(Ok(effects)) => Ok(Stepped::Same(effects)),
        Some(Err(refusal)) => Err(refusal),
        None => step_copy(alloc, state, input),
    }
}

/// The step done on a copy.
fn step_copy(alloc: Global, state: &SiteState, input: &SiteInput) -> Result<Stepped, Refusal>
    ensures done { IfOk result (λ stepped. IsStepped state.now input.now stepped) }
    ensures refused { IfErr result (λ why. Refuses state.now input.now why) }
{
    let mut next = state.copy(alloc)?;
    let effects = next.apply(input)?;
    Ok(stepped_to(next, effects))
}

/// The site after a step, where the effects change it.
fn stepped_to(next: SiteState, effects: Effects) -> Stepped
    ensures { result ≡ stepped_to next effects }
{
    if effects.changes() {
        Stepped::Next(next, effects)
    } else {
        Stepped::Same(effects)
    }
}

impl SiteState {
    /// The step of a site, in place.
    ///
    /// # Errors
    /// As those of [`step`]. Nothing is changed then. `NoMemory` comes of no signal.
    pub fn apply(&mut self, input: &SiteInput) -> Result<Effects, Refusal>
        // What the input does to the record in place, with its effects; or the refusal that it meets, which changes
        // nothing.
        // Not covered: what a step costs.
        //
        // A start quarantines the item's spread under the next recall number, and numbers one message for each item of
        // it and each other site that this item was shipped to. A message that wasn't seen does the same for what its
        // recall doesn't hold yet; it becomes the parent, or its signal is due at once. A signal clears the row of its
        // message.
        ensures done { IfOk result (λ effects. Does self.old input.now effects self.new) }
        ensures refused { IfErr result (λ why. Refuses self.old input.now why) }
        ensures unchanged { OnErr result (self.new ≡ self.old) }
        // Memory runs out for no signal, no repeat, no frame that isn't for the site and no item that the site doesn't
        // know.
        ensures memory { result ≡ Err Refusal.NoMemory → TakesMemory self.old input.now }
    {
        match look(self, input) {
            Some(answer) => answer,
            None => {
                let (effects, _) = self.change(input)?;
                Ok(effects)
            }
        }
    }

    /// The step of an input that isn't answered by a look, and the items that come under a recall by it.
    pub(crate) fn change(&mut self, input: &SiteInput) -> Result<(Effects, Vec<Epc>), Refusal>
        requires { CopiesRecord self.old input.now }
        ensures done { IfOk result (λ made. Does self.old input.now made.0 self.new) }
        ensures held { IfOk result (λ made. NewlyHeldBy self.old input.now made.1.items) }
        ensures refused { IfErr result (λ why. Refuses self.old input.now why) }
        ensures unchanged { OnErr result (self.new ≡ self.old) }
        ensures memory { result ≡ Err Refusal.NoMemory → TakesMemory self.old input.now }
    {
        match input {
            SiteInput::Capture(bytes) => {
                Ok((self.capture(bytes.as_slice())?, Vec::new(self.alloc)))
            }
            SiteInput::Start(root) => self.start(root),
            SiteInput::Deliver(
                Frame::Recall {
                    id,
                    dest,
                    recall,
                    item,
                },
            ) => self.take(*id, *dest, *recall, item),
            SiteInput::Deliver(Frame::Signal { id, by }) => {
                Ok((self.clear(*id, *by), Vec::new(self.alloc)))
            }
        }
    }

    /// Captures a document.
    fn capture(&mut self, bytes: &[u8]) -> Result<Effects, Refusal>
        ensures done { IfOk result (λ effects.
            Does self.old (SiteInput.Capture bytes.now) effects self.new) }
        ensures refused { IfErr result (λ why. Refuses self.old (SiteInput.Capture bytes.now) why) }
        ensures unchanged { OnErr result (self.new ≡ self.old) }
    {
        let doc = read_document(self.alloc, bytes, &self.sites)?;
        let skipped = doc.skipped;
        let events = doc.events.into_vec();
        let added = capture_knowing(
            self.alloc,
            &mut self.captured,
            &self.quarantine,
            self.shortcuts.is_closed(),
            events,
        )?;
        Ok(Effects::Captured {
            fresh: added.fresh,
            known: added.known,
            skipped,
        })
    }

    /// Starts a recall of an item that the site knows, and returns the items that come under it.
    fn start(&mut self, root: &Epc) -> Result<(Effects, Vec<Epc>), Refusal>
        requires known { CopiesRecord self.old (SiteInput.Start root.now) }
        ensures done { IfOk result (λ made.
            Does self.old (SiteInput.Start root.now) made.0 self.new) }
        ensures held { IfOk result (λ made.
            NewlyHeldBy self.old (SiteInput.Start root.now) made.1.items) }
        ensures refused { IfErr result (λ why. Refuses self.old (SiteInput.Start root.now) why) }
        ensures unchanged { OnErr result (self.new ≡ self.old) }
    {
        let recall = RecallId {
            site: self.diffusion.me(),
            number: self.diffusion.next_recall(),
        };
        let plan = plan_start(self.alloc, &self.captured, &self.quarantine, recall, root)?;
        let root = root.copy(self.alloc)?;
        let began = begin_planned(
            &mut self.quarantine,
            &mut self.diffusion,
            recall,
            root,
            &plan,
        )?;
        let effects = Effects::Started {
            recall,
            quarantined: plan.new.len() as u64,
            numbered: began.numbered,
            ended: began.ended,
        };
        Ok((effects, plan.new))
    }

    /// Takes a message that is for the site and wasn't seen, and returns the items that come under its recall.
    fn take(
        &mut self,
        message: MsgId,
        dest: SiteNo,
        recall: RecallId,
        item: &Epc,
    ) -> Result<(Effects, Vec<Epc>), Refusal>
        requires unseen { CopiesRecord self.old
            (SiteInput.Deliver (frames.Recall message dest recall item.now)) }
        ensures done { IfOk result (λ made.
            Does self.old (SiteInput.Deliver (frames.Recall message dest recall item.now)) made.0
            self.new) }
        ensures held { IfOk result (λ made.
            NewlyHeldBy self.old (SiteInput.Deliver (frames.Recall message dest recall item.now))
            made.1.items) }
        ensures refused { IfErr result (λ why.
            Refuses self.old (SiteInput.Deliver (frames.Recall message dest recall item.now)) why) }
        ensures unchanged { OnErr result (self.new ≡ self.old) }
    {
        let mut seen = self.shortcuts.take_seen(self.alloc, recall);
        let plan = plan_message(
            self.alloc,
            &self.captured,
            &self.quarantine,
            self.shortcuts.is_closed(),
            recall,
            item,
            &mut seen,
        )?;
        let owed = receive_planned(
            &mut self.quarantine,
            &mut self.diffusion,
            message,
            recall,
            &plan,
        )?;
        self.shortcuts.keep_seen(recall, seen);
        let effects = Effects::Received {
            quarantined: plan.new.len() as u64,
            numbered: plan.out.len() as u64,
            owed,
        };
        Ok((effects, plan.new))
    }

    /// Takes a signal for a message that stands and went to the site that signals. Does not allocate.
    fn clear(&mut self, message: MsgId, by: SiteNo) -> Effects
        requires stands { CopiesRecord self.old (SiteInput.Deliver (frames.Signal message by)) }
        ensures { Does self.old (SiteInput.Deliver (frames.Signal message by)) result self.new }
    {
        Effects::of_signal(self.diffusion.signalled(message.number))
    }
}
