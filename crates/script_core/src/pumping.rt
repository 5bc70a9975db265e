//! Rounds in which all that stands is sent, delivered and answered: `pump`.

ghost use Rattle.std.specs.Prelude.{◌≡◌, ◌<◌, map, length, Some, IfOk, OnOk, option_and_then, string_bytes};
ghost use Rattle.std.specs.FinMap.{entries};
ghost use Rattle.frame_core.specs.declared.frames.Frame.{Frame};
ghost use Rattle.site_core.specs.Naming.{frame_named};
ghost use Rattle.site_core.specs.Records.{Record};
ghost use Rattle.world_core.specs.Turns.{addressee};
ghost use Rattle.recall_text.specs.Answer.{answer_of};
ghost use Rattle.recall_text.specs.Requests.{pump};
ghost use Rattle.script_core.specs.Pumping.{AddsText, Carries, Exchanges, TakesPart, TakesRound, all_opened, numbers_at, with_opened};
ghost use Rattle.script_core.specs.Sending.{owed_signal};
ghost use Rattle.script_core.specs.State.{up_at};
ghost use Rattle.script_core.specs.Tasks.{DoesTask};

use crate::running::Running;
use crate::sending::may_send;
use crate::texts::push_outcome;
use event_json::SiteNo;
use frame_core::MsgId;
use recall_text::answers::Answer;
use recall_text::numbers::site_at;
use site_core::{FrameName, SiteState};
use std::alloc::{AllocError, Global};
use world_core::WorldInput;

impl Running {
    /// So many rounds.
    pub(crate) fn pump(&mut self, alloc: Global, rounds: u64) -> Result<Answer, AllocError>
        ensures { IfOk result (λ a. DoesTask self.old (pump rounds) (answer_of a) self.new) }
    {
        let before = self.sent();
        let mut text = String::new(alloc);
        for _ in 0..rounds {
            self.round(alloc, &mut text)?;
        }
        let frames = self.sent().saturating_sub(before);
        Answer::pumped(alloc, text, rounds, frames)
    }

    /// One round: every site is opened, and then each takes its part.
    fn round(&mut self, alloc: Global, text: &mut String) -> Result<(), AllocError>
        ensures { OnOk result (AddsText TakesRound self.old self.new (string_bytes text.old)
            (string_bytes text.new)) }
    {
        self.open_all()?;
        for number in 0..self.count() {
            self.take_part(alloc, site_at(number), text)?;
        }
        Ok(())
    }

    /// Opens every site that is down.
    fn open_all(&mut self) -> Result<(), AllocError>
        ensures { OnOk result (self.new ≡ all_opened self.old) }
    {
        for number in 0..self.count() {
            self.open_where_down(site_at(number))?;
        }
        Ok(())
    }

    /// Opens a site where it is down.
    fn open_where_down(&mut self, site: SiteNo) -> Result<(), AllocError>
        requires { site < length self.old.world.sites }
        ensures { OnOk result (self.new ≡ with_opened self.old site) }
    {
        if self.is_up(site) {
            return Ok(());
        }
        self.open(site)
    }

    /// The part of a site: an exchange for each row that stands in its outbox as it begins.
    fn take_part(
        &mut self,
        alloc: Global,
        site: SiteNo,
        text: &mut String,
    ) -> Result<(), AllocError>
        ensures { OnOk result (AddsText (TakesPart site) self.old self.new (string_bytes text.old)
            (string_bytes text.new)) }
    {
        let numbers = self.row_numbers(alloc, site)?;
        for number in &numbers {
            self.exchange(alloc, site, *number, text)?;
        }
        Ok(())
    }

    /// The numbers of the rows in a site's outbox; none while it is down.
    fn row_numbers(&self, alloc: Global, site: SiteNo) -> Result<Vec<u64>, AllocError>
        ensures { IfOk result (λ numbers. numbers.items ≡ numbers_at self.now site) }
    {
        match self.state(site) {
            Some(state) => numbers_of(alloc, state),
            None => Ok(Vec::new(alloc)),
        }
    }

    /// The message of a row goes to its site, and then the signal comes back, where it may be sent.
    fn exchange(
        &mut self,
        alloc: Global,
        site: SiteNo,
        number: u64,
        text: &mut String,
    ) -> Result<(), AllocError>
        ensures { OnOk result (AddsText (Exchanges site number) self.old self.new
            (string_bytes text.old) (string_bytes text.new)) }
    {
        let Some(state) = self.state(site) else {
            return Ok(());
        };
        let Some(row) = state.row(number) else {
            return Ok(());
        };
        let dest = row.dest;
        let message = MsgId {
            site: state.me(),
            number,
        };
        self.carry(alloc, site, FrameName::Message(number), dest, text)?;
        self.answer_back(alloc, dest, message, text)
    }

    /// The signal of a message goes back to its sender, where the site is up and may send it.
    fn answer_back(
        &mut self,
        alloc: Global,
        site: SiteNo,
        message: MsgId,
        text: &mut String,
    ) -> Result<(), AllocError>
        ensures { OnOk result (AddsText (Carries
            (option_and_then (owed_signal message) (up_at self.old site))) self.old self.new
            (string_bytes text.old) (string_bytes text.new)) }
    {
        let Some(state) = self.state(site) else {
            return Ok(());
        };
        if !may_send(state, FrameName::Signal(message)) {
            return Ok(());
        }
        self.carry(alloc, site, FrameName::Signal(message), message.site, text)
    }

    /// A frame that a site may send is sent, and comes to the site that it is for, where that is up.
    fn carry(
        &mut self,
        alloc: Global,
        site: SiteNo,
        name: FrameName,
        to: SiteNo,
        text: &mut String,
    ) -> Result<(), AllocError>
        ensures { (old : Record) (frame : Frame) → up_at self.old site ≡ Some old
            → frame_named old.engagement name ≡ Some frame → addressee frame ≡ to
            → OnOk result (AddsText (Carries (Some frame)) self.old self.new (string_bytes text.old)
            (string_bytes text.new)) }
    {
        let at = self.emit(site, name)?;
        if !self.is_up(to) {
            return Ok(());
        }
        let outcome = self.hand(to, WorldInput::Deliver(at))?;
        push_outcome(alloc, text, self.names(), to, &outcome)
    }
}

/// The numbers of the rows in an outbox.
fn numbers_of(alloc: Global, state: &SiteState) -> Result<Vec<u64>, AllocError>
    ensures { IfOk result (λ numbers. numbers.items
        ≡ map (λ e. e.0) (entries state.now.engagement.outbox)) }
{
    let mut numbers = Vec::new(alloc);
    for (number, _) in state.outbox() {
        numbers.push(*number)?;
    }
    Ok(numbers)
}
