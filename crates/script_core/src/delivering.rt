//! Lines that hand a site an input: `capture`, `recall`, `deliver`.

ghost use Rattle.std.specs.Prelude.{◌≡◌, Some, IfOk, IfErr};
ghost use Rattle.epc_core.specs.Reading.{reading};
ghost use Rattle.epc_core.specs.Spellings.{IsPlain};
ghost use Rattle.event_json.specs.Sites.{named};
ghost use Rattle.frame_core.specs.Rows.{frame_of};
ghost use Rattle.site_core.specs.declared.inputs.SiteInput.{SiteInput};
ghost use Rattle.world_core.specs.Turns.{addressee, input_at};
ghost use Rattle.recall_text.specs.Answer.{answer_of};
ghost use Rattle.recall_text.specs.Requests.{capture, recall, deliver};
ghost use Rattle.script_core.specs.Memory.{ItemTakesMemory};
ghost use Rattle.script_core.specs.Tasks.{DoesTask, Delivers, Hands, RecallRead, message_of};

use crate::answers::of_outcome;
use crate::running::Running;
use event_json::{Sequence, SiteNo};
use frame_core::{FrameView, MsgId};
use recall_text::answers::Answer;
use recall_text::telling::item_of;
use recall_text::texts::message_text;
use std::alloc::{AllocError, Global};
use world_core::WorldInput;

impl Running {
    /// Captures a document at a site.
    pub(crate) fn capture(
        &mut self,
        alloc: Global,
        name: &str,
        document: &str,
    ) -> Result<Answer, AllocError>
        ensures { IfOk result (λ a. DoesTask self.old (capture name.now document.now)
            (answer_of a) self.new) }
    {
        let Some(site) = self.find(name) else {
            return Answer::no_site(alloc, name);
        };
        let bytes = document.as_bytes().to_vec(alloc)?;
        self.hand_over(
            alloc,
            site,
            WorldInput::Capture(Sequence::from_vec(bytes)),
            "",
        )
    }

    /// Starts a recall of an item at a site.
    pub(crate) fn recall(
        &mut self,
        alloc: Global,
        name: &str,
        item: &str,
    ) -> Result<Answer, AllocError>
        ensures ok { IfOk result (λ a. DoesTask self.old (recall name.now item.now)
            (answer_of a) self.new) }
        ensures err { IfErr result (λ _. ItemTakesMemory item.now (named self.old.sites name.now)) }
    {
        match self.find(name) {
            None => Answer::no_site(alloc, name),
            Some(site) => self.recall_at(alloc, site, item),
        }
    }

    fn recall_at(&mut self, alloc: Global, site: SiteNo, item: &str) -> Result<Answer, AllocError>
        ensures ok { IfOk result (λ a. RecallRead self.old site (reading item.now)
            (answer_of a) self.new) }
        ensures err { IfErr result (λ _. IsPlain item.now) }
    {
        match item_of(alloc, item)? {
            Some(root) => self.hand_over(alloc, site, WorldInput::Start(root), ""),
            None => Ok(Answer::bad_epc()),
        }
    }

    /// Delivers the frame that was sent at a place.
    pub(crate) fn deliver(&mut self, alloc: Global, place: u64) -> Result<Answer, AllocError>
        ensures { IfOk result (λ a. DoesTask self.old (deliver place) (answer_of a) self.new) }
    {
        let Some(frame) = self.frame(place) else {
            return Ok(Answer::no_frame());
        };
        let site = addressee(&frame);
        let about = message_text(alloc, self.names(), message_of(&frame))?;
        self.hand_over(alloc, site, WorldInput::Deliver(place), about.as_str())
    }

    /// Gives an input to a site, and returns what came of it. `about` is the message that it brings or signals.
    fn hand_over(
        &mut self,
        alloc: Global,
        site: SiteNo,
        input: WorldInput,
        about: &str,
    ) -> Result<Answer, AllocError>
        ensures { (given : SiteInput) → input_at self.old.world.sent site input ≡ Some given
            → IfOk result (λ a. Hands self.old site given about.now (answer_of a) self.new) }
    {
        if !self.is_up(site) {
            return Answer::closed(alloc, self.names(), site);
        }
        let outcome = self.hand(site, input)?;
        of_outcome(alloc, self.names(), site, about, &outcome)
    }
}

/// The site that a frame is for.
pub(crate) fn addressee(frame: &FrameView<'_>) -> SiteNo
    ensures { result ≡ addressee (frame_of frame.now) }
{
    match frame {
        FrameView::Recall { dest, .. } => *dest,
        FrameView::Signal { id, .. } => id.site,
    }
}

/// The message that a frame brings or signals.
fn message_of(frame: &FrameView<'_>) -> MsgId
    ensures { result ≡ message_of (frame_of frame.now) }
{
    match frame {
        FrameView::Recall { id, .. } => *id,
        FrameView::Signal { id, .. } => *id,
    }
}
