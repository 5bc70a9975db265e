//! Lines that send a frame: `send`, `signal`.

ghost use Rattle.std.specs.Prelude.{◌≡◌, Some, IfOk, is_some};
ghost use Rattle.frame_core.specs.declared.frames.Frame.{Frame};
ghost use Rattle.site_core.specs.Naming.{frame_named};
ghost use Rattle.site_core.specs.Records.{Record};
ghost use Rattle.recall_text.specs.Answer.{answer_of};
ghost use Rattle.recall_text.specs.Requests.{send, signal};
ghost use Rattle.script_core.specs.State.{up_at};
ghost use Rattle.script_core.specs.Tasks.{DoesTask, Sends};

use crate::running::Running;
use event_json::SiteNo;
use frame_core::MsgId;
use recall_text::answers::Answer;
use site_core::{FrameName, SiteState, frame_named};
use std::alloc::{AllocError, Global};

impl Running {
    /// Sends the message that a site gave a number.
    pub(crate) fn send(
        &mut self,
        alloc: Global,
        name: &str,
        number: u64,
    ) -> Result<Answer, AllocError>
        ensures { IfOk result (λ a. DoesTask self.old (send name.now number)
            (answer_of a) self.new) }
    {
        let Some(site) = self.find(name) else {
            return Answer::no_site(alloc, name);
        };
        let Some(state) = self.state(site) else {
            return Answer::closed(alloc, self.names(), site);
        };
        if !may_send(state, FrameName::Message(number)) {
            return Ok(Answer::no_frame());
        }
        self.post(alloc, site, FrameName::Message(number))
    }

    /// Sends a site's signal of the message that the sender gave a number.
    pub(crate) fn signal(
        &mut self,
        alloc: Global,
        name: &str,
        sender: &str,
        number: u64,
    ) -> Result<Answer, AllocError>
        ensures { IfOk result (λ a. DoesTask self.old (signal name.now sender.now number)
            (answer_of a) self.new) }
    {
        let Some(site) = self.find(name) else {
            return Answer::no_site(alloc, name);
        };
        let Some(of) = self.find(sender) else {
            return Answer::no_site(alloc, sender);
        };
        let Some(state) = self.state(site) else {
            return Answer::closed(alloc, self.names(), site);
        };
        if !may_send(state, FrameName::Signal(MsgId { site: of, number })) {
            return Ok(Answer::no_frame());
        }
        self.post(alloc, site, FrameName::Signal(MsgId { site: of, number }))
    }

    /// Sends the frame of a name that a site may send, and returns its place among those sent.
    fn post(&mut self, alloc: Global, site: SiteNo, name: FrameName) -> Result<Answer, AllocError>
        ensures { (old : Record) (frame : Frame) → up_at self.old site ≡ Some old
            → frame_named old.engagement name ≡ Some frame
            → IfOk result (λ a. Sends self.old (Some frame) (answer_of a) self.new) }
    {
        let at = self.emit(site, name)?;
        Answer::frame(alloc, at)
    }
}

/// Whether a site may send a frame of this name.
pub(crate) fn may_send(state: &SiteState, name: FrameName) -> bool
    ensures { result ≡ is_some (frame_named state.now.engagement name) }
{
    frame_named(state, name).is_some()
}
