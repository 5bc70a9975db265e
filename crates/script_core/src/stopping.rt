//! Lines that stop a site and open it again: `stop`, `reopen`.

ghost use Rattle.std.specs.Prelude.{◌≡◌, IfOk, Some};
ghost use Rattle.recall_text.specs.Answer.{answer_of};
ghost use Rattle.recall_text.specs.Requests.{stop, reopen};
ghost use Rattle.script_core.specs.Happening.{with_armed};
ghost use Rattle.script_core.specs.Tasks.{DoesTask};

use crate::running::Running;
use event_json::SiteNo;
use keeper_core::Keep;
use recall_text::answers::Answer;
use std::alloc::{AllocError, Global};

impl Running {
    /// Arms a stop for the next step of a site.
    pub(crate) fn stop(
        &mut self,
        alloc: Global,
        name: &str,
        keep: Keep,
    ) -> Result<Answer, AllocError>
        ensures { IfOk result (λ a. DoesTask self.old (stop name.now keep) (answer_of a) self.new) }
    {
        let Some(site) = self.find(name) else {
            return Answer::no_site(alloc, name);
        };
        if !self.is_up(site) {
            return Answer::closed(alloc, self.names(), site);
        }
        self.arm(site, keep);
        Answer::armed(alloc, name, keep)
    }

    fn arm(&mut self, site: SiteNo, keep: Keep)
        ensures { self.new ≡ with_armed self.old site keep }
    {
        let place = site.number() as usize;
        if place < self.armed.len() {
            self.armed[place] = Some(keep);
        }
    }

    /// Opens a site that is down.
    pub(crate) fn reopen(&mut self, alloc: Global, name: &str) -> Result<Answer, AllocError>
        ensures { IfOk result (λ a. DoesTask self.old (reopen name.now) (answer_of a) self.new) }
    {
        let Some(site) = self.find(name) else {
            return Answer::no_site(alloc, name);
        };
        if self.is_up(site) {
            return Answer::not_closed(alloc, name);
        }
        self.open(site)?;
        Answer::open(alloc, name)
    }
}
