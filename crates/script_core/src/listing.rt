//! Lines that list pairs of sites and items: `reach`, `quarantine`.

ghost use Rattle.std.specs.Prelude.{◌≡◌, None, IfOk, IfErr, map};
ghost use Rattle.epc_core.specs.Reading.{reading};
ghost use Rattle.epc_core.specs.Spellings.{IsPlain};
ghost use Rattle.event_json.specs.Sites.{named};
ghost use Rattle.site_recovery.specs.Laws.{captured_of};
ghost use Rattle.world_core.specs.Worlds.{records};
ghost use Rattle.recall_text.specs.Answer.{answer_of};
ghost use Rattle.recall_text.specs.Requests.{reach, quarantine};
ghost use Rattle.script_core.specs.Memory.{ItemTakesMemory};
ghost use Rattle.script_core.specs.Tasks.{DoesTask, ReachFrom, ReachRead, ListsAll, first_down};

use crate::running::Running;
use event_json::SiteNo;
use frame_core::RecallId;
use recall_text::answers::Answer;
use recall_text::numbers::site_at;
use recall_text::telling::item_of;
use std::alloc::{AllocError, Global};
use trace_core::{Captured, Pair, reach};

impl Running {
    /// The pairs that an item at a site reaches.
    pub(crate) fn reach(&self, alloc: Global, name: &str, item: &str) -> Result<Answer, AllocError>
        ensures ok { IfOk result (λ a. DoesTask self.now (reach name.now item.now)
            (answer_of a) self.now) }
        ensures err { IfErr result (λ _. ItemTakesMemory item.now (named self.now.sites name.now)) }
    {
        match self.find(name) {
            None => Answer::no_site(alloc, name),
            Some(site) => self.reach_at(alloc, site, item),
        }
    }

    fn reach_at(&self, alloc: Global, site: SiteNo, item: &str) -> Result<Answer, AllocError>
        ensures ok { IfOk result (λ a. ReachRead self.now site (reading item.now)
            (answer_of a) self.now) }
        ensures err { IfErr result (λ _. IsPlain item.now) }
    {
        match item_of(alloc, item)? {
            Some(item) => self.reach_from(alloc, Pair { site, item }),
            None => Ok(Answer::bad_epc()),
        }
    }

    /// The pairs that a pair reaches, where all sites are up.
    fn reach_from(&self, alloc: Global, root: Pair) -> Result<Answer, AllocError>
        ensures { IfOk result (λ a. ReachFrom self.now root (answer_of a) self.now) }
    {
        if let Some(site) = self.first_down() {
            return Answer::closed(alloc, self.names(), site);
        }
        let captured = self.captured(alloc)?;
        let pairs = reach(alloc, captured.as_slice(), &root)?;
        Answer::pairs(alloc, self.names(), pairs.as_slice())
    }

    /// The captured events of each site that is up, in order.
    fn captured(&self, alloc: Global) -> Result<Vec<&Captured>, AllocError>
        ensures { first_down self.now ≡ None
            → IfOk result (λ v. map (λ c. c.now) v.items ≡ captured_of (records self.now.world)) }
    {
        let mut captured = Vec::new(alloc);
        for number in 0..self.count() {
            if let Some(state) = self.state(site_at(number)) {
                captured.push(state.captured())?;
            }
        }
        Ok(captured)
    }

    /// The least site that is down.
    fn first_down(&self) -> Option<SiteNo>
        ensures { result ≡ first_down self.now }
    {
        for number in 0..self.count() {
            let site = site_at(number);
            if !self.is_up(site) {
                return Some(site);
            }
        }
        None
    }

    /// What is quarantined under the recall that a site gave a number.
    pub(crate) fn quarantine(
        &self,
        alloc: Global,
        name: &str,
        number: u64,
    ) -> Result<Answer, AllocError>
        ensures { IfOk result (λ a. DoesTask self.now (quarantine name.now number)
            (answer_of a) self.now) }
    {
        match self.find(name) {
            None => Answer::no_site(alloc, name),
            Some(site) => self.list_all(alloc, RecallId { site, number }),
        }
    }

    fn list_all(&self, alloc: Global, recall: RecallId) -> Result<Answer, AllocError>
        ensures { IfOk result (λ a. ListsAll self.now recall (answer_of a) self.now) }
    {
        if let Some(site) = self.first_down() {
            return Answer::closed(alloc, self.names(), site);
        }
        let Some(ended) = self.ended(recall) else {
            return Ok(Answer::no_recall());
        };
        let pairs = self.quarantined(recall)?;
        Answer::quarantined(alloc, self.names(), pairs.as_slice(), ended)
    }
}
