//! Parents: each was seen under its recall and its row stands, and from each engaged site they lead to
//! the recall's initiator.
ghost use Rattle.std.specs.Prelude.{◌↔◌, IsTrue};
ghost use Rattle.site_recovery.specs.Checking.{world_at};
ghost use Rattle.site_recovery.specs.Fit.{HasRow, LeadsHome};

use crate::conditions::Condition;
use crate::every::{EntryTest, each_entry};
use crate::looks::{parent, row, seen};
use event_json::SiteNo;
use frame_core::{MsgId, RecallId};
use site_core::SiteState;
use std::alloc::{AllocError, Global};

/// Whether the message has a row of the recall that goes to the site.
fn has_row(sites: &[&SiteState], message: MsgId, site: SiteNo, recall: RecallId) -> bool
    ensures { IsTrue result ↔ HasRow (world_at sites.now) message site recall }
{
    match row(sites, message.site, message.number) {
        Some(row) => row.dest == site && row.recall == recall,
        None => false,
    }
}

/// A parent of a site that was seen under its recall, and whose row stands.
#[derive(Drop)]
struct StandingParent<'a> {
    sites: &'a [&'a SiteState],
    site: SiteNo,
}

impl EntryTest<RecallId, MsgId> for StandingParent<'_> {
    ghost use Rattle.site_recovery.specs.Checking.{world_at};
    ghost use Rattle.site_recovery.specs.Fit.{ParentStands};

    ghost holds = { λ t r m. ParentStands (world_at t.sites.now) t.site r m };

    fn passes(
        &self,
        _alloc: Global,
        recall: &RecallId,
        message: &MsgId,
    ) -> Result<bool, AllocError> {
        Ok(
            seen(self.sites, self.site, *message) == Some(*recall)
                && has_row(self.sites, *message, self.site, *recall),
        )
    }
}

/// The site has seen each of its parents under the parent's recall, and the row stands where it was
/// sent.
#[derive(Drop)]
pub(crate) struct ParentsStand;

impl Condition for ParentsStand {
    ghost use Rattle.site_recovery.specs.Fit.{ParentsStandAt};

    ghost holds = { λ _ W s. ParentsStandAt W s };

    fn holds_at(
        &self,
        alloc: Global,
        sites: &[&SiteState],
        site: SiteNo,
        state: &SiteState,
    ) -> Result<bool, AllocError> {
        each_entry(alloc, state.parents(), &StandingParent { sites, site })
    }
}

/// Whether parents lead from the site to the recall's initiator.
fn climbs(sites: &[&SiteState], recall: RecallId, site: SiteNo) -> bool
    ensures { IsTrue result ↔ LeadsHome (world_at sites.now) recall site }
{
    let mut here = site;
    for _ in 0..sites.len() {
        if here == recall.site {
            return true;
        }
        match parent(sites, here, recall) {
            Some(message) => here = message.site,
            None => return false,
        }
    }
    here == recall.site
}

/// A recall that the site didn't begin, and to whose initiator parents lead from the site.
#[derive(Drop)]
struct HomewardRecall<'a> {
    sites: &'a [&'a SiteState],
    site: SiteNo,
}

impl EntryTest<RecallId, MsgId> for HomewardRecall<'_> {
    ghost use Rattle.site_recovery.specs.Checking.{world_at};
    ghost use Rattle.site_recovery.specs.Fit.{IsOnTheWay};

    ghost holds = { λ t r m. IsOnTheWay (world_at t.sites.now) t.site r };

    fn passes(
        &self,
        _alloc: Global,
        recall: &RecallId,
        _message: &MsgId,
    ) -> Result<bool, AllocError> {
        Ok(self.site != recall.site && climbs(self.sites, *recall, self.site))
    }
}

/// The site isn't engaged for its own recalls, and from it parents lead to the initiator.
#[derive(Drop)]
pub(crate) struct ParentsLeadHome;

impl Condition for ParentsLeadHome {
    ghost use Rattle.site_recovery.specs.Fit.{ParentsLeadHomeFrom};

    ghost holds = { λ _ W s. ParentsLeadHomeFrom W s };

    fn holds_at(
        &self,
        alloc: Global,
        sites: &[&SiteState],
        site: SiteNo,
        state: &SiteState,
    ) -> Result<bool, AllocError> {
        each_entry(alloc, state.parents(), &HomewardRecall { sites, site })
    }
}
