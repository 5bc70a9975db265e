//! Which recalls a site may wait for: those that it is engaged for, and its own live ones.
ghost use Rattle.std.specs.Prelude.{◌≡◌, ◌⊎◌, ◌↔◌, IfOk, IsTrue};
ghost use Rattle.site_recovery.specs.Checking.{world_at};
ghost use Rattle.site_recovery.specs.Fit.{IsEngaged, IsLive, IsEnded};

use crate::conditions::Condition;
use crate::every::{EntryTest, each_entry};
use crate::looks::{own, parent};
use event_json::SiteNo;
use frame_core::{RecallId, Row};
use site_core::SiteState;
use std::alloc::{AllocError, Global};

/// Whether the site is engaged for the recall.
pub(crate) fn is_engaged(sites: &[&SiteState], site: SiteNo, recall: RecallId) -> bool
    ensures { IsTrue result ↔ IsEngaged (world_at sites.now) site recall }
{
    match parent(sites, site, recall) {
        Some(_) => true,
        None => false,
    }
}

/// Whether the recall was begun and hasn't ended.
pub(crate) fn is_live(sites: &[&SiteState], recall: RecallId) -> bool
    ensures { IsTrue result ↔ IsLive (world_at sites.now) recall }
{
    match own(sites, recall.site, recall.number) {
        Some(own) => !own.ended,
        None => false,
    }
}

/// Whether the recall has ended.
pub(crate) fn is_ended(sites: &[&SiteState], recall: RecallId) -> bool
    ensures { IsTrue result ↔ IsEnded (world_at sites.now) recall }
{
    match own(sites, recall.site, recall.number) {
        Some(own) => own.ended,
        None => false,
    }
}

/// A row of a recall that its site may wait for.
#[derive(Drop)]
struct WaitingRow<'a> {
    sites: &'a [&'a SiteState],
    site: SiteNo,
}

impl EntryTest<u64, Row> for WaitingRow<'_> {
    ghost use Rattle.site_recovery.specs.Checking.{world_at};
    ghost use Rattle.site_recovery.specs.Fit.{MayWait};

    ghost holds = { λ t n x. MayWait (world_at t.sites.now) t.site x.recall };

    fn passes(&self, _alloc: Global, _number: &u64, row: &Row) -> Result<bool, AllocError> {
        Ok(
            is_engaged(self.sites, self.site, row.recall)
                || (self.site == row.recall.site && is_live(self.sites, row.recall)),
        )
    }
}

/// The site has rows only of recalls that it is engaged for, or that it began and that haven't ended.
#[derive(Drop)]
pub(crate) struct Waiting;

impl Condition for Waiting {
    ghost use Rattle.site_recovery.specs.Fit.{WaitsRightlyAt};

    ghost holds = { λ _ W s. WaitsRightlyAt W s };

    fn holds_at(
        &self,
        alloc: Global,
        sites: &[&SiteState],
        site: SiteNo,
        state: &SiteState,
    ) -> Result<bool, AllocError> {
        each_entry(alloc, state.outbox(), &WaitingRow { sites, site })
    }
}

/// A row of no recall that its site began and that has ended.
#[derive(Drop)]
struct QuietRow<'a> {
    sites: &'a [&'a SiteState],
    site: SiteNo,
}

impl EntryTest<u64, Row> for QuietRow<'_> {
    ghost use Rattle.std.specs.Prelude.{◌≡◌};
    ghost use Rattle.site_recovery.specs.Checking.{world_at};
    ghost use Rattle.site_recovery.specs.Fit.{IsEnded};

    ghost holds = { λ t n x. x.recall.site ≡ t.site → IsEnded (world_at t.sites.now) x.recall → ⊥ };

    fn passes(&self, _alloc: Global, _number: &u64, row: &Row) -> Result<bool, AllocError> {
        Ok(row.recall.site != self.site || !is_ended(self.sites, row.recall))
    }
}

/// The site has no row of a recall that it began and that has ended.
#[derive(Drop)]
pub(crate) struct EndsAreQuiet;

impl Condition for EndsAreQuiet {
    ghost use Rattle.site_recovery.specs.Fit.{EndsAreQuietAt};

    ghost holds = { λ _ W s. EndsAreQuietAt W s };

    fn holds_at(
        &self,
        alloc: Global,
        sites: &[&SiteState],
        site: SiteNo,
        state: &SiteState,
    ) -> Result<bool, AllocError> {
        each_entry(alloc, state.outbox(), &QuietRow { sites, site })
    }
}
