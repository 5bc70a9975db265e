//! What is quarantined and announced has its reason.
use crate::conditions::Condition;
use crate::every::{EntryTest, each_entry};
use crate::pairs::ships;
use event_json::SiteNo;
use frame_core::{RecallId, Row};
use scholten_core::Own;
use site_core::SiteState;
use std::alloc::{AllocError, Global};

/// A recall of the site whose root is quarantined there.
#[derive(Drop)]
struct HeldRoot<'a> {
    state: &'a SiteState,
    site: SiteNo,
}

impl EntryTest<u64, Own> for HeldRoot<'_> {
    ghost use Rattle.std.specs.Prelude.{IsTrue};
    ghost use Rattle.site_core.specs.Ways.{Holds};

    ghost holds = { λ t k o. Holds t.state.now (record { site = t.site; number = k }) o.root };

    fn passes(&self, _alloc: Global, number: &u64, own: &Own) -> Result<bool, AllocError> {
        let recall = RecallId {
            site: self.site,
            number: *number,
        };
        Ok(self.state.quarantine().holds(recall, &own.root))
    }
}

/// The roots of the site's recalls are quarantined there.
#[derive(Drop)]
pub(crate) struct Rooted;

impl Condition for Rooted {
    ghost use Rattle.site_recovery.specs.Fit.{RootsAreHeld};

    ghost holds = { λ _ W s. RootsAreHeld W s };

    fn holds_at(
        &self,
        alloc: Global,
        _sites: &[&SiteState],
        site: SiteNo,
        state: &SiteState,
    ) -> Result<bool, AllocError> {
        each_entry(alloc, state.own_recalls(), &HeldRoot { state, site })
    }
}

/// A row of an item that is quarantined at the site, and was shipped to where the row goes.
#[derive(Drop)]
struct JustRow<'a> {
    state: &'a SiteState,
}

impl EntryTest<u64, Row> for JustRow<'_> {
    ghost use Rattle.site_recovery.specs.Fit.{IsJust};

    ghost holds = { λ t _ x. IsJust t.state.now x };

    fn passes(&self, _alloc: Global, _number: &u64, row: &Row) -> Result<bool, AllocError> {
        Ok(
            self.state.quarantine().holds(row.recall, &row.item)
                && ships(self.state, &row.item, row.dest),
        )
    }
}

/// What the site's rows announce is quarantined there, and was shipped to where they go.
#[derive(Drop)]
pub(crate) struct RowsJustified;

impl Condition for RowsJustified {
    ghost use Rattle.site_recovery.specs.Fit.{RowsAreJust};

    ghost holds = { λ _ W s. RowsAreJust W s };

    fn holds_at(
        &self,
        alloc: Global,
        _sites: &[&SiteState],
        _site: SiteNo,
        state: &SiteState,
    ) -> Result<bool, AllocError> {
        each_entry(alloc, state.outbox(), &JustRow { state })
    }
}
