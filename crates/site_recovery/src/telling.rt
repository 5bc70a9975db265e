//! Where quarantined items were shipped to they are quarantined, or announced.
ghost use Rattle.std.specs.Prelude.{◌≡◌, ◌⊎◌, ◌↔◌, ℕ, List, IfOk, IsTrue, Some};

use crate::conditions::Condition;
use crate::every::{EntryTest, Test, each_element, each_entry, each_key};
use crate::looks::{is_held, seen};
use crate::pairs::ships;
use crate::told_items::told_to;
use epc_core::Epc;
use event_json::SiteNo;
use frame_core::{MsgId, RecallId, Row};
use site_core::{ItemSet, Quarantine, SiteState};
use std::alloc::{AllocError, Global};

/// An item that is announced to the site `to`, or that is quarantined there, where `from` shipped it there.
#[derive(Drop)]
struct ToldItem<'a> {
    sites: &'a [&'a SiteState],
    from: &'a SiteState,
    to: SiteNo,
    recall: RecallId,
    told: &'a Quarantine,
}

impl Test<Epc> for ToldItem<'_> {
    ghost use Rattle.std.specs.Prelude.{◌⊎◌, IsTrue};
    ghost use Rattle.site_core.specs.Quarantines.{held};
    ghost use Rattle.site_core.specs.Ways.{ShipsTo};
    ghost use Rattle.site_recovery.specs.Checking.{world_at};
    ghost use Rattle.site_recovery.specs.Looks.{Held};

    ghost holds = { λ t i. ShipsTo t.from.now i t.to
        → IsTrue (held t.told.now t.recall i) ⊎ Held (world_at t.sites.now) t.to t.recall i };

    fn passes(&self, _alloc: Global, item: &Epc) -> Result<bool, AllocError> {
        if is_held(self.sites, self.to, self.recall, item) || self.told.holds(self.recall, item) {
            return Ok(true);
        }
        Ok(!ships(self.from, item, self.to))
    }
}

/// What is shipped from one site to another under each recall.
#[derive(Drop)]
struct ToldFrom<'a> {
    sites: &'a [&'a SiteState],
    from: &'a SiteState,
    to: SiteNo,
    told: &'a Quarantine,
}

impl EntryTest<RecallId, ItemSet> for ToldFrom<'_> {
    ghost use Rattle.std.specs.Prelude.{◌⊎◌, ℕ, List, IsTrue};
    ghost use Rattle.site_core.specs.ItemSets as set;
    ghost use Rattle.site_core.specs.Quarantines.{held};
    ghost use Rattle.site_core.specs.Ways.{ShipsTo};
    ghost use Rattle.site_recovery.specs.Checking.{world_at};
    ghost use Rattle.site_recovery.specs.Looks.{Held};

    ghost holds = { λ t r items. (i : List ℕ) → IsTrue (set.contains items i)
        → ShipsTo t.from.now i t.to
        → IsTrue (held t.told.now r i) ⊎ Held (world_at t.sites.now) t.to r i };

    fn passes(
        &self,
        alloc: Global,
        recall: &RecallId,
        items: &ItemSet,
    ) -> Result<bool, AllocError> {
        let told = ToldItem {
            sites: self.sites,
            from: self.from,
            to: self.to,
            recall: *recall,
            told: self.told,
        };
        each_key(alloc, items.items(), &told)
    }
}

/// A site from which all that was shipped to the site `to` is announced there.
#[derive(Drop)]
struct Telling<'a> {
    sites: &'a [&'a SiteState],
    to: SiteNo,
}

impl<'b> Test<&'b SiteState> for Telling<'_> {
    ghost use Rattle.std.specs.Prelude.{◌⊎◌, ℕ, List};
    ghost use Rattle.frame_core.specs.Numbers.{Recall};
    ghost use Rattle.site_core.specs.Ways.{Holds, ShipsTo, Tells};
    ghost use Rattle.site_recovery.specs.Checking.{world_at};
    ghost use Rattle.site_recovery.specs.Looks.{Held};

    ghost holds = { λ t s. (r : Recall) (i : List ℕ) → Holds s.now r i → ShipsTo s.now i t.to
        → Tells s.now t.to r i ⊎ Held (world_at t.sites.now) t.to r i };

    fn passes(&self, alloc: Global, state: &&'b SiteState) -> Result<bool, AllocError> {
        let told = told_to(alloc, *state, self.to)?;
        let from = ToldFrom {
            sites: self.sites,
            from: *state,
            to: self.to,
            told: &told,
        };
        each_entry(alloc, state.quarantine().by_recall(), &from)
    }
}

/// What was shipped to the site from a quarantine is quarantined here, or announced.
#[derive(Drop)]
pub(crate) struct Told;

impl Condition for Told {
    ghost use Rattle.site_recovery.specs.Fit.{ShipmentsAreTold};

    ghost holds = { λ _ W t. ShipmentsAreTold W t };

    fn holds_at(
        &self,
        alloc: Global,
        sites: &[&SiteState],
        site: SiteNo,
        _state: &SiteState,
    ) -> Result<bool, AllocError> {
        each_element(alloc, sites, &Telling { sites, to: site })
    }
}

/// A row whose item is quarantined at the site `to` once its message was seen there.
#[derive(Drop)]
struct TakenRow<'a> {
    sites: &'a [&'a SiteState],
    from: SiteNo,
    to: SiteNo,
}

impl EntryTest<u64, Row> for TakenRow<'_> {
    ghost use Rattle.site_recovery.specs.Checking.{world_at};
    ghost use Rattle.site_recovery.specs.Fit.{IsTaken};

    ghost holds = { λ t n x. IsTaken (world_at t.sites.now) t.to
        (record { site = t.from; number = n }) x };

    fn passes(&self, _alloc: Global, number: &u64, row: &Row) -> Result<bool, AllocError> {
        if row.dest != self.to {
            return Ok(true);
        }
        let message = MsgId {
            site: self.from,
            number: *number,
        };
        match seen(self.sites, self.to, message) {
            Some(_) => Ok(is_held(self.sites, self.to, row.recall, &row.item)),
            None => Ok(true),
        }
    }
}

/// A site whose rows to the site `to` were taken there, where they were seen.
#[derive(Drop)]
struct Taking<'a> {
    sites: &'a [&'a SiteState],
    to: SiteNo,
}

impl<'b> Test<&'b SiteState> for Taking<'_> {
    ghost use Rattle.std.specs.Prelude.{◌≡◌, ℕ, Some};
    ghost use Rattle.std.specs.FinMap.{get};
    ghost use Rattle.frame_core.specs.declared.rows.Row.{Row};
    ghost use Rattle.site_recovery.specs.Checking.{world_at};
    ghost use Rattle.site_recovery.specs.Fit.{IsTaken};

    ghost holds = { λ t s. (n : ℕ) (x : Row) → get s.now.engagement.outbox n ≡ Some x
        → IsTaken (world_at t.sites.now) t.to
        (record { site = s.now.engagement.me; number = n }) x };

    fn passes(&self, alloc: Global, state: &&'b SiteState) -> Result<bool, AllocError> {
        let taken = TakenRow {
            sites: self.sites,
            from: state.me(),
            to: self.to,
        };
        each_entry(alloc, state.outbox(), &taken)
    }
}

/// What a row announces is quarantined at the site that it goes to, once its message was seen there.
#[derive(Drop)]
pub(crate) struct Taken;

impl Condition for Taken {
    ghost use Rattle.site_recovery.specs.Fit.{MessagesAreTaken};

    ghost holds = { λ _ W t. MessagesAreTaken W t };

    fn holds_at(
        &self,
        alloc: Global,
        sites: &[&SiteState],
        site: SiteNo,
        _state: &SiteState,
    ) -> Result<bool, AllocError> {
        each_element(alloc, sites, &Taking { sites, to: site })
    }
}
