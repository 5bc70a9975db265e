//! The numbers of a site's messages and recalls are below its next ones, wherever they are kept.
ghost use Rattle.std.specs.Prelude.{◌≡◌, ◌<◌, ◌↔◌, ℕ, IfOk, IsTrue, Some};
ghost use Rattle.std.specs.FinMap.{get};
ghost use Rattle.frame_core.specs.Numbers.{Recall, Message};
ghost use Rattle.site_core.specs.ItemSets.{Items};

use crate::conditions::Condition;
use crate::every::{EntryTest, Test, each_element, each_entry};
use event_json::SiteNo;
use frame_core::{MsgId, RecallId};
use site_core::{ItemSet, SiteState};
use std::alloc::{AllocError, Global};

/// A key below the next number.
#[derive(Drop)]
struct BelowNext {
    next: u64,
}

impl<V> EntryTest<u64, V> for BelowNext {
    ghost use Rattle.std.specs.Prelude.{◌<◌};

    ghost holds = { λ t n _. n < t.next };

    fn passes(&self, _alloc: Global, key: &u64, _value: &V) -> Result<bool, AllocError> {
        Ok(*key < self.next)
    }
}

/// The numbers of the site's rows are below its next message number.
#[derive(Drop)]
pub(crate) struct RowsBelow;

impl Condition for RowsBelow {
    ghost use Rattle.site_recovery.specs.Fit.{RowsAreBelow};

    ghost holds = { λ _ W q. RowsAreBelow W q };

    fn holds_at(
        &self,
        alloc: Global,
        _sites: &[&SiteState],
        _site: SiteNo,
        state: &SiteState,
    ) -> Result<bool, AllocError> {
        let next = state.next_message();
        each_entry(alloc, state.outbox(), &BelowNext { next })
    }
}

/// The numbers of the site's own recalls are below its next recall number.
#[derive(Drop)]
pub(crate) struct OwnBelow;

impl Condition for OwnBelow {
    ghost use Rattle.site_recovery.specs.Fit.{OwnAreBelow};

    ghost holds = { λ _ W q. OwnAreBelow W q };

    fn holds_at(
        &self,
        alloc: Global,
        _sites: &[&SiteState],
        _site: SiteNo,
        state: &SiteState,
    ) -> Result<bool, AllocError> {
        let next = state.next_recall();
        each_entry(alloc, state.own_recalls(), &BelowNext { next })
    }
}

/// A message of the site, below its next number; or another site's.
#[derive(Drop)]
struct MessageBelow {
    site: SiteNo,
    next: u64,
}

impl EntryTest<MsgId, RecallId> for MessageBelow {
    ghost use Rattle.std.specs.Prelude.{◌≡◌, ◌<◌};

    ghost holds = { λ t m _. m.site ≡ t.site → m.number < t.next };

    fn passes(
        &self,
        _alloc: Global,
        message: &MsgId,
        _recall: &RecallId,
    ) -> Result<bool, AllocError> {
        Ok(message.site != self.site || message.number < self.next)
    }
}

impl<'a> Test<&'a SiteState> for MessageBelow {
    ghost use Rattle.std.specs.Prelude.{◌≡◌, ◌<◌, Some};
    ghost use Rattle.std.specs.FinMap.{get};
    ghost use Rattle.frame_core.specs.Numbers.{Recall, Message};

    ghost holds = { λ t s. (m : Message) (r : Recall) → get s.now.engagement.seen m ≡ Some r
        → m.site ≡ t.site → m.number < t.next };

    fn passes(&self, alloc: Global, state: &&'a SiteState) -> Result<bool, AllocError> {
        each_entry(alloc, state.seen(), self)
    }
}

/// The numbers of the site's messages are below its next one where they were seen.
#[derive(Drop)]
pub(crate) struct SeenBelow;

impl Condition for SeenBelow {
    ghost use Rattle.site_recovery.specs.Fit.{SeenAreBelow};

    ghost holds = { λ _ W q. SeenAreBelow W q };

    fn holds_at(
        &self,
        alloc: Global,
        sites: &[&SiteState],
        site: SiteNo,
        state: &SiteState,
    ) -> Result<bool, AllocError> {
        let next = state.next_message();
        each_element(alloc, sites, &MessageBelow { site, next })
    }
}

/// A recall of the site, below its next number; or another site's.
#[derive(Drop)]
struct RecallBelow {
    site: SiteNo,
    next: u64,
}

impl EntryTest<RecallId, ItemSet> for RecallBelow {
    ghost use Rattle.std.specs.Prelude.{◌≡◌, ◌<◌};

    ghost holds = { λ t r _. r.site ≡ t.site → r.number < t.next };

    fn passes(
        &self,
        _alloc: Global,
        recall: &RecallId,
        _items: &ItemSet,
    ) -> Result<bool, AllocError> {
        Ok(recall.site != self.site || recall.number < self.next)
    }
}

impl<'a> Test<&'a SiteState> for RecallBelow {
    ghost use Rattle.std.specs.Prelude.{◌≡◌, ◌<◌, Some};
    ghost use Rattle.std.specs.FinMap.{get};
    ghost use Rattle.frame_core.specs.Numbers.{Recall};
    ghost use Rattle.site_core.specs.ItemSets.{Items};

    ghost holds = { λ t s. (r : Recall) (items : Items) → get s.now.quarantine r ≡ Some items
        → r.site ≡ t.site → r.number < t.next };

    fn passes(&self, alloc: Global, state: &&'a SiteState) -> Result<bool, AllocError> {
        each_entry(alloc, state.quarantine().by_recall(), self)
    }
}

/// The numbers of the site's recalls are below its next one where items are quarantined under them.
#[derive(Drop)]
pub(crate) struct HeldBelow;

impl Condition for HeldBelow {
    ghost use Rattle.site_recovery.specs.Fit.{HeldAreBelow};

    ghost holds = { λ _ W q. HeldAreBelow W q };

    fn holds_at(
        &self,
        alloc: Global,
        sites: &[&SiteState],
        site: SiteNo,
        state: &SiteState,
    ) -> Result<bool, AllocError> {
        let next = state.next_recall();
        each_element(alloc, sites, &RecallBelow { site, next })
    }
}
