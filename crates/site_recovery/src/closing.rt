//! What is made of quarantined items is quarantined.
ghost use Rattle.std.specs.Prelude.{◌↔◌, ℕ, List, IfOk, IsTrue, Some};

use crate::conditions::Condition;
use crate::every::{EntryTest, each_entry};
use event_json::SiteNo;
use frame_core::RecallId;
use site_core::{ItemSet, SiteState, is_closed_set};
use std::alloc::{AllocError, Global};

/// A set of items of the site that has what is made of them there.
#[derive(Drop)]
struct ClosedSet<'a> {
    state: &'a SiteState,
}

impl EntryTest<RecallId, ItemSet> for ClosedSet<'_> {
    ghost use Rattle.std.specs.Prelude.{ℕ, List, IsTrue};
    ghost use Rattle.trace_core.specs.Spreads.{Inside};
    ghost use Rattle.site_core.specs.ItemSets as set;

    ghost holds = { λ t _ items. (i j : List ℕ) → IsTrue (set.contains items i)
        → Inside t.state.now.captured i j → IsTrue (set.contains items j) };

    fn passes(
        &self,
        alloc: Global,
        _recall: &RecallId,
        items: &ItemSet,
    ) -> Result<bool, AllocError> {
        is_closed_set(alloc, self.state.captured(), items)
    }
}

/// What is made at the site of an item that is quarantined there is quarantined there.
#[derive(Drop)]
pub(crate) struct Closed;

impl Condition for Closed {
    ghost use Rattle.site_recovery.specs.Fit.{IsClosedAt};

    ghost holds = { λ _ W s. IsClosedAt W s };

    fn holds_at(
        &self,
        alloc: Global,
        _sites: &[&SiteState],
        _site: SiteNo,
        state: &SiteState,
    ) -> Result<bool, AllocError> {
        each_entry(alloc, state.quarantine().by_recall(), &ClosedSet { state })
    }
}
