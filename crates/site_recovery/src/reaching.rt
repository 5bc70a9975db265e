//! What is quarantined is in reach of its recall's root.
ghost use Rattle.std.specs.Prelude.{◌↔◌, ℕ, List, IsTrue, false, get_or};
ghost use Rattle.site_recovery.specs.Checking.{world_at, IsBegun};

use crate::conditions::Condition;
use crate::every::{EntryTest, Test, each_entry, each_key};
use crate::looks::own;
use epc_core::Epc;
use event_json::SiteNo;
use frame_core::RecallId;
use site_core::{ItemSet, SiteState};
use std::alloc::{AllocError, Global};

/// Whether the recall was begun.
fn is_begun(sites: &[&SiteState], recall: RecallId) -> bool
    ensures { IsTrue result ↔ IsBegun (world_at sites.now) recall }
{
    match own(sites, recall.site, recall.number) {
        Some(_) => true,
        None => false,
    }
}

/// Any item, if so it is said.
#[derive(Drop)]
struct AnyItem {
    passes: bool,
}

impl Test<Epc> for AnyItem {
    ghost use Rattle.std.specs.Prelude.{IsTrue};

    ghost holds = { λ t i. IsTrue t.passes };

    fn passes(&self, _alloc: Global, _item: &Epc) -> Result<bool, AllocError> {
        Ok(self.passes)
    }
}

/// A set of items of a recall that was begun, or one without items.
#[derive(Drop)]
struct BegunSet<'a> {
    sites: &'a [&'a SiteState],
}

impl EntryTest<RecallId, ItemSet> for BegunSet<'_> {
    ghost use Rattle.std.specs.Prelude.{ℕ, List, IsTrue};
    ghost use Rattle.site_core.specs.ItemSets as set;
    ghost use Rattle.site_recovery.specs.Checking.{world_at, IsBegun};

    ghost holds = { λ t r items. (i : List ℕ) → IsTrue (set.contains items i)
        → IsBegun (world_at t.sites.now) r };

    fn passes(
        &self,
        alloc: Global,
        recall: &RecallId,
        items: &ItemSet,
    ) -> Result<bool, AllocError> {
        let any = AnyItem {
            passes: is_begun(self.sites, *recall),
        };
        each_key(alloc, items.items(), &any)
    }
}

/// What is quarantined at the site is so under recalls that were begun.
#[derive(Drop)]
pub(crate) struct Begun;

impl Condition for Begun {
    ghost use Rattle.std.specs.Prelude.{ℕ, List};
    ghost use Rattle.frame_core.specs.Numbers.{Recall};
    ghost use Rattle.site_recovery.specs.Checking.{IsBegun};
    ghost use Rattle.site_recovery.specs.Looks.{Held};

    ghost holds = { λ _ W s. (r : Recall) (i : List ℕ) → Held W s r i → IsBegun W r };

    fn holds_at(
        &self,
        alloc: Global,
        sites: &[&SiteState],
        _site: SiteNo,
        state: &SiteState,
    ) -> Result<bool, AllocError> {
        each_entry(alloc, state.quarantine().by_recall(), &BegunSet { sites })
    }
}

/// Whether a site is among these, by its number.
fn is_left(within: &[bool], site: SiteNo) -> bool
    ensures { IsTrue result ↔ IsTrue (get_or within.now site false) }
{
    let place = site.number() as usize;
    place < within.len() && within[place]
}

/// The site is one of these.
#[derive(Drop)]
pub(crate) struct Within<'a> {
    pub(crate) within: &'a [bool],
}

impl Condition for Within<'_> {
    ghost use Rattle.std.specs.Prelude.{IsTrue, false, get_or};

    ghost holds = { λ c W s. IsTrue (get_or c.within.now s false) };

    fn holds_at(
        &self,
        _alloc: Global,
        _sites: &[&SiteState],
        site: SiteNo,
        _state: &SiteState,
    ) -> Result<bool, AllocError> {
        Ok(is_left(self.within, site))
    }
}
