//! At which sites all that is quarantined is in reach of its recall's root, one recall after another.
ghost use Rattle.std.specs.Prelude.{◌≡◌, ◌↔◌, ◌<◌, ℕ, List, false, true, IfOk, IsTrue, OnOk, get_or, length, replicate};
ghost use Rattle.std.specs.FinMap.{empty};
ghost use Rattle.trace_core.specs.Chains.{sites_at};
ghost use Rattle.site_core.specs.Quarantines.{held};
ghost use Rattle.site_recovery.specs.Checking.{records_at, world_at, AreHeldWithin, HeldIn};
ghost use Rattle.site_recovery.specs.Checking.{IsWithinAt, Narrows, NarrowsAt};
ghost use Rattle.site_recovery.specs.FittingAt.{AreAllSites};
ghost use Rattle.site_recovery.specs.Looks.{Held};

use crate::every::{Test, each_key};
use crate::reached_items::reached_by;
use crate::recalls::captured;
use epc_core::Epc;
use event_json::SiteNo;
use frame_core::RecallId;
use scholten_core::Own;
use site_core::{Quarantine, SiteState};
use std::alloc::{AllocError, Global};
use std::collections::BTreeMap;
use trace_core::Captured;

/// An item that is held under the recall.
#[derive(Drop)]
struct HeldItem<'a> {
    reached: &'a Quarantine,
    recall: RecallId,
}

impl Test<Epc> for HeldItem<'_> {
    ghost use Rattle.std.specs.Prelude.{IsTrue};
    ghost use Rattle.site_core.specs.Quarantines.{held};

    ghost holds = { λ t i. IsTrue (held t.reached.now t.recall i) };

    fn passes(&self, _alloc: Global, item: &Epc) -> Result<bool, AllocError> {
        Ok(self.reached.holds(self.recall, item))
    }
}

/// Whether what the site holds under the recall is among this.
fn holds_within(
    alloc: Global,
    state: &SiteState,
    recall: RecallId,
    reached: &Quarantine,
) -> Result<bool, AllocError>
    ensures { IfOk result (λ within. IsTrue within ↔ ((i : List ℕ)
        → IsTrue (held state.now.quarantine recall i) → IsTrue (held reached.now recall i))) }
{
    match state.quarantine().under(recall) {
        Some(items) => each_key(alloc, items.items(), &HeldItem { reached, recall }),
        None => Ok(true),
    }
}

/// Takes a site away.
fn take_away(within: &mut Vec<bool>, place: usize)
    ensures { NarrowsAt place ⊥ within.old.items within.new.items }
{
    if place < within.len() {
        within[place] = false;
    }
}

/// Takes a site away if it holds something under the recall that isn't among this.
fn narrow_at(
    alloc: Global,
    place: usize,
    state: &SiteState,
    recall: RecallId,
    reached: &Quarantine,
    within: &mut Vec<bool>,
) -> Result<(), AllocError>
    ensures { OnOk result (NarrowsAt place ((i : List ℕ) → IsTrue (held state.now.quarantine recall i)
        → IsTrue (held reached.now recall i)) within.old.items within.new.items) }
{
    if holds_within(alloc, state, recall, reached)? {
        return Ok(());
    }
    take_away(within, place);
    Ok(())
}

/// What is held at a place, `none` where it is past the end.
fn held_at<'a>(reached: &'a [Quarantine], none: &'a Quarantine, place: usize) -> &'a Quarantine
    requires { none.now ≡ empty }
    ensures { result.now ≡ get_or reached.now place empty }
{
    if place < reached.len() {
        &reached[place]
    } else {
        none
    }
}

/// Takes away each site that holds something under the recall that isn't among what these tell, each by its site.
fn narrow(
    alloc: Global,
    sites: &[&SiteState],
    recall: RecallId,
    reached: &[Quarantine],
    within: &mut Vec<bool>,
) -> Result<(), AllocError>
    ensures { OnOk result (Narrows (length sites.now) (λ s. (i : List ℕ)
        → Held (world_at sites.now) s recall i
        → HeldIn reached.now recall (record { site = s; item = i }))
        within.old.items within.new.items) }
{
    let none = Quarantine::new(alloc);
    for place in 0..sites.len() {
        let own = held_at(reached, &none, place);
        narrow_at(alloc, place, sites[place], recall, own, within)?;
    }
    Ok(())
}

/// Takes away each site that holds something under one of a site's recalls that its root doesn't reach. Keeps the
/// reach of one recall at a time.
fn narrow_own(
    alloc: Global,
    sites: &[&SiteState],
    captured: &[&Captured],
    site: SiteNo,
    own: &BTreeMap<u64, Own>,
    within: &mut Vec<bool>,
) -> Result<(), AllocError>
    ensures { OnOk result (Narrows (length sites.now) (AreHeldWithin (world_at sites.now)
        (sites_at captured.now) site own.now.entries) within.old.items within.new.items) }
{
    for (number, own) in own {
        let recall = RecallId {
            site,
            number: *number,
        };
        let reached = reached_by(alloc, captured, sites.len(), recall, &own.root)?;
        narrow(alloc, sites, recall, reached.as_slice(), within)?;
    }
    Ok(())
}

/// All of so many sites.
fn all_sites(alloc: Global, count: usize) -> Result<Vec<bool>, AllocError>
    ensures { IfOk result (λ all. all.items ≡ replicate count true) }
{
    let mut all = Vec::new(alloc);
    for _ in 0..count {
        all.push(true)?;
    }
    Ok(all)
}

/// At which sites all that is quarantined under recalls that were begun is in reach of their roots. Each recall's reach
/// is found once, and one is kept at a time.
pub(crate) fn sites_within(alloc: Global, sites: &[&SiteState]) -> Result<Vec<bool>, AllocError>
    requires all { AreAllSites (records_at sites.now) }
    ensures { IfOk result (λ within. (s : ℕ) → s < length sites.now
        → IsTrue (get_or within.items s false) ↔ IsWithinAt sites.now s) }
{
    let captured = captured(alloc, &*sites)?;
    let mut within = all_sites(alloc, sites.len())?;
    for state in sites {
        narrow_own(
            alloc,
            sites,
            captured.as_slice(),
            state.me(),
            state.own_recalls(),
            &mut within,
        )?;
    }
    Ok(within)
}
