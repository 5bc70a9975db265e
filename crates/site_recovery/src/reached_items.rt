//! What each site would hold if a recall held just what its root reaches.
ghost use Rattle.std.specs.Prelude.{◌≡◌, ◌<◌, ◌↔◌, length, IfOk, OnOk, Contains};
ghost use Rattle.frame_core.specs.Numbers.{Recall};
ghost use Rattle.trace_core.specs.Chains.{Related, sites_at};
ghost use Rattle.trace_core.specs.Relations.{Reaches};
ghost use Rattle.trace_core.specs.declared.pairs.Pair.{Pair};
ghost use Rattle.site_recovery.specs.Checking.{Adds, HeldIn};

use epc_core::Epc;
use frame_core::RecallId;
use site_core::Quarantine;
use std::alloc::{AllocError, Global};
use trace_core::{Captured, Pair, reach};

/// No items at any of so many sites.
fn nothing_held(alloc: Global, count: usize) -> Result<Vec<Quarantine>, AllocError>
    ensures { IfOk result (λ reached. (length reached.items ≡ count)
        × ((r : Recall) (p : Pair) → HeldIn reached.items r p → ⊥)) }
{
    let mut reached = Vec::new(alloc);
    for _ in 0..count {
        reached.push(Quarantine::new(alloc))?;
    }
    Ok(reached)
}

/// Adds a pair under a recall, where its site is one of these.
fn hold_pair(reached: &mut Vec<Quarantine>, recall: RecallId, pair: Pair) -> Result<(), AllocError>
    ensures { OnOk result (Adds (λ r p. (r ≡ recall) × (p ≡ pair)) reached.old.items
        reached.new.items) }
{
    let place = pair.site.number() as usize;
    if place < reached.len() {
        reached[place].hold(recall, pair.item)?;
    }
    Ok(())
}

/// Adds these pairs under a recall.
fn hold_pairs(
    reached: &mut Vec<Quarantine>,
    recall: RecallId,
    pairs: Vec<Pair>,
) -> Result<(), AllocError>
    ensures { OnOk result (Adds (λ r p. (r ≡ recall) × Contains pairs.items p) reached.old.items
        reached.new.items) }
{
    for pair in pairs {
        hold_pair(reached, recall, pair)?;
    }
    Ok(())
}

/// Adds what a recall's root reaches.
fn hold_reach(
    alloc: Global,
    captured: &[&Captured],
    reached: &mut Vec<Quarantine>,
    recall: RecallId,
    root: &Epc,
) -> Result<(), AllocError>
    ensures { OnOk result (Adds (λ r p. (r ≡ recall) × Reaches (Related (sites_at captured.now))
        (record { site = recall.site; item = root.now }) p) reached.old.items reached.new.items) }
{
    let root = Pair {
        site: recall.site,
        item: root.copy(alloc)?,
    };
    let pairs = reach(alloc, captured, &root)?;
    hold_pairs(reached, recall, pairs)
}

/// What each of so many sites would hold if it held just what the recall's root reaches.
pub(crate) fn reached_by(
    alloc: Global,
    captured: &[&Captured],
    count: usize,
    recall: RecallId,
    root: &Epc,
) -> Result<Vec<Quarantine>, AllocError>
    ensures { IfOk result (λ reached. (p : Pair) → p.site < count → HeldIn reached.items recall p
        ↔ Reaches (Related (sites_at captured.now))
        (record { site = recall.site; item = root.now }) p) }
{
    let mut reached = nothing_held(alloc, count)?;
    hold_reach(alloc, captured, &mut reached, recall, root)?;
    Ok(reached)
}
