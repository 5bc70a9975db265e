//! What a root reaches by all that is known of packings.
ghost use Rattle.std.specs.Prelude.{◌↔◌, IfOk, Contains};
ghost use Rattle.trace_core.specs.declared.pairs.Pair.{Pair};
ghost use Rattle.trace_core.specs.Chains.{sites_at};
ghost use Rattle.trace_core.specs.Gaps.{WideRelated};
ghost use Rattle.trace_core.specs.Pairs.{IsStrictlyAscending};
ghost use Rattle.trace_core.specs.Relations.{Reaches};
ghost use Rattle.gap_core.specs.WideReach.{Follows, FollowsOne, GoesOn};

use crate::missed_reach::add_pairs;
use crate::missed_steps::{MissedStep, missed_steps};
use std::alloc::{AllocError, Global};
use std::collections::BTreeSet;
use trace_core::{Captured, Pair, keys_in_order, reach_from};

/// All that a root reaches by all that is known of packings, itself among it, ascending and without repeats. It has
/// each pair that the root reaches by the sites' own packings; and where a site sent an item on in something that
/// others packed, it goes on there.
///
/// # Errors
/// Out of memory.
pub fn wide_reach(alloc: Global, sites: &[&Captured], root: &Pair) -> Result<Vec<Pair>, AllocError>
    // Not covered: how many searches it takes.
    ensures ascending { IfOk result (λ pairs. IsStrictlyAscending pairs.items) }
    ensures reached { IfOk result (λ pairs. (p : Pair) → Contains pairs.items p
        ↔ Reaches (WideRelated (sites_at sites.now)) root.now p) }
{
    let mut steps = missed_steps(alloc, sites)?;
    let mut roots = Vec::new(alloc);
    roots.push(root.copy(alloc)?)?;
    let mut reached = BTreeSet::new(alloc);
    let mut more = true;
    while more {
        more = go_on(alloc, sites, &mut reached, &mut steps, &mut roots)?;
    }
    keys_in_order(alloc, reached)
}

/// Adds what some roots reach by the sites' own packings to what is reached, takes those steps away that lead on from
/// there, to new roots, and returns whether there was one.
fn go_on(
    alloc: Global,
    sites: &[&Captured],
    reached: &mut BTreeSet<Pair>,
    steps: &mut Vec<MissedStep>,
    roots: &mut Vec<Pair>,
) -> Result<bool, AllocError>
    ensures { IfOk result (GoesOn (sites_at sites.now) reached.old steps.old.items roots.old.items
        reached.new steps.new.items roots.new.items) }
{
    add_pairs(reached, reach_from(alloc, sites, roots)?)?;
    let mut next = Vec::new(alloc);
    let more = follow(alloc, reached, steps, &mut next)?;
    *roots = next;
    Ok(more)
}

/// Takes those steps away that lead on from what is reached, adds where they lead to the roots, and returns whether
/// there was one.
fn follow(
    alloc: Global,
    reached: &BTreeSet<Pair>,
    steps: &mut Vec<MissedStep>,
    roots: &mut Vec<Pair>,
) -> Result<bool, AllocError>
    ensures { IfOk result (Follows reached.now steps.old.items roots.old.items steps.new.items
        roots.new.items) }
{
    let mut left = Vec::new(alloc);
    let mut more = false;
    while let Some(step) = steps.pop() {
        if follow_one(reached, step, &mut left, roots)? {
            more = true;
        }
    }
    *steps = left;
    Ok(more)
}

/// Adds where a step leads to the roots, if it leads on from what is reached, or else the step to those that are left.
fn follow_one(
    reached: &BTreeSet<Pair>,
    step: MissedStep,
    left: &mut Vec<MissedStep>,
    roots: &mut Vec<Pair>,
) -> Result<bool, AllocError>
    ensures { IfOk result (FollowsOne reached.now step left.old.items roots.old.items
        left.new.items roots.new.items) }
{
    if reached.contains(&step.from) {
        roots.push(Pair {
            site: step.to,
            item: step.from.item,
        })?;
        return Ok(true);
    }
    left.push(step)?;
    Ok(false)
}
