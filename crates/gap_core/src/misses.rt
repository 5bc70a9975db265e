//! What a recall of a root misses.
ghost use Rattle.std.specs.Prelude.{◌≡◌, ◌↔◌, IfOk, OnOk, Contains};
ghost use Rattle.trace_core.specs.declared.pairs.Pair.{Pair};
ghost use Rattle.trace_core.specs.Chains.{sites_at};
ghost use Rattle.trace_core.specs.Pairs.{IsStrictlyAscending, pair_cmp};
ghost use Rattle.trace_core.specs.Searches.{IsFound};
ghost use Rattle.gap_core.specs.Adding.{AddsToList};
ghost use Rattle.gap_core.specs.Misses.{AreReached, IsBeyond};

use crate::missed_reach::set_of;
use crate::untold::Reached;
use crate::wide_reach::wide_reach;
use std::alloc::{AllocError, Global};
use std::collections::BTreeSet;
use trace_core::{Captured, Pair, in_order, reach};

/// What a root reaches: by all that is known of packings, and by the sites' own ones, which is told.
///
/// # Errors
/// Out of memory.
pub fn reached_from(alloc: Global, sites: &[&Captured], root: &Pair) -> Result<Reached, AllocError>
    // Not covered: how many searches it takes.
    ensures { IfOk result (AreReached (sites_at sites.now) root.now) }
{
    Ok(Reached {
        wide: set_of(alloc, wide_reach(alloc, sites, root)?)?,
        told: set_of(alloc, reach(alloc, sites, root)?)?,
    })
}

/// The pairs that are reached and not told, by site and item, each once.
///
/// # Errors
/// Out of memory.
pub fn missed_of(alloc: Global, reached: &Reached) -> Result<Vec<Pair>, AllocError>
    ensures ascending { IfOk result (λ pairs. IsStrictlyAscending pairs.items) }
    ensures exact { IfOk result (λ pairs. (p : Pair) → Contains pairs.items p
        ↔ IsBeyond reached.now p) }
{
    let mut found = Vec::new(alloc);
    for pair in &reached.wide {
        note_beyond(alloc, &reached.told, pair, &mut found)?;
    }
    in_order(found)
}

/// Notes a pair, unless it is in a set.
fn note_beyond(
    alloc: Global,
    told: &BTreeSet<Pair>,
    pair: &Pair,
    found: &mut Vec<Pair>,
) -> Result<(), AllocError>
    ensures { OnOk result (AddsToList found.old.items found.new.items (λ p.
        (IsFound pair_cmp told.now pair.now → ⊥) × (pair.now ≡ p))) }
{
    if !told.contains(pair) {
        found.push(pair.copy(alloc)?)?;
    }
    Ok(())
}
