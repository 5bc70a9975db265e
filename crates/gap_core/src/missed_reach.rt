//! Which of some pairs are missed.
ghost use Rattle.std.specs.Prelude.{◌↔◌, IfOk, OnOk, Contains};
ghost use Rattle.trace_core.specs.declared.pairs.Pair.{Pair};
ghost use Rattle.trace_core.specs.Chains.{sites_at};
ghost use Rattle.trace_core.specs.Pairs.{IsStrictlyAscending, pair_cmp};
ghost use Rattle.trace_core.specs.Searches.{IsFound};
ghost use Rattle.gap_core.specs.Adding.{AddsPairs, AddsToList};
ghost use Rattle.gap_core.specs.Missed.{IsMissedPair, IsPairFound};

use crate::missed::missed_pairs;
use std::alloc::{AllocError, Global};
use std::collections::BTreeSet;
use trace_core::{Captured, Pair, in_order};

/// Those of some pairs that are missed, by site and item, each once: a site sent the item on with something that others
/// packed, and its own packings don't say so. Where none of the pairs that a root reaches is, its reach misses nothing
/// by packing ([`laws::nothing_missed_misses_nothing`](crate::laws::nothing_missed_misses_nothing)).
///
/// # Errors
/// Out of memory.
pub fn missed_among(
    alloc: Global,
    sites: &[&Captured],
    pairs: &[Pair],
) -> Result<Vec<Pair>, AllocError>
    ensures ascending { IfOk result (λ found. IsStrictlyAscending found.items) }
    ensures exact { IfOk result (λ found. (p : Pair) → Contains found.items p
        ↔ (Contains pairs.now p × IsMissedPair (sites_at sites.now) p)) }
{
    let missed = set_of(alloc, missed_pairs(alloc, sites)?)?;
    let mut found = Vec::new(alloc);
    for pair in pairs {
        note_if(alloc, &missed, pair, &mut found)?;
    }
    in_order(found)
}

/// Pairs as a set.
pub fn set_of(alloc: Global, pairs: Vec<Pair>) -> Result<BTreeSet<Pair>, AllocError>
    ensures { IfOk result (λ set. (p : Pair) → IsFound pair_cmp set p ↔ Contains pairs.items p) }
{
    let mut set = BTreeSet::new(alloc);
    add_pairs(&mut set, pairs)?;
    Ok(set)
}

/// Adds pairs to a set.
pub(crate) fn add_pairs(set: &mut BTreeSet<Pair>, pairs: Vec<Pair>) -> Result<(), AllocError>
    ensures { OnOk result (AddsPairs set.old pairs.items set.new) }
{
    let mut rest = pairs;
    while let Some(pair) = rest.pop() {
        set.insert(pair)?;
    }
    Ok(())
}

/// Notes a pair, if it is in a set.
fn note_if(
    alloc: Global,
    set: &BTreeSet<Pair>,
    pair: &Pair,
    found: &mut Vec<Pair>,
) -> Result<(), AllocError>
    ensures { OnOk result (AddsToList found.old.items found.new.items (IsPairFound set.now pair.now)) }
{
    if set.contains(pair) {
        found.push(pair.copy(alloc)?)?;
    }
    Ok(())
}
