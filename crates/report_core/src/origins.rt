//! Where a trace back begins: the pairs that no pair is related to.
ghost use Rattle.std.specs.Prelude.{◌≡◌, ◌↔◌, IfOk, OnOk, Contains};
ghost use Rattle.trace_core.specs.Chains.{Related, sites_at};
ghost use Rattle.trace_core.specs.Pairs.{IsStrictlyAscending, pair_cmp};
ghost use Rattle.trace_core.specs.Searches.{IsFound};
ghost use Rattle.trace_core.specs.declared.pairs.Pair.{Pair};
ghost use Rattle.report_core.specs.Sources.{AddsTo, ByOne};

use std::alloc::{AllocError, Global};
use std::collections::BTreeSet;
use trace_core::{Captured, Pair, Seen, unseen_targets};

/// Those of the pairs that none of them is related to, in their order.
pub(crate) fn origins_of(
    alloc: Global,
    sites: &[&Captured],
    pairs: &[Pair],
) -> Result<Vec<Pair>, AllocError>
    ensures ascending { IfOk result (λ origins. IsStrictlyAscending pairs.now
        → IsStrictlyAscending origins.items) }
    ensures exact { IfOk result (λ origins. (p : Pair) → Contains origins.items p
        ↔ (Contains pairs.now p × (ByOne pairs.now (Related (sites_at sites.now)) p → ⊥))) }
{
    let targets = targets_of(alloc, sites, pairs)?;
    let mut origins = Vec::new(alloc);
    for pair in pairs {
        if !targets.contains(pair) {
            origins.push(pair.copy(alloc)?)?;
        }
    }
    Ok(origins)
}

/// All pairs that one of these is related to. Comes to each transformation once.
fn targets_of(
    alloc: Global,
    sites: &[&Captured],
    pairs: &[Pair],
) -> Result<BTreeSet<Pair>, AllocError>
    ensures { IfOk result (λ targets. (q : Pair) → IsFound pair_cmp targets q
        ↔ ByOne pairs.now (Related (sites_at sites.now)) q) }
{
    let mut seen = Seen::new(alloc);
    let mut found = BTreeSet::new(alloc);
    for pair in pairs {
        let targets = unseen_targets(alloc, sites, pair, &mut seen)?;
        insert_all(targets, &mut found)?;
    }
    Ok(found)
}

/// Adds pairs to a set.
fn insert_all(pairs: Vec<Pair>, found: &mut BTreeSet<Pair>) -> Result<(), AllocError>
    ensures { OnOk result (AddsTo (IsFound pair_cmp found.old) (IsFound pair_cmp found.new)
        (Contains pairs.items)) }
{
    for pair in pairs {
        found.insert(pair)?;
    }
    Ok(())
}
