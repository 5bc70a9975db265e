//! Shortest chains of related pairs from a root to given pairs.
ghost use Rattle.std.specs.Prelude.{◌≡◌, IfOk, Some, Contains, length};
ghost use Rattle.std.specs.List.{AllZip};
ghost use Rattle.trace_core.specs.declared.pairs.Pair.{Pair};
ghost use Rattle.trace_core.specs.Chains.{Related, sites_at};
ghost use Rattle.trace_core.specs.AllFound.{AreAllFound};
ghost use Rattle.trace_core.specs.Trails.{AreSteps, IsPlaceOf, TellsTrail, pairs_of};

use crate::adjacency::Adjacency;
use crate::captured::Captured;
use crate::ordered_keys::in_order;
use crate::pairs::Pair;
use crate::seen::Seen;
use crate::steps::{Step, Steps};
use crate::targets::unseen_targets;
use crate::trail_trees::{AllTrails, Trails, pairs_up_to};
use event_json::Sequence;
use std::alloc::{AllocError, Global};

/// The related pairs of several sites.
#[derive(Drop)]
struct Targets<'a> {
    sites: &'a [&'a Captured],
}

impl Adjacency for Targets<'_> {
    ghost use Rattle.trace_core.specs.Chains.{Related, sites_at};
    ghost use Rattle.trace_core.specs.Groups.{IsGivenBy};

    ghost relates = { λ t. Related (sites_at t.sites.now) };

    ghost gives = { λ t. IsGivenBy (sites_at t.sites.now) };

    fn none_seen(&self, alloc: Global) -> Seen {
        Seen::new(alloc)
    }

    fn unseen_targets(
        &self,
        alloc: Global,
        pair: &Pair,
        seen: &mut Seen,
    ) -> Result<Vec<Pair>, AllocError> {
        unseen_targets(alloc, self.sites, pair, seen)
    }
}

/// A chain of related pairs from the root to the target, as `reach` follows them, without repeats, such that no chain
/// has fewer pairs. `None` exactly where the target isn't reached.
///
/// # Errors
/// Out of memory.
pub fn trail(
    alloc: Global,
    sites: &[&Captured],
    root: &Pair,
    target: &Pair,
) -> Result<Option<Sequence<Pair>>, AllocError>
    // Not covered: that one search is made for all pairs.
    ensures { IfOk result (TellsTrail (sites_at sites.now) root.now target.now) }
{
    let steps = steps_from(alloc, &Targets { sites }, root)?;
    match steps.place_of(target) {
        Some(place) => {
            let pairs = pairs_up_to(alloc, steps.as_slice(), place)?;
            Ok(Some(Sequence::from_vec(pairs)))
        }
        None => Ok(None),
    }
}

/// For each of the pairs, in their order, such a chain to it, all by one search.
///
/// # Errors
/// Out of memory.
pub fn trails_to(
    alloc: Global,
    sites: &[&Captured],
    root: &Pair,
    pairs: &[Pair],
) -> Result<Trails, AllocError>
    ensures { IfOk result (AllZip (TellsTrail (sites_at sites.now) root.now) pairs.now) }
{
    let steps = steps_from(alloc, &Targets { sites }, root)?;
    let ends = ends_at(alloc, &steps, pairs)?;
    Ok(Trails::of(steps.into_list(), ends))
}

/// All that the related pairs of several sites lead to from a root, itself among it, each with a shortest chain.
///
/// # Errors
/// Out of memory.
pub fn trails_out(
    alloc: Global,
    sites: &[&Captured],
    root: &Pair,
) -> Result<FoundTrails, AllocError>
    // Not covered: that a search comes to each transformation once.
    ensures { IfOk result (AreAllFound (Related (sites_at sites.now)) root.now) }
{
    trails_from(alloc, &Targets { sites }, root)
}

/// What chains of a relation reach from a pair, and how.
#[derive(Debug, Drop)]
pub struct FoundTrails {
    /// The pairs that are reached, the root among them, by site, then by item, and each once.
    pub pairs: Sequence<Pair>,
    /// For each of these pairs, in their order, a chain from the root to it, without repeats and with as few
    /// pairs as any.
    pub trails: AllTrails,
}

/// All that chains of a relation reach from a root, itself among it, each with a shortest chain.
///
/// # Errors
/// Out of memory.
pub fn trails_from<R: Adjacency>(
    alloc: Global,
    relation: &R,
    root: &Pair,
) -> Result<FoundTrails, AllocError>
    ensures { IfOk result (AreAllFound (R.relates relation.now) root.now) }
{
    let steps = steps_from(alloc, relation, root)?;
    let pairs = in_order(copies_of_pairs(alloc, steps.as_slice())?)?;
    let ends = places_at(alloc, &steps, pairs.as_slice())?;
    Ok(FoundTrails {
        pairs: Sequence::from_vec(pairs),
        trails: AllTrails::of(steps.into_list(), ends),
    })
}

/// The steps of a search for all that chains of a relation reach from a root, nearest first.
fn steps_from<R: Adjacency>(alloc: Global, relation: &R, root: &Pair) -> Result<Steps, AllocError>
    ensures { IfOk result (λ steps. AreSteps (R.relates relation.now) root.now
        (length steps) steps) }
{
    let mut seen = relation.none_seen(alloc);
    let mut steps = Steps::new(alloc);
    steps.note(0, root.copy(alloc)?)?;
    let mut place = 0;
    while place < steps.len() {
        let pair = &steps.as_slice()[place].pair;
        let targets = relation.unseen_targets(alloc, pair, &mut seen)?;
        steps.note_all(place, targets)?;
        place += 1;
    }
    Ok(steps)
}

/// The pairs of steps, in their order.
fn copies_of_pairs(alloc: Global, steps: &[Step]) -> Result<Vec<Pair>, AllocError>
    ensures { IfOk result (λ pairs. pairs.items ≡ pairs_of steps.now) }
{
    let mut pairs = Vec::new(alloc);
    for step in steps {
        pairs.push(step.pair.copy(alloc)?)?;
    }
    Ok(pairs)
}

/// The places of the steps of some pairs, none of a pair that has no step.
fn ends_at(alloc: Global, steps: &Steps, pairs: &[Pair]) -> Result<Vec<Option<usize>>, AllocError>
    ensures { IfOk result (λ ends. AllZip (IsPlaceOf steps.now) pairs.now ends.items) }
{
    let mut ends = Vec::new(alloc);
    for pair in pairs {
        ends.push(steps.place_of(pair))?;
    }
    Ok(ends)
}

/// The places of the steps of pairs that have steps.
fn places_at(alloc: Global, steps: &Steps, pairs: &[Pair]) -> Result<Vec<usize>, AllocError>
    requires { (p : Pair) → Contains pairs.now p → Contains (pairs_of steps.now) p }
    ensures { IfOk result (λ places.
        AllZip (λ p place. IsPlaceOf steps.now p (Some place)) pairs.now places.items) }
{
    let mut places = Vec::new(alloc);
    for pair in pairs {
        match steps.place_of(pair) {
            Some(place) => places.push(place)?,
            None => {}
        }
    }
    Ok(places)
}
