//! Trails that lead to the root of a search: those of the search, read from their ends.
ghost use Rattle.std.specs.Prelude.{◌≡◌, IfOk, length, map, option_map, reverse, slice_get, take};

use std::alloc::{AllocError, Global};
use std::marker::Model;
use trace_core::{AllTrails, Pair, Trail};

/// A trail from a pair to the root.
#[derive(Drop)]
pub struct BackTrail<'a> {
    trail: Trail<'a>,
}

impl<'a> Model for BackTrail<'a> {
    ghost use Rattle.std.specs.Prelude.{List, reverse};
    ghost use Rattle.trace_core.specs.declared.pairs.Pair.{Pair};

    ghost Value = { List Pair };

    ghost view = { λ t. reverse t.trail };
}

impl<'a> BackTrail<'a> {
    /// The pair behind the first one, where there is one: a look-up.
    pub fn second(&self) -> Option<&Pair>
        ensures { option_map (λ p. p.now) result ≡ slice_get self.now 1 }
    {
        self.trail.before_last()
    }

    /// The first two of its pairs, or the only one.
    ///
    /// # Errors
    /// Out of memory.
    pub fn beginning(&self, alloc: Global) -> Result<Vec<Pair>, AllocError>
        ensures { IfOk result (λ pairs. pairs.items ≡ take 2 self.now) }
    {
        let mut pairs = self.trail.ending(alloc)?;
        pairs.reverse();
        Ok(pairs)
    }

    /// Its pairs, up to the root.
    ///
    /// # Errors
    /// Out of memory.
    pub fn pairs(&self, alloc: Global) -> Result<Vec<Pair>, AllocError>
        ensures { IfOk result (λ pairs. pairs.items ≡ self.now) }
    {
        let mut pairs = self.trail.pairs(alloc)?;
        pairs.reverse();
        Ok(pairs)
    }
}

/// From each of some pairs a trail to the root. All of them together take no more memory than the pairs that the search
/// came to.
#[derive(Debug, Drop)]
pub struct BackTrails {
    trails: AllTrails,
}

impl Model for BackTrails {
    ghost use Rattle.std.specs.Prelude.{List, map, reverse};
    ghost use Rattle.trace_core.specs.declared.pairs.Pair.{Pair};

    ghost Value = { List (List Pair) };

    ghost view = { λ t. map reverse t.trails };
}

impl BackTrails {
    /// Those of a search, turned.
    pub(crate) fn of(trails: AllTrails) -> BackTrails
        ensures { result ≡ map reverse trails }
    {
        BackTrails { trails }
    }

    /// How many there are.
    pub fn len(&self) -> usize
        ensures { result ≡ length self.now }
    {
        self.trails.len()
    }

    /// The trail at a place, from 0.
    pub fn get(&self, place: usize) -> Option<BackTrail<'_>>
        ensures { result ≡ slice_get self.now place }
    {
        match self.trails.get(place) {
            None => None,
            Some(trail) => Some(BackTrail { trail }),
        }
    }
}
