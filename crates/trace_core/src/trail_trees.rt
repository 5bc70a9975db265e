//! Trails as the steps of a search leave them: each is made only where it is asked for.
ghost use Rattle.std.specs.Prelude.{◌≡◌, ◌-◌, ◌<◌, All, IfOk, drop, length, map, option_map, slice_get};
ghost use Rattle.trace_core.specs.Trails.{GoBack, IsEnd, before_last, trail_at};

use crate::pairs::Pair;
use crate::steps::Step;
use std::alloc::{AllocError, Global};
use std::collections::VecDeque;
use std::marker::Model;

/// A trail: a chain of pairs from the root of a search, which is read from its end.
#[derive(Drop)]
pub struct Trail<'a> {
    steps: &'a [Step],
    last: usize,
}

impl<'a> Model for Trail<'a> {
    ghost use Rattle.std.specs.Prelude.{◌<◌, List, length};
    ghost use Rattle.trace_core.specs.declared.pairs.Pair.{Pair};

    ghost Value = { List Pair };

    ghost use Rattle.trace_core.specs.Trails.{GoBack, trail_at};

    ghost view = { λ t. trail_at t.steps.now t.last };

    ghost invariant = { λ t. GoBack t.steps.now × (t.last < length t.steps.now) };
}

impl<'a> Trail<'a> {
    /// The pair before the last one, where there is one: a look-up.
    pub fn before_last(&self) -> Option<&Pair>
        ensures { option_map (λ p. p.now) result ≡ before_last self.now }
    {
        if self.last == 0 {
            None
        } else {
            let before = self.steps[self.last].from;
            Some(&self.steps[before].pair)
        }
    }

    /// The last two of its pairs, or the only one.
    ///
    /// # Errors
    /// Out of memory.
    pub fn ending(&self, alloc: Global) -> Result<Vec<Pair>, AllocError>
        ensures { IfOk result (λ pairs. pairs.items ≡ drop (length self.now - 2) self.now) }
    {
        let mut pairs = Vec::new(alloc);
        if self.last != 0 {
            let before = self.steps[self.last].from;
            pairs.push(self.steps[before].pair.copy(alloc)?)?;
        }
        pairs.push(self.steps[self.last].pair.copy(alloc)?)?;
        Ok(pairs)
    }

    /// Its pairs, from the root on.
    ///
    /// # Errors
    /// Out of memory.
    pub fn pairs(&self, alloc: Global) -> Result<Vec<Pair>, AllocError>
        ensures { IfOk result (λ pairs. pairs.items ≡ self.now) }
    {
        pairs_up_to(alloc, self.steps, self.last)
    }
}

/// The pairs of the steps that lead to a place.
pub(crate) fn pairs_up_to(
    alloc: Global,
    steps: &[Step],
    last: usize,
) -> Result<Vec<Pair>, AllocError>
    requires within { last < length steps.now }
    requires back { GoBack steps.now }
    ensures { IfOk result (λ pairs. pairs.items ≡ trail_at steps.now last) }
{
    let mut pairs = VecDeque::new(alloc);
    let mut place = last;
    pairs.push_front(steps[place].pair.copy(alloc)?)?;
    while place != 0 {
        place = steps[place].from;
        pairs.push_front(steps[place].pair.copy(alloc)?)?;
    }
    pairs.into_iter().collect(alloc)
}

/// For each of some pairs a trail, where one leads to it. All of them together take no more memory than the pairs that
/// the search came to.
#[derive(Debug, Drop)]
pub struct Trails {
    steps: Vec<Step>,
    ends: Vec<Option<usize>>,
}

impl Model for Trails {
    ghost use Rattle.std.specs.Prelude.{All, List, Option, map};
    ghost use Rattle.std.specs.Option.{option_map};
    ghost use Rattle.trace_core.specs.declared.pairs.Pair.{Pair};

    ghost Value = { List (Option (List Pair)) };

    ghost use Rattle.trace_core.specs.Trails.{GoBack, IsEnd, trail_at};

    ghost view = { λ t. map (option_map (trail_at t.steps.items)) t.ends.items };

    ghost invariant = { λ t. GoBack t.steps.items × All (IsEnd t.steps.items) t.ends.items };
}

impl Trails {
    /// Those that end at some steps.
    pub(crate) fn of(steps: Vec<Step>, ends: Vec<Option<usize>>) -> Trails
        requires back { GoBack steps.items }
        requires ends { All (IsEnd steps.items) ends.items }
        ensures { result ≡ map (option_map (trail_at steps.items)) ends.items }
    {
        Trails { steps, ends }
    }

    /// How many there are.
    pub fn len(&self) -> usize
        ensures { result ≡ length self.now }
    {
        self.ends.len()
    }

    /// The trail at a place, from 0: None within where none leads to the pair.
    pub fn get(&self, place: usize) -> Option<Option<Trail<'_>>>
        // Not covered: what it takes.
        ensures { result ≡ slice_get self.now place }
    {
        match self.ends.get(place) {
            None => None,
            Some(None) => Some(None),
            Some(Some(last)) => Some(Some(Trail {
                steps: self.steps.as_slice(),
                last: *last,
            })),
        }
    }
}

/// A trail to each of some pairs, in as little memory.
#[derive(Debug, Drop)]
pub struct AllTrails {
    steps: Vec<Step>,
    ends: Vec<usize>,
}

impl Model for AllTrails {
    ghost use Rattle.std.specs.Prelude.{◌<◌, All, List, length, map};
    ghost use Rattle.trace_core.specs.declared.pairs.Pair.{Pair};

    ghost Value = { List (List Pair) };

    ghost use Rattle.trace_core.specs.Trails.{GoBack, trail_at};

    ghost view = { λ t. map (trail_at t.steps.items) t.ends.items };

    ghost invariant = { λ t. GoBack t.steps.items
        × All (λ last. last < length t.steps.items) t.ends.items };
}

impl AllTrails {
    /// Those that end at some steps.
    pub(crate) fn of(steps: Vec<Step>, ends: Vec<usize>) -> AllTrails
        requires back { GoBack steps.items }
        requires ends { All (λ last. last < length steps.items) ends.items }
        ensures { result ≡ map (trail_at steps.items) ends.items }
    {
        AllTrails { steps, ends }
    }

    /// How many there are.
    pub fn len(&self) -> usize
        ensures { result ≡ length self.now }
    {
        self.ends.len()
    }

    /// The trail at a place, from 0.
    pub fn get(&self, place: usize) -> Option<Trail<'_>>
        ensures { result ≡ slice_get self.now place }
    {
        match self.ends.get(place) {
            None => None,
            Some(last) => Some(Trail {
                steps: self.steps.as_slice(),
                last: *last,
            }),
        }
    }
}
