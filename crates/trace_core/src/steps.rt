//! The steps of a search that keeps how it came to each pair.
ghost use Rattle.std.specs.Prelude.{◌≡◌, ◌++◌, ◌∷◌, [], OnOk, length};
ghost use Rattle.trace_core.specs.Trails.{NotesSteps, IsPlaceOf};

use crate::pairs::Pair;
use std::alloc::{AllocError, Global};
use std::collections::BTreeMap;
use std::marker::Model;

/// A pair that a search found, and the place of the step that found it.
#[derive(Debug, Drop)]
pub struct Step {
    /// The pair.
    pub pair: Pair,
    /// The place of the step before it. The first step has none.
    pub from: usize,
}

/// The steps of a search in the order in which they were found, and the place of each pair.
#[derive(Drop)]
pub struct Steps {
    places: BTreeMap<Pair, usize>,
    list: Vec<Step>,
}

impl Model for Steps {
    ghost use Rattle.std.specs.Prelude.{List};
    ghost use Rattle.trace_core.specs.declared.steps.Step.{Step};
    ghost use Rattle.trace_core.specs.Trails.{ArePlaces};

    ghost Value = { List Step };

    ghost view = { λ s. s.list.items };

    ghost invariant = { λ s. ArePlaces s.places s.list.items };
}

impl Steps {
    /// No steps. Does not allocate.
    pub fn new(alloc: Global) -> Steps
        ensures { result ≡ [] }
    {
        Steps {
            places: BTreeMap::new(alloc),
            list: Vec::new(alloc),
        }
    }

    /// How many steps there are.
    pub fn len(&self) -> usize
        ensures { result ≡ length self.now }
    {
        self.list.len()
    }

    /// The steps in the order in which they were found.
    pub fn as_slice(&self) -> &[Step]
        ensures { result.now ≡ self.now }
    {
        self.list.as_slice()
    }

    /// The steps alone, without the places of their pairs.
    pub fn into_list(self) -> Vec<Step>
        ensures { result.items ≡ self }
    {
        self.list
    }

    /// The place of a pair's step, if there is one.
    pub fn place_of(&self, pair: &Pair) -> Option<usize>
        ensures { IsPlaceOf self.now pair.now result }
    {
        self.places.get(pair).copied()
    }

    /// Notes the targets of the step at a place, those that have no step.
    pub fn note_all(&mut self, from: usize, targets: Vec<Pair>) -> Result<(), AllocError>
        ensures { OnOk result (NotesSteps self.old self.new from targets.items) }
    {
        for target in targets {
            self.note(from, target)?;
        }
        Ok(())
    }

    /// Notes a target of the step at a place, if it has no step.
    pub fn note(&mut self, from: usize, target: Pair) -> Result<(), AllocError>
        ensures { OnOk result (NotesSteps self.old self.new from (target ∷ [])) }
    {
        if self.places.contains_key(&target) {
            return Ok(());
        }
        let alloc = *self.list.allocator();
        let pair = target.copy(alloc)?;
        self.list.reserve(1)?;
        self.places.insert(target, self.list.len())?;
        self.list.push_reserved(Step { pair, from });
        Ok(())
    }
}
