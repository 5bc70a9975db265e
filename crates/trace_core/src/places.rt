//! Places of events, ascending: those of an id, or those of the transformations that take an item in.
ghost use Rattle.std.specs.Prelude.{◌≡◌, ◌==◌, ◌∷◌, [], IfOk, OnOk, OnErr, length};
ghost use Rattle.trace_core.specs.Places.{ends_with, with_last, without_last};

use smallvec::SmallVec;
use std::alloc::{AllocError, Global};
use std::marker::Model;

/// Places of events. Two lie in the value itself, as most items go into no more transformations than that: a look at
/// them is a look at the item.
#[derive(Debug)]
pub struct Places {
    places: SmallVec<usize, 2>,
}

impl Drop for Places {
    fn drop(self) {
        let Places { places: _ } = self;
    }
}

impl Model for Places {
    ghost use Rattle.std.specs.Prelude.{List, ℕ};

    ghost Value = { List ℕ };

    ghost view = { λ p. p.places.items };
}

impl Places {
    /// No place. Does not allocate.
    pub fn new(alloc: Global) -> Places
        ensures { result ≡ [] }
    {
        Places {
            places: SmallVec::new(alloc),
        }
    }

    /// One place.
    pub fn one(alloc: Global, place: usize) -> Result<Places, AllocError>
        ensures { IfOk result (λ places. places ≡ place ∷ []) }
    {
        let mut places = SmallVec::new(alloc);
        places.push(place)?;
        Ok(Places { places })
    }

    /// The places in order.
    pub fn as_slice(&self) -> &[usize]
        ensures { result.now ≡ self.now }
    {
        self.places.as_slice()
    }

    /// Whether there is no place.
    pub fn is_empty(&self) -> bool
        ensures { result ≡ (length self.now == 0) }
    {
        self.places.is_empty()
    }

    /// Adds a place at the end, unless it stands there. An `Err` changes nothing.
    pub fn note(&mut self, place: usize) -> Result<(), AllocError>
        ensures ok { OnOk result (self.new ≡ with_last place self.old) }
        ensures err { OnErr result (self.new ≡ self.old) }
    {
        if !self.ends_with(place) {
            self.places.push(place)?;
        }
        Ok(())
    }

    /// Takes a place away from the end, if it stands there. Does not allocate.
    pub fn forget(&mut self, place: usize)
        ensures { self.new ≡ without_last place self.old }
    {
        if self.ends_with(place) {
            self.places.pop();
        }
    }

    /// Whether the last one is this place.
    fn ends_with(&self, place: usize) -> bool
        ensures { result ≡ ends_with place self.now }
    {
        match self.places.last() {
            Some(last) => *last == place,
            None => false,
        }
    }
}
