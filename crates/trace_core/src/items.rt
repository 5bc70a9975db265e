//! Items by number, each with the places of the transformations that take it in.
ghost use Rattle.std.specs.Prelude.{◌≡◌, ◌∷◌, ◌++◌, [], ℕ, List, Some, None, IfOk, OnOk, OnErr, length, take, slice_get, option_map};
ghost use Rattle.trace_core.specs.Numbers.{number_in, names_of, item_places, known_too, noted, changed, changed_at};
ghost use Rattle.trace_core.specs.Places.{or_none, with_last, without_last};

use crate::places::Places;
use epc_core::Epc;
use indexmap::IndexMap;
use std::alloc::{AllocError, Global};
use std::hash::RandomState;
use std::marker::Model;

/// Items in the order in which they were first named, each with the places of the transformations that take it in. The
/// number of an item is its index.
#[derive(Debug, Drop)]
pub struct Items {
    items: IndexMap<Epc, Places, RandomState>,
}

impl Model for Items {
    ghost use Rattle.std.specs.Prelude.{List};
    ghost use Rattle.trace_core.specs.Numbers.{Named};

    ghost Value = { List Named };

    ghost view = { λ i. i.items.entries };
}

impl Items {
    /// No items, with the keys of the hash by which they are numbered, drawn at random, so that nobody can choose
    /// texts that collide. Does not allocate.
    pub fn new(alloc: Global, keys: RandomState) -> Items
        ensures { result ≡ [] }
    {
        Items {
            items: IndexMap::with_hasher(alloc, keys),
        }
    }

    /// The keys of the hash.
    pub fn keys(&self) -> RandomState {
        *self.items.hasher()
    }

    /// How many items there are.
    pub fn len(&self) -> usize
        ensures { result ≡ length self.now }
    {
        self.items.len()
    }

    /// The number of an item, if it is known.
    pub fn number(&self, item: &Epc) -> Option<usize>
        ensures { result ≡ number_in (names_of self.now) item.now }
    {
        self.items.get_index_of(item)
    }

    /// The item of a number.
    pub fn name(&self, number: usize) -> Option<&Epc>
        ensures { option_map (λ i. i.now) result ≡ slice_get (names_of self.now) number }
    {
        match self.items.get_index(number) {
            Some((name, _)) => Some(name),
            None => None,
        }
    }

    /// The places of the item of a number.
    pub fn places_at(&self, number: usize) -> &[usize]
        ensures { (i : List ℕ) → slice_get (names_of self.now) number ≡ Some i
            → result.now ≡ or_none (item_places self.now i) }
    {
        match self.items.get_index(number) {
            Some((_, places)) => places.as_slice(),
            None => &[],
        }
    }

    /// The places of an item, none if it isn't known.
    pub fn places_of(&self, item: &Epc) -> &[usize]
        ensures { result.now ≡ or_none (item_places self.now item.now) }
    {
        match self.number(item) {
            Some(number) => self.places_at(number),
            None => &[],
        }
    }

    /// The number of an item, which gets the next one if it is new. An `Err` changes nothing.
    pub fn know(&mut self, alloc: Global, item: &Epc) -> Result<usize, AllocError>
        ensures ok { OnOk result (self.new ≡ known_too item.now self.old) }
        ensures number { IfOk result (λ number. number_in (names_of self.new) item.now
            ≡ Some number) }
        ensures err { OnErr result (self.new ≡ self.old) }
    {
        match self.number(item) {
            Some(number) => Ok(number),
            None => self.add(alloc, item, Places::new(alloc)),
        }
    }

    /// Notes that the transformation at a place takes an item in, which gets the next number if it is new, and
    /// returns its number. An `Err` changes nothing.
    pub fn note(&mut self, alloc: Global, item: &Epc, place: usize) -> Result<usize, AllocError>
        ensures ok { OnOk result (self.new ≡ noted place item.now self.old) }
        ensures number { IfOk result (λ number. number_in (names_of self.new) item.now
            ≡ Some number) }
        ensures err { OnErr result (self.new ≡ self.old) }
    {
        match self.number(item) {
            Some(number) => {
                self.note_at(number, place)?;
                Ok(number)
            }
            None => {
                let places = Places::one(alloc, place)?;
                self.add(alloc, item, places)
            }
        }
    }

    /// Takes a place away from an item, if it is its last one. The item keeps its number. Does not allocate.
    pub fn forget(&mut self, item: &Epc, place: usize)
        ensures { self.new ≡ changed (without_last place) item.now self.old }
    {
        if let Some(number) = self.number(item) {
            self.forget_at(number, place);
        }
    }

    /// Leaves the items of the first numbers alone. Does not allocate.
    pub fn truncate(&mut self, kept: usize)
        ensures { self.new ≡ take kept self.old }
    {
        self.items.truncate(kept);
    }

    /// Adds a new item with its places, and returns its number. An `Err` changes nothing.
    fn add(&mut self, alloc: Global, item: &Epc, places: Places) -> Result<usize, AllocError>
        requires new { number_in (names_of self.old) item.now ≡ None }
        ensures ok { OnOk result (self.new ≡ self.old ++ (item.now, places) ∷ []) }
        ensures number { IfOk result (λ number. number ≡ length self.old) }
        ensures err { OnErr result (self.new ≡ self.old) }
    {
        let number = self.items.len();
        self.items.insert(item.copy(alloc)?, places)?;
        Ok(number)
    }

    /// Notes a place of the item of a number. An `Err` changes nothing.
    fn note_at(&mut self, number: usize, place: usize) -> Result<(), AllocError>
        ensures ok { OnOk result (self.new ≡ changed_at (with_last place) number self.old) }
        ensures err { OnErr result (self.new ≡ self.old) }
    {
        match self.items.get_index_mut(number) {
            Some(places) => places.note(place),
            None => Ok(()),
        }
    }

    /// Takes a place away from the item of a number, if it is its last one. Does not allocate.
    fn forget_at(&mut self, number: usize, place: usize)
        ensures { self.new ≡ changed_at (without_last place) number self.old }
    {
        if let Some(places) = self.items.get_index_mut(number) {
            places.forget(place);
        }
    }
}
