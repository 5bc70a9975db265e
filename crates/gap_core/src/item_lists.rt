//! Items in the order in which they were found.
ghost use Rattle.std.specs.Prelude.{◌≡◌, ◌↔◌, [], OnOk, IsTrue, Contains, length, slice_get, option_map};
ghost use Rattle.gap_core.specs.Adding.{NotesOne};

use epc_core::Epc;
use indexmap::IndexSet;
use std::alloc::{AllocError, Global};
use std::hash::RandomState;
use std::marker::Model;

/// Items in the order in which they were found, each once.
#[derive(Drop)]
pub struct ItemList {
    items: IndexSet<Epc, RandomState>,
}

impl Model for ItemList {
    ghost use Rattle.std.specs.Prelude.{List, ℕ};

    ghost Value = { List (List ℕ) };

    ghost view = { λ l. l.items.keys };
}

impl ItemList {
    /// No items, with the keys of the hash by which they are looked up, drawn at random. Does not allocate.
    pub fn new(alloc: Global, keys: RandomState) -> ItemList
        ensures { result ≡ [] }
    {
        ItemList {
            items: IndexSet::with_hasher(alloc, keys),
        }
    }

    /// How many items there are.
    pub fn len(&self) -> usize
        ensures { result ≡ length self.now }
    {
        self.items.len()
    }

    /// The item at a place.
    pub fn get(&self, place: usize) -> Option<&Epc>
        ensures { option_map (λ i. i.now) result ≡ slice_get self.now place }
    {
        self.items.get_index(place)
    }

    /// Whether an item is among them.
    pub fn has(&self, item: &Epc) -> bool
        ensures { IsTrue result ↔ Contains self.now item.now }
    {
        self.items.contains(item)
    }

    /// Notes an item at the end, unless it is among them.
    pub fn note(&mut self, alloc: Global, item: &Epc) -> Result<(), AllocError>
        ensures { OnOk result (NotesOne item.now self.old self.new) }
    {
        if self.has(item) {
            return Ok(());
        }
        self.items.insert(item.copy(alloc)?)?;
        Ok(())
    }
}
