//! Sets of items, in the order of their keys.
ghost use Rattle.std.specs.Prelude.{◌≡◌, ◌↔◌, ◌==◌, not, IfOk, OnOk, OnErr, IsTrue, IsFalse};
ghost use Rattle.site_core.specs.ItemSets as set;

use epc_core::Epc;
use event_json::Copyable;
use std::alloc::{AllocError, Global};
use std::collections::BTreeSet;
use std::marker::Model;

/// A set of items, in the order of their keys.
#[derive(Debug, Drop)]
pub struct ItemSet {
    items: BTreeSet<Epc>,
}

impl Model for ItemSet {
    ghost use Rattle.site_core.specs.ItemSets.{Items, coded_items, as_items};

    ghost Value = { Items };

    ghost coded = { coded_items };

    ghost view = { λ s. as_items s.items };
}

impl ItemSet {
    /// No items. Does not allocate.
    pub fn new(alloc: Global) -> ItemSet
        ensures { result ≡ set.empty }
    {
        ItemSet {
            items: BTreeSet::new(alloc),
        }
    }

    /// Whether an item is in the set.
    pub fn contains(&self, item: &Epc) -> bool
        ensures { result ≡ set.contains self.now item.now }
    {
        // Brings into scope that the keys ascend.
        let _length = self.items.len();
        self.items.contains(item)
    }

    /// Adds an item, and returns whether it is new. Only a new one allocates. An `Err` changes nothing.
    pub fn insert(&mut self, item: Epc) -> Result<bool, AllocError>
        ensures new { IfOk result (λ new. new ≡ not (set.contains self.old item)) }
        ensures ok { OnOk result (self.new ≡ set.insert self.old item) }
        ensures err { OnErr result (self.new ≡ self.old) }
        ensures only_new { OnErr result (IsFalse (set.contains self.old item)) }
    {
        let _length = self.items.len();
        Ok(self.items.insert(item)?)
    }

    /// Removes an item, and returns whether it was in the set. Does not allocate.
    pub fn remove(&mut self, item: &Epc) -> bool
        ensures was { result ≡ set.contains self.old item.now }
        ensures left { self.new ≡ set.remove self.old item.now }
    {
        let _length = self.items.len();
        self.items.remove(item)
    }

    /// How many items there are.
    pub fn len(&self) -> usize
        ensures { result ≡ set.len self.now }
    {
        self.items.len()
    }

    /// Whether there is no item.
    pub fn is_empty(&self) -> bool
        ensures empty { IsTrue result ↔ (self.now ≡ set.empty) }
        ensures count { result ≡ (set.len self.now == 0) }
    {
        self.len() == 0
    }

    /// The items, in the order of their keys.
    pub fn items(&self) -> &BTreeSet<Epc>
        ensures set { set.as_items result.now ≡ self.now }
        ensures items { result.now.keys ≡ set.items self.now }
    {
        let _length = self.items.len();
        &self.items
    }

    /// An equal set.
    pub fn copy(&self, alloc: Global) -> Result<ItemSet, AllocError>
        ensures { IfOk result (λ copies. copies ≡ self.now) }
    {
        let items = copy_items(alloc, &self.items)?;
        Ok(ItemSet { items })
    }
}

/// An equal set of items.
fn copy_items(alloc: Global, items: &BTreeSet<Epc>) -> Result<BTreeSet<Epc>, AllocError>
    ensures { IfOk result (λ copies. copies ≡ items.now) }
{
    let mut copies = BTreeSet::new(alloc);
    for item in items {
        copies.insert(item.copy(alloc)?)?;
    }
    Ok(copies)
}

impl Copyable for ItemSet {
    fn copied(&self, alloc: Global) -> Result<ItemSet, AllocError> {
        self.copy(alloc)
    }
}
