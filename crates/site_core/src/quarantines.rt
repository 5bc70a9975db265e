//! What is quarantined at a site, by recall.
ghost use Rattle.std.specs.Prelude.{◌≡◌, ◌==◌, false, ◌↔◌, not, map, option_map, Some, None, IfOk, OnOk, OnErr, IsTrue, IsFalse};
ghost use Rattle.std.specs.FinMap as finite;
ghost use Rattle.frame_core.specs.Identifiers.{recall_cmp};
ghost use Rattle.frame_core.specs.Numbers.{Recall};
ghost use Rattle.frame_core.specs.Tables.{as_map};
ghost use Rattle.site_core.specs.HeldIndex.{has, IsIndex};
ghost use Rattle.site_core.specs.Holding.{without_item, without_items};
ghost use Rattle.site_core.specs.ItemSets as set;
ghost use Rattle.site_core.specs.Quarantines.{held, with_item, with_items, HasNoEmptySet, IsLeastHolder};

use crate::held_index::{copy_index, forget, note};
use crate::item_sets::ItemSet;
use epc_core::Epc;
use frame_core::{RecallId, tables};
use std::alloc::{AllocError, Global};
use std::collections::{BTreeMap, BTreeSet};
use std::marker::Model;

/// The items that are quarantined at a site, by recall. A recall without items isn't kept. Beside them
/// stands an index of the recalls of each item.
#[derive(Debug, Drop)]
pub struct Quarantine {
    recalls: BTreeMap<RecallId, ItemSet>,
    index: BTreeMap<Epc, BTreeSet<RecallId>>,
    alloc: Global,
}

impl Model for Quarantine {
    ghost use Rattle.frame_core.specs.Identifiers.{recall_cmp};
    ghost use Rattle.frame_core.specs.Tables.{as_map};
    ghost use Rattle.site_core.specs.HeldIndex.{IsIndex};
    ghost use Rattle.site_core.specs.Quarantines.{Quarantine, coded_quarantine, HasNoEmptySet};

    ghost Value = { Quarantine };

    ghost coded = { coded_quarantine };

    ghost view = { λ q. as_map recall_cmp q.recalls };

    ghost invariant = { λ q. HasNoEmptySet (as_map recall_cmp q.recalls)
        × IsIndex q.index (as_map recall_cmp q.recalls) };
}

impl Quarantine {
    /// No items under any recall. Does not allocate; what is held comes from the allocator.
    pub fn new(alloc: Global) -> Quarantine
        ensures { result ≡ finite.empty }
    {
        Quarantine {
            recalls: BTreeMap::new(alloc),
            index: BTreeMap::new(alloc),
            alloc,
        }
    }

    /// Whether nothing is quarantined. Does not allocate.
    pub fn is_empty(&self) -> bool
        ensures { IsTrue result ↔ (self.now ≡ finite.empty) }
    {
        self.by_recall().is_empty()
    }

    /// Whether an item is quarantined under a recall. Does not allocate.
    pub fn holds(&self, recall: RecallId, item: &Epc) -> bool
        ensures { result ≡ held self.now recall item.now }
    {
        match self.under(recall) {
            Some(items) => items.contains(item),
            None => false,
        }
    }

    /// Quarantines an item under a recall, and returns whether it wasn't before. Only then it
    /// allocates. An `Err` changes nothing.
    pub fn hold(&mut self, recall: RecallId, item: Epc) -> Result<bool, AllocError>
        ensures new { IfOk result (λ new. new ≡ not (held self.old recall item)) }
        ensures ok { OnOk result (self.new ≡ with_item self.old recall item) }
        ensures err { OnErr result (self.new ≡ self.old) }
        ensures only_new { OnErr result (IsFalse (held self.old recall item)) }
    {
        self.hold_copy(recall, &item)
    }

    /// Quarantines these items under a recall. An `Err` changes nothing.
    pub fn hold_all(&mut self, recall: RecallId, items: &[Epc]) -> Result<(), AllocError>
        ensures ok { OnOk result (self.new ≡ with_items self.old recall items.now) }
        ensures err { OnErr result (self.new ≡ self.old) }
    {
        self.hold_each(recall, items)?;
        Ok(())
    }

    /// Quarantines these items under a recall, and returns those that are new there: to release them gives
    /// what was held before. An `Err` changes nothing: what was added is taken away again.
    pub(crate) fn hold_each<'a>(
        &mut self,
        recall: RecallId,
        items: &'a [Epc],
    ) -> Result<Vec<&'a Epc>, AllocError>
        ensures ok { OnOk result (self.new ≡ with_items self.old recall items.now) }
        ensures undone { IfOk result (λ added.
            without_items self.new recall (map (λ item. item.now) added.items) ≡ self.old) }
        ensures err { OnErr result (self.new ≡ self.old) }
    {
        let mut added = Vec::with_capacity(self.alloc, items.len())?;
        for item in items {
            let new = match self.hold_copy(recall, item) {
                Ok(new) => new,
                Err(_) => {
                    self.release_all(recall, added);
                    return Err(AllocError);
                }
            };
            if new {
                added.push_reserved(item);
            }
        }
        Ok(added)
    }

    /// Quarantines a copy of an item under a recall, and returns whether it is new there. Only then it
    /// allocates. An `Err` changes nothing.
    fn hold_copy(&mut self, recall: RecallId, item: &Epc) -> Result<bool, AllocError>
        ensures new { IfOk result (λ new. new ≡ not (held self.old recall item.now)) }
        ensures ok { OnOk result (self.new ≡ with_item self.old recall item.now) }
        ensures err { OnErr result (self.new ≡ self.old) }
        ensures only_new { OnErr result (IsFalse (held self.old recall item.now)) }
    {
        if self.holds(recall, item) {
            return Ok(false);
        }
        hold_new(self.alloc, &mut self.recalls, &mut self.index, recall, item)?;
        Ok(true)
    }

    /// Takes these items away from a recall, the last one first. Does not allocate.
    pub(crate) fn release_all(&mut self, recall: RecallId, mut items: Vec<&Epc>)
        ensures { self.new ≡ without_items self.old recall
            (map (λ item. item.now) items.entry.items) }
    {
        while let Some(item) = items.pop() {
            self.release(recall, item);
        }
    }

    /// Takes these items away from a recall, the last one first. Does not allocate.
    pub(crate) fn release_items(&mut self, recall: RecallId, mut items: Vec<Epc>)
        ensures { self.new ≡ without_items self.old recall items.items }
    {
        while let Some(item) = items.pop() {
            self.release(recall, &item);
        }
    }

    /// Takes an item away from a recall. Does not allocate.
    fn release(&mut self, recall: RecallId, item: &Epc)
        ensures { self.new ≡ without_item self.old recall item.now }
    {
        release_in(&mut self.recalls, recall, item);
        forget(&mut self.index, recall, item);
    }

    /// The items that are quarantined under a recall.
    pub fn under(&self, recall: RecallId) -> Option<&ItemSet>
        ensures { option_map (λ items. items.now) result ≡ finite.get self.now recall }
    {
        tables::get(&self.recalls, recall)
    }

    /// How many items are quarantined, each counted once.
    pub(crate) fn item_count(&self) -> usize {
        self.index.len()
    }

    /// The items that are quarantined, each with its recalls.
    pub(crate) fn by_item(&self) -> &BTreeMap<Epc, BTreeSet<RecallId>>
        ensures { IsIndex result.now self.now }
    {
        &self.index
    }

    /// The recalls under which an item is quarantined, ascending.
    pub(crate) fn recalls_of(&self, item: &Epc) -> Option<&BTreeSet<RecallId>>
        ensures { (r : Recall) → has (option_map (λ recalls. recalls.now) result) r
            ≡ held self.now r item.now }
    {
        self.index.get(item)
    }

    /// The least recall under which an item is quarantined.
    pub fn least_holder(&self, item: &Epc) -> Option<RecallId>
        ensures { IsLeastHolder self.now item.now result }
    {
        let recalls = self.recalls_of(item)?;
        Some(*recalls.first()?)
    }

    /// The items that are quarantined, by recall. None of the sets is empty.
    pub fn by_recall(&self) -> &BTreeMap<RecallId, ItemSet>
        ensures recalls { as_map recall_cmp result.now ≡ self.now }
        ensures entries { result.now.entries ≡ finite.entries self.now }
        ensures no_empty { HasNoEmptySet self.now }
    {
        // Brings into scope that the recalls ascend.
        let _length = self.recalls.len();
        &self.recalls
    }

    /// An equal quarantine.
    pub fn copy(&self, alloc: Global) -> Result<Quarantine, AllocError>
        ensures { IfOk result (λ copies. copies ≡ self.now) }
    {
        let recalls = tables::copy(alloc, &self.recalls)?;
        let index = copy_index(alloc, &self.index)?;
        Ok(Quarantine {
            recalls,
            index,
            alloc,
        })
    }
}

/// Adds a copy of an item to the set of a recall, and the recall to those of the item. An `Err` changes
/// nothing.
fn hold_new(
    alloc: Global,
    recalls: &mut BTreeMap<RecallId, ItemSet>,
    index: &mut BTreeMap<Epc, BTreeSet<RecallId>>,
    recall: RecallId,
    item: &Epc,
) -> Result<(), AllocError>
    ensures ok { OnOk result (as_map recall_cmp recalls.new
        ≡ with_item (as_map recall_cmp recalls.old) recall item.now) }
    ensures err { OnErr result (as_map recall_cmp recalls.new ≡ as_map recall_cmp recalls.old) }
    ensures index { IsIndex index.old (as_map recall_cmp recalls.old)
        → IsIndex index.new (as_map recall_cmp recalls.new) }
{
    let own = item.copy(alloc)?;
    note(alloc, index, recall, item)?;
    match hold_in(alloc, recalls, recall, own) {
        Ok(_) => Ok(()),
        Err(fault) => {
            forget(index, recall, item);
            Err(fault)
        }
    }
}

/// Adds an item to the set of a recall, and returns whether it is new there. An `Err` changes nothing.
fn hold_in(
    alloc: Global,
    recalls: &mut BTreeMap<RecallId, ItemSet>,
    recall: RecallId,
    item: Epc,
) -> Result<bool, AllocError>
    ensures new { IfOk result (λ new. new
        ≡ not (held (as_map recall_cmp recalls.old) recall item)) }
    ensures ok { OnOk result (as_map recall_cmp recalls.new
        ≡ with_item (as_map recall_cmp recalls.old) recall item) }
    ensures err { OnErr result (as_map recall_cmp recalls.new ≡ as_map recall_cmp recalls.old) }
    ensures only_new { OnErr result (IsFalse (held (as_map recall_cmp recalls.old) recall item)) }
{
    if let Some(items) = recalls.get_mut(&recall) {
        return items.insert(item);
    }
    let mut items = ItemSet::new(alloc);
    let new = items.insert(item)?;
    tables::put(recalls, recall, items)?;
    Ok(new)
}

/// Removes an item from the set of a recall, and the recall with its last one. Does not allocate.
fn release_in(recalls: &mut BTreeMap<RecallId, ItemSet>, recall: RecallId, item: &Epc)
    ensures { as_map recall_cmp recalls.new
        ≡ without_item (as_map recall_cmp recalls.old) recall item.now }
{
    if remove_in(recalls, recall, item) {
        tables::take(recalls, recall);
    }
}

/// Removes an item from the set of a recall, and returns whether the set is empty then. Does not allocate.
fn remove_in(recalls: &mut BTreeMap<RecallId, ItemSet>, recall: RecallId, item: &Epc) -> bool
    ensures left { (items : set.Items) → finite.get (as_map recall_cmp recalls.old) recall
        ≡ Some items → as_map recall_cmp recalls.new
        ≡ finite.insert (as_map recall_cmp recalls.old) recall (set.remove items item.now) }
    ensures emptied { (items : set.Items) → finite.get (as_map recall_cmp recalls.old) recall
        ≡ Some items → result ≡ (set.len (set.remove items item.now) == 0) }
    ensures none { finite.get (as_map recall_cmp recalls.old) recall ≡ None → (result ≡ false)
        × (as_map recall_cmp recalls.new ≡ as_map recall_cmp recalls.old) }
{
    match recalls.get_mut(&recall) {
        Some(items) => {
            items.remove(item);
            items.is_empty()
        }
        None => false,
    }
}
