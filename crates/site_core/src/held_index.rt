//! An index beside a quarantine: for each item the recalls that hold it.
ghost use Rattle.std.specs.Prelude.{◌≡◌, false, ℕ, List, IfOk, OnOk, OnErr, IsTrue, true};
ghost use Rattle.std.specs.BTreeSet.{Updates};
ghost use Rattle.frame_core.specs.Identifiers.{recall_cmp};
ghost use Rattle.frame_core.specs.Numbers.{Recall};
ghost use Rattle.site_core.specs.HeldIndex.{notes, Sets};

use epc_core::Epc;
use frame_core::RecallId;
use std::alloc::{AllocError, Global};
use std::collections::{BTreeMap, BTreeSet};

/// Notes that an item is held under a recall. An `Err` changes nothing.
pub fn note(
    alloc: Global,
    index: &mut BTreeMap<Epc, BTreeSet<RecallId>>,
    recall: RecallId,
    item: &Epc,
) -> Result<(), AllocError>
    ensures ok { OnOk result (Sets (notes index.old) (notes index.new) item.now recall true) }
    ensures err { OnErr result ((i : List ℕ) (r : Recall)
        → notes index.new i r ≡ notes index.old i r) }
{
    if let Some(recalls) = index.get_mut(item) {
        return add(recalls, recall);
    }
    let mut recalls = BTreeSet::new(alloc);
    add(&mut recalls, recall)?;
    index.insert(item.copy(alloc)?, recalls)?;
    Ok(())
}

/// Adds a recall. An `Err` changes nothing.
fn add(recalls: &mut BTreeSet<RecallId>, recall: RecallId) -> Result<(), AllocError>
    ensures ok { OnOk result (Updates recall_cmp recalls.old recalls.new recall true) }
    ensures err { OnErr result (recalls.new.keys ≡ recalls.old.keys) }
{
    recalls.insert(recall)?;
    Ok(())
}

/// Forgets that an item is held under a recall, and the item with its last one. Does not allocate.
pub fn forget(index: &mut BTreeMap<Epc, BTreeSet<RecallId>>, recall: RecallId, item: &Epc)
    ensures { Sets (notes index.old) (notes index.new) item.now recall false }
{
    if forget_in(index, recall, item) {
        index.remove(item);
    }
}

/// Forgets that an item is held under a recall, and returns whether it has no other. Does not allocate.
fn forget_in(index: &mut BTreeMap<Epc, BTreeSet<RecallId>>, recall: RecallId, item: &Epc) -> bool
    ensures left { Sets (notes index.old) (notes index.new) item.now recall false }
    ensures emptied { IsTrue result → (r : Recall) → notes index.new item.now r ≡ false }
{
    match index.get_mut(item) {
        Some(recalls) => {
            recalls.remove(&recall);
            recalls.is_empty()
        }
        None => false,
    }
}

/// An equal index.
pub fn copy_index(
    alloc: Global,
    index: &BTreeMap<Epc, BTreeSet<RecallId>>,
) -> Result<BTreeMap<Epc, BTreeSet<RecallId>>, AllocError>
    ensures { IfOk result (λ copies. copies.entries ≡ index.now.entries) }
{
    let mut copies = BTreeMap::new(alloc);
    for (item, recalls) in index {
        let own = item.copy(alloc)?;
        let held = copy_recalls(alloc, recalls)?;
        copies.insert(own, held)?;
    }
    Ok(copies)
}

/// An equal set of recalls.
fn copy_recalls(
    alloc: Global,
    recalls: &BTreeSet<RecallId>,
) -> Result<BTreeSet<RecallId>, AllocError>
    ensures { IfOk result (λ copies. copies ≡ recalls.now) }
{
    let mut copies = BTreeSet::new(alloc);
    for recall in recalls {
        copies.insert(*recall)?;
    }
    Ok(copies)
}
