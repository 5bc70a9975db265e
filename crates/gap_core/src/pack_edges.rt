//! What stands in packed gaps, by container.
ghost use Rattle.std.specs.Prelude.{◌≡◌, ◌↔◌, List, ℕ, IfOk, IsTrue, OnOk, Contains};
ghost use Rattle.std.specs.List.{Any};
ghost use Rattle.gap_core.specs.Adding.{AddsTo, ByOne};
ghost use Rattle.gap_core.specs.GapPacks.{IsEdgeOf, KeepsEdge};

use crate::gap_items::GapItem;
use crate::item_lists::ItemList;
use epc_core::Epc;
use std::alloc::{AllocError, Global};
use std::collections::BTreeMap;
use std::hash::RandomState;

/// By container the items that stand in gaps in it.
pub type Edges = BTreeMap<Epc, ItemList>;

/// By container what stands in the gaps of some items, with the keys of the hash by which they are looked up.
pub fn edges_of(alloc: Global, keys: RandomState, gaps: &[GapItem]) -> Result<Edges, AllocError>
    ensures { IfOk result (λ edges. (m : List ℕ × List ℕ) → KeepsEdge edges m
        ↔ ByOne gaps.now IsEdgeOf m) }
{
    let mut edges = BTreeMap::new(alloc);
    for gap in gaps {
        note_edge(alloc, keys, &gap.container, &gap.child, &mut edges)?;
    }
    Ok(edges)
}

/// Notes that an item stands in a gap in a container.
fn note_edge(
    alloc: Global,
    keys: RandomState,
    container: &Epc,
    child: &Epc,
    edges: &mut Edges,
) -> Result<(), AllocError>
    ensures { OnOk result (AddsTo (KeepsEdge edges.old) (KeepsEdge edges.new)
        (λ m. (container.now ≡ m.0) × (child.now ≡ m.1))) }
{
    if let Some(items) = edges.get_mut(container) {
        items.note(alloc, child)?;
        return Ok(());
    }
    let items = one_item(alloc, keys, child)?;
    edges.insert(container.copy(alloc)?, items)?;
    Ok(())
}

/// One item.
fn one_item(alloc: Global, keys: RandomState, item: &Epc) -> Result<ItemList, AllocError>
    ensures { IfOk result (λ items. (i : List ℕ) → Contains items i ↔ (item.now ≡ i)) }
{
    let mut items = ItemList::new(alloc, keys);
    items.note(alloc, item)?;
    Ok(items)
}

/// Whether one of some items stands in a gap in a container.
pub fn has_edge(edges: &Edges, container: &Epc, items: &[Epc]) -> bool
    ensures { IsTrue result ↔ Any (λ i. KeepsEdge edges.now (container.now, i)) items.now }
{
    match edges.get(container) {
        Some(list) => has_one(list, items),
        None => false,
    }
}

/// Whether one of some items is in a list.
pub fn has_one(list: &ItemList, items: &[Epc]) -> bool
    ensures { IsTrue result ↔ Any (Contains list.now) items.now }
{
    items.iter().any(|item| list.has(item))
}
