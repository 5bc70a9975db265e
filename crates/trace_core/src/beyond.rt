//! The spread of an item past what is known of it already.
ghost use Rattle.std.specs.Prelude.{◌≡◌, ◌↔◌, ◌∷◌, [], ℕ, List, Some, IfOk, IsTrue, OnOk, length, slice_get};
ghost use Rattle.trace_core.specs.declared.pairs.Pair.{Pair};
ghost use Rattle.trace_core.specs.Beyond.{GoesOn, HasSearched, IsSpreadBeyond, IsStop};
ghost use Rattle.trace_core.specs.Groups.{IsGiven, SeesTakers};
ghost use Rattle.trace_core.specs.Nodes.{Gains, Stands};
ghost use Rattle.trace_core.specs.Numbers.{numbered};
ghost use Rattle.trace_core.specs.Spreads.{AreAscendingItems};

use crate::batches::push_items;
use crate::captured::Captured;
use crate::nodes::{Node, Nodes};
use crate::ordered_keys::in_order;
use crate::seen::Seen;
use crate::visits::visit_item;
use epc_core::Epc;
use std::alloc::{AllocError, Global};
use std::collections::BTreeSet;

impl Captured {
    /// The item, and what chains of related pairs lead to from it inside this site, ascending and without
    /// repeats; but chains end at items of `stop`, and transformations that were seen before are left out.
    /// Those that the search comes to are seen afterwards; into each of them one of these items goes.
    pub fn spread_beyond(
        &self,
        item: &Epc,
        stop: &BTreeSet<Epc>,
        seen: &mut Seen,
    ) -> Result<Vec<Epc>, AllocError>
        ensures ascending { IfOk result (λ found. AreAscendingItems found.items) }
        ensures beyond { IfOk result (λ found.
            IsSpreadBeyond self.now item.now stop.now seen.old seen.new found.items) }
    {
        let found = items_beyond(self.alloc(), self, item, stop, seen)?;
        in_order(found)
    }
}

/// The items of a spread past what is known.
fn items_beyond(
    alloc: Global,
    site: &Captured,
    item: &Epc,
    stop: &BTreeSet<Epc>,
    seen: &mut Seen,
) -> Result<Vec<Epc>, AllocError>
    ensures { IfOk result (λ found. IsSpreadBeyond site.now item.now stop.now seen.old seen.new
        found.items) }
{
    match site.book().number_of(item) {
        Some(number) => numbers_beyond(alloc, site, number, stop, seen),
        None => alone(alloc, item),
    }
}

/// A copy of an item alone: no event names it, and nothing is related to it.
fn alone(alloc: Global, item: &Epc) -> Result<Vec<Epc>, AllocError>
    ensures { IfOk result (λ found. found.items ≡ item.now ∷ []) }
{
    let mut found = Vec::new(alloc);
    found.push(item.copy(alloc)?)?;
    Ok(found)
}

/// The items of a spread past what is known, from the item of a number.
fn numbers_beyond(
    alloc: Global,
    site: &Captured,
    number: usize,
    stop: &BTreeSet<Epc>,
    seen: &mut Seen,
) -> Result<Vec<Epc>, AllocError>
    ensures { IfOk result (λ found. (i : List ℕ) → slice_get (numbered site.now.events) number
        ≡ Some i → IsSpreadBeyond site.now i stop.now seen.old seen.new found.items) }
{
    let nodes = nodes_beyond(alloc, site, number, stop, seen)?;
    let mut found = Vec::new(alloc);
    push_items(alloc, site.book(), &nodes, &mut found)?;
    Ok(found)
}

/// The nodes of a spread past what is known. Each is visited once.
fn nodes_beyond(
    alloc: Global,
    site: &Captured,
    number: usize,
    stop: &BTreeSet<Epc>,
    seen: &mut Seen,
) -> Result<Nodes, AllocError>
    ensures { IfOk result (λ nodes. (i : List ℕ) → slice_get (numbered site.now.events) number
        ≡ Some i → HasSearched site.now i stop.now seen.old seen.new nodes (length nodes)) }
{
    let mut nodes = Nodes::new(alloc);
    nodes.note(0, number, site.me(), site.book().item_count())?;
    let mut place = 0;
    while place < nodes.len() {
        let node = nodes.as_slice()[place];
        visit_beyond(site, &node, stop, seen, &mut nodes)?;
        place += 1;
    }
    Ok(nodes)
}

/// Notes what a node is related to inside the site, unless the search stops at it.
fn visit_beyond(
    site: &Captured,
    node: &Node,
    stop: &BTreeSet<Epc>,
    seen: &mut Seen,
    nodes: &mut Nodes,
) -> Result<(), AllocError>
    ensures gains { OnOk result ((p : Pair) → Stands (site.now ∷ []) node.now p
        → Gains (Stands (site.now ∷ [])) (IsGiven site.now 0) (GoesOn site.now stop.now p)
        seen.old seen.new nodes.old nodes.new) }
    ensures new { OnOk result ((p : Pair) → Stands (site.now ∷ []) node.now p
        → SeesTakers 0 site.now.events seen.old seen.new p.item) }
{
    if node.at != site.me() {
        return Ok(());
    }
    if is_stop(site, stop, node.item) {
        return Ok(());
    }
    let mut looks = 0;
    visit_item(site, 0, false, node.item, seen, nodes, &mut looks)
}

/// Whether a search stops at the item of a number.
fn is_stop(site: &Captured, stop: &BTreeSet<Epc>, number: usize) -> bool
    ensures { (i : List ℕ) → slice_get (numbered site.now.events) number ≡ Some i
        → IsTrue result ↔ IsStop stop.now i }
{
    match site.book().item(number) {
        Some(item) => stop.contains(item),
        None => false,
    }
}
