//! The pairs that found nodes stand for, batch by batch.
ghost use Rattle.std.specs.Prelude.{◌≡◌, ◌⊎◌, ◌↔◌, List, ℕ, Some, IfOk, OnOk, Contains, slice_get};
ghost use Rattle.trace_core.specs.declared.nodes.Node.{Node};
ghost use Rattle.trace_core.specs.declared.pairs.Pair.{Pair};
ghost use Rattle.trace_core.specs.Chains.{sites_at};
ghost use Rattle.trace_core.specs.Found.{IsInBatch, Gives, IsPairOf, items_at};
ghost use Rattle.trace_core.specs.Nodes.{Stands, HasItem};
ghost use Rattle.trace_core.specs.Numbers.{numbered};

use crate::books::Book;
use crate::captured::Captured;
use crate::found_items::items_of_numbers;
use crate::marks::Marks;
use crate::nodes::{Batch, Nodes};
use crate::pairs::Pair;
use epc_core::Epc;
use event_json::SiteNo;
use std::alloc::{AllocError, Global};
use std::collections::BTreeMap;

/// The pairs that nodes stand for. Those of a batch ascend where they are many.
pub fn pairs_of(alloc: Global, sites: &[&Captured], nodes: &Nodes) -> Result<Vec<Pair>, AllocError>
    ensures { IfOk result (λ pairs. (p : Pair) → Contains pairs.items p
        ↔ ((n : Node) × Contains nodes.now n × Stands (sites_at sites.now) n p)) }
{
    pairs_in(alloc, sites, nodes.batches())
}

/// The pairs of batches.
fn pairs_in(
    alloc: Global,
    sites: &[&Captured],
    batches: &BTreeMap<Batch, Marks>,
) -> Result<Vec<Pair>, AllocError>
    ensures { IfOk result (λ pairs. (p : Pair) → Contains pairs.items p
        ↔ ((n : Node) × IsInBatch batches.now n × Stands (sites_at sites.now) n p)) }
{
    let mut pairs = Vec::new(alloc);
    for (batch, numbers) in batches {
        push_batch(alloc, sites, *batch, numbers, &mut pairs)?;
    }
    Ok(pairs)
}

/// Adds the pairs of a batch.
fn push_batch(
    alloc: Global,
    sites: &[&Captured],
    batch: Batch,
    numbers: &Marks,
    pairs: &mut Vec<Pair>,
) -> Result<(), AllocError>
    ensures { OnOk result ((p : Pair) → Contains pairs.new.items p
        ↔ (Contains pairs.old.items p ⊎ Gives (sites_at sites.now) (batch, numbers.now) p)) }
{
    if sites.len() <= batch.site {
        return Ok(());
    }
    let items = items_of_numbers(alloc, sites[batch.site].book(), numbers)?;
    push_pairs(alloc, batch.at, &items, pairs)
}

/// Adds the pairs of items at a site.
fn push_pairs(
    alloc: Global,
    at: SiteNo,
    items: &[&Epc],
    pairs: &mut Vec<Pair>,
) -> Result<(), AllocError>
    ensures { OnOk result ((p : Pair) → Contains pairs.new.items p
        ↔ (Contains pairs.old.items p ⊎ IsPairOf at (items_at items.now) p)) }
{
    pairs.reserve(items.len())?;
    for item in items {
        pairs.push(Pair {
            site: at,
            item: item.copy(alloc)?,
        })?;
    }
    Ok(())
}

/// Adds the items that nodes stand for by the numbers of a book. Those of a batch ascend where they are many.
pub fn push_items(
    alloc: Global,
    book: &Book,
    nodes: &Nodes,
    found: &mut Vec<Epc>,
) -> Result<(), AllocError>
    ensures { OnOk result ((i : List ℕ) → Contains found.new.items i
        ↔ (Contains found.old.items i ⊎ HasItem book.now nodes.now i)) }
{
    push_items_in(alloc, book, nodes.batches(), found)
}

/// Adds the items of batches by the numbers of a book.
fn push_items_in(
    alloc: Global,
    book: &Book,
    batches: &BTreeMap<Batch, Marks>,
    found: &mut Vec<Epc>,
) -> Result<(), AllocError>
    ensures { OnOk result ((i : List ℕ) → Contains found.new.items i
        ↔ (Contains found.old.items i ⊎ ((n : Node) × IsInBatch batches.now n
        × (slice_get (numbered book.now) n.item ≡ Some i)))) }
{
    for (_, numbers) in batches {
        let items = items_of_numbers(alloc, book, numbers)?;
        push_copies(alloc, &items, found)?;
    }
    Ok(())
}

/// Adds copies of items.
fn push_copies(alloc: Global, items: &[&Epc], found: &mut Vec<Epc>) -> Result<(), AllocError>
    ensures { OnOk result ((i : List ℕ) → Contains found.new.items i
        ↔ (Contains found.old.items i ⊎ Contains (items_at items.now) i)) }
{
    found.reserve(items.len())?;
    for item in items {
        found.push(item.copy(alloc)?)?;
    }
    Ok(())
}
