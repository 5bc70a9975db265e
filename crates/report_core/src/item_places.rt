//! The items of pairs, by their sites.
ghost use Rattle.std.specs.Prelude.{◌≡◌, ◌↔◌, ◌⊎◌, ◌<◌, IfOk, OnOk, Contains, length, replicate};
ghost use Rattle.trace_core.specs.declared.pairs.Pair.{Pair};
ghost use Rattle.site_core.specs.ItemSets as set;
ghost use Rattle.report_core.specs.Gathering.{IsAmong};

use site_core::ItemSet;
use std::alloc::{AllocError, Global};
use trace_core::Pair;

/// For each of so many sites, in the order of their numbers, the items that these pairs have there. Looks at each
/// pair once.
pub(crate) fn items_by_site(
    alloc: Global,
    count: usize,
    pairs: &[Pair],
) -> Result<Vec<ItemSet>, AllocError>
    ensures count { IfOk result (λ sets. length sets.items ≡ count) }
    ensures exact { IfOk result (λ sets. (p : Pair) → IsAmong sets.items p
        ↔ ((p.site < count) × Contains pairs.now p)) }
{
    let mut sets = no_items(alloc, count)?;
    for pair in pairs {
        add_item(alloc, &mut sets, pair)?;
    }
    Ok(sets)
}

/// So many sets without items.
fn no_items(alloc: Global, count: usize) -> Result<Vec<ItemSet>, AllocError>
    ensures { IfOk result (λ sets. sets.items ≡ replicate count set.empty) }
{
    let mut sets = Vec::new(alloc);
    for _ in 0..count {
        sets.push(ItemSet::new(alloc))?;
    }
    Ok(sets)
}

/// Adds a pair's item to the set of its site, if there is one.
fn add_item(alloc: Global, sets: &mut Vec<ItemSet>, pair: &Pair) -> Result<(), AllocError>
    ensures count { OnOk result (length sets.new.items ≡ length sets.old.items) }
    ensures exact { OnOk result ((p : Pair) → IsAmong sets.new.items p
        ↔ (IsAmong sets.old.items p ⊎ ((p.site < length sets.old.items) × (pair.now ≡ p)))) }
{
    let place = pair.site.number() as usize;
    if place < sets.len() {
        sets[place].insert(pair.item.copy(alloc)?)?;
    }
    Ok(())
}
