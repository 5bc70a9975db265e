//! Whether what is quarantined is closed inside its site.
ghost use Rattle.std.specs.Prelude.{◌≡◌, ◌↔◌, IfOk, IsTrue};
ghost use Rattle.std.specs.List.{list_all};
ghost use Rattle.site_core.specs.ItemSets as set;
ghost use Rattle.site_core.specs.Shortcuts.{IsClosedInside, IsClosedSet};

use crate::item_sets::ItemSet;
use crate::quarantines::Quarantine;
use epc_core::Epc;
use std::alloc::{AllocError, Global};
use trace_core::Captured;

/// Whether what is quarantined is found to be closed inside its site. Where memory runs out, it isn't found.
pub(crate) fn is_found_closed(alloc: Global, captured: &Captured, quarantine: &Quarantine) -> bool
    ensures { IsTrue result → IsClosedInside captured.now quarantine.now }
{
    match is_closed_inside(alloc, captured, quarantine) {
        Ok(closed) => closed,
        Err(_) => false,
    }
}

/// Whether what is quarantined is closed inside its site. There is one search for each recall, up to the first
/// one whose items aren't closed.
fn is_closed_inside(
    alloc: Global,
    captured: &Captured,
    quarantine: &Quarantine,
) -> Result<bool, AllocError>
    ensures { IfOk result (λ closed. IsTrue closed ↔ IsClosedInside captured.now quarantine.now) }
{
    for (_, items) in quarantine.by_recall() {
        if !is_closed_set(alloc, captured, items)? {
            return Ok(false);
        }
    }
    Ok(true)
}

/// Whether what is made at a site of items of a set is in the set: then their whole spread is. There is one search for
/// all of them, which comes to each transformation once.
pub fn is_closed_set(
    alloc: Global,
    captured: &Captured,
    items: &ItemSet,
) -> Result<bool, AllocError>
    ensures { IfOk result (λ closed. IsTrue closed ↔ IsClosedSet captured.now items.now) }
{
    let starts = in_order(alloc, items)?;
    let spread = captured.spread(&starts)?;
    Ok(has_each(items, &spread))
}

/// The items of a set, in order.
fn in_order(alloc: Global, items: &ItemSet) -> Result<Vec<Epc>, AllocError>
    ensures { IfOk result (λ list. list.items ≡ set.items items.now) }
{
    let mut list = Vec::new(alloc);
    for item in items.items() {
        list.push(item.copy(alloc)?)?;
    }
    Ok(list)
}

/// Whether each of the items is in a set.
fn has_each(items: &ItemSet, found: &[Epc]) -> bool
    ensures { result ≡ list_all (λ i. set.contains items.now i) found.now }
{
    found.iter().all(|item| items.contains(item))
}
