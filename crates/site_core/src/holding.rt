//! Under which recalls an item is quarantined.
ghost use Rattle.std.specs.Prelude.{◌≡◌, ◌↔◌, IfOk, IsTrue, Contains};
ghost use Rattle.std.specs.List.Sorted.{IsStrictlySortedBy};
ghost use Rattle.frame_core.specs.Identifiers.{recall_cmp};
ghost use Rattle.frame_core.specs.Numbers.{Recall};
ghost use Rattle.site_core.specs.Quarantines.{held};

use crate::quarantines::Quarantine;
use epc_core::Epc;
use frame_core::RecallId;
use std::alloc::{AllocError, Global};
use std::collections::BTreeSet;

/// The recalls under which the item is quarantined, ascending and without repeats.
pub fn holders(
    alloc: Global,
    quarantine: &Quarantine,
    item: &Epc,
) -> Result<Vec<RecallId>, AllocError>
    ensures ascending { IfOk result (λ recalls. IsStrictlySortedBy recall_cmp recalls.items) }
    ensures exact { IfOk result (λ recalls. (r : Recall) → Contains recalls.items r
        ↔ IsTrue (held quarantine.now r item.now)) }
{
    match quarantine.recalls_of(item) {
        Some(recalls) => in_order(alloc, recalls),
        None => Ok(Vec::new(alloc)),
    }
}

/// The recalls of a set, ascending.
fn in_order(alloc: Global, recalls: &BTreeSet<RecallId>) -> Result<Vec<RecallId>, AllocError>
    ensures keys { IfOk result (λ out. out.items ≡ recalls.now.keys) }
    ensures ascending { IfOk result (λ out. IsStrictlySortedBy recall_cmp out.items) }
{
    let mut out = Vec::new(alloc);
    for recall in recalls {
        out.push(*recall)?;
    }
    Ok(out)
}

/// Whether the item is quarantined under some recall.
pub fn is_held(quarantine: &Quarantine, item: &Epc) -> bool
    ensures { IsTrue result ↔ ((r : Recall) × IsTrue (held quarantine.now r item.now)) }
{
    match quarantine.recalls_of(item) {
        Some(recalls) => !recalls.is_empty(),
        None => false,
    }
}
