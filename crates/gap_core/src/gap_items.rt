//! The items that stand in packed gaps.
ghost use Rattle.std.specs.Prelude.{◌≡◌, ◌↔◌, IfOk, Contains};
ghost use Rattle.std.specs.List.Sorted.{IsStrictlySortedBy};
ghost use Rattle.trace_core.specs.Chains.{sites_at};
ghost use Rattle.gap_core.specs.GapItems.{gap_item_cmp};
ghost use Rattle.gap_core.specs.GapLines.{IsGapChild};
ghost use Rattle.gap_core.specs.declared.gap_items.GapItem.{GapItem};

use crate::searches::{known_packings, own_packings};
use crate::site_gaps::note_site_gaps;
use epc_core::Epc;
use event_json::SiteNo;
use std::alloc::{AllocError, Global};
use trace_core::{Captured, in_order};

/// An item in a packed gap: a site shipped it in a container, and the site's own packings say neither that it lies
/// there nor that it went there.
#[derive(Debug, Drop, PartialEq, Eq, PartialOrd, Ord)]
pub struct GapItem {
    /// The site that shipped it.
    pub site: SiteNo,
    /// What it lies in.
    pub container: Epc,
    /// The least of the sites that put it there and from which the container came.
    pub by: SiteNo,
    /// The item.
    pub child: Epc,
}

/// All items that stand in packed gaps of several sites, each once for each container: by site, then by container, then
/// by who packed, then by item.
///
/// # Errors
/// Out of memory.
pub fn items_in_gaps(alloc: Global, sites: &[&Captured]) -> Result<Vec<GapItem>, AllocError>
    // All items that stand in a packed gap for a shipment to another site or to a place outside, each once for its
    // container and with the least site that packed it and from which the container came; in order.
    ensures ascending { IfOk result (λ items. IsStrictlySortedBy gap_item_cmp items.items) }
    ensures exact { IfOk result (λ items. (g : GapItem) → Contains items.items g
        ↔ IsGapChild (sites_at sites.now) g.site g.by g.container g.child) }
{
    let own = own_packings(alloc, sites)?;
    let known = known_packings(alloc, sites)?;
    let mut gaps = Vec::new(alloc);
    for at in 0..sites.len() {
        note_site_gaps(alloc, sites, &own, &known, at, &mut gaps)?;
    }
    in_order(gaps)
}
