//! Shipments of recalled or traced items out of the traced sites.
ghost use Rattle.std.specs.Prelude.{◌≡◌, IfOk, Contains};
ghost use Rattle.site_recovery.specs.Checking.{records_at, world_at};
ghost use Rattle.site_recovery.specs.FittingAt.{AreAllSites};
ghost use Rattle.report_core.specs.Outside.{AreOutside, AreOutsideOf};

use crate::destinations::Destination;
use crate::gathering::{add_of_events, add_of_site};
use crate::item_places::items_by_site;
use epc_core::Epc;
use event_json::SiteNo;
use frame_core::RecallId;
use site_core::SiteState;
use std::alloc::{AllocError, Global};
use std::collections::BTreeSet;
use trace_core::{Pair, keys_in_order};

/// A recalled or traced item that was shipped to a place outside the traced sites. These shipments are ordered by site,
/// then by item, then by destination.
#[derive(Debug, Drop, PartialEq, Eq, PartialOrd, Ord)]
pub struct OutsideShipment {
    /// The site that shipped it.
    pub site: SiteNo,
    /// The item.
    pub item: Epc,
    /// Where it went.
    pub destination: Destination,
}

/// The shipments out of the traced sites of what is quarantined under a recall, ascending and each once.
pub(crate) fn shipped_out(
    alloc: Global,
    sites: &[&SiteState],
    recall: RecallId,
) -> Result<Vec<OutsideShipment>, AllocError>
    requires all { AreAllSites (records_at sites.now) }
    ensures { IfOk result (λ out. AreOutside (world_at sites.now) recall out.items) }
{
    let mut found = BTreeSet::new(alloc);
    for state in sites {
        add_of_site(alloc, state, recall, &mut found)?;
    }
    keys_in_order(alloc, found)
}

/// The shipments out of the traced sites of these pairs, each of its item from its site, ascending and each once.
pub(crate) fn shipped_from(
    alloc: Global,
    sites: &[&SiteState],
    pairs: &[Pair],
) -> Result<Vec<OutsideShipment>, AllocError>
    requires all { AreAllSites (records_at sites.now) }
    ensures { IfOk result (λ out. AreOutsideOf (world_at sites.now) (λ p.
        Contains pairs.now p) out.items) }
{
    let sets = items_by_site(alloc, sites.len(), pairs)?;
    let mut found = BTreeSet::new(alloc);
    for place in 0..sites.len() {
        add_of_events(alloc, sites[place], &sets[place], &mut found)?;
    }
    keys_in_order(alloc, found)
}
