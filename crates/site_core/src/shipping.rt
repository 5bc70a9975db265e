//! The shipments of items from a site to other sites.
ghost use mathlib.Core.Logic.{◌⊎◌};
ghost use Rattle.std.specs.Prelude.{◌≡◌, ◌↔◌, ℕ, List, IfOk, OnOk, IsTrue, map};
ghost use Rattle.trace_core.specs.Pairs.{IsShipped};
ghost use Rattle.site_core.specs.Shipments.{AreShipments};
ghost use Rattle.site_core.specs.Shipping.{is_in};

use epc_core::Epc;
use event_json::SiteNo;
use std::alloc::{AllocError, Global};
use std::collections::BTreeSet;
use trace_core::{Captured, keys_in_order};

/// An item that was shipped to a site. Shipments are ordered by item, then by site.
#[derive(Debug, Drop, PartialEq, Eq, PartialOrd, Ord)]
struct Shipment {
    item: Epc,
    site: SiteNo,
}

/// Each other site that one of the items was shipped to, with that item, in the order of item and site,
/// and each once.
pub fn shipments(
    alloc: Global,
    captured: &Captured,
    items: &[Epc],
) -> Result<Vec<(SiteNo, Epc)>, AllocError>
    ensures { IfOk result (λ out. AreShipments captured.now items.now out.items) }
{
    let mut found = BTreeSet::new(alloc);
    for item in items {
        add_shipments(captured, item, &mut found)?;
    }
    told(alloc, keys_in_order(alloc, found)?)
}

/// Adds the shipments of an item.
fn add_shipments(
    captured: &Captured,
    item: &Epc,
    found: &mut BTreeSet<Shipment>,
) -> Result<(), AllocError>
    ensures { OnOk result ((t : ℕ) (i : List ℕ) → IsTrue (is_in found.new t i)
        ↔ (IsTrue (is_in found.old t i)
        ⊎ ((item.now ≡ i) × IsShipped captured.now i (record { site = t; item = i })))) }
{
    for pair in captured.shipped(item)? {
        found.insert(Shipment {
            item: pair.item,
            site: pair.site,
        })?;
    }
    Ok(())
}

/// Each shipment as its site and its item.
fn told(alloc: Global, shipments: Vec<Shipment>) -> Result<Vec<(SiteNo, Epc)>, AllocError>
    ensures { IfOk result (λ out. out.items ≡ map (λ s. (s.site, s.item)) shipments.items) }
{
    let mut out = Vec::new(alloc);
    for shipment in shipments {
        out.push((shipment.site, shipment.item))?;
    }
    Ok(out)
}
