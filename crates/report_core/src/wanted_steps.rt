//! Of which steps of trails the events are told.
ghost use Rattle.std.specs.Prelude.{◌≡◌, ℕ, List, Some, IfOk, IsTrue, OnOk, if◌then◌else◌};
ghost use Rattle.trace_core.specs.Chains.{sites_at};
ghost use Rattle.trace_core.specs.PutIn.{filled};
ghost use Rattle.trace_core.specs.Searches.{IsFound};
ghost use Rattle.site_core.specs.ItemSets.{item_cmp};
ghost use Rattle.report_core.specs.FirstPlaces.{AreWanted, AreWantedAlong, IsContainerAt, IsWantedStep, StayWanted};
ghost use Rattle.report_core.specs.Leaving.{AreWantedOut, IsWantedItem};
ghost use Rattle.report_core.specs.Sources.{AddsTo, ByOne};
ghost use Rattle.report_core.specs.declared.trail_events.ShownSteps.TheVariants.{Each};

use crate::containers::filled;
use crate::outside::OutsideShipment;
use crate::shown_trails::ShownTrails;
use epc_core::Epc;
use event_json::Body;
use std::alloc::{AllocError, Global};
use std::collections::BTreeSet;
use trace_core::{Captured, Pair};

/// The steps whose events are shown, by what has to be found for them.
#[derive(Drop)]
pub struct WantedSteps {
    /// The items of their pairs, and maybe others.
    pub items: BTreeSet<Epc>,
    /// Whether one of them leads to the same item, as shipments do, or an item was shipped out of the traced sites.
    pub ships: bool,
}

/// The steps that are shown of some trails, each one or in brief a single one.
///
/// # Errors
/// Out of memory.
pub(crate) fn wanted_along<T: ShownTrails>(
    alloc: Global,
    trails: &T,
    brief: bool,
) -> Result<WantedSteps, AllocError>
    ensures { IfOk result (λ wanted. AreWantedAlong wanted
        (if brief then T.step trails.now else Each) (T.trails trails.now)) }
{
    let mut wanted = WantedSteps {
        items: BTreeSet::new(alloc),
        ships: false,
    };
    for place in 0..trails.count() {
        let pairs = trails.pairs_at(alloc, place, brief)?;
        add_steps(alloc, pairs.as_slice(), &mut wanted)?;
    }
    Ok(wanted)
}

/// Adds the steps from each pair to the next.
fn add_steps(alloc: Global, pairs: &[Pair], wanted: &mut WantedSteps) -> Result<(), AllocError>
    ensures before { OnOk result (StayWanted wanted.old wanted.new) }
    ensures new { OnOk result (AreWanted wanted.new pairs.now) }
{
    for place in 1..pairs.len() {
        add_step(alloc, &pairs[place - 1], &pairs[place], wanted)?;
    }
    Ok(())
}

/// Adds the step from a pair to another one.
fn add_step(
    alloc: Global,
    from: &Pair,
    to: &Pair,
    wanted: &mut WantedSteps,
) -> Result<(), AllocError>
    ensures before { OnOk result (StayWanted wanted.old wanted.new) }
    ensures new { OnOk result (IsWantedStep wanted.new from.now to.now) }
{
    wanted.items.insert(from.item.copy(alloc)?)?;
    wanted.items.insert(to.item.copy(alloc)?)?;
    if to.item == from.item {
        wanted.ships = true;
    }
    Ok(())
}

/// Adds what has to be found for shipments out of the traced sites.
pub(crate) fn add_outside(
    alloc: Global,
    outside: &[OutsideShipment],
    wanted: &mut WantedSteps,
) -> Result<(), AllocError>
    ensures before { OnOk result (StayWanted wanted.old wanted.new) }
    ensures new { OnOk result (AreWantedOut wanted.new outside.now) }
{
    for shipment in outside {
        add_shipped(alloc, &shipment.item, wanted)?;
    }
    Ok(())
}

/// Adds what has to be found for the shipments of an item.
fn add_shipped(alloc: Global, item: &Epc, wanted: &mut WantedSteps) -> Result<(), AllocError>
    ensures before { OnOk result (StayWanted wanted.old wanted.new) }
    ensures new { OnOk result (IsWantedItem wanted.new item.now) }
{
    wanted.items.insert(item.copy(alloc)?)?;
    wanted.ships = true;
    Ok(())
}

/// The same steps, and where one of them may be a shipment also all that something was put into among the items: what an
/// item lay in has to be looked up, too. Goes over the events of all sites once then.
pub(crate) fn with_containers(
    alloc: Global,
    sites: &[&Captured],
    wanted: WantedSteps,
) -> Result<WantedSteps, AllocError>
    ensures before { IfOk result (StayWanted wanted) }
    ensures all { IfOk result (λ all. IsTrue all.ships → (i : List ℕ)
        → ByOne (sites_at sites.now) IsContainerAt i → IsFound item_cmp all.items i) }
{
    if !wanted.ships {
        return Ok(wanted);
    }
    let mut all = wanted;
    add_containers(alloc, sites, &mut all.items)?;
    Ok(all)
}

/// Adds all that an event of one of the sites puts something into.
fn add_containers(
    alloc: Global,
    sites: &[&Captured],
    items: &mut BTreeSet<Epc>,
) -> Result<(), AllocError>
    ensures { OnOk result (AddsTo (IsFound item_cmp items.old) (IsFound item_cmp items.new)
        (ByOne (sites_at sites.now) IsContainerAt)) }
{
    for site in sites {
        add_containers_of(alloc, site, items)?;
    }
    Ok(())
}

/// Adds all that an event of a site puts something into.
fn add_containers_of(
    alloc: Global,
    site: &Captured,
    items: &mut BTreeSet<Epc>,
) -> Result<(), AllocError>
    ensures { OnOk result (AddsTo (IsFound item_cmp items.old) (IsFound item_cmp items.new)
        (IsContainerAt site.now)) }
{
    for place in 0..site.len() {
        if let Some(event) = site.event(place) {
            add_container(alloc, event.body(), items)?;
        }
    }
    Ok(())
}

/// Adds the item that an event puts something into.
fn add_container(alloc: Global, body: &Body, items: &mut BTreeSet<Epc>) -> Result<(), AllocError>
    ensures { OnOk result (AddsTo (IsFound item_cmp items.old) (IsFound item_cmp items.new)
        (λ i. filled body.now ≡ Some i)) }
{
    if let Some(item) = filled(body) {
        items.insert(item.copy(alloc)?)?;
    }
    Ok(())
}
