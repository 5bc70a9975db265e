//! How the shipments out of the traced sites are found: from what is told of up to what it lay in, and to the
//! shipments of that.
ghost use Rattle.std.specs.Prelude.{◌≡◌, OnOk};
ghost use Rattle.report_core.specs.Gathering.{Adds, BodyTells, Goes, ItemTells, OneTells, PlaceTells};
ghost use Rattle.report_core.specs.Gathering.{RecordTells, SiteTells};
ghost use Rattle.report_core.specs.Sources.{AreOwnPlaces, AreSitePlaces, PutsIn, ShipsItself};

use crate::containers::{Containers, carriers_of};
use crate::destinations::Destination;
use crate::makers::{EventPlace, EventPlaces, Noting, places_of, places_under};
use crate::outside::OutsideShipment;
use epc_core::Epc;
use event_json::{Body, PlainText, SiteNo};
use frame_core::RecallId;
use site_core::{ItemSet, SiteState};
use std::alloc::{AllocError, Global};
use std::collections::{BTreeMap, BTreeSet};
use trace_core::Captured;

/// Adds what one site shipped out of what it holds under the recall.
pub(crate) fn add_of_site(
    alloc: Global,
    state: &SiteState,
    recall: RecallId,
    found: &mut BTreeSet<OutsideShipment>,
) -> Result<(), AllocError>
    ensures { OnOk result (Adds found.old found.new (RecordTells recall state.now)) }
{
    let Some(held) = state.quarantine().under(recall) else {
        return Ok(());
    };
    add_of_events(alloc, state, held, found)
}

/// Adds what one site shipped out of these items. Where there are any, goes over its events twice, and comes for each
/// item to what it lay in and to the shipments of that.
pub(crate) fn add_of_events(
    alloc: Global,
    state: &SiteState,
    wanted: &ItemSet,
    found: &mut BTreeSet<OutsideShipment>,
) -> Result<(), AllocError>
    ensures { OnOk result (Adds found.old found.new (SiteTells wanted.now state.now)) }
{
    if wanted.is_empty() {
        return Ok(());
    }
    let captured = state.captured();
    let packings = places_of(alloc, &[captured], Noting::PutIn, None)?;
    let shipments = places_of(alloc, &[captured], Noting::Sent, None)?;
    let containers = Containers {
        site: captured,
        number: 0,
        packings: &packings,
    };
    add_of_items(
        alloc,
        &containers,
        &shipments,
        state.me(),
        wanted.items(),
        found,
    )
}

/// Adds what the site shipped out of these items.
fn add_of_items(
    alloc: Global,
    containers: &Containers<'_>,
    shipments: &BTreeMap<Epc, EventPlaces>,
    site: SiteNo,
    items: &BTreeSet<Epc>,
    found: &mut BTreeSet<OutsideShipment>,
) -> Result<(), AllocError>
    requires packings { AreOwnPlaces PutsIn containers.now.site.now.events containers.now.number
        containers.now.packings.now }
    requires shipments { AreSitePlaces ShipsItself containers.now.site.now containers.now.number
        shipments.now }
    ensures { OnOk result (Adds found.old found.new
        (OneTells items.now.keys (ItemTells containers.now.site.now.events site))) }
{
    for item in items {
        add_of_item(alloc, containers, shipments, site, item, found)?;
    }
    Ok(())
}

/// Adds the shipments of an item, by itself or with what it lay in.
fn add_of_item(
    alloc: Global,
    containers: &Containers<'_>,
    shipments: &BTreeMap<Epc, EventPlaces>,
    site: SiteNo,
    item: &Epc,
    found: &mut BTreeSet<OutsideShipment>,
) -> Result<(), AllocError>
    requires packings { AreOwnPlaces PutsIn containers.now.site.now.events containers.now.number
        containers.now.packings.now }
    requires shipments { AreSitePlaces ShipsItself containers.now.site.now containers.now.number
        shipments.now }
    ensures { OnOk result (Adds found.old found.new
        (ItemTells containers.now.site.now.events site item.now)) }
{
    let carriers = carriers_of(alloc, containers, item)?;
    for carrier in carriers.as_slice() {
        let places = places_under(shipments, &carrier.item);
        add_of_places(alloc, containers.site, places, site, item, found)?;
    }
    Ok(())
}

/// Adds an item with the destinations of the events at some places.
fn add_of_places(
    alloc: Global,
    captured: &Captured,
    places: &[EventPlace],
    site: SiteNo,
    item: &Epc,
    found: &mut BTreeSet<OutsideShipment>,
) -> Result<(), AllocError>
    ensures { OnOk result (Adds found.old found.new
        (OneTells places.now (PlaceTells captured.now.events site item.now))) }
{
    for place in places {
        add_of_place(alloc, captured, *place, site, item, found)?;
    }
    Ok(())
}

/// Adds an item with the destinations of the event at a place.
fn add_of_place(
    alloc: Global,
    captured: &Captured,
    place: EventPlace,
    site: SiteNo,
    item: &Epc,
    found: &mut BTreeSet<OutsideShipment>,
) -> Result<(), AllocError>
    ensures { OnOk result (Adds found.old found.new
        (PlaceTells captured.now.events site item.now place)) }
{
    match captured.event(place.event) {
        Some(event) => add_of_body(alloc, event.body(), site, item, found),
        None => Ok(()),
    }
}

/// Adds an item with the destinations of an event.
fn add_of_body(
    alloc: Global,
    body: &Body,
    site: SiteNo,
    item: &Epc,
    found: &mut BTreeSet<OutsideShipment>,
) -> Result<(), AllocError>
    ensures { OnOk result (Adds found.old found.new (BodyTells site item.now body.now)) }
{
    match body {
        Body::Ship { outside, .. } => {
            add_of_destinations(alloc, site, item, outside.as_slice(), found)
        }
        Body::Note { .. } | Body::Make { .. } | Body::Pack { .. } => Ok(()),
    }
}

/// Adds an item with each destination.
fn add_of_destinations(
    alloc: Global,
    site: SiteNo,
    item: &Epc,
    destinations: &[PlainText],
    found: &mut BTreeSet<OutsideShipment>,
) -> Result<(), AllocError>
    ensures { OnOk result (Adds found.old found.new
        (OneTells destinations.now (Goes site item.now))) }
{
    for text in destinations {
        found.insert(OutsideShipment {
            site,
            item: item.copy(alloc)?,
            destination: Destination::of(text.copy(alloc)?),
        })?;
    }
    Ok(())
}
