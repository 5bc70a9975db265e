//! The captured events behind shipments out of the traced sites.
ghost use Rattle.std.specs.Prelude.{◌↔◌, All, IfOk, IsTrue, OnOk, option_map};
ghost use Rattle.report_core.specs.Leaving.{AddsOutside, AreWantedOut, IsLeftWith, IsShippedOut, IsWantedItem, UnderAt};
ghost use Rattle.report_core.specs.OutsideEvents.{AreToldOutside};
ghost use Rattle.report_core.specs.Sources.{Keeps};
ghost use Rattle.report_core.specs.TrailEvents.{IsFirstOrNone};

use crate::first_places::{IsPlace, first_where};
use crate::makers::{EventPlace, EventPlaces, places_under};
use crate::outside::OutsideShipment;
use crate::relating::RelatingEvents;
use crate::trail_events::CapturedEvent;
use epc_core::Epc;
use event_json::Sequence;
use std::alloc::{AllocError, Global};
use std::collections::BTreeMap;
use trace_core::Pair;

/// What shows that an item was shipped out of the traced sites.
#[derive(Debug, Drop)]
pub struct OutsideEvent {
    /// The first shipment of the item, or of what it lay in, to the destination.
    pub event: CapturedEvent,
    /// What of that shipment it left with: the item itself, where that was shipped, or else the first by key of what
    /// was shipped that it lay in.
    pub carrier: Epc,
}

/// What shows each of some shipments out of the traced sites, in their order.
///
/// # Errors
/// Out of memory.
pub(crate) fn told_outside(
    alloc: Global,
    relating: &RelatingEvents<'_>,
    outside: &[OutsideShipment],
) -> Result<Sequence<OutsideEvent>, AllocError>
    requires out { All (IsShippedOut relating.now.sites) outside.now }
    requires wanted { AreWantedOut relating.now.wanted outside.now }
    ensures { IfOk result (AreToldOutside relating.now.sites outside.now) }
{
    let mut told = Vec::new(alloc);
    for shipment in outside {
        push_outside(alloc, relating, shipment, &mut told)?;
    }
    Ok(Sequence::from_vec(told))
}

/// Adds what shows one shipment.
fn push_outside(
    alloc: Global,
    relating: &RelatingEvents<'_>,
    shipment: &OutsideShipment,
    told: &mut Vec<OutsideEvent>,
) -> Result<(), AllocError>
    requires out { IsShippedOut relating.now.sites shipment.now }
    requires wanted { IsWantedItem relating.now.wanted shipment.now.item }
    ensures { OnOk result (AddsOutside relating.now.sites shipment.now told.old.items
        told.new.items) }
{
    match relating.of_outside(alloc, shipment)? {
        Some(shown) => {
            told.push(shown)?;
            Ok(())
        }
        None => Ok(()),
    }
}

/// What an item left with by the shipment at a place: the item itself, where the place stands under it, or else the
/// first of some carriers under which it stands.
pub(crate) fn left_with<'a>(
    shipments: &BTreeMap<Epc, EventPlaces>,
    place: EventPlace,
    item: &'a Epc,
    carriers: &'a [Pair],
) -> Option<&'a Epc>
    ensures { IsLeftWith shipments.now place item.now carriers.now
        (option_map (λ i. i.now) result) }
{
    if stands_under(shipments, item, place) {
        return Some(item);
    }
    match first_under(shipments, carriers, place) {
        Some(number) => Some(&carriers[number].item),
        None => None,
    }
}

/// Which of some carriers is the first under whose item a place stands.
pub(crate) fn first_under(
    shipments: &BTreeMap<Epc, EventPlaces>,
    carriers: &[Pair],
    place: EventPlace,
) -> Option<usize>
    ensures { IsFirstOrNone (UnderAt shipments.now place carriers.now) result }
{
    for number in 0..carriers.len() {
        if stands_under(shipments, &carriers[number].item, place) {
            return Some(number);
        }
    }
    None
}

/// Whether a place stands under an item.
pub(crate) fn stands_under(
    shipments: &BTreeMap<Epc, EventPlaces>,
    item: &Epc,
    place: EventPlace,
) -> bool
    ensures { IsTrue result ↔ Keeps shipments.now (item.now, place) }
{
    match first_where(&IsPlace { place }, places_under(shipments, item)) {
        Some(_) => true,
        None => false,
    }
}
