//! What a site ships, and by which events.
ghost use Rattle.std.specs.Prelude.{◌≡◌, ◌↔◌, IfOk, OnOk, IsTrue, List, ℕ, Some, Contains, slice_get};
ghost use mathlib.Core.Logic.{inl};
ghost use Rattle.gap_core.specs.Adding.{AddsToList, NotesThose};
ghost use Rattle.gap_core.specs.Shipments.{ArePlacesTo, GoesAt, GoesTo, IsPlaceTo, shipped_in, IsShippedAt, IsShippedOnce};

use crate::item_lists::ItemList;
use crate::places::Places;
use epc_core::Epc;
use event_json::{Body, SiteNo};
use std::alloc::{AllocError, Global};
use trace_core::Captured;

/// The places of the events by which a site ships to a site.
pub fn places_to(alloc: Global, site: &Captured, to: SiteNo) -> Result<Places, AllocError>
    ensures { IfOk result (ArePlacesTo site.now.events (inl to)) }
{
    let mut places = Places::new(alloc);
    for place in 0..site.len() {
        note_place(site, place, to, &mut places)?;
    }
    Ok(places)
}

/// Notes the place of an event that ships to a site.
fn note_place(
    site: &Captured,
    place: usize,
    to: SiteNo,
    places: &mut Places,
) -> Result<(), AllocError>
    ensures { OnOk result (AddsToList places.old places.new
        (IsPlaceTo site.now.events (inl to) place)) }
{
    if ships_to(site, place, to) {
        places.push(place)
    } else {
        Ok(())
    }
}

/// Whether the event at a place ships to a site.
fn ships_to(site: &Captured, place: usize, to: SiteNo) -> bool
    ensures { IsTrue result ↔ GoesAt site.now.events (inl to) place }
{
    match site.event(place) {
        Some(event) => goes_to(event.body(), to),
        None => false,
    }
}

/// Whether an event ships to a site.
fn goes_to(body: &Body, to: SiteNo) -> bool
    ensures { IsTrue result ↔ GoesTo (inl to) body.now }
{
    match body {
        Body::Ship { sites, .. } => sites.as_slice().contains(&to),
        Body::Note { .. } | Body::Make { .. } | Body::Pack { .. } => false,
    }
}

/// The items that the events at some places ship.
pub fn shipped_items(
    alloc: Global,
    site: &Captured,
    places: &[usize],
) -> Result<ItemList, AllocError>
    ensures { IfOk result (λ items. (i : List ℕ)
        → Contains items i ↔ IsShippedAt site.now.events places.now i) }
{
    let mut items = ItemList::new(alloc, site.hash_keys());
    for place in places {
        note_shipped(alloc, site, *place, &mut items)?;
    }
    Ok(items)
}

/// Notes the items that the event at a place ships.
fn note_shipped(
    alloc: Global,
    site: &Captured,
    place: usize,
    items: &mut ItemList,
) -> Result<(), AllocError>
    ensures { OnOk result (NotesThose (IsShippedOnce site.now.events place) items.old items.new) }
{
    match site.event(place) {
        Some(event) => note_items(alloc, shipped_in(event.body()), items),
        None => Ok(()),
    }
}

/// The items that an event ships.
fn shipped_in(body: &Body) -> &[Epc]
    ensures { result.now ≡ shipped_in body.now }
{
    match body {
        Body::Ship { items, .. } => items.as_slice(),
        Body::Note { .. } | Body::Make { .. } | Body::Pack { .. } => &[],
    }
}

/// Notes each of some items.
pub fn note_items(alloc: Global, some: &[Epc], items: &mut ItemList) -> Result<(), AllocError>
    ensures { OnOk result (NotesThose (Contains some.now) items.old items.new) }
{
    for item in some {
        items.note(alloc, item)?;
    }
    Ok(())
}
