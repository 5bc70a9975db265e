//! Under which items events are noted: in which transformations each was made or taken in, and by which shipments it
//! left.
ghost use Rattle.std.specs.Prelude.{◌≡◌, ◌↔◌, ◌++◌, ◌∷◌, [], ℕ, List, Contains, IfOk, IsTrue, OnOk};
ghost use Rattle.site_core.specs.ItemSets.{item_cmp};
ghost use Rattle.std.specs.BTreeMap.{get};
ghost use Rattle.trace_core.specs.Chains.{sites_at};
ghost use Rattle.report_core.specs.Sources.{AddsTo, AreMakers, ArePlaces, ByOne, IsWanted, Keeps, Notes};
ghost use Rattle.report_core.specs.Sources.{NotesOf, SiteNotes, or_no_places};

use epc_core::Epc;
use event_json::{Action, Body};
use std::alloc::{AllocError, Global};
use std::collections::{BTreeMap, BTreeSet};
use std::marker::Model;
use trace_core::Captured;

/// The place of an event among those of several sites.
#[derive(Clone, Copy, Debug)]
pub struct EventPlace {
    /// The site's place among these.
    pub site: usize,
    /// The event's place among those that the site captured.
    pub event: usize,
}

/// Which events are noted under an item.
#[derive(Clone, Copy, Debug, PartialEq, Eq)]
pub enum Noting {
    /// The transformations that take it in.
    TakenIn,
    /// The transformations that give it out.
    GivenOut,
    /// The shipments of the item itself, without those of what it lay in.
    Sent,
    /// The packings that put it into something.
    PutIn,
}

/// Places of events, in the order in which they were added.
#[derive(Debug, Drop)]
pub struct EventPlaces {
    places: Vec<EventPlace>,
}

impl Model for EventPlaces {
    ghost use Rattle.std.specs.Prelude.{List};
    ghost use Rattle.report_core.specs.declared.makers.EventPlace.{EventPlace};

    ghost Value = { List EventPlace };

    ghost view = { λ p. p.places.items };
}

impl EventPlaces {
    /// One place.
    fn one(alloc: Global, place: EventPlace) -> Result<EventPlaces, AllocError>
        ensures { IfOk result (λ places. places ≡ place ∷ []) }
    {
        let mut places = Vec::new(alloc);
        places.push(place)?;
        Ok(EventPlaces { places })
    }

    /// Adds a place at the end.
    fn push(&mut self, place: EventPlace) -> Result<(), AllocError>
        ensures { OnOk result (self.new ≡ self.old ++ place ∷ []) }
    {
        self.places.push(place)?;
        Ok(())
    }

    /// The places in order.
    pub fn as_slice(&self) -> &[EventPlace]
        ensures { result.now ≡ self.now }
    {
        self.places.as_slice()
    }
}

/// The places that stand under an item, none where there are none.
pub fn places_under<'a>(index: &'a BTreeMap<Epc, EventPlaces>, item: &Epc) -> &'a [EventPlace]
    ensures { result.now ≡ or_no_places (get item_cmp index.now item.now) }
{
    match index.get(item) {
        Some(places) => places.as_slice(),
        None => &[],
    }
}

/// For each item the places of the transformations that give it out. Goes over the events of all sites once.
pub fn makers_of(
    alloc: Global,
    sites: &[&Captured],
) -> Result<BTreeMap<Epc, EventPlaces>, AllocError>
    ensures { IfOk result (λ index. AreMakers index (sites_at sites.now)) }
{
    places_of(alloc, sites, Noting::GivenOut, None)
}

/// For each of the items that are wanted the places of the events that are noted under it; for each item where none are
/// named. Goes over the events of all sites once, and keeps nothing of other items.
pub fn places_of(
    alloc: Global,
    sites: &[&Captured],
    noting: Noting,
    wanted: Option<&BTreeSet<Epc>>,
) -> Result<BTreeMap<Epc, EventPlaces>, AllocError>
    ensures { IfOk result (λ index. ArePlaces (NotesOf wanted.entry noting) index
        (sites_at sites.now)) }
{
    let mut index = BTreeMap::new(alloc);
    for number in 0..sites.len() {
        note_site(alloc, sites[number], number, noting, wanted, &mut index)?;
    }
    Ok(index)
}

/// Notes the events of the site that stands at this place among all.
fn note_site(
    alloc: Global,
    site: &Captured,
    number: usize,
    noting: Noting,
    wanted: Option<&BTreeSet<Epc>>,
    index: &mut BTreeMap<Epc, EventPlaces>,
) -> Result<(), AllocError>
    ensures { OnOk result (AddsTo (Keeps index.old) (Keeps index.new)
        (SiteNotes (NotesOf wanted.entry noting) site.now number)) }
{
    for place in 0..site.len() {
        if let Some(event) = site.event(place) {
            let place = EventPlace {
                site: number,
                event: place,
            };
            note_body(alloc, event.body(), place, noting, wanted, index)?;
        }
    }
    Ok(())
}

/// Notes an event's place.
fn note_body(
    alloc: Global,
    body: &Body,
    place: EventPlace,
    noting: Noting,
    wanted: Option<&BTreeSet<Epc>>,
    index: &mut BTreeMap<Epc, EventPlaces>,
) -> Result<(), AllocError>
    ensures { OnOk result (AddsTo (Keeps index.old) (Keeps index.new)
        (λ m. NotesOf wanted.entry noting m.0 body.now × (place ≡ m.1))) }
{
    note_items(alloc, noted_items(noting, body), place, wanted, index)
}

/// The items under which an event is noted.
fn noted_items(noting: Noting, body: &Body) -> &[Epc]
    ensures { (item : List ℕ) → Contains result.now item ↔ Notes noting item body.now }
{
    match (noting, body) {
        (Noting::TakenIn, Body::Make { ins, .. }) => ins.as_slice(),
        (Noting::GivenOut, Body::Make { outs, .. }) => outs.as_slice(),
        (Noting::Sent, Body::Ship { items, .. }) => items.as_slice(),
        (
            Noting::PutIn,
            Body::Pack {
                action: Action::Add,
                parent: Some(_),
                children,
            },
        ) => children.as_slice(),
        _ => &[],
    }
}

/// Notes a place under each of some items that is wanted.
fn note_items(
    alloc: Global,
    items: &[Epc],
    place: EventPlace,
    wanted: Option<&BTreeSet<Epc>>,
    index: &mut BTreeMap<Epc, EventPlaces>,
) -> Result<(), AllocError>
    ensures { OnOk result (AddsTo (Keeps index.old) (Keeps index.new)
        (ByOne items.now (λ i m. IsWanted wanted.entry i × (i ≡ m.0) × (place ≡ m.1)))) }
{
    for item in items {
        note_wanted(alloc, item, place, wanted, index)?;
    }
    Ok(())
}

/// Notes a place under an item, if it is wanted.
fn note_wanted(
    alloc: Global,
    item: &Epc,
    place: EventPlace,
    wanted: Option<&BTreeSet<Epc>>,
    index: &mut BTreeMap<Epc, EventPlaces>,
) -> Result<(), AllocError>
    ensures { OnOk result (AddsTo (Keeps index.old) (Keeps index.new)
        (λ m. IsWanted wanted.entry item.now × (item.now ≡ m.0) × (place ≡ m.1))) }
{
    if is_wanted(wanted, item) {
        note(alloc, item, place, index)
    } else {
        Ok(())
    }
}

/// Whether an item is wanted: any one where none are named.
fn is_wanted(wanted: Option<&BTreeSet<Epc>>, item: &Epc) -> bool
    ensures { IsTrue result ↔ IsWanted wanted.entry item.now }
{
    match wanted {
        Some(items) => items.contains(item),
        None => true,
    }
}

/// Notes a place under an item.
fn note(
    alloc: Global,
    item: &Epc,
    place: EventPlace,
    index: &mut BTreeMap<Epc, EventPlaces>,
) -> Result<(), AllocError>
    ensures { OnOk result (AddsTo (Keeps index.old) (Keeps index.new)
        (λ m. (item.now ≡ m.0) × (place ≡ m.1))) }
{
    if let Some(places) = index.get_mut(item) {
        return places.push(place);
    }
    let places = EventPlaces::one(alloc, place)?;
    index.insert(item.copy(alloc)?, places)?;
    Ok(())
}
