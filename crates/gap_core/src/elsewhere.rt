//! The shipments by which a site sends things on.
ghost use Rattle.std.specs.Prelude.{◌≡◌, ◌↔◌, ◌<◌, ℕ, List, IfOk, OnOk, IsTrue, Contains, length};
ghost use Rattle.trace_core.specs.Chains.{sites_at};
ghost use Rattle.gap_core.specs.Adding.{AddsToList};
ghost use Rattle.gap_core.specs.Elsewhere.{ArePlacesElsewhere, GoesElsewhere, GoesOn, HasOther, IsPlaceElsewhere, IsSentElsewhere};
ghost use Rattle.gap_core.specs.Sources.{AreKnown};

use crate::item_lists::ItemList;
use crate::places::Places;
use crate::site_gaps::sent_by;
use crate::sources::Sources;
use epc_core::Epc;
use event_json::{Body, SiteNo};
use std::alloc::{AllocError, Global};
use std::collections::BTreeMap;
use trace_core::Captured;

/// What the site of a place sent to other sites or to places outside, by what is known at each site.
pub fn sent_elsewhere(
    alloc: Global,
    sites: &[&Captured],
    known: &BTreeMap<Epc, Sources>,
    at: usize,
) -> Result<ItemList, AllocError>
    requires known { AreKnown (sites_at sites.now) known.now }
    requires at { at < length sites.now }
    ensures { IfOk result (λ sent. (i : List ℕ) → Contains sent i
        ↔ IsSentElsewhere (sites_at sites.now) at i) }
{
    let places = places_elsewhere(alloc, sites[at])?;
    sent_by(alloc, sites, known, at, places.as_slice())
}

/// The places of the events by which a site ships to another one or to a place outside.
pub fn places_elsewhere(alloc: Global, site: &Captured) -> Result<Places, AllocError>
    ensures { IfOk result (ArePlacesElsewhere site.now) }
{
    let mut places = Places::new(alloc);
    for place in 0..site.len() {
        note_place(site, place, &mut places)?;
    }
    Ok(places)
}

/// Notes the place of an event that ships elsewhere.
fn note_place(site: &Captured, place: usize, places: &mut Places) -> Result<(), AllocError>
    ensures { OnOk result (AddsToList places.old places.new (IsPlaceElsewhere site.now place)) }
{
    if ships_elsewhere(site, place) {
        places.push(place)
    } else {
        Ok(())
    }
}

/// Whether the event at a place ships elsewhere.
pub fn ships_elsewhere(site: &Captured, place: usize) -> bool
    ensures { IsTrue result ↔ GoesElsewhere site.now place }
{
    match site.event(place) {
        Some(event) => goes_on(event.body(), site.me()),
        None => false,
    }
}

/// Whether an event ships to another site than this one, or to a place outside.
fn goes_on(body: &Body, me: SiteNo) -> bool
    ensures { IsTrue result ↔ GoesOn me body.now }
{
    match body {
        Body::Ship { sites, outside, .. } => {
            !outside.is_empty() || has_other(sites.as_slice(), me)
        }
        Body::Note { .. } | Body::Make { .. } | Body::Pack { .. } => false,
    }
}

/// Whether one of some sites is another one than this.
fn has_other(sites: &[SiteNo], me: SiteNo) -> bool
    ensures { IsTrue result ↔ HasOther me sites.now }
{
    for site in sites {
        if !is_same(*site, me) {
            return true;
        }
    }
    false
}

/// Whether two numbers are of one site.
pub fn is_same(a: SiteNo, b: SiteNo) -> bool
    ensures { IsTrue result ↔ (a ≡ b) }
{
    a == b
}
