//! The shipments of a site, by where they go.
ghost use Rattle.std.specs.Prelude.{◌≡◌, ◌<◌, ◌↔◌, ℕ, List, IfOk, OnOk, IsTrue, Contains};
ghost use mathlib.Core.Logic.{inl};
ghost use Rattle.event_json.specs.Events.{Content};
ghost use Rattle.gap_core.specs.Adding.{AddsToList};
ghost use Rattle.gap_core.specs.Batches.{AddsBatch, AddsOutside, AreAllBatches, AreOutside};
ghost use Rattle.gap_core.specs.Shipments.{GoesAt, GoesToSite};

use crate::outside::{Outside, outside_of};
use crate::places::Places;
use crate::shipments::places_to;
use event_json::{Body, SiteNo};
use std::alloc::{AllocError, Global};
use trace_core::{Captured, in_order};

/// For each place elsewhere to which a site ships the events by which it does, each such list once.
pub fn batches_of(alloc: Global, site: &Captured) -> Result<Vec<Places>, AllocError>
    ensures { IfOk result (λ batches. AreAllBatches site.now batches.items) }
{
    read_sites(site);
    let mut batches = Vec::new(alloc);
    for number in 0..16 {
        note_number(alloc, site, number, &mut batches)?;
    }
    note_outside(alloc, site, &mut batches)?;
    in_order(batches)
}

/// Reads the sites to which a site ships, which shows that their numbers are below 16.
pub fn read_sites(site: &Captured)
    ensures { (k t : ℕ) → GoesAt site.now.events (inl t) k → t < 16 }
{
    for place in 0..site.len() {
        read_event(site, place);
    }
}

/// Reads those of the event at a place.
fn read_event(site: &Captured, place: usize)
    ensures { (t : ℕ) → GoesAt site.now.events (inl t) place → t < 16 }
{
    if let Some(event) = site.event(place) {
        read_body(event.body());
    }
}

/// Reads those of an event.
fn read_body(body: &Body)
    ensures { (t : ℕ) → GoesToSite t body.now → t < 16 }
{
    match body {
        Body::Ship { sites, .. } => read_each(sites.as_slice()),
        Body::Note { .. } | Body::Make { .. } | Body::Pack { .. } => {}
    }
}

/// Reads each of some sites.
fn read_each(sites: &[SiteNo])
    ensures { (t : ℕ) → Contains sites.now t → t < 16 }
{
    for site in sites {
        read_number(*site);
    }
}

/// Reads the number of a site.
fn read_number(site: SiteNo)
    ensures { site < 16 }
{
    let _number = site.number();
}

/// Notes the events by which a site ships to the site of a number, if that is another one.
fn note_number(
    alloc: Global,
    site: &Captured,
    number: u64,
    batches: &mut Vec<Places>,
) -> Result<(), AllocError>
    requires { number < 16 }
    ensures { OnOk result (AddsBatch site.now (inl number) batches.old.items batches.new.items) }
{
    match SiteNo::of(number) {
        Some(to) => note_site(alloc, site, to, batches),
        None => Ok(()),
    }
}

/// Notes the events by which a site ships to another one.
fn note_site(
    alloc: Global,
    site: &Captured,
    to: SiteNo,
    batches: &mut Vec<Places>,
) -> Result<(), AllocError>
    ensures { OnOk result (AddsBatch site.now (inl to) batches.old.items batches.new.items) }
{
    if is_own(site, to) {
        return Ok(());
    }
    batches.push(places_to(alloc, site, to)?)?;
    Ok(())
}

/// Whether it is the site's own number.
pub fn is_own(site: &Captured, to: SiteNo) -> bool
    ensures { IsTrue result ↔ (to ≡ site.now.me) }
{
    to == site.me()
}

/// Notes for each place outside the traced sites the events by which a site ships there.
fn note_outside(alloc: Global, site: &Captured, batches: &mut Vec<Places>) -> Result<(), AllocError>
    ensures { OnOk result (AddsOutside site.now.events batches.old.items batches.new.items) }
{
    let outside = outside_of(alloc, site)?;
    note_lists(alloc, &outside, batches)
}

/// Notes the lists of a map of places outside.
fn note_lists(alloc: Global, outside: &Outside, batches: &mut Vec<Places>) -> Result<(), AllocError>
    ensures { OnOk result ((events : List Content) → AreOutside events outside.now
        → AddsOutside events batches.old.items batches.new.items) }
{
    for (text, places) in outside {
        let _text = text;
        push_copy(alloc, places, batches)?;
    }
    Ok(())
}

/// Adds a copy of some places.
fn push_copy(alloc: Global, places: &Places, batches: &mut Vec<Places>) -> Result<(), AllocError>
    ensures { OnOk result (AddsToList batches.old.items batches.new.items (λ x. places.now ≡ x)) }
{
    batches.push(places.copy(alloc)?)?;
    Ok(())
}
