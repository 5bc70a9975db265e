//! What items lay in.
ghost use Rattle.std.specs.Prelude.{◌≡◌, ◌↔◌, Some, IfOk, OnOk, Contains, option_map};
ghost use Rattle.trace_core.specs.AllFound.{AreAllFound};
ghost use Rattle.trace_core.specs.Pairs.{IsCarriedWith, IsStrictlyAscending};
ghost use Rattle.trace_core.specs.PutIn.{filled};
ghost use Rattle.trace_core.specs.declared.pairs.Pair.{Pair};
ghost use Rattle.report_core.specs.Containers.{IsFilledAt, LiesIn};
ghost use Rattle.report_core.specs.Sources.{AddsToList, AreOwnPlaces, ByOne, PutsIn};

use crate::makers::{EventPlace, EventPlaces, places_under};
use epc_core::Epc;
use event_json::{Action, Body, Sequence, SiteNo};
use std::alloc::{AllocError, Global};
use std::collections::BTreeMap;
use trace_core::{Adjacency, Captured, FoundTrails, Pair, Seen, trails_from};

/// What a site captured, and by item the packings that put it into something, by their places among the events of
/// several sites, of which this one stands at a place.
#[derive(Drop)]
pub struct Containers<'a> {
    pub site: &'a Captured,
    pub number: usize,
    pub packings: &'a BTreeMap<Epc, EventPlaces>,
}

impl Adjacency for Containers<'_> {
    ghost use Rattle.report_core.specs.Containers.{LiesIn};

    ghost relates = { λ c. LiesIn c.site.now.events c.number c.packings.now };

    ghost gives = { λ c seen q. ⊥ };

    fn none_seen(&self, alloc: Global) -> Seen {
        Seen::new(alloc)
    }

    fn unseen_targets(
        &self,
        alloc: Global,
        pair: &Pair,
        _seen: &mut Seen,
    ) -> Result<Vec<Pair>, AllocError> {
        let mut found = Vec::new(alloc);
        let places = places_under(self.packings, &pair.item);
        push_filled(alloc, self.site, self.number, pair.site, places, &mut found)?;
        Ok(found)
    }
}

/// Adds the items, at a site, that the site's events at some places put something into.
fn push_filled(
    alloc: Global,
    site: &Captured,
    number: usize,
    at: SiteNo,
    places: &[EventPlace],
    found: &mut Vec<Pair>,
) -> Result<(), AllocError>
    ensures { OnOk result (AddsToList found.old.items found.new.items
        (ByOne places.now (IsFilledAt site.now.events number at))) }
{
    for place in places {
        push_filled_at(alloc, site, number, at, *place, found)?;
    }
    Ok(())
}

/// Adds the item, at a site, that the site's event at a place puts something into.
fn push_filled_at(
    alloc: Global,
    site: &Captured,
    number: usize,
    at: SiteNo,
    place: EventPlace,
    found: &mut Vec<Pair>,
) -> Result<(), AllocError>
    ensures { OnOk result (AddsToList found.old.items found.new.items
        (IsFilledAt site.now.events number at place)) }
{
    if place.site != number {
        return Ok(());
    }
    match site.event(place.event) {
        Some(event) => push_filled_by(alloc, at, event.body(), found),
        None => Ok(()),
    }
}

/// Adds the item, at a site, that an event puts something into.
fn push_filled_by(
    alloc: Global,
    at: SiteNo,
    body: &Body,
    found: &mut Vec<Pair>,
) -> Result<(), AllocError>
    ensures { OnOk result (AddsToList found.old.items found.new.items
        (λ q. (q.site ≡ at) × (filled body.now ≡ Some q.item))) }
{
    if let Some(item) = filled(body) {
        found.push(Pair {
            site: at,
            item: item.copy(alloc)?,
        })?;
    }
    Ok(())
}

/// The item that an event puts others into.
pub(crate) fn filled(body: &Body) -> Option<&Epc>
    ensures { option_map (λ i. i.now) result ≡ filled body.now }
{
    match body {
        Body::Pack {
            action: Action::Add,
            parent,
            ..
        } => parent.as_ref(),
        _ => None,
    }
}

/// The item and all that it lay in, and what that lay in, whatever was taken out since: all that it is carried with,
/// each once, as pairs at the site, by item. Comes to each of these once.
pub fn carriers_of(
    alloc: Global,
    containers: &Containers<'_>,
    item: &Epc,
) -> Result<Sequence<Pair>, AllocError>
    requires { AreOwnPlaces PutsIn containers.now.site.now.events containers.now.number
        containers.now.packings.now }
    ensures all { IfOk result (λ carriers. (p : Pair) → Contains carriers p
        ↔ ((p.site ≡ containers.now.site.now.me)
        × IsCarriedWith containers.now.site.now.events p.item item.now)) }
    ensures ascending { IfOk result IsStrictlyAscending }
{
    let found = trails_up(alloc, containers, item)?;
    Ok(found.pairs)
}

/// These, and to each a shortest trail from the item, from each to what it was put into.
pub fn trails_up(
    alloc: Global,
    containers: &Containers<'_>,
    item: &Epc,
) -> Result<FoundTrails, AllocError>
    ensures { IfOk result (AreAllFound
        (LiesIn containers.now.site.now.events containers.now.number containers.now.packings.now)
        (record { site = containers.now.site.now.me; item = item.now })) }
{
    let root = Pair {
        site: containers.site.me(),
        item: item.copy(alloc)?,
    };
    trails_from(alloc, containers, &root)
}
