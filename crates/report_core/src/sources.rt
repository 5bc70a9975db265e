//! The pairs that pairs come from, for a search that goes back.
ghost use Rattle.std.specs.Prelude.{◌≡◌, IfOk, OnOk, Contains, option_map};
ghost use Rattle.std.specs.BTreeSet.{BTreeSet};
ghost use Rattle.trace_core.specs.Chains.{sites_at};
ghost use Rattle.trace_core.specs.Groups.{AddsUnseen};
ghost use Rattle.trace_core.specs.Pairs.{TakesIn, make_id};
ghost use Rattle.report_core.specs.Sources.{AddsToList, ByOne, GoesInto, GoesIntoAt, GoesIntoSeen, IsInputAt, SendsTo};

use crate::makers::{EventPlace, EventPlaces, makers_of};
use epc_core::Epc;
use event_json::{Body, PlainText, SiteNo};
use std::alloc::{AllocError, Global};
use std::collections::BTreeMap;
use std::marker::Model;
use trace_core::{Adjacency, Captured, Pair, Seen};

/// What several sites captured, and in which transformations each item was made.
#[derive(Drop)]
pub struct Sources<'a> {
    sites: &'a [&'a Captured],
    makers: BTreeMap<Epc, EventPlaces>,
}

impl<'a> Model for Sources<'a> {
    ghost use Rattle.std.specs.Prelude.{List};
    ghost use Rattle.trace_core.specs.Chains.{sites_at};
    ghost use Rattle.trace_core.specs.Sites.{SiteEvents};
    ghost use Rattle.report_core.specs.Sources.{AreMakers};

    ghost Value = { List SiteEvents };

    ghost view = { λ s. sites_at s.sites.now };

    ghost invariant = { λ s. AreMakers s.makers (sites_at s.sites.now) };
}

impl<'a> Sources<'a> {
    /// Of several sites. Goes over their events once.
    pub fn of(alloc: Global, sites: &'a [&'a Captured]) -> Result<Sources<'a>, AllocError>
        ensures { IfOk result (λ sources. sources ≡ sites_at sites.now) }
    {
        let makers = makers_of(alloc, sites)?;
        Ok(Sources { sites, makers })
    }
}

impl Adjacency for Sources<'_> {
    ghost use Rattle.trace_core.specs.Chains.{Related};
    ghost use Rattle.trace_core.specs.Relations.{Converse};
    ghost use Rattle.report_core.specs.Sources.{GoesIntoSeen};

    // a pair comes from each that is related to it
    ghost relates = { λ sites. Converse (Related sites) };

    ghost gives = { GoesIntoSeen };

    fn none_seen(&self, alloc: Global) -> Seen {
        Seen::new(alloc)
    }

    fn unseen_targets(
        &self,
        alloc: Global,
        pair: &Pair,
        seen: &mut Seen,
    ) -> Result<Vec<Pair>, AllocError> {
        let mut found = Vec::new(alloc);
        push_senders(alloc, self.sites, pair, &mut found)?;
        if let Some(places) = self.makers.get(&pair.item) {
            push_inputs(
                alloc,
                self.sites,
                pair.site,
                places.as_slice(),
                seen,
                &mut found,
            )?;
        }
        Ok(found)
    }
}

/// Adds the item at each site that sent it to the pair's site.
fn push_senders(
    alloc: Global,
    sites: &[&Captured],
    pair: &Pair,
    found: &mut Vec<Pair>,
) -> Result<(), AllocError>
    ensures { OnOk result (AddsToList found.old.items found.new.items
        (ByOne (sites_at sites.now) (SendsTo pair.now))) }
{
    for site in sites {
        push_sender(alloc, site, pair, found)?;
    }
    Ok(())
}

/// Adds the item at a site that sent it to the pair's site.
fn push_sender(
    alloc: Global,
    site: &Captured,
    pair: &Pair,
    found: &mut Vec<Pair>,
) -> Result<(), AllocError>
    ensures { OnOk result (AddsToList found.old.items found.new.items (SendsTo pair.now site.now)) }
{
    if site.me() != pair.site && site.sent_to(&pair.item, pair.site) {
        found.push(Pair {
            site: site.me(),
            item: pair.item.copy(alloc)?,
        })?;
    }
    Ok(())
}

/// Adds what went into the transformations of a site that stand at these places, but for those that were seen before.
fn push_inputs(
    alloc: Global,
    sites: &[&Captured],
    at: SiteNo,
    places: &[EventPlace],
    seen: &mut Seen,
    found: &mut Vec<Pair>,
) -> Result<(), AllocError>
    ensures { OnOk result (AddsUnseen (GoesIntoSeen (sites_at sites.now))
        (ByOne places.now (GoesIntoAt (sites_at sites.now) at))
        seen.old seen.new (Contains found.old.items) (Contains found.new.items)) }
{
    for place in places {
        push_inputs_of(alloc, sites, at, *place, seen, found)?;
    }
    Ok(())
}

/// Adds what went into the transformation at a place, if it is one of this site that wasn't seen before.
fn push_inputs_of(
    alloc: Global,
    sites: &[&Captured],
    at: SiteNo,
    place: EventPlace,
    seen: &mut Seen,
    found: &mut Vec<Pair>,
) -> Result<(), AllocError>
    ensures { OnOk result (AddsUnseen (GoesIntoSeen (sites_at sites.now))
        (GoesIntoAt (sites_at sites.now) at place) seen.old seen.new (Contains found.old.items)
        (Contains found.new.items)) }
{
    if place.site >= sites.len() {
        return Ok(());
    }
    let site = sites[place.site];
    if site.me() != at {
        return Ok(());
    }
    let Some(first) = site.first_part(place.event) else {
        return Ok(());
    };
    if seen.see(place.site, first, site.len())? {
        push_group(alloc, site, first, found)?;
    }
    Ok(())
}

/// Adds what went into the transformation a part of which stands at a place, by all its parts.
fn push_group(
    alloc: Global,
    site: &Captured,
    place: usize,
    found: &mut Vec<Pair>,
) -> Result<(), AllocError>
    ensures { OnOk result (AddsToList found.old.items found.new.items (GoesInto site.now place)) }
{
    let Some(event) = site.event(place) else {
        return Ok(());
    };
    match id_of(event.body()) {
        Some(id) => {
            let parts = site.parts_of(id)?;
            push_parts(alloc, site, parts.as_slice(), found)
        }
        None => push_taken(alloc, site.me(), event.body(), found),
    }
}

/// The id of a transformation, if there is one.
pub(crate) fn id_of(body: &Body) -> Option<&PlainText>
    ensures { option_map (λ t. t.now) result ≡ make_id body.now }
{
    match body {
        Body::Make { id, .. } => id.as_ref(),
        Body::Note { .. } | Body::Ship { .. } | Body::Pack { .. } => None,
    }
}

/// Adds the inputs of the events at some places.
fn push_parts(
    alloc: Global,
    site: &Captured,
    places: &[usize],
    found: &mut Vec<Pair>,
) -> Result<(), AllocError>
    ensures { OnOk result (AddsToList found.old.items found.new.items
        (ByOne places.now (IsInputAt site.now))) }
{
    for place in places {
        push_part(alloc, site, *place, found)?;
    }
    Ok(())
}

/// Adds the inputs of the event at a place.
fn push_part(
    alloc: Global,
    site: &Captured,
    place: usize,
    found: &mut Vec<Pair>,
) -> Result<(), AllocError>
    ensures { OnOk result (AddsToList found.old.items found.new.items (IsInputAt site.now place)) }
{
    match site.event(place) {
        Some(event) => push_taken(alloc, site.me(), event.body(), found),
        None => Ok(()),
    }
}

/// Adds what an event takes in.
fn push_taken(
    alloc: Global,
    site: SiteNo,
    body: &Body,
    found: &mut Vec<Pair>,
) -> Result<(), AllocError>
    ensures { OnOk result (AddsToList found.old.items found.new.items
        (λ q. (q.site ≡ site) × TakesIn q.item body.now)) }
{
    match body {
        Body::Make { ins, .. } => push_items(alloc, site, ins.as_slice(), found),
        Body::Note { .. } | Body::Ship { .. } | Body::Pack { .. } => Ok(()),
    }
}

/// Adds some items at a site.
pub(crate) fn push_items(
    alloc: Global,
    site: SiteNo,
    items: &[Epc],
    found: &mut Vec<Pair>,
) -> Result<(), AllocError>
    ensures { OnOk result (AddsToList found.old.items found.new.items
        (λ q. (q.site ≡ site) × Contains items.now q.item)) }
{
    for item in items {
        found.push(Pair {
            site,
            item: item.copy(alloc)?,
        })?;
    }
    Ok(())
}
