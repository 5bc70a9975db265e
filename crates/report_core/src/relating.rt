//! The captured events that relate two pairs.
ghost use Rattle.std.specs.Prelude.{◌≡◌, Some, IfOk, IsTrue, slice_get};
ghost use Rattle.trace_core.specs.Chains.{sites_at};
ghost use Rattle.trace_core.specs.Searches.{IsFound};
ghost use Rattle.site_core.specs.ItemSets.{item_cmp};
ghost use Rattle.report_core.specs.TrailEvents.{AnswersStep};
ghost use Rattle.report_core.specs.FirstPlaces.{AnswersMake, AnswersShipment, IsWantedStep, StayWanted};
ghost use Rattle.report_core.specs.Leaving.{AnswersLeaving, AnswersOutside, AreUnderEach, IsWantedItem};
ghost use Rattle.report_core.specs.Sources.{ArePlaces, PutsIn};

use crate::containers::{Containers, carriers_of, trails_up};
use crate::first_places::{GoesOut, GoesTo, JoinedWith, OfOne, first_where, firsts_of};
use crate::makers::{EventPlace, EventPlaces, Noting, places_of, places_under};
use crate::outside::OutsideShipment;
use crate::outside_events::{OutsideEvent, left_with};
use crate::packing_events::packings_of;
use crate::trail_events::{StepEvents, told};
use crate::wanted_steps::{WantedSteps, with_containers};
use epc_core::Epc;
use std::alloc::{AllocError, Global};
use std::collections::BTreeMap;
use std::marker::Model;
use trace_core::{Captured, Pair};

/// What several sites captured, and which of it takes the items of some steps in, gives them out, and ships them or what
/// they lay in.
#[derive(Drop)]
pub(crate) struct RelatingEvents<'a> {
    sites: &'a [&'a Captured],
    wanted: WantedSteps,
    taken: BTreeMap<Epc, EventPlaces>,
    given: BTreeMap<Epc, EventPlaces>,
    sent: BTreeMap<Epc, EventPlaces>,
    packings: BTreeMap<Epc, EventPlaces>,
}

impl<'a> Model for RelatingEvents<'a> {
    ghost use Rattle.trace_core.specs.Chains.{sites_at};
    ghost use Rattle.report_core.specs.FirstPlaces.{AreRelatingPlaces, Relating};

    ghost Value = { Relating };

    ghost view = { λ s. record { sites = sites_at s.sites.now; wanted = s.wanted } };

    ghost invariant = { λ s. AreRelatingPlaces (sites_at s.sites.now) s.wanted s.taken s.given s.sent
        s.packings };
}

impl<'a> RelatingEvents<'a> {
    /// Of several sites, for some steps. Goes over their events three times, and twice more where one of the steps may
    /// be a shipment. Keeps places of what takes the steps' items in, gives them out and ships them alone, and then
    /// also of the shipments of all that something was put into, and of all packings.
    pub fn of(
        alloc: Global,
        sites: &'a [&'a Captured],
        wanted: WantedSteps,
    ) -> Result<RelatingEvents<'a>, AllocError>
        ensures sites { IfOk result (λ events. events.sites ≡ sites_at sites.now) }
        ensures wanted { IfOk result (λ events. StayWanted wanted events.wanted) }
    {
        let wanted = with_containers(alloc, sites, wanted)?;
        let taken = places_of(alloc, sites, Noting::TakenIn, Some(&wanted.items))?;
        let given = places_of(alloc, sites, Noting::GivenOut, Some(&wanted.items))?;
        let sent = places_of(alloc, sites, Noting::Sent, Some(&wanted.items))?;
        let packings = packings_if(alloc, sites, wanted.ships)?;
        Ok(RelatingEvents {
            sites,
            wanted,
            taken,
            given,
            sent,
            packings,
        })
    }

    /// The first events that relate the two pairs of one of the steps, by the site of the first pair, where one does.
    /// The sites stand in the order of their numbers. Looks at the events that take the one item in and at those that
    /// give the other one out; or at what the item lay in, and at the shipments of that.
    ///
    /// # Errors
    /// Out of memory.
    pub fn of_step(
        &self,
        alloc: Global,
        from: &Pair,
        to: &Pair,
    ) -> Result<Option<StepEvents>, AllocError>
        requires { IsWantedStep self.now.wanted from.now to.now }
        ensures { IfOk result (AnswersStep self.now.sites from.now to.now) }
    {
        let number = from.site.number() as usize;
        if number >= self.sites.len() {
            return Ok(None);
        }
        let site = self.sites[number];
        if to.site == site.me() {
            self.make_of(alloc, site, number, &from.item, &to.item)
        } else if to.item == from.item {
            self.shipment_of(alloc, site, number, to)
        } else {
            Ok(None)
        }
    }

    /// The first events of the site that make an item into another one.
    fn make_of(
        &self,
        alloc: Global,
        site: &Captured,
        number: usize,
        item: &Epc,
        made: &Epc,
    ) -> Result<Option<StepEvents>, AllocError>
        requires site { slice_get self.now.sites number ≡ Some site.now }
        requires item { IsFound item_cmp self.now.wanted.items item.now }
        requires made { IsFound item_cmp self.now.wanted.items made.now }
        ensures { IfOk result (AnswersMake site.now.events item.now made.now) }
    {
        let taken = places_under(&self.taken, item);
        let given = places_under(&self.given, made);
        let firsts = firsts_of(alloc, site, number, given)?;
        let test = OfOne {
            site,
            number,
            firsts: &firsts,
        };
        let Some(first) = first_where(&test, taken) else {
            return Ok(None);
        };
        let test = JoinedWith {
            site,
            number,
            event: first,
        };
        let Some(part) = first_where(&test, given) else {
            return Ok(None);
        };
        let Some(taken_in) = told(alloc, site, first)? else {
            return Ok(None);
        };
        let Some(given_out) = told(alloc, site, part)? else {
            return Ok(None);
        };
        Ok(Some(StepEvents::Made {
            taken_in,
            given_out,
        }))
    }

    /// The first event of the site that ships the item of a pair to the pair's site, and how the item came to lie in
    /// what that ships.
    fn shipment_of(
        &self,
        alloc: Global,
        site: &Captured,
        number: usize,
        to: &Pair,
    ) -> Result<Option<StepEvents>, AllocError>
        requires site { slice_get self.now.sites number ≡ Some site.now }
        requires ships { IsTrue self.now.wanted.ships }
        requires item { IsFound item_cmp self.now.wanted.items to.now.item }
        ensures { IfOk result (AnswersShipment site.now.events to.now.item to.now.site) }
    {
        let test = GoesTo {
            site,
            number,
            to: to.site,
        };
        let containers = Containers {
            site,
            number,
            packings: &self.packings,
        };
        let found = trails_up(alloc, &containers, &to.item)?;
        let places = places_under_each(alloc, &self.sent, found.pairs.as_slice())?;
        let Some(first) = first_where(&test, places.as_slice()) else {
            return Ok(None);
        };
        let place = EventPlace {
            site: number,
            event: first,
        };
        let Some(packings) = packings_of(alloc, &containers, &self.sent, place, &to.item, &found)?
        else {
            return Ok(None);
        };
        let Some(event) = told(alloc, site, first)? else {
            return Ok(None);
        };
        Ok(Some(StepEvents::Shipped { event, packings }))
    }

    /// What shows that an item was shipped out of the traced sites, where it was: the first such shipment of the site,
    /// and what the item left with. Looks at what the item lay in, and at the shipments of that.
    ///
    /// # Errors
    /// Out of memory.
    pub fn of_outside(
        &self,
        alloc: Global,
        shipment: &OutsideShipment,
    ) -> Result<Option<OutsideEvent>, AllocError>
        requires { IsWantedItem self.now.wanted shipment.now.item }
        ensures { IfOk result (AnswersOutside self.now.sites shipment.now) }
    {
        let number = shipment.site.number() as usize;
        if number >= self.sites.len() {
            return Ok(None);
        }
        let site = self.sites[number];
        self.leaving_of(alloc, site, number, shipment)
    }

    /// What shows that the item of a shipment went from the site to the shipment's destination.
    fn leaving_of(
        &self,
        alloc: Global,
        site: &Captured,
        number: usize,
        shipment: &OutsideShipment,
    ) -> Result<Option<OutsideEvent>, AllocError>
        requires site { slice_get self.now.sites number ≡ Some site.now }
        requires wanted { IsWantedItem self.now.wanted shipment.now.item }
        ensures { IfOk result (AnswersLeaving site.now.events shipment.now.item
            shipment.now.destination) }
    {
        let containers = Containers {
            site,
            number,
            packings: &self.packings,
        };
        let carriers = carriers_of(alloc, &containers, &shipment.item)?;
        let places = places_under_each(alloc, &self.sent, carriers.as_slice())?;
        let test = GoesOut {
            site,
            number,
            destination: &shipment.destination,
        };
        let Some(event) = first_where(&test, places.as_slice()) else {
            return Ok(None);
        };
        let place = EventPlace {
            site: number,
            event,
        };
        let Some(carrier) = left_with(&self.sent, place, &shipment.item, carriers.as_slice()) else {
            return Ok(None);
        };
        let Some(event) = told(alloc, site, event)? else {
            return Ok(None);
        };
        let carrier = carrier.copy(alloc)?;
        Ok(Some(OutsideEvent { event, carrier }))
    }
}

/// For each item the places of the packings that put it into something, if they are wanted; else none.
fn packings_if(
    alloc: Global,
    sites: &[&Captured],
    wanted: bool,
) -> Result<BTreeMap<Epc, EventPlaces>, AllocError>
    ensures { IfOk result (λ index. IsTrue wanted → ArePlaces PutsIn index (sites_at sites.now)) }
{
    if wanted {
        places_of(alloc, sites, Noting::PutIn, None)
    } else {
        Ok(BTreeMap::new(alloc))
    }
}

/// The places that stand under the items of some pairs.
fn places_under_each(
    alloc: Global,
    index: &BTreeMap<Epc, EventPlaces>,
    pairs: &[Pair],
) -> Result<Vec<EventPlace>, AllocError>
    ensures { IfOk result (λ places. AreUnderEach index.now pairs.now places.items) }
{
    let mut places = Vec::new(alloc);
    for pair in pairs {
        places.extend_from_slice(places_under(index, &pair.item))?;
    }
    Ok(places)
}
