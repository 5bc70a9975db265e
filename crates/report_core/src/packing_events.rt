//! The captured events that put an item into what was shipped.
ghost use Rattle.std.specs.Prelude.{IfOk, OnOk};
ghost use Rattle.std.specs.List.{AllZip};
ghost use Rattle.trace_core.specs.AllFound.{AreAllFound};
ghost use Rattle.trace_core.specs.Relations.{IsChain};
ghost use Rattle.report_core.specs.Containers.{LiesIn};
ghost use Rattle.report_core.specs.Packings.{AddsPacking, AnswersPacking, AnswersPackings, IsPutInto, TellsPut};
ghost use Rattle.report_core.specs.Sources.{AreOwnPlaces, PutsIn};
ghost use Rattle.report_core.specs.TrailEvents.{steps_of};

use crate::containers::Containers;
use crate::first_places::{PutsInto, first_where};
use crate::makers::{EventPlace, EventPlaces, places_under};
use crate::outside_events::{first_under, stands_under};
use crate::trail_events::{CapturedEvent, told};
use epc_core::Epc;
use event_json::Sequence;
use std::alloc::{AllocError, Global};
use std::collections::BTreeMap;
use trace_core::{FoundTrails, Pair};

/// What put an item into another one.
#[derive(Debug, Drop)]
pub struct PackingEvent {
    /// What it was put into.
    pub into: Epc,
    /// The first event that put it there.
    pub event: CapturedEvent,
}

/// The packings by which an item came to lie in what it left with by the shipment at a place: none where that is the
/// item itself. For the item all that it lay in is given, with a trail to each.
///
/// # Errors
/// Out of memory.
pub(crate) fn packings_of(
    alloc: Global,
    containers: &Containers<'_>,
    sent: &BTreeMap<Epc, EventPlaces>,
    place: EventPlace,
    item: &Epc,
    found: &FoundTrails,
) -> Result<Option<Sequence<PackingEvent>>, AllocError>
    requires packings { AreOwnPlaces PutsIn containers.now.site.now.events containers.now.number
        containers.now.packings.now }
    requires found { AreAllFound
        (LiesIn containers.now.site.now.events containers.now.number containers.now.packings.now)
        (record { site = containers.now.site.now.me; item = item.now }) found.now }
    ensures { IfOk result (AnswersPackings containers.now.site.now.events sent.now place item.now
        found.now.pairs) }
{
    if stands_under(sent, item, place) {
        return Ok(Some(Sequence::from_vec(Vec::new(alloc))));
    }
    let Some(number) = first_under(sent, found.pairs.as_slice(), place) else {
        return Ok(None);
    };
    let Some(trail) = found.trails.get(number) else {
        return Ok(None);
    };
    let pairs = trail.pairs(alloc)?;
    let packings = packings_along(alloc, containers, pairs.as_slice())?;
    Ok(Some(packings))
}

/// The first packings of each of some pairs into the next.
fn packings_along(
    alloc: Global,
    containers: &Containers<'_>,
    pairs: &[Pair],
) -> Result<Sequence<PackingEvent>, AllocError>
    requires packings { AreOwnPlaces PutsIn containers.now.site.now.events containers.now.number
        containers.now.packings.now }
    requires put { IsChain (IsPutInto containers.now.site.now.events) pairs.now }
    ensures { IfOk result (AllZip (TellsPut containers.now.site.now.events) (steps_of pairs.now)) }
{
    let mut told = Vec::new(alloc);
    for place in 1..pairs.len() {
        push_packing(
            alloc,
            containers,
            &pairs[place - 1],
            &pairs[place],
            &mut told,
        )?;
    }
    Ok(Sequence::from_vec(told))
}

/// Adds the first packing of a pair's item into that of another one.
fn push_packing(
    alloc: Global,
    containers: &Containers<'_>,
    from: &Pair,
    to: &Pair,
    told: &mut Vec<PackingEvent>,
) -> Result<(), AllocError>
    requires packings { AreOwnPlaces PutsIn containers.now.site.now.events containers.now.number
        containers.now.packings.now }
    requires put { IsPutInto containers.now.site.now.events from.now to.now }
    ensures { OnOk result (AddsPacking containers.now.site.now.events from.now to.now
        told.old.items told.new.items) }
{
    match packing_of(alloc, containers, &from.item, &to.item)? {
        Some(packing) => {
            told.push(packing)?;
            Ok(())
        }
        None => Ok(()),
    }
}

/// The first packing of an item into another one, where there is one.
fn packing_of(
    alloc: Global,
    containers: &Containers<'_>,
    item: &Epc,
    into: &Epc,
) -> Result<Option<PackingEvent>, AllocError>
    requires { AreOwnPlaces PutsIn containers.now.site.now.events containers.now.number
        containers.now.packings.now }
    ensures { IfOk result (AnswersPacking containers.now.site.now.events item.now into.now) }
{
    let test = PutsInto {
        site: containers.site,
        number: containers.number,
        into,
    };
    let Some(first) = first_where(&test, places_under(containers.packings, item)) else {
        return Ok(None);
    };
    let Some(event) = told(alloc, containers.site, first)? else {
        return Ok(None);
    };
    let into = into.copy(alloc)?;
    Ok(Some(PackingEvent { into, event }))
}
