//! The captured events behind the steps of trails.
ghost use Rattle.std.specs.Prelude.{◌≡◌, All, IfOk, OnOk, if◌then◌else◌, option_map};
ghost use Rattle.std.specs.List.{AllZip};
ghost use Rattle.trace_core.specs.Relations.{IsChain};
ghost use Rattle.report_core.specs.FirstPlaces.{AreWanted, AreWantedAlong, IsWantedStep, TellsEvent};
ghost use Rattle.report_core.specs.TrailEvents.{AddsTold, AreToldAlong, IsRelatedStep, TellsStep, steps_of};
ghost use Rattle.report_core.specs.declared.trail_events.ShownSteps.TheVariants.{Each};

use crate::event_times::time_of;
use crate::packing_events::PackingEvent;
use crate::relating::RelatingEvents;
use crate::shown_trails::ShownTrails;
use event_json::{PlainText, Sequence};
use std::alloc::{AllocError, Global};
use trace_core::{Captured, Pair};

/// A captured event, as it is shown.
#[derive(Debug, Drop)]
pub struct CapturedEvent {
    /// Its number at its site, from 1, in the order in which the site captured its events.
    pub number: u64,
    /// Its eventID, where it has one.
    pub id: Option<PlainText>,
    /// Its time in UTC, as `2024-05-01T13:20:00Z`, with as many decimals of the second as it has. `None` where no text
    /// names it, which the time of no document is: those lie in the years from -9999 to 9999.
    pub time: Option<PlainText>,
}

/// The events that relate two pairs.
#[derive(Debug, Drop)]
pub enum StepEvents {
    /// The item was shipped to the other site, by itself or in something.
    Shipped {
        /// The first shipment of the item, or of what it lies in, to the other site.
        event: CapturedEvent,
        /// How the item came to lie in what was shipped, from the item on outwards, by as few packings as any; none
        /// where the item itself was shipped. Of several things that were shipped and that it lies in, in the first
        /// one by key.
        packings: Sequence<PackingEvent>,
    },
    /// The first transformation that the item went into and the other one came out of: one event, or two parts of one
    /// transformationID.
    Made {
        /// The first event that takes the item in.
        taken_in: CapturedEvent,
        /// The first event that gives the other one out, as a part of the same transformation.
        given_out: CapturedEvent,
    },
}

/// The steps of a trail whose events are shown.
#[derive(Clone, Copy, Debug, PartialEq, Eq)]
pub enum ShownSteps {
    /// Of each.
    Each,
    /// Of the first one.
    First,
    /// Of the last one.
    Last,
}

/// Of each of some trails the events of each step, or in brief of one, trail by trail, and step by step along each.
///
/// # Errors
/// Out of memory.
pub(crate) fn told_along<T: ShownTrails>(
    alloc: Global,
    relating: &RelatingEvents<'_>,
    trails: &T,
    brief: bool,
) -> Result<Vec<Sequence<StepEvents>>, AllocError>
    requires related { All (IsChain (IsRelatedStep relating.now.sites)) (T.trails trails.now) }
    requires wanted { AreWantedAlong relating.now.wanted
        (if brief then T.step trails.now else Each) (T.trails trails.now) }
    ensures { IfOk result (λ told. AreToldAlong relating.now.sites
        (if brief then T.step trails.now else Each) (T.trails trails.now) told.items) }
{
    let mut told = Vec::new(alloc);
    for place in 0..trails.count() {
        let pairs = trails.pairs_at(alloc, place, brief)?;
        told.push(told_of(alloc, relating, pairs.as_slice())?)?;
    }
    Ok(told)
}

/// The events of the steps from each pair to the next.
fn told_of(
    alloc: Global,
    relating: &RelatingEvents<'_>,
    pairs: &[Pair],
) -> Result<Sequence<StepEvents>, AllocError>
    requires related { IsChain (IsRelatedStep relating.now.sites) pairs.now }
    requires wanted { AreWanted relating.now.wanted pairs.now }
    ensures { IfOk result (AllZip (λ step. TellsStep relating.now.sites step.0 step.1)
        (steps_of pairs.now)) }
{
    let mut told = Vec::new(alloc);
    for place in 1..pairs.len() {
        push_told(alloc, relating, &pairs[place - 1], &pairs[place], &mut told)?;
    }
    Ok(Sequence::from_vec(told))
}

/// Adds the events of the step from a pair to another one.
fn push_told(
    alloc: Global,
    relating: &RelatingEvents<'_>,
    from: &Pair,
    to: &Pair,
    told: &mut Vec<StepEvents>,
) -> Result<(), AllocError>
    requires related { IsRelatedStep relating.now.sites from.now to.now }
    requires wanted { IsWantedStep relating.now.wanted from.now to.now }
    ensures { OnOk result (AddsTold relating.now.sites from.now to.now told.old.items
        told.new.items) }
{
    match relating.of_step(alloc, from, to)? {
        Some(events) => {
            told.push(events)?;
            Ok(())
        }
        None => Ok(()),
    }
}

/// What is told of the event at a place, if there is one.
pub(crate) fn told(
    alloc: Global,
    site: &Captured,
    place: usize,
) -> Result<Option<CapturedEvent>, AllocError>
    ensures { IfOk result (TellsEvent site.now.events place) }
{
    if place >= site.len() {
        return Ok(None);
    }
    let Some(event) = site.event(place) else {
        return Ok(None);
    };
    let number = place as u64 + 1;
    let id = copy_of(alloc, event.id())?;
    let time = time_of(alloc, event.instant())?;
    Ok(Some(CapturedEvent { number, id, time }))
}

/// An equal text, if there is one.
fn copy_of(alloc: Global, text: Option<&PlainText>) -> Result<Option<PlainText>, AllocError>
    ensures { IfOk result (λ copy. copy ≡ option_map (λ t. t.now) text.entry) }
{
    match text {
        Some(text) => Ok(Some(text.copy(alloc)?)),
        None => Ok(None),
    }
}
