//! Reports and traces with the events behind the steps of their trails, and behind what left the traced sites.
ghost use Rattle.std.specs.Prelude.{All, IfErr, IfOk, map, if◌then◌else◌};
ghost use Rattle.trace_core.specs.Relations.{IsChain};
ghost use Rattle.site_recovery.specs.Checking.{records_at, world_at};
ghost use Rattle.site_recovery.specs.FittingAt.{AreAllSites};
ghost use Rattle.site_recovery.specs.Laws.{captured_of};
ghost use Rattle.report_core.specs.Leaving.{IsShippedOut};
ghost use Rattle.report_core.specs.OutsideEvents.{AreToldOutside};
ghost use Rattle.report_core.specs.Reports.{IsReport, TellsFault};
ghost use Rattle.report_core.specs.Traces.{IsBackTrace, IsKnownAt, IsTrace, TellsTraceFault};
ghost use Rattle.report_core.specs.TrailEvents.{AreToldAlong, IsRelatedStep, or_no_pairs};
ghost use Rattle.report_core.specs.declared.trail_events.ShownSteps.TheVariants.{Each, First, Last};

use crate::faults::{ReportFault, TraceFault};
use crate::outside::OutsideShipment;
use crate::outside_events::{OutsideEvent, told_outside};
use crate::relating::RelatingEvents;
use crate::reports::{RecallReport, report};
use crate::shown_trails::ShownTrails;
use crate::traces::{BackTrace, Trace};
use crate::tracing::trace;
use crate::tracing_back::trace_back;
use crate::trail_events::{StepEvents, told_along};
use crate::wanted_steps::{add_outside, wanted_along};
use epc_core::Epc;
use event_json::{Sequence, SiteNo};
use frame_core::RecallId;
use site_core::SiteState;
use site_recovery::captured;
use std::alloc::{AllocError, Global};

/// The events behind a report or a trace.
#[derive(Debug, Drop)]
pub struct ShownEvents {
    /// Of each of its trails those of the steps that are told, in their order.
    pub steps: Vec<Sequence<StepEvents>>,
    /// Of each of its shipments out of the traced sites what shows it.
    pub outside: Sequence<OutsideEvent>,
}

/// Reports a recall as `report` does, and lists along each trail the first captured events that relate the pairs of
/// each of its steps, or in brief of its last step alone, with the packings by which a shipped item came to lie in
/// what was shipped, and for each shipment out of the traced sites the first event that shows it. A pair without a
/// trail has no events.
///
/// Goes over the events of all sites three times, and twice more where a step that is told may be a shipment, or
/// where something left the traced sites. Keeps the places of what takes the items of these steps in, gives them out
/// and ships them alone; and for shipments also those of all packings, and of what ships anything that something was
/// put into. Looks for each step that is told at the events that take its first item in and at those that give its
/// second one out, or, as for each shipment out of the traced sites, at what the item lay in and at the shipments of
/// that, and then at the packings on the way to what was shipped.
///
/// # Errors
/// As `report`.
pub fn report_with_events(
    alloc: Global,
    sites: &[&SiteState],
    recall: RecallId,
    brief: bool,
) -> Result<(RecallReport, ShownEvents), ReportFault>
    requires all { AreAllSites (records_at sites.now) }
    ensures report { IfOk result (λ told. IsReport (records_at sites.now) recall told.0) }
    // Behind a step stand the first captured events of its first pair's site that relate its two pairs: the first
    // shipment of the item, or of what it lies in, to the other site, and how the item came to lie in what was
    // shipped; or the first event that takes the item in for a transformation which gives the other one out, with the
    // first part of it that does.
    //
    // What was shipped is the item itself, where the shipment lists it, and else the first by key of those things
    // that it ships to the site and that the item lies in. Packings lead there from the item on, none where it is the
    // item itself: each puts what the one before it filled, and the first one the item, into something, the last one
    // into what was shipped. No fewer packings lead there, and each is the site's first event that puts the one thing
    // into the other.
    //
    // An event has its number at its site, from 1, its eventID, and its time in UTC, which is read back as its very
    // instant; there is none just where no time can name the instant.
    ensures events { IfOk result (λ told. AreToldAlong (captured_of (records_at sites.now))
        (if brief then Last else Each) (map or_no_pairs told.0.trails) told.1.steps.items) }
    // Behind a shipment out of the traced sites stands its site's first captured event that ships the item, or what it
    // lies in, to the destination; and what of that event's items it left with: the item itself, where it is one of
    // them, or else the first by key of those that it lies in. What an item lies in is what the site's events ever put
    // it into, also those behind the shipment.
    ensures outside { IfOk result (λ told. AreToldOutside (captured_of (records_at sites.now))
        told.0.outside told.1.outside) }
    ensures fault { IfErr result (TellsFault (world_at sites.now) recall) }
{
    match report(alloc, sites, recall) {
        Ok(report) => {
            let outside = report.outside.as_slice();
            let events = events_along(alloc, sites, &report.trails, outside, brief)?;
            Ok((report, events))
        }
        Err(fault) => Err(fault),
    }
}

/// Traces an item as `trace` does, with the events as in a report.
///
/// # Errors
/// As `trace`.
pub fn trace_with_events(
    alloc: Global,
    sites: &[&SiteState],
    site: SiteNo,
    item: &Epc,
    brief: bool,
) -> Result<(Trace, ShownEvents), TraceFault>
    requires all { AreAllSites (records_at sites.now) }
    ensures trace { IfOk result (λ told. IsTrace (records_at sites.now) site item.now told.0) }
    ensures known { IfOk result (λ _. IsKnownAt (world_at sites.now) site item.now) }
    ensures events { IfOk result (λ told. AreToldAlong (captured_of (records_at sites.now))
        (if brief then Last else Each) told.0.trails told.1.steps.items) }
    // As in a report.
    ensures outside { IfOk result (λ told. AreToldOutside (captured_of (records_at sites.now))
        told.0.outside told.1.outside) }
    ensures fault { IfErr result (TellsTraceFault (world_at sites.now) site item.now) }
{
    match trace(alloc, sites, site, item) {
        Ok(trace) => {
            let outside = trace.outside.as_slice();
            let events = events_along(alloc, sites, &trace.trails, outside, brief)?;
            Ok((trace, events))
        }
        Err(fault) => Err(fault),
    }
}

/// Traces an item back as `trace_back` does, with the events as in a report, but in brief those of the first step of
/// each trail.
///
/// # Errors
/// As `trace_back`.
pub fn trace_back_with_events(
    alloc: Global,
    sites: &[&SiteState],
    site: SiteNo,
    item: &Epc,
    brief: bool,
) -> Result<(BackTrace, Vec<Sequence<StepEvents>>), TraceFault>
    requires all { AreAllSites (records_at sites.now) }
    ensures trace { IfOk result (λ told. IsBackTrace (records_at sites.now) site item.now told.0) }
    ensures known { IfOk result (λ _. IsKnownAt (world_at sites.now) site item.now) }
    ensures events { IfOk result (λ told. AreToldAlong (captured_of (records_at sites.now))
        (if brief then First else Each) told.0.trails told.1.items) }
    ensures fault { IfErr result (TellsTraceFault (world_at sites.now) site item.now) }
{
    match trace_back(alloc, sites, site, item) {
        Ok(trace) => {
            let events = events_along(alloc, sites, &trace.trails, &[], brief)?;
            Ok((trace, events.steps))
        }
        Err(fault) => Err(fault),
    }
}

/// The events of the steps that are shown of some trails, and those behind some shipments out of the traced sites.
fn events_along<T: ShownTrails>(
    alloc: Global,
    sites: &[&SiteState],
    trails: &T,
    outside: &[OutsideShipment],
    brief: bool,
) -> Result<ShownEvents, AllocError>
    requires related { All (IsChain (IsRelatedStep (captured_of (records_at sites.now))))
        (T.trails trails.now) }
    requires out { All (IsShippedOut (captured_of (records_at sites.now))) outside.now }
    ensures steps { IfOk result (λ told. AreToldAlong (captured_of (records_at sites.now))
        (if brief then T.step trails.now else Each) (T.trails trails.now) told.steps.items) }
    ensures outside { IfOk result (λ told. AreToldOutside (captured_of (records_at sites.now))
        outside.now told.outside) }
{
    let captured = captured(alloc, sites)?;
    let mut wanted = wanted_along(alloc, trails, brief)?;
    add_outside(alloc, outside, &mut wanted)?;
    let relating = RelatingEvents::of(alloc, captured.as_slice(), wanted)?;
    let steps = told_along(alloc, &relating, trails, brief)?;
    let outside = told_outside(alloc, &relating, outside)?;
    Ok(ShownEvents { steps, outside })
}
