//! `trace`: where an item went, or where it came from, whether or not it was recalled.

ghost use Rattle.std.specs.Prelude.{◌≡◌, true, false, IfErr, IfOk};
ghost use Rattle.recall_outcomes.specs.declared.outcomes.CommandRefusal.TheVariants.{Step};
ghost use Rattle.site_core.specs.declared.outcomes.Refusal.TheVariants.{UnknownItem};
ghost use Rattle.report_core.specs.Traces.{IsBackTrace, IsKnownAt, IsTrace, TellsTraceFault};
ghost use Rattle.site_recovery.specs.Checking.{records_at, world_at};
ghost use Rattle.site_recovery.specs.FittingAt.{AreAllSites};
ghost use Rattle.site_folders.specs.Refusals.{IsRefusal};
ghost use Rattle.folder_questions.specs.Traces.{AnswersTrace};
ghost use Rattle.folder_questions.specs.TrailEvents.{TellsEvents, TellsShown, steps_from, steps_to};

use crate::asked::item_at;
use crate::beside::{misfit_notes, notes_beside};
use crate::trail_events::is_brief;
use epc_core::Epc;
use event_json::{Sequence, SiteNo, Sites};
use item_spellings::Spelled;
use recall_outcomes::{CommandRefusal, Notes, Outcome, Ways};
use report_core::{
    BackTrace, ShownEvents, StepEvents, Trace, TraceFault, trace, trace_back,
    trace_back_with_events, trace_with_events,
};
use site_core::{Refusal, SiteState};
use site_folders::{Question, refusal};
use std::alloc::{AllocError, Global};

/// Where an item at the site of a name went, or where it came from; and beside that, what is missed of where it went, and
/// how many items lie in it.
#[derive(Drop)]
pub struct TraceOf<'a> {
    pub site: &'a str,
    pub item: Spelled<'a>,
    pub back: bool,
    pub ways: Ways,
    /// Whether the events behind the steps are told, and those behind what left the traced sites.
    pub events: bool,
}

impl Question for TraceOf<'_> {
    ghost use Rattle.folder_questions.specs.Asked.{AsksItem, RefusesItem};
    ghost use Rattle.folder_questions.specs.Traces.{AnswersTrace};
    ghost use Rattle.recall_outcomes.specs.declared.notes.Notes.TheVariants.{Nothing};

    type Asked = (SiteNo, Epc);

    type Answer = (Outcome, Notes);

    ghost refuses = { λ q sites told. RefusesItem q.site.now q.item sites told.0 × (told.1 ≡ Nothing) };

    ghost asks = { λ q sites asked. AsksItem q.site.now q.item sites asked.0 asked.1 };

    // A trace of the item, forward or back, or `UnknownItem` exactly where the site doesn't know it; and noted beside it
    // how the records contradict each other, or, where they don't, of a trace forward just those of its pairs that are
    // missed, in which containers these went, what that leaves untold and which recall holds it, and how many items lie
    // in the item.
    ghost answers = { λ q asked rs told.
        AnswersTrace rs asked.0 asked.1 q.back q.ways q.events told.0 told.1 };

    fn read(
        &self,
        alloc: Global,
        sites: &Sites,
    ) -> Result<Result<(SiteNo, Epc), (Outcome, Notes)>, AllocError> {
        match item_at(alloc, sites, self.site, &self.item)? {
            Ok(asked) => Ok(Ok(asked)),
            Err(refused) => Ok(Err((refused, Notes::Nothing))),
        }
    }

    fn answer(
        &self,
        alloc: Global,
        asked: (SiteNo, Epc),
        records: &[&SiteState],
    ) -> Result<(Outcome, Notes), AllocError> {
        let (site, item) = asked;
        if self.back {
            back_of(alloc, records, site, &item, self.ways, self.events)
        } else {
            forward_of(alloc, records, site, &item, self.ways, self.events)
        }
    }
}

/// Where an item went.
fn forward_of(
    alloc: Global,
    records: &[&SiteState],
    site: SiteNo,
    item: &Epc,
    ways: Ways,
    events: bool,
) -> Result<(Outcome, Notes), AllocError>
    requires all { AreAllSites (records_at records.now) }
    ensures answered { IfOk result (λ told. AnswersTrace (records_at records.now) site item.now
        false ways events told.0 told.1) }
{
    match told_trace(alloc, records, site, item, ways, events) {
        Ok((trace, events)) => {
            let notes = notes_beside(alloc, records, trace.pairs.as_slice(), &trace.root)?;
            let outcome = Outcome::Traced {
                trace,
                ways,
                events,
            };
            Ok((outcome, notes))
        }
        Err(fault) => Ok((untraced(alloc, fault)?, Notes::Nothing)),
    }
}

/// A trace, and the events behind its steps and its shipments, where these are asked for.
fn told_trace(
    alloc: Global,
    records: &[&SiteState],
    site: SiteNo,
    item: &Epc,
    ways: Ways,
    events: bool,
) -> Result<(Trace, Option<ShownEvents>), TraceFault>
    requires all { AreAllSites (records_at records.now) }
    ensures trace { IfOk result (λ told. IsTrace (records_at records.now) site item.now told.0) }
    ensures events { IfOk result (λ told. TellsShown (records_at records.now) events
        (steps_to ways) told.0.trails told.0.outside told.1) }
    ensures known { IfOk result (λ told. IsKnownAt (world_at records.now) site item.now) }
    ensures fault { IfErr result (TellsTraceFault (world_at records.now) site item.now) }
{
    if events {
        let (trace, events) = trace_with_events(alloc, records, site, item, is_brief(ways))?;
        Ok((trace, Some(events)))
    } else {
        Ok((trace(alloc, records, site, item)?, None))
    }
}

/// Where an item came from.
fn back_of(
    alloc: Global,
    records: &[&SiteState],
    site: SiteNo,
    item: &Epc,
    ways: Ways,
    events: bool,
) -> Result<(Outcome, Notes), AllocError>
    requires all { AreAllSites (records_at records.now) }
    ensures answered { IfOk result (λ told. AnswersTrace (records_at records.now) site item.now
        true ways events told.0 told.1) }
{
    match told_back(alloc, records, site, item, ways, events) {
        Ok((trace, events)) => {
            let outcome = Outcome::TracedBack {
                trace,
                ways,
                events,
            };
            Ok((outcome, misfit_notes(alloc, records)?))
        }
        Err(fault) => Ok((untraced(alloc, fault)?, Notes::Nothing)),
    }
}

/// A trace back, and the events behind its steps, where these are asked for.
fn told_back(
    alloc: Global,
    records: &[&SiteState],
    site: SiteNo,
    item: &Epc,
    ways: Ways,
    events: bool,
) -> Result<(BackTrace, Option<Vec<Sequence<StepEvents>>>), TraceFault>
    requires all { AreAllSites (records_at records.now) }
    ensures trace { IfOk result (λ told.
        IsBackTrace (records_at records.now) site item.now told.0) }
    ensures events { IfOk result (λ told.
        TellsEvents (records_at records.now) events (steps_from ways) told.0.trails told.1) }
    ensures known { IfOk result (λ told. IsKnownAt (world_at records.now) site item.now) }
    ensures fault { IfErr result (TellsTraceFault (world_at records.now) site item.now) }
{
    if events {
        let (trace, events) = trace_back_with_events(alloc, records, site, item, is_brief(ways))?;
        Ok((trace, Some(events)))
    } else {
        Ok((trace_back(alloc, records, site, item)?, None))
    }
}

/// An item that isn't known is refused as the start of its recall would be.
pub(crate) fn untraced(alloc: Global, fault: TraceFault) -> Result<Outcome, AllocError>
    ensures answered { IfOk result (λ outcome. (fault ≡ TraceFault.UnknownItem)
        × IsRefusal (Step UnknownItem) outcome) }
{
    match fault {
        TraceFault::UnknownItem => { refusal(alloc, CommandRefusal::Step(Refusal::UnknownItem)) }
        TraceFault::NoMemory => Err(AllocError),
    }
}
