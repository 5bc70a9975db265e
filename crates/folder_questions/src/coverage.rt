//! `coverage`: what each site captured, and from when to when. A site whose last event is old may lack documents.

ghost use Rattle.std.specs.Prelude.{◌≡◌, true, false, IfOk, IsTrue, option_map};
ghost use Rattle.std.specs.List.{AllZip};
ghost use Rattle.site_recovery.specs.Checking.{records_at};
ghost use Rattle.folder_questions.specs.Coverage.{Covers, IsEnd, TellsEnd, is_beyond, further};

use event_json::{Event, PlainText, Sites};
use query_core::known_items_with;
use recall_outcomes::{Outcome, SiteCoverage};
use report_core::time_of;
use site_core::SiteState;
use site_folders::Question;
use std::alloc::{AllocError, Global};
use trace_core::Captured;

/// What each site captured, and from when to when.
#[derive(Drop)]
pub struct CoverageOf {}

impl Question for CoverageOf {
    ghost use Rattle.std.specs.Prelude.{⊤};
    ghost use Rattle.folder_questions.specs.Coverage.{AnswersCoverage};

    type Asked = ();

    type Answer = Outcome;

    ghost refuses = { λ q sites outcome. ⊥ };

    ghost asks = { λ q sites asked. ⊤ };

    // For each site, in order, how many events it captured and how many items it knows, and when the first and the last
    // of the events happened.
    ghost answers = { λ q asked rs outcome. AnswersCoverage rs outcome };

    fn read(&self, _alloc: Global, _sites: &Sites) -> Result<Result<(), Outcome>, AllocError> {
        Ok(Ok(()))
    }

    fn answer(
        &self,
        alloc: Global,
        _asked: (),
        records: &[&SiteState],
    ) -> Result<Outcome, AllocError> {
        Ok(Outcome::Covered(all_covered(alloc, records)?))
    }
}

/// What each of the sites captured.
fn all_covered(alloc: Global, records: &[&SiteState]) -> Result<Vec<SiteCoverage>, AllocError>
    ensures { IfOk result (λ found. AllZip Covers (records_at records.now) found.items) }
{
    let mut found = Vec::new(alloc);
    for record in records {
        found.push(covered(alloc, record)?)?;
    }
    Ok(found)
}

/// What a site captured.
fn covered(alloc: Global, state: &SiteState) -> Result<SiteCoverage, AllocError>
    ensures { IfOk result (Covers state.now) }
{
    let captured = state.captured();
    let known = known_items_with(alloc, state, "")?;
    Ok(SiteCoverage {
        site: state.me(),
        events: captured.len() as u64,
        items: known.len() as u64,
        first: time_at(alloc, captured, false)?,
        last: time_at(alloc, captured, true)?,
    })
}

/// When the first of the events happened, or the last.
fn time_at(alloc: Global, captured: &Captured, last: bool) -> Result<Option<PlainText>, AllocError>
    ensures { IfOk result (TellsEnd last captured.now.events) }
{
    match end_of(captured, last) {
        Some(event) => time_of(alloc, event.instant()),
        None => Ok(None),
    }
}

/// The first of the events, or the last.
fn end_of(captured: &Captured, last: bool) -> Option<&Event>
    ensures { IsEnd last captured.now.events (option_map (λ e. e.now) result) }
{
    let mut end = None;
    for place in 0..captured.len() {
        let Some(event) = captured.event(place) else {
            unreachable!()
        };
        end = Some(further(last, end, event));
    }
    end
}

/// Of two events the one that happened first, or last.
fn further<'a>(last: bool, end: Option<&'a Event>, event: &'a Event) -> &'a Event
    ensures { result.now ≡ further last (option_map (λ e. e.now) end.entry) event.now }
{
    match end {
        Some(end) => if is_beyond(last, end, event) {
            event
        } else {
            end
        },
        None => event,
    }
}

/// Whether an event happened before another one, or after it.
fn is_beyond(last: bool, end: &Event, event: &Event) -> bool
    ensures { result ≡ is_beyond last end.now event.now }
{
    if last {
        end.instant() < event.instant()
    } else {
        event.instant() < end.instant()
    }
}
