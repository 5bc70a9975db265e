//! `report`: what is quarantined under a recall, how it came there, and what left the traced sites.

ghost use Rattle.std.specs.Prelude.{◌≡◌, IfOk, IfErr, map};
ghost use Rattle.report_core.specs.Reports.{IsReport, TellsFault};
ghost use Rattle.report_core.specs.TrailEvents.{or_no_pairs};
ghost use Rattle.site_recovery.specs.Checking.{records_at, world_at};
ghost use Rattle.site_recovery.specs.FittingAt.{AreAllSites};
ghost use Rattle.folder_questions.specs.TrailEvents.{TellsShown, steps_to};

use crate::asked::recall_at;
use crate::beside::notes_beside;
use crate::trail_events::is_brief;
use event_json::Sites;
use frame_core::RecallId;
use recall_outcomes::{CommandRefusal, Notes, Outcome, Ways};
use report_core::{RecallReport, ReportFault, ShownEvents, report, report_with_events};
use site_core::SiteState;
use site_folders::{Question, refusal};
use std::alloc::{AllocError, Global};

/// The report of the recall that a text names; and beside that, what it misses.
#[derive(Drop)]
pub struct ReportOf<'a> {
    pub recall: &'a str,
    pub ways: Ways,
    /// Whether the events behind the steps are told, and those behind what left the traced sites.
    pub events: bool,
}

impl Question for ReportOf<'_> {
    ghost use Rattle.folder_questions.specs.Asked.{AsksRecall, RefusesRecall};
    ghost use Rattle.folder_questions.specs.Reports.{AnswersReport};
    ghost use Rattle.recall_outcomes.specs.declared.notes.Notes.TheVariants.{Nothing};

    type Asked = RecallId;

    type Answer = (Outcome, Notes);

    ghost refuses = { λ q sites told. RefusesRecall q.recall.now sites told.0 × (told.1 ≡ Nothing) };

    ghost asks = { λ q sites recall. AsksRecall q.recall.now sites recall };

    // The recall's report, where it is asked for with the events behind the steps that are told and behind what left
    // the traced sites, and `UnknownRecall` exactly where no site began the recall; and noted beside it how the records
    // contradict each other, or, where they don't, just those of its pairs that are missed, in which containers these
    // went, what that leaves untold and which recall holds it, and how many items lie in the recalled one.
    ghost answers = { λ q recall rs told.
        AnswersReport rs recall q.ways q.events told.0 told.1 };

    fn read(
        &self,
        alloc: Global,
        sites: &Sites,
    ) -> Result<Result<RecallId, (Outcome, Notes)>, AllocError> {
        match recall_at(alloc, sites, self.recall)? {
            Ok(recall) => Ok(Ok(recall)),
            Err(refused) => Ok(Err((refused, Notes::Nothing))),
        }
    }

    fn answer(
        &self,
        alloc: Global,
        recall: RecallId,
        records: &[&SiteState],
    ) -> Result<(Outcome, Notes), AllocError> {
        match told_report(alloc, records, recall, self.ways, self.events) {
            Ok((report, events)) => {
                let pairs = report.pairs.as_slice();
                let notes = notes_beside(alloc, records, pairs, &report.root)?;
                let outcome = Outcome::Reported {
                    recall,
                    report,
                    ways: self.ways,
                    events,
                };
                Ok((outcome, notes))
            }
            Err(ReportFault::UnknownRecall) => {
                Ok((
                    refusal(alloc, CommandRefusal::UnknownRecall)?,
                    Notes::Nothing,
                ))
            }
            Err(ReportFault::NoMemory) => Err(AllocError),
        }
    }
}

/// A report, and the events behind its steps and its shipments, where these are asked for.
fn told_report(
    alloc: Global,
    records: &[&SiteState],
    recall: RecallId,
    ways: Ways,
    events: bool,
) -> Result<(RecallReport, Option<ShownEvents>), ReportFault>
    requires all { AreAllSites (records_at records.now) }
    ensures report { IfOk result (λ told. IsReport (records_at records.now) recall told.0) }
    ensures events { IfOk result (λ told. TellsShown (records_at records.now) events
        (steps_to ways) (map or_no_pairs told.0.trails) told.0.outside told.1) }
    ensures fault { IfErr result (TellsFault (world_at records.now) recall) }
{
    if events {
        let (report, events) = report_with_events(alloc, records, recall, is_brief(ways))?;
        Ok((report, Some(events)))
    } else {
        Ok((report(alloc, records, recall)?, None))
    }
}
