//! `trace --contents`: where an item and all that lies in it went.

ghost use Rattle.std.specs.Prelude.{◌≡◌, IfOk};
ghost use Rattle.site_recovery.specs.Checking.{records_at};
ghost use Rattle.site_recovery.specs.FittingAt.{AreAllSites};
ghost use Rattle.folder_questions.specs.Beside.{Beside};
ghost use Rattle.folder_questions.specs.ContentsTraces.{AnswersContentsTrace};
ghost use Rattle.folder_questions.specs.MissedNotes.{NotesMissedAlone};

use crate::asked::item_at;
use crate::beside::misfit_in;
use crate::missed_notes::missed_notes_alone;
use crate::traces::untraced;
use epc_core::Epc;
use event_json::{SiteNo, Sites};
use gap_core::items_inside;
use item_spellings::Spelled;
use recall_outcomes::{Notes, Outcome, Ways};
use report_core::trace_contents;
use site_core::SiteState;
use site_folders::Question;
use site_recovery::captured;
use std::alloc::{AllocError, Global};
use trace_core::Pair;

/// Where an item at the site of a name went, and with it each item that lies in it, at any depth and by the packings of
/// all sites; and beside that, what is missed of where they went.
#[derive(Drop)]
pub struct ContentsTraceOf<'a> {
    pub site: &'a str,
    pub item: Spelled<'a>,
    pub ways: Ways,
}

impl Question for ContentsTraceOf<'_> {
    ghost use Rattle.folder_questions.specs.Asked.{AsksItem, RefusesItem};
    ghost use Rattle.folder_questions.specs.ContentsTraces.{AnswersContentsTrace};
    ghost use Rattle.recall_outcomes.specs.declared.notes.Notes.TheVariants.{Nothing};

    type Asked = (SiteNo, Epc);

    type Answer = (Outcome, Notes);

    ghost refuses = { λ q sites told. RefusesItem q.site.now q.item sites told.0 × (told.1 ≡ Nothing) };

    ghost asks = { λ q sites asked. AsksItem q.site.now q.item sites asked.0 asked.1 };

    // A trace of the item and of just the items that any site put into it, or into what was, as one, each of them at
    // the site; or `UnknownItem` exactly where the site doesn't know it. And noted beside it how the records contradict
    // each other, or, where they don't, just those of its pairs that are missed, and the containers in which they went.
    ghost answers = { λ q asked rs told.
        AnswersContentsTrace rs asked.0 asked.1 q.ways told.0 told.1 };

    fn read(
        &self,
        alloc: Global,
        sites: &Sites,
    ) -> Result<Result<(SiteNo, Epc), (Outcome, Notes)>, AllocError> {
        match item_at(alloc, sites, self.site, &self.item)? {
            Ok(asked) => Ok(Ok(asked)),
            Err(refused) => Ok(Err((refused, Notes::Nothing))),
        }
    }

    fn answer(
        &self,
        alloc: Global,
        asked: (SiteNo, Epc),
        records: &[&SiteState],
    ) -> Result<(Outcome, Notes), AllocError> {
        let (site, item) = asked;
        contents_trace(alloc, records, site, &item, self.ways)
    }
}

/// Where an item and all that lies in it went.
fn contents_trace(
    alloc: Global,
    records: &[&SiteState],
    site: SiteNo,
    item: &Epc,
    ways: Ways,
) -> Result<(Outcome, Notes), AllocError>
    requires all { AreAllSites (records_at records.now) }
    ensures { IfOk result (λ told.
        AnswersContentsTrace (records_at records.now) site item.now ways told.0 told.1) }
{
    let captured = captured(alloc, records)?;
    let inside = items_inside(alloc, captured.as_slice(), item)?;
    match trace_contents(alloc, records, site, item, inside.as_slice()) {
        Ok(trace) => {
            let notes = notes_alone(alloc, records, trace.pairs.as_slice())?;
            let outcome = Outcome::Traced {
                trace,
                ways,
                events: None,
            };
            Ok((outcome, notes))
        }
        Err(fault) => Ok((untraced(alloc, fault)?, Notes::Nothing)),
    }
}

/// What is noted beside such a trace.
fn notes_alone(alloc: Global, records: &[&SiteState], pairs: &[Pair]) -> Result<Notes, AllocError>
    requires all { AreAllSites (records_at records.now) }
    ensures { IfOk result (Beside (records_at records.now)
        (NotesMissedAlone (records_at records.now) pairs.now)) }
{
    match misfit_in(alloc, records)? {
        Some(misfit) => Ok(Notes::Misfit(misfit)),
        None => missed_notes_alone(alloc, records, pairs),
    }
}
