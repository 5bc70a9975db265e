//! What is noted beside what is told of records: that they contradict each other, and else what is missed of it.

ghost use Rattle.std.specs.Prelude.{◌≡◌, IfOk};
ghost use Rattle.recall_outcomes.specs.declared.notes.Notes.TheVariants.{Nothing};
ghost use Rattle.site_recovery.specs.Checking.{records_at};
ghost use Rattle.site_recovery.specs.FittingAt.{AreAllSites};
ghost use Rattle.folder_questions.specs.Beside.{Beside, Contradict};
ghost use Rattle.folder_questions.specs.MissedNotes.{NotesMissed, NotesMissedFrom};

use crate::missed_notes::missed_notes;
use recall_outcomes::Notes;
use site_core::SiteState;
use site_recovery::{CheckFault, Misfit, captured, check_world};
use std::alloc::{AllocError, Global};
use trace_core::{Pair, reach};

/// What is noted beside pairs that are told of an item: how the records contradict each other, and else those of the
/// pairs that are missed, what a recall of the item misses by that, and how many items lie in it.
pub(crate) fn notes_beside(
    alloc: Global,
    records: &[&SiteState],
    pairs: &[Pair],
    root: &Pair,
) -> Result<Notes, AllocError>
    requires all { AreAllSites (records_at records.now) }
    ensures { IfOk result (Beside (records_at records.now)
        (NotesMissed (records_at records.now) pairs.now root.now)) }
{
    match misfit_in(alloc, records)? {
        Some(misfit) => Ok(Notes::Misfit(misfit)),
        None => missed_notes(alloc, records, pairs, root),
    }
}

/// The same beside what is told of an item at a site, by all pairs that it reaches.
pub(crate) fn notes_from(
    alloc: Global,
    records: &[&SiteState],
    root: &Pair,
) -> Result<Notes, AllocError>
    requires all { AreAllSites (records_at records.now) }
    ensures { IfOk result (Beside (records_at records.now)
        (NotesMissedFrom (records_at records.now) root.now)) }
{
    let captured = captured(alloc, records)?;
    let pairs = reach(alloc, captured.as_slice(), root)?;
    notes_beside(alloc, records, pairs.as_slice(), root)
}

/// What is noted where nothing can be missed: how the records contradict each other.
pub(crate) fn misfit_notes(alloc: Global, records: &[&SiteState]) -> Result<Notes, AllocError>
    requires all { AreAllSites (records_at records.now) }
    ensures { IfOk result (Beside (records_at records.now) (λ notes. notes ≡ Nothing)) }
{
    match misfit_in(alloc, records)? {
        Some(misfit) => Ok(Notes::Misfit(misfit)),
        None => Ok(Notes::Nothing),
    }
}

/// How the records contradict each other, if they do.
pub(crate) fn misfit_in(alloc: Global, records: &[&SiteState]) -> Result<Option<Misfit>, AllocError>
    requires all { AreAllSites (records_at records.now) }
    ensures { IfOk result (Contradict (records_at records.now)) }
{
    match check_world(alloc, records) {
        Ok(()) => Ok(None),
        Err(CheckFault::Misfit(misfit)) => Ok(Some(misfit)),
        Err(CheckFault::NoMemory) => Err(AllocError),
    }
}
