//! What is noted of pairs that are missed, and of what lies in an item.

ghost use Rattle.std.specs.Prelude.{◌≡◌, ◌==◌, ◌&&◌, IfOk, length};
ghost use Rattle.site_recovery.specs.Checking.{records_at};
ghost use Rattle.site_recovery.specs.FittingAt.{AreAllSites};
ghost use Rattle.folder_questions.specs.MissedNotes.{IsReachBeside, NotesMissed, NotesMissedAlone};

use crate::missed::missed_by;
use gap_core::{gap_lines_with, items_inside, missed_among};
use recall_outcomes::{MissedItems, MissedReach, Notes};
use site_core::SiteState;
use site_recovery::captured;
use std::alloc::{AllocError, Global};
use trace_core::Pair;

/// What is noted beside pairs that are told of an item: those of them that are missed, in which containers they went
/// on, and what a recall of the item misses by that; and how many items lie in it. Nothing where there is none.
pub(crate) fn missed_notes(
    alloc: Global,
    records: &[&SiteState],
    pairs: &[Pair],
    root: &Pair,
) -> Result<Notes, AllocError>
    requires all { AreAllSites (records_at records.now) }
    ensures { IfOk result (NotesMissed (records_at records.now) pairs.now root.now) }
{
    let captured = captured(alloc, records)?;
    let missed = missed_among(alloc, captured.as_slice(), pairs)?;
    let inside = items_inside(alloc, captured.as_slice(), &root.item)?;
    let count = inside.len();
    if are_none(missed.as_slice(), count) {
        return Ok(Notes::Nothing);
    }
    Ok(Notes::Missed(MissedItems {
        containers: gap_lines_with(alloc, captured.as_slice(), missed.as_slice())?,
        reach: reach_beside(alloc, records, root, missed.as_slice())?,
        pairs: missed,
        inside: count as u64,
    }))
}

/// The same of an item that is told with all that lies in it: those of the pairs that are missed, and in which
/// containers they went on.
pub(crate) fn missed_notes_alone(
    alloc: Global,
    records: &[&SiteState],
    pairs: &[Pair],
) -> Result<Notes, AllocError>
    ensures { IfOk result (NotesMissedAlone (records_at records.now) pairs.now) }
{
    let captured = captured(alloc, records)?;
    let missed = missed_among(alloc, captured.as_slice(), pairs)?;
    if missed.is_empty() {
        return Ok(Notes::Nothing);
    }
    Ok(Notes::Missed(MissedItems {
        containers: gap_lines_with(alloc, captured.as_slice(), missed.as_slice())?,
        reach: MissedReach::nothing(alloc),
        pairs: missed,
        inside: 0,
    }))
}

/// What a recall of a root misses, where some pairs are missed, and else nothing.
fn reach_beside(
    alloc: Global,
    records: &[&SiteState],
    root: &Pair,
    missed: &[Pair],
) -> Result<MissedReach, AllocError>
    requires all { AreAllSites (records_at records.now) }
    ensures { IfOk result (IsReachBeside (records_at records.now) root.now missed.now) }
{
    if missed.is_empty() {
        Ok(MissedReach::nothing(alloc))
    } else {
        missed_by(alloc, records, root)
    }
}

/// Whether there is no pair, and none of something else.
pub(crate) fn are_none(pairs: &[Pair], count: usize) -> bool
    ensures { result ≡ ((length pairs.now == 0) && (count == 0)) }
{
    pairs.is_empty() && count == 0
}
