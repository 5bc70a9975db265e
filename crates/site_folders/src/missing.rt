//! What recalls miss: items that a site sent on with something that others packed. Once a recall has come to the site, a
//! capture of these packings is blocked there. And what a recall of a container leaves out: what lies in it.

ghost use Rattle.std.specs.Prelude.{IfOk};
ghost use Rattle.site_recovery.specs.Checking.{records_at};
ghost use Rattle.site_recovery.specs.FittingAt.{AreAllSites};
ghost use Rattle.site_folders.specs.Missing.{AreMissedFrom, CountsOwn, NotesInside};

use epc_core::Epc;
use gap_core::{items_inside, missed_among};
use recall_outcomes::{MissedItems, Notes};
use site_core::SiteState;
use site_recovery::captured;
use std::alloc::{AllocError, Global};
use trace_core::{Pair, reach_from};

/// The items that recalls of these roots reach and that sites sent on with something that others packed, each with its
/// site; by site and item, each once. Without a root nothing is looked for.
pub fn missed_from(
    alloc: Global,
    records: &[&SiteState],
    roots: &[Pair],
) -> Result<Vec<Pair>, AllocError>
    requires all { AreAllSites (records_at records.now) }
    ensures { IfOk result (λ missed. AreMissedFrom (records_at records.now) roots.now missed.items) }
{
    if roots.is_empty() {
        return Ok(Vec::new(alloc));
    }
    let captured = captured(alloc, records)?;
    let sites = captured.as_slice();
    let reached = reach_from(alloc, sites, roots)?;
    let missed = missed_among(alloc, sites, reached.as_slice())?;
    Ok(missed)
}

/// How many items lie in one, at any depth and by the packings that the site of this record captured.
pub fn count_inside(alloc: Global, state: &SiteState, item: &Epc) -> Result<u64, AllocError>
    ensures { IfOk result (CountsOwn state.now item.now) }
{
    let inside = items_inside(alloc, &[state.captured()], item)?;
    Ok(inside.len() as u64)
}

/// What is noted of an item in which so many lie: nothing where none does.
pub fn inside_notes(alloc: Global, inside: u64) -> Notes
    ensures { NotesInside inside result }
{
    if inside == 0 {
        return Notes::Nothing;
    }
    Notes::Missed(MissedItems::of(alloc, Vec::new(alloc), inside))
}
