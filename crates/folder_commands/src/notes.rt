//! What is noted of a run beside its recalls: which sites stopped in it, and that a further run goes on.

ghost use Rattle.std.specs.Prelude.{◌≡◌, ◌++◌, IfOk, OnOk, map, not};
ghost use Rattle.std.specs.List.{AllZip, list_any};
ghost use Rattle.folder_commands.specs.Notes.{AreOfSites, EndsSo, NotesEnd, NotesMissed, NotesStop, cause_of, stop_at, stops_from};

use event_json::{SiteNo, Sites};
use keeper_core::SiteKeeper;
use recall_outcomes::{MissedItems, Notes, RunNotes, StartedRecall, Stop, StopCause};
use site_folders::{Files, file_path};
use site_threads::RunLog;
use std::alloc::{AllocError, Global};
use trace_core::Pair;

/// A site that stopped in steps of a run, after each of which it was opened again.
#[derive(Clone, Copy, Debug)]
pub(crate) struct Stopped {
    pub(crate) site: SiteNo,
    /// In how many steps.
    pub(crate) times: usize,
    /// `Device` where its device failed at least once in the run.
    pub(crate) cause: StopCause,
}

/// What a run ended with beside its recalls.
#[derive(Debug, Drop)]
pub(crate) struct RunEnd {
    /// The sites that stopped in a step of it, in the order of their numbers.
    pub(crate) stops: Vec<Stopped>,
    /// Whether the system gave fewer threads than sites, so that sites shared threads.
    pub(crate) shared: bool,
    /// Whether a recall is open after it.
    pub(crate) unended: bool,
}

/// How often the device of each keeper has failed.
pub(crate) fn failures_of<K: SiteKeeper>(
    alloc: Global,
    keepers: &[K],
) -> Result<Vec<u64>, AllocError>
    ensures { IfOk result (λ counts. counts.items ≡ map K.failed keepers.now) }
{
    let mut counts = Vec::new(alloc);
    for keeper in keepers {
        counts.push(keeper.failures())?;
    }
    Ok(counts)
}

/// What a run ended with, before and after which the devices had failed so often, and after which sites have begun these
/// recalls.
pub(crate) fn end_of(
    alloc: Global,
    before: &[u64],
    after: &[u64],
    lists: &[RunLog],
    shared: bool,
    recalls: &[StartedRecall],
) -> Result<RunEnd, AllocError>
    requires { AreOfSites before.now after.now lists.now }
    ensures { IfOk result (EndsSo before.now after.now lists.now recalls.now) }
{
    Ok(RunEnd {
        stops: stops_of(alloc, before, after, lists)?,
        shared,
        unended: is_one_open(recalls),
    })
}

/// The sites that stopped in their steps.
fn stops_of(
    alloc: Global,
    before: &[u64],
    after: &[u64],
    lists: &[RunLog],
) -> Result<Vec<Stopped>, AllocError>
    requires { AreOfSites before.now after.now lists.now }
    ensures { IfOk result (λ stops. stops.items ≡ stops_from 0 before.now after.now lists.now) }
{
    let mut stops = Vec::new(alloc);
    for place in 0..lists.len() {
        let Some(site) = SiteNo::of(place as u64) else {
            unreachable!()
        };
        let cause = cause_of(before[place], after[place]);
        push_stop(&mut stops, site, lists[place].stops(), cause)?;
    }
    Ok(stops)
}

/// Why a site stopped whose device had failed so often before and has after its steps.
fn cause_of(before: u64, after: u64) -> StopCause
    ensures { result ≡ cause_of before after }
{
    if before < after {
        StopCause::Device
    } else {
        StopCause::Store
    }
}

/// Adds a site that stopped so often, if it did.
fn push_stop(
    stops: &mut Vec<Stopped>,
    site: SiteNo,
    times: usize,
    cause: StopCause,
) -> Result<(), AllocError>
    ensures { OnOk result (stops.new.items ≡ stops.old.items ++ stop_at site times cause) }
{
    if times == 0 {
        return Ok(());
    }
    stops.push(Stopped { site, times, cause })?;
    Ok(())
}

/// Whether one of the recalls hasn't ended.
fn is_one_open(recalls: &[StartedRecall]) -> bool
    ensures { result ≡ list_any (λ b. not b.ended) recalls.now }
{
    recalls.iter().any(|recall| !recall.ended)
}

/// The notes of a run, where there was one, once the sites' files are closed, and what open recalls missed before it.
pub(crate) fn notes_of<K: SiteKeeper, F: Files<K>>(
    alloc: Global,
    files: &F,
    folder: &str,
    sites: &Sites,
    end: &Option<RunEnd>,
    missed: Vec<Pair>,
) -> Result<Notes, AllocError>
    ensures { IfOk result (NotesEnd (F.knows files.now) folder.now sites.now missed.items end.now) }
{
    match end {
        Some(end) => Ok(Notes::Run(RunNotes {
            stops: known_stops(alloc, files, folder, sites, end.stops.as_slice())?,
            shared: end.shared,
            unended: end.unended,
            missed,
        })),
        None => Ok(missed_notes(alloc, missed)),
    }
}

/// What open recalls miss, if they miss anything.
fn missed_notes(alloc: Global, missed: Vec<Pair>) -> Notes
    ensures { NotesMissed missed.items result }
{
    if missed.is_empty() {
        Notes::Nothing
    } else {
        Notes::Missed(MissedItems::of(alloc, missed, 0))
    }
}

/// The sites that stopped, each with what is known of the failures that its file met.
fn known_stops<K: SiteKeeper, F: Files<K>>(
    alloc: Global,
    files: &F,
    folder: &str,
    sites: &Sites,
    stops: &[Stopped],
) -> Result<Vec<Stop>, AllocError>
    ensures { IfOk result (λ all.
        AllZip (NotesStop (F.knows files.now) folder.now sites.now) stops.now all.items) }
{
    let mut all = Vec::new(alloc);
    for stop in stops {
        let path = file_path(alloc, folder, sites, stop.site)?;
        let known = files.known_of(alloc, path.as_str())?;
        all.push(Stop {
            site: stop.site,
            times: stop.times,
            cause: stop.cause,
            known,
        })?;
    }
    Ok(all)
}
