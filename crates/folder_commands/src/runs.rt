//! `run`: all sites of a folder, each in a thread of its own.

ghost use Rattle.std.specs.Prelude.{◌≡◌, ◌≤◌, List, None, Some, All, IfErr, IfOk, IsSome, is_some, length, map, true};
ghost use Rattle.site_core.specs.Records.{Record};
ghost use Rattle.site_recovery.specs.FittingAt.{AreAllSites};
ghost use Rattle.site_threads.specs.Ends.{IsUnused};
ghost use Rattle.site_threads.specs.Gathering.{KeepersFit};
ghost use Rattle.site_folders.specs.FileCalls.{Led};
ghost use Rattle.site_folders.specs.Keepers.{AreShown};
ghost use Rattle.folder_commands.specs.Missing.{AreMissed};
ghost use Rattle.folder_commands.specs.Notes.{AreOfSites, EndsSo};
ghost use Rattle.folder_commands.specs.Runs.{AnswersRun, AnswersUnless, FailsRounds, FailsRun, RunFails, RunsAt, TellsCause, TellsRecalls, gather_fault};

use crate::missing::missed_before;
use crate::notes::{RunEnd, end_of, failures_of, notes_of};
use crate::rounds::run_rounds;
use keeper_core::SiteKeeper;
use recall_outcomes::{Fault, Outcome, Output, StartedRecall};
use site_folders::{Files, begun, close_all, open_all, open_records, sites_of};
use site_threads::{DeskOut, Gate, GatherCause, GatherFault, Gathered, run_world};
use std::alloc::{AllocError, Global};
use std::sync::Wait;
use std::thread::Threads;
use std::time::Clock;
use trace_core::Pair;
use world_core::WorldFault;

/// On which terms the sites of a folder run.
#[derive(Clone, Copy, Debug)]
pub struct RunTerms {
    /// For how many turns: at most 1,000,000.
    pub turns: u64,
    /// Whether they run again until each recall has ended, or in so many turns no message was dealt with or signalled.
    pub until_ended: bool,
    /// Whether they don't run where open recalls miss items.
    pub unless_gaps: bool,
    /// Whether the program's status tells that a recall is open after it.
    pub coded: bool,
}

/// A run of all sites: what it came to, and what it ended with, where there was one.
#[derive(Debug)]
pub(crate) struct Ran {
    pub(crate) outcome: Outcome,
    pub(crate) end: Option<RunEnd>,
}

// It is written out, so that a caller does not prove again how each part is dropped.
impl Drop for Ran {
    fn drop(self) {
        let Ran { outcome: _, end: _ } = self;
    }
}

impl Ran {
    /// What it came to, and what it ended with.
    fn into_parts(self) -> (Outcome, Option<RunEnd>)
        ensures outcome { result.0 ≡ self.outcome }
        ensures end { result.1 ≡ self.end }
    {
        let Ran { outcome, end } = self;
        (outcome, end)
    }
}

/// Runs all sites of a folder, each in a thread of its own, where one can be made.
///
/// Frames go from site to site, and nothing else is done: each step of a site is that of a frame. The outcome has each
/// recall that a site began, by site and number: whether it has ended, or is open. The notes name each site that
/// stopped in a step, how often, and why: `Device` where its device failed in the run, else `Store`; behind that they
/// say what is known of the site's file. They tell where sites shared threads, and where a recall is open that a
/// further run goes on with it; and they have the items that recalls reach which were open before the run, and that sites
/// sent on with something that others packed: what the recalls miss. Where there are such and the terms say so, and where
/// the records aren't consistent, there is no run, and that is the outcome. Each site has a copy of the gate to its turns.
///
/// # Errors
/// In this order: those of the folder's list, those of opening the sites' files, and those of `run_of`; after these
/// the files are closed. Then `NoMemory`, after which the run is done and not reported.
pub fn run_sites<
    K: SiteKeeper + Send,
    F: Files<K>,
    G: Gate + Copy + Send,
    R: Threads + Wait + Clock + Sync,
>(
    rt: &R,
    alloc: Global,
    files: &mut F,
    gate: G,
    folder: &str,
    terms: RunTerms,
) -> Result<Output, Fault>
    requires turns { terms.turns ≤ 1000000 }
    // The files of all sites are opened, their keepers are run by `run_of`, and the files are closed; or, where open
    // recalls miss items and the terms say so, nothing is run.
    //
    // Each keeper is open afterwards in the record to which its steps lead from the one that it began with, each the
    // step of a frame; each gate was asked for all turns of the run, or for fewer where the site is done, so that a
    // recall is reported open only where the site that began it was asked for all of them; and what the sites did is a
    // run of the world, which comes out as the headline says.
    //
    // The notes of a run name just the sites that stopped in steps of it, in order, with the number of these steps, and
    // `Device` where the count of its device's failures rose in the run, else `Store`; whether a recall is open; and just
    // the items that the roots of recalls reach which were open before, and that are missed.
    //
    // Where the records aren't consistent before the run, the condition and the site are reported, and nothing has
    // changed.
    ensures calls { IfOk result (λ output. Led F.does files.old files.new
        (RunsAt (F.knows files.new) K.shown K.failed K.may K.stored folder.now terms output)) }
    ensures failed { IfErr result (λ fault. Led F.does files.old files.new
        (RunFails K.shown K.failed K.may K.reopens G.gives_up K.stored folder.now terms fault)) }
{
    let sites = sites_of(alloc, files, folder)?;
    let keepers = open_all(alloc, files, folder, &sites)?;
    let (after, ran) = run_unless(rt, alloc, keepers, gate, terms);
    close_all(files, after);
    let (done, missed) = ran?;
    let (outcome, end) = done.into_parts();
    let notes = notes_of(alloc, files, folder, &sites, &end, missed)?;
    Ok(Output {
        sites,
        outcome,
        notes,
    })
}

/// Runs the sites of these keepers, unless open recalls miss items and the terms say so: then they are as they were.
/// Beside that, what open recalls miss before it.
///
/// # Errors
/// `NoMemory` before the run, with the keepers as they were; and those of `run_of`.
fn run_unless<K: SiteKeeper + Send, G: Gate + Copy + Send, R: Threads + Wait + Clock + Sync>(
    rt: &R,
    alloc: Global,
    keepers: Vec<K>,
    gate: G,
    terms: RunTerms,
) -> (Vec<K>, Result<(Ran, Vec<Pair>), Fault>)
    requires count { (2 ≤ length keepers.items) × (length keepers.items ≤ 16) }
    requires turns { terms.turns ≤ 1000000 }
    requires shown { (rs : List Record) × AreShown K.shown keepers.items rs × AreAllSites rs }
    ensures missed { IfOk result.1 (λ told. (rs : List Record) → AreShown K.shown keepers.items rs
        → AreMissed rs told.1.items) }
    ensures answered { IfOk result.1 (λ told. AnswersUnless K.shown K.failed K.may terms told.1.items
        keepers.items result.0.items told.0.outcome told.0.end) }
    ensures stored { All K.stored keepers.items → All K.stored result.0.items }
    ensures failed { IfErr result.1 (FailsRounds K.shown K.failed K.may K.reopens G.gives_up terms
        keepers.items result.0.items) }
{
    let Ok(missed) = missed_before(alloc, keepers.as_slice()) else {
        return (keepers, Err(Fault::NoMemory));
    };
    if terms.unless_gaps && !missed.is_empty() {
        let withheld = Ran {
            outcome: Outcome::Withheld,
            end: None,
        };
        return (keepers, Ok((withheld, missed)));
    }
    let (after, ran) = run_rounds(rt, alloc, keepers, gate, terms);
    match ran {
        Ok(ran) => (after, Ok((ran, missed))),
        Err(fault) => (after, Err(fault)),
    }
}

/// Runs the sites of these keepers, in the order of their numbers. Each has a copy of the gate to its turns. The keepers
/// are given back, open where there is an outcome; then what the sites did is a run of the world, which comes out as
/// that of `World::run` does.
///
/// # Errors
/// `OtherSites` where the keepers aren't of one list of sites, in order, and `Closed` where one is closed: they are as
/// they were. `NoMemory`, `SiteLost` where a keeper was closed and an opening of it was refused, and `GaveUp` where a
/// gate gave up: in whichever records the keepers are open, or may be opened, they are consistent, or nothing has
/// changed.
///
/// What the keepers stored before, they store after it, also where it has no outcome.
pub(crate) fn run_of<K: SiteKeeper + Send, G: Gate + Copy + Send, R: Threads + Wait + Clock + Sync>(
    rt: &R,
    alloc: Global,
    keepers: Vec<K>,
    gate: G,
    terms: RunTerms,
) -> (Vec<K>, Result<Ran, Fault>)
    requires count { (2 ≤ length keepers.items) × (length keepers.items ≤ 16) }
    requires turns { terms.turns ≤ 1000000 }
    ensures answered { IfOk result.1 (λ ran.
        AnswersRun K.shown K.failed K.may terms keepers.items result.0.items ran.outcome
        ran.end) }
    // Where there was a run, it may be told again in which records the keepers are open, or may be opened.
    ensures fit { IfOk result.1 (λ ran. is_some ran.end ≡ true
        → KeepersFit K.shown K.may result.0.items) }
    // Whether it has an answer or not, what the keepers stored before the run they store after it.
    ensures stored { All K.stored keepers.items → All K.stored result.0.items }
    ensures failed { IfErr result.1 (FailsRun K.shown K.may K.reopens G.gives_up terms.turns
        keepers.items result.0.items) }
{
    let Ok((desks, gates, before)) = before_run(alloc, gate, keepers.as_slice()) else {
        return (keepers, Err(Fault::NoMemory));
    };
    match run_world(rt, alloc, keepers, desks, gates, terms.turns) {
        Ok(run) => {
            let ran = match tell_run(alloc, before.as_slice(), &run) {
                Ok((recalls, end)) => Ok(Ran {
                    outcome: Outcome::Ran {
                        recalls,
                        coded: terms.coded,
                    },
                    end: Some(end),
                }),
                Err(_) => Err(Fault::NoMemory),
            };
            let Gathered { keepers, .. } = run;
            (keepers, ran)
        }
        Err(GatherFault { keepers, cause, .. }) => (keepers, tell_cause(cause)),
    }
}

/// What a run needs beside its keepers: ends of as many desks, at which no job is ever put, copies of a gate, and how
/// often each device has failed.
fn before_run<K: SiteKeeper, G: Gate + Copy>(
    alloc: Global,
    gate: G,
    keepers: &[K],
) -> Result<(Vec<DeskOut>, Vec<G>, Vec<u64>), AllocError>
    ensures desks { IfOk result (λ r. (length r.0.items ≡ length keepers.now)
        × All IsUnused r.0.items) }
    ensures limits { IfOk result (λ r. All (λ d. d.limit ≡ 0) r.0.items) }
    ensures gates { IfOk result (λ r. length r.1.items ≡ length keepers.now) }
    ensures failures { IfOk result (λ r. r.2.items ≡ map K.failed keepers.now) }
{
    let (desks, gates) = unused(alloc, gate, keepers.len())?;
    let failures = failures_of(alloc, keepers)?;
    Ok((desks, gates, failures))
}

/// Ends of as many desks, at which no job is ever put, and copies of a gate.
fn unused<G: Gate + Copy>(
    alloc: Global,
    gate: G,
    count: usize,
) -> Result<(Vec<DeskOut>, Vec<G>), AllocError>
    ensures desks { IfOk result (λ r. (length r.0.items ≡ count) × All IsUnused r.0.items) }
    ensures limits { IfOk result (λ r. All (λ d. d.limit ≡ 0) r.0.items) }
    ensures gates { IfOk result (λ r. length r.1.items ≡ count) }
{
    let mut desks = Vec::new(alloc);
    let mut gates = Vec::new(alloc);
    for _ in 0..count {
        desks.push(DeskOut::none(alloc)?)?;
        gates.push(gate)?;
    }
    Ok((desks, gates))
}

/// What comes of a cause that prevents a run.
fn tell_cause(cause: GatherCause) -> Result<Ran, Fault>
    ensures answered { IfOk result (λ ran. TellsCause cause ran.outcome × (ran.end ≡ None)) }
    ensures failed { IfErr result (λ fault. gather_fault cause ≡ Some fault) }
{
    match cause {
        GatherCause::NotAWorld(WorldFault::Misfit(misfit)) => Ok(Ran {
            outcome: Outcome::Inconsistent(misfit),
            end: None,
        }),
        GatherCause::NotAWorld(WorldFault::OtherSites(_)) => Err(Fault::OtherSites),
        GatherCause::NotAWorld(WorldFault::Closed(_)) => Err(Fault::Closed),
        GatherCause::NotAWorld(WorldFault::NoMemory) | GatherCause::NoMemory => {
            Err(Fault::NoMemory)
        }
        GatherCause::SiteLost(_) => Err(Fault::SiteLost),
        GatherCause::GaveUp(_) => Err(Fault::GaveUp),
    }
}

/// What is told of a run that has come to its end, before which the devices had failed so often: the recalls in the
/// records that the keepers show, and what the run ended with.
fn tell_run<K: SiteKeeper>(
    alloc: Global,
    before: &[u64],
    run: &Gathered<K>,
) -> Result<(Vec<StartedRecall>, RunEnd), AllocError>
    requires open { All (λ k. IsSome (K.shown k)) run.now.keepers.items }
    requires fit { KeepersFit K.shown K.may run.now.keepers.items }
    requires all { AreOfSites before.now (map K.failed run.now.keepers.items) run.now.lists.items }
    ensures told { IfOk result (λ r. TellsRecalls K.shown run.now.keepers.items r.0.items) }
    ensures noted { IfOk result (λ r. EndsSo before.now (map K.failed run.now.keepers.items)
        run.now.lists.items r.0.items r.1) }
{
    let keepers = run.keepers.as_slice();
    let records = open_records(alloc, keepers)?;
    let recalls = begun(alloc, records.as_slice())?;
    let after = failures_of(alloc, keepers)?;
    let end = end_of(
        alloc,
        before,
        after.as_slice(),
        run.lists.as_slice(),
        run.shared,
        recalls.as_slice(),
    )?;
    Ok((recalls, end))
}
