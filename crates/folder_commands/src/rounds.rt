//! A run that goes on, so many turns at a time, until its recalls have ended or nothing moves any more.

ghost use Rattle.std.specs.Prelude.{◌≡◌, ◌≤◌, List, false, true, All, IfErr, IfOk, IfSome, is_none, length};
ghost use Rattle.std.specs.List.{flat_map};
ghost use Rattle.site_core.specs.Records.{Record};
ghost use Rattle.site_recovery.specs.Checking.{records_at};
ghost use Rattle.site_folders.specs.Keepers.{AreShown};
ghost use Rattle.folder_commands.specs.Runs.{AnswersRun, AnswersRounds, FailsRounds, FailsRun, GoesOn, HasRested, HaveTraffic, TellsWhether, leaves_open, traffic_of};

use crate::runs::{Ran, RunTerms, run_of};
use keeper_core::SiteKeeper;
use recall_outcomes::Fault;
use site_core::SiteState;
use site_folders::open_records;
use site_threads::Gate;
use std::alloc::{AllocError, Global};
use std::sync::Wait;
use std::thread::Threads;
use std::time::Clock;

/// How many runs are made one after another at most.
pub(crate) const MOST_ROUNDS: u64 = 500;

/// Runs the sites of these keepers once, or where it is asked for until each recall has ended, or a run of all its
/// turns has moved nothing: no site dealt with a message in it, and none of a site's was signalled. At most 500 times.
///
/// # Errors
/// As `run_of`, of the last run.
pub(crate) fn run_rounds<
    K: SiteKeeper + Send,
    G: Gate + Copy + Send,
    R: Threads + Wait + Clock + Sync,
>(rt: &R, alloc: Global, keepers: Vec<K>, gate: G, terms: RunTerms) -> (Vec<K>, Result<Ran, Fault>)
    requires count { (2 ≤ length keepers.items) × (length keepers.items ≤ 16) }
    requires turns { terms.turns ≤ 1000000 }
    requires shown { (rs : List Record) × AreShown K.shown keepers.items rs }
    ensures answered { IfOk result.1 (λ ran. AnswersRounds K.shown K.failed K.may terms
        keepers.items result.0.items ran.outcome ran.end) }
    ensures stored { All K.stored keepers.items → All K.stored result.0.items }
    ensures failed { IfErr result.1 (FailsRounds K.shown K.failed K.may K.reopens G.gives_up terms
        keepers.items result.0.items) }
{
    if !terms.until_ended {
        return run_of(rt, alloc, keepers, gate, terms);
    }
    let mut keepers = keepers;
    for _ in 1..MOST_ROUNDS {
        let (after, over) = one_round(rt, alloc, keepers, gate, terms);
        keepers = after;
        if let Some(ran) = over {
            return (keepers, ran);
        }
    }
    run_of(rt, alloc, keepers, gate, terms)
}

/// Runs the sites of these keepers once. What it came to, where no other run follows.
fn one_round<K: SiteKeeper + Send, G: Gate + Copy + Send, R: Threads + Wait + Clock + Sync>(
    rt: &R,
    alloc: Global,
    keepers: Vec<K>,
    gate: G,
    terms: RunTerms,
) -> (Vec<K>, Option<Result<Ran, Fault>>)
    requires count { (2 ≤ length keepers.items) × (length keepers.items ≤ 16) }
    requires turns { terms.turns ≤ 1000000 }
    requires shown { (rs : List Record) × AreShown K.shown keepers.items rs }
    ensures next { is_none result.1 ≡ true → GoesOn K.shown K.failed K.may terms keepers.items
        result.0.items }
    ensures answered { IfSome result.1 (λ came. IfOk came (λ ran.
        AnswersRun K.shown K.failed K.may terms keepers.items result.0.items ran.outcome ran.end
        × HasRested K.shown keepers.items result.0.items ran.end)) }
    ensures stored { All K.stored keepers.items → All K.stored result.0.items }
    ensures failed { IfSome result.1 (λ came. IfErr came (FailsRun K.shown K.may K.reopens
        G.gives_up terms.turns keepers.items result.0.items)) }
{
    let Ok(before) = traffic_of(alloc, keepers.as_slice()) else {
        return (keepers, Some(Err(Fault::NoMemory)));
    };
    let (after, came) = run_of(rt, alloc, keepers, gate, terms);
    match came {
        Ok(ran) => match is_to_go_on(alloc, before.as_slice(), after.as_slice(), &ran) {
            Ok(true) => (after, None),
            Ok(false) => (after, Some(Ok(ran))),
            Err(_) => (after, Some(Err(Fault::NoMemory))),
        },
        Err(fault) => (after, Some(Err(fault))),
    }
}

/// Whether another run follows one that left the keepers so: a recall is open, and something moved in it, before which
/// the sites had dealt with so much.
fn is_to_go_on<K: SiteKeeper>(
    alloc: Global,
    before: &[usize],
    keepers: &[K],
    ran: &Ran,
) -> Result<bool, AllocError>
    requires { leaves_open ran.now.end ≡ true → (rs : List Record) × AreShown K.shown keepers.now rs }
    ensures told { IfOk result (TellsWhether K.shown before.now keepers.now ran.now.end) }
    ensures untold { IfErr result (λ cause. leaves_open ran.now.end ≡ true) }
{
    if !leaves_open(ran) {
        return Ok(false);
    }
    let traffic = traffic_of(alloc, keepers)?;
    Ok(traffic.as_slice() != before)
}

/// Whether there was a run, and a recall is open after it.
fn leaves_open(ran: &Ran) -> bool
    ensures { result ≡ leaves_open ran.now.end }
{
    match &ran.end {
        Some(end) => end.unended,
        None => false,
    }
}

/// Of each site of keepers that are open, how many messages of other sites it has dealt with, and how many of its own
/// wait for a signal.
fn traffic_of<K: SiteKeeper>(alloc: Global, keepers: &[K]) -> Result<Vec<usize>, AllocError>
    requires { (rs : List Record) × AreShown K.shown keepers.now rs }
    ensures { IfOk result (λ traffic. HaveTraffic K.shown keepers.now traffic.items) }
{
    let records = open_records(alloc, keepers)?;
    traffic_in(alloc, records.as_slice())
}

/// The same of the sites of these records.
fn traffic_in(alloc: Global, records: &[&SiteState]) -> Result<Vec<usize>, AllocError>
    ensures { IfOk result (λ traffic. traffic.items ≡ flat_map traffic_of (records_at records.now)) }
{
    let mut traffic = Vec::new(alloc);
    for record in records {
        traffic.push(record.seen().len())?;
        traffic.push(record.outbox().len())?;
    }
    Ok(traffic)
}
