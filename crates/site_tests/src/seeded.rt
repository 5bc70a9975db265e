//! Runs of two to sixteen sites in threads that go on one at a time, in a random order by a seed, while sites stop. A
//! seed gives the same run each time, turn by turn; [`SEEDS`] says how many are tried, and more are tried by hand.
mod chances;
mod gates;
mod worlds;

ghost use Rattle.std.specs.Prelude.{◌≤◌, ◌<◌};

use crate::seeded::chances::Chances;
use crate::seeded::gates::{drawn, gates};
use crate::seeded::worlds::{arm_some, desks, keepers, opened};
use event_json::SiteNo;
use frame_core::RecallId;
use keeper_core::{MemoryKeeper, SiteKeeper};
use site_core::SiteState;
use site_recovery::{are_all_sites, check_world};
use site_threads::{GatherCause, GatherFault, RunLog, run_world};
use std::alloc::{AllocError, Global};
use std::hash::RandomState;
use std::sync::Wait;
use std::sync::atomic::AtomicU64;
use std::test::Fail;
use std::thread::Threads;
use std::time::Clock;

/// How many seeds are tried, from 0 on.
const SEEDS: u64 = 20;

/// How many runs in which sites stop a seed makes, and how many turns each has.
const RUNS: u64 = 8;

const TURNS: u64 = 3;

/// How many turns a run of so many sites has: more in the three in which nothing stops, and nothing is done late.
fn turns_of(run: u64, count: u64) -> u64
    requires { count ≤ 16 }
    ensures { result ≤ 1000 }
{
    if run < RUNS { TURNS } else { 2 * count + 10 }
}

/// How many sites a seed has: often few, and now and then all sixteen.
fn count_of(seed: u64) -> u64
    ensures { (2 ≤ result) × (result ≤ 16) }
{
    if seed % 20 == 19 { 16 } else { 2 + seed % 7 }
}

/// The records of the keepers.
fn records(alloc: Global, keepers: &[MemoryKeeper]) -> Result<Vec<&SiteState>, AllocError> {
    let mut records = Vec::new(alloc);
    for keeper in keepers {
        if let Some(record) = keeper.view() {
            records.push(record)?;
        }
    }
    Ok(records)
}

/// How many steps of each site's list there are, as one number; none where a site made other turns than it should.
fn steps_of(lists: &[RunLog], turns: u64) -> Option<u64> {
    let mut all = 0u64;
    for list in lists {
        if list.turns != turns {
            return None;
        }
        all = all.wrapping_mul(31).wrapping_add(list.entries.len() as u64);
    }
    Some(all)
}

/// A run of the sites, in a random order of their turns, in which sites capture and start late or not. The keepers, all
/// open, and the steps that were made.
fn segment<R: Threads + Wait + Clock + Sync>(
    rt: &R,
    alloc: Global,
    keepers: Vec<MemoryKeeper>,
    chances: &mut Chances,
    turns: u64,
    late: bool,
) -> Result<(Vec<MemoryKeeper>, u64), Fail>
    requires { turns ≤ 1000 }
{
    let count = keepers.len() as u64;
    if count < 2 || 16 < count {
        return Err("too few sites, or too many".into());
    }
    let (_desks, outs) = desks(rt, alloc, count, late, chances)?;
    let order = drawn(alloc, count, turns, chances)?;
    let place = AtomicU64::new(0);
    let gates = gates(alloc, order.as_slice(), &place, count, turns)?;
    if outs.len() as u64 != count || gates.len() as u64 != count {
        return Err("there aren't as many ends as sites".into());
    }
    match run_world(rt, alloc, keepers, outs, gates, turns + 1) {
        Ok(_) => Err("a gate didn't give up after its turns".into()),
        Err(
            GatherFault {
                keepers,
                lists,
                cause,
            },
        ) => {
            let steps = steps_of(lists.as_slice(), turns + 1);
            match (cause, steps) {
                (GatherCause::GaveUp(_), Some(steps)) => Ok((opened(alloc, keepers)?, steps)),
                _ => Err("a site didn't make its turns".into()),
            }
        }
    }
}

/// The recalls that have ended, where the records are consistent: then each of them has quarantined just what its root
/// reaches, as the law `an_end_is_exact` says.
fn ended_in(alloc: Global, keepers: &[MemoryKeeper]) -> Result<Vec<RecallId>, Fail> {
    let records = records(alloc, keepers)?;
    if !are_all_sites(&records) {
        return Err("these aren't all sites".into());
    }
    check_world(alloc, &records)?;
    let mut ended = Vec::new(alloc);
    for place in 0..keepers.len() {
        let Some(site) = SiteNo::of(place as u64) else {
            return Err("no such site".into());
        };
        push_ended(&records, site, &mut ended)?;
    }
    Ok(ended)
}

/// Adds those that a site began.
fn push_ended(records: &[&SiteState], site: SiteNo, ended: &mut Vec<RecallId>) -> Result<(), Fail> {
    let Some(record) = records.get(site.number() as usize) else {
        return Err("no such record".into());
    };
    for (number, own) in record.own_recalls() {
        if own.ended {
            ended.push(RecallId {
                site,
                number: *number,
            })?;
        }
    }
    Ok(())
}

/// Whether all of these are among those.
fn are_among(some: &[RecallId], all: &[RecallId]) -> bool {
    some.iter().all(|one| all.contains(one))
}

/// Whether each recall that a site began has ended.
fn all_ended(keepers: &[MemoryKeeper]) -> bool {
    for keeper in keepers {
        if let Some(record) = keeper.view() {
            for (_, own) in record.own_recalls() {
                if !own.ended {
                    return false;
                }
            }
        }
    }
    true
}

/// The runs of a seed, behind each of which all is looked at: so many in which sites stop, and three in which none
/// does, after which each recall has ended. The steps of all runs, as one number.
fn tried<R: Threads + Wait + Clock + Sync>(
    rt: &R,
    alloc: Global,
    keys: RandomState,
    seed: u64,
) -> Result<u64, Fail> {
    let count = count_of(seed);
    let mut chances = Chances::new(seed);
    let mut sites = keepers(alloc, keys, count, &mut chances)?;
    let mut ended = Vec::new(alloc);
    let mut all = 0u64;
    for run in 0..RUNS + 3 {
        let turns = turns_of(run, count);
        if run < RUNS {
            arm_some(&mut sites, &mut chances);
        }
        let (after, steps) = segment(rt, alloc, sites, &mut chances, turns, run < RUNS)?;
        sites = after;
        all = all.wrapping_mul(37).wrapping_add(steps);
        let now = ended_in(alloc, &sites)?;
        if !are_among(&ended, &now) {
            return Err("an ended recall is open again".into());
        }
        ended = now;
    }
    if !all_ended(&sites) {
        return Err("a recall is open after three runs in which nothing stopped".into());
    }
    Ok(all)
}

#[test]
fn runs_in_a_random_order_end_as_they_should(rt: HostRuntime) -> Result<(), Fail> {
    let keys = RandomState::new(&rt)?;
    for seed in 0..SEEDS {
        tried(&rt, rt.alloc(), keys, seed)?;
    }
    Ok(())
}

#[test]
fn a_seed_makes_the_same_run_again(rt: HostRuntime) -> Result<(), Fail> {
    let first = RandomState::new(&rt)?;
    let second = RandomState::new(&rt)?;
    let once = tried(&rt, rt.alloc(), first, SEEDS)?;
    let again = tried(&rt, rt.alloc(), second, SEEDS)?;
    assert_eq!(rt; once, again);
    Ok(())
}
