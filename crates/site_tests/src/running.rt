//! Recalls of four sites, each in a thread of its own.
pub mod fixtures;
mod gates;

ghost use Rattle.std.specs.Prelude.{◌≤◌, All, List, IfOk};
ghost use Rattle.std.specs.List.{AllZip};
ghost use Rattle.site_threads.specs.Ends.{IsDesk};
ghost use Rattle.site_threads.specs.declared.lists.RunLog.{RunLog};
ghost use Rattle.site_tests.specs.Serving.{Settles};

use crate::running::fixtures::{desks, keepers};
use crate::running::gates::{in_lockstep, without_b_and_d};
use crate::turns::{has_ended, held_under};
use event_json::SiteNo;
use frame_core::RecallId;
use keeper_core::{MemoryKeeper, SiteKeeper};
use site_core::SiteState;
use site_recovery::{are_all_sites, check_world};
use site_threads::{
    Desk, Gate, GatherCause, GatherFault, Gathered, Receipt, RunLog, TurnCause, run_world,
};
use std::alloc::{AllocError, Global};
use std::hash::RandomState;
use std::sync::Wait;
use std::sync::atomic::AtomicU64;
use std::test::Fail;
use std::thread::Threads;
use std::time::Clock;

/// The records of the keepers that are open.
fn records(alloc: Global, keepers: &[MemoryKeeper]) -> Result<Vec<&SiteState>, AllocError> {
    let mut records = Vec::with_capacity(alloc, keepers.len())?;
    for keeper in keepers {
        if let Some(record) = keeper.view() {
            records.push(record)?;
        }
    }
    Ok(records)
}

/// How many pairs are quarantined under the first recall that the site of this place began, once it has ended.
fn ended_pairs(keepers: &[MemoryKeeper], place: u64) -> Option<usize> {
    let site = SiteNo::of(place)?;
    if !has_ended(keepers.get(place as usize)?.view()) {
        return None;
    }
    let mut pairs: usize = 0;
    for keeper in keepers {
        pairs = pairs.saturating_add(held_under(keeper.view(), RecallId { site, number: 1 }));
    }
    Some(pairs)
}

/// Whether the recalls of x and w have ended as they should: x is quarantined at each site, and w at D and at A.
fn are_ended(keepers: &[MemoryKeeper]) -> bool {
    ended_pairs(keepers, 0) == Some(4) && ended_pairs(keepers, 3) == Some(2)
}

/// Whether the records of four keepers are consistent.
fn fit(alloc: Global, keepers: &[MemoryKeeper]) -> bool {
    match records(alloc, keepers) {
        Ok(records) => {
            records.len() == 4 && are_all_sites(&records) && check_world(alloc, &records).is_ok()
        }
        Err(_) => false,
    }
}

/// The first receipt of B's desk.
fn receipt_of_b(rt: &impl Wait, desks: &mut Vec<Desk>) -> Option<Receipt>
    requires desks { (lists : List RunLog) × AllZip Settles desks.old.items lists }
    ensures desks { (lists : List RunLog) → AllZip Settles desks.old.items lists
        → AllZip Settles desks.new.items lists }
{
    if desks.len() < 2 {
        return None;
    }
    desks[1].receipt(rt)
}

/// Whether the receipt of B's capture is confirmed, and with another number is not.
fn is_confirmed(gathered: &Gathered<MemoryKeeper>, receipt: Option<Receipt>) -> bool {
    let Some(mut receipt) = receipt else {
        return false;
    };
    let confirmed = receipt.number > 0 && gathered.confirm(&receipt).is_ok();
    receipt.number = receipt.number.saturating_add(1);
    confirmed && gathered.confirm(&receipt).is_err()
}

/// Whether so many jobs of each desk stand in its site's list.
fn are_settled(desks: Vec<Desk>, lists: Vec<RunLog>, counts: &[u64]) -> bool
    requires { AllZip Settles desks.items lists.items }
{
    let mut lists = lists.into_iter();
    let mut counts = counts.iter();
    let mut same = true;
    for desk in desks {
        let Some(list) = lists.next() else {
            return false;
        };
        let settled = list.settle(desk);
        same = same && counts.next() == Some(&settled);
    }
    same && counts.next().is_none()
}

/// Whether each site made so many turns.
fn made(lists: &[RunLog], turns: u64) -> bool {
    lists.iter().all(|list| list.turns == turns)
}

/// What is wrong with a run that has an answer, of 2,000 turns while all desks are held.
fn wrong_in(
    rt: &impl Wait,
    alloc: Global,
    gathered: Gathered<MemoryKeeper>,
    mut desks: Vec<Desk>,
) -> Option<&'static str>
    requires { AllZip Settles desks.items gathered.lists.items }
{
    let receipt = receipt_of_b(rt, &mut desks);
    let confirmed = is_confirmed(&gathered, receipt);
    let Gathered { keepers, lists, .. } = gathered;
    let made = made(lists.as_slice(), 2_000);
    let settled = are_settled(desks, lists, &[2, 1, 1, 2]);
    if !are_ended(&keepers) {
        Some("the recalls")
    } else if !confirmed {
        Some("the receipt of B's capture")
    } else if !made {
        Some("the turns")
    } else if !settled {
        Some("the jobs in the lists")
    } else {
        None
    }
}

/// A run of the four sites, and their desks.
fn ran<G: Gate + Send, R: Threads + Wait + Clock + Sync>(
    rt: &R,
    alloc: Global,
    keys: RandomState,
    gates: Vec<G>,
    turns: u64,
) -> Result<
    (
        Result<Gathered<MemoryKeeper>, GatherFault<MemoryKeeper>>,
        Vec<Desk>,
    ),
    Fail,
>
    requires turns { turns ≤ 1000000 }
    ensures settles { IfOk result (λ r. IfOk r.0
        (λ gathered. AllZip Settles r.1.items gathered.lists.items)) }
    ensures desks { IfOk result (λ r. All IsDesk r.1.items) }
{
    let keepers = keepers(alloc, keys)?;
    let (desks, outs) = desks(rt, alloc)?;
    if keepers.len() != 4 || outs.len() != 4 || gates.len() != 4 {
        return Err("there aren't four of them".into());
    }
    Ok((run_world(rt, alloc, keepers, outs, gates, turns), desks))
}

#[test]
fn four_sites_in_lockstep_end_their_recalls(rt: HostRuntime) -> Result<(), Fail> {
    let keys = RandomState::new(&rt)?;
    let turns = [
        AtomicU64::new(0),
        AtomicU64::new(0),
        AtomicU64::new(0),
        AtomicU64::new(0),
    ];
    let gates = in_lockstep(rt.alloc(), &turns)?;
    let (run, desks) = ran(&rt, rt.alloc(), keys, gates, 2_000)?;
    let wrong = match run {
        Ok(gathered) => wrong_in(&rt, rt.alloc(), gathered, desks),
        Err(_) => Some("the run"),
    };
    assert_eq!(rt; wrong, None);
    Ok(())
}

/// The first receipt of B's desk, once the run has ended.
fn first_of_b(rt: &impl Wait, desks: Vec<Desk>) -> Option<Receipt>
    requires { All IsDesk desks.items }
{
    let mut desks = desks;
    if desks.len() < 2 {
        return None;
    }
    desks[1].receipt(rt)
}

/// Whether the list is of a site whose gate gave up in this turn.
fn gave_up_in(list: Option<&RunLog>, turn: u64) -> bool {
    match list {
        Some(list) => list.turns == turn && matches!(list.fault, Some(TurnCause::GaveUp)),
        None => false,
    }
}

/// Whether B is named, and the gates of B and D gave up, in their fourth and second turns.
fn names_b(fault: &GatherFault<MemoryKeeper>) -> bool {
    let lists = fault.lists.as_slice();
    let named = match fault.cause {
        GatherCause::GaveUp(site) => site.number() == 1,
        _ => false,
    };
    named && lists.len() == 4 && gave_up_in(lists.get(1), 4) && gave_up_in(lists.get(3), 2)
}

/// Whether the list of its site has the receipt's step.
fn is_listed(lists: &[RunLog], receipt: &Receipt) -> bool {
    match lists.get(receipt.site.number() as usize) {
        Some(list) => list.has(receipt),
        None => false,
    }
}

/// The sites that are left fit together.
#[test]
fn of_two_gates_that_give_up_the_least_site_is_named(rt: HostRuntime) -> Result<(), Fail> {
    let keys = RandomState::new(&rt)?;
    let (run, desks) = ran(&rt, rt.alloc(), keys, without_b_and_d(rt.alloc())?, 20)?;
    let right = match (run, first_of_b(&rt, desks)) {
        (Err(fault), Some(receipt)) => {
            names_b(&fault)
                && is_listed(fault.lists.as_slice(), &receipt)
                && fit(rt.alloc(), fault.keepers.as_slice())
        }
        _ => false,
    };
    assert!(rt; right);
    Ok(())
}
