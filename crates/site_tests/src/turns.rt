//! A recall of two sites, by turns of each with its own seat; and a desk.
mod fixtures;
mod refused;

ghost use Rattle.std.specs.Prelude.{◌≡◌, ◌≤◌, ◌+◌, [], ◌∷◌, IfOk, OnOk};
ghost use Rattle.wire_core.specs.Rule.{logs_from};
ghost use Rattle.wire_core.specs.Seats.{IsSeatOf};
ghost use Rattle.site_threads.specs.Running.{marks_in};
ghost use Rattle.site_threads.specs.Starting.{IsLastMarked};
ghost use Rattle.site_threads.specs.Ends.{IsDesk, IsOut};

use crate::turns::fixtures::{begun, both_ways, fresh, start};
use frame_core::RecallId;
use keeper_core::{MemoryKeeper, SiteKeeper};
use site_core::SiteState;
use site_recovery::{are_all_sites, check_world};
use site_threads::{Desk, DeskFault, DeskOut, FreeGate, Gate, Job, RunningSite, TurnReport};
use std::alloc::{AllocError, Global};
use std::hash::RandomState;
use std::sync::Wait;
use std::test::Fail;
use wire_core::{Seat, Wire};

/// The wire between two sites whose records are consistent, and a seat that holds both.
fn between(alloc: Global, first: &SiteState, second: &SiteState) -> Result<(Wire, Seat), Fail>
    ensures wire { IfOk result (λ r. IsSeatOf r.0 r.1 × (r.0.sites ≡ 2)
        × (r.1.logs ≡ logs_from 0 (first.now ∷ second.now ∷ []))) }
    ensures numbers { OnOk result ((first.now.engagement.me ≡ 0) × (second.now.engagement.me ≡ 1)) }
{
    let states = [first, second];
    if !are_all_sites(&states) {
        return Err("these aren't all sites".into());
    }
    check_world(alloc, &states)?;
    Ok(Wire::new(alloc, &states)?)
}

/// A turn: how many frames came, were lost, went, and had no memory for their copies.
#[derive(Clone, Copy)]
struct Turned {
    applied: u64,
    lost: u64,
    posted: u64,
    uncopied: u64,
}

/// Makes a turn.
fn turn_once<K: SiteKeeper, G: Gate>(site: &mut RunningSite<'_, K, G>, job: Option<Job>) -> Turned
    requires { marks_in site.old.seat.logs ≤ 1000 }
    ensures { marks_in site.new.seat.logs ≤ marks_in site.old.seat.logs + 18 }
{
    match site.turn(job) {
        Err(_) => Turned {
            applied: 0,
            lost: 0,
            posted: 0,
            uncopied: 0,
        },
        Ok(report) => {
            let TurnReport {
                applied,
                lost,
                posted,
                uncopied,
                ..
            } = report;
            Turned {
                applied,
                lost,
                posted,
                uncopied,
            }
        }
    }
}

/// A running site that takes its jobs from no desk.
fn begin<'w>(
    alloc: Global,
    wire: &'w Wire,
    seat: Seat,
    state: SiteState,
) -> Result<RunningSite<'w, MemoryKeeper, FreeGate>, AllocError>
    requires seat { IsSeatOf wire.now seat }
    requires first { IsLastMarked seat.logs state.engagement.me state × (marks_in seat.logs ≡ 0) }
    ensures { IfOk result (λ site. marks_in site.seat.logs ≡ 0) }
{
    let me = state.me();
    let out = DeskOut::none(alloc)?;
    let keeper = MemoryKeeper::new(state);
    Ok(RunningSite::new(alloc, wire, keeper, FreeGate, out, seat, me))
}

/// How many items the site holds under a recall.
pub fn held_under(state: Option<&SiteState>, recall: RecallId) -> usize {
    match state {
        Some(state) => match state.quarantine().under(recall) {
            Some(items) => items.len(),
            None => 0,
        },
        None => 0,
    }
}

/// Whether a recall of the site's own has ended.
pub fn has_ended(state: Option<&SiteState>) -> bool {
    let Some(state) = state else {
        return false;
    };
    for (_, own) in state.own_recalls() {
        if own.ended {
            return true;
        }
    }
    false
}

/// A turn of the one site, and then one of the other. Whether so many frames were taken and posted in each, and none
/// was lost or had no memory for its copy.
fn both_turn<K: SiteKeeper, G: Gate>(
    one: &mut RunningSite<'_, K, G>,
    two: &mut RunningSite<'_, K, G>,
    job: Option<Job>,
    came: (u64, u64),
    went: (u64, u64),
) -> bool
    requires { (marks_in one.old.seat.logs ≤ 900) × (marks_in two.old.seat.logs ≤ 900) }
    ensures { (marks_in one.new.seat.logs ≤ marks_in one.old.seat.logs + 18)
        × (marks_in two.new.seat.logs ≤ marks_in two.old.seat.logs + 18) }
{
    let first = turn_once(one, job);
    let second = turn_once(two, None);
    let all = (first.applied, second.applied) == came && (first.posted, second.posted) == went;
    let lost = first.lost > 0 || second.lost > 0;
    let uncopied = first.uncopied > 0 || second.uncopied > 0;
    all && !lost && !uncopied
}

/// How many messages of others the site has seen.
fn seen_by(state: Option<&SiteState>) -> usize {
    match state {
        Some(state) => state.seen().len(),
        None => 0,
    }
}

/// The first site announces two messages, one after another. The second one is engaged by the first of them, since it
/// has a message for the first site, and the first site signals that one before it posts its second message. Then its
/// first message, which still waits, is next again.
fn take_rounds<K: SiteKeeper, G: Gate>(
    alloc: Global,
    one: RunningSite<'_, K, G>,
    two: RunningSite<'_, K, G>,
) -> bool
    requires { (marks_in one.seat.logs ≡ 0) × (marks_in two.seat.logs ≡ 0) }
{
    let mut one = one;
    let mut two = two;
    let captured = turn_once(&mut one, both_ways(alloc, false));
    let other = turn_once(&mut two, both_ways(alloc, true));
    let quiet = captured.posted == 0 && other.posted == 0;
    let begun = both_turn(&mut one, &mut two, start(alloc), (0, 1), (1, 1));
    let signalled = both_turn(&mut one, &mut two, None, (1, 1), (1, 0));
    let next = both_turn(&mut one, &mut two, None, (0, 1), (1, 1));
    let seen = seen_by(two.view());
    let again = both_turn(&mut one, &mut two, None, (1, 1), (1, 1));
    let ended = both_turn(&mut one, &mut two, None, (1, 0), (0, 0));
    quiet && begun && signalled && next && seen == 2 && again && ended && has_ended(one.view())
}

/// Whether the site has captured the document and started the recall, and nothing came of that: its message waits.
fn is_begun(state: Option<&SiteState>) -> bool {
    let Some(state) = state else {
        return false;
    };
    let (events, waiting) = (state.captured().len(), state.outbox().len());
    let (next_message, next_recall) = (state.next_message(), state.next_recall());
    let untouched = state.seen().is_empty() && state.parents().is_empty();
    let numbered = next_message == 2 && next_recall == 2;
    events == 2 && waiting == 1 && numbered && untouched && !has_ended(Some(state))
}

/// Five turns of a site without a job, whose neighbour makes none. Whether its message is posted in the first, and no
/// frame in another one, since the first still lies there; and whether the site makes no step.
fn stands_beside<K: SiteKeeper, G: Gate>(one: RunningSite<'_, K, G>) -> bool
    requires { marks_in one.seat.logs ≡ 0 }
{
    let mut one = one;
    let first = turn_once(&mut one, None).posted == 1;
    let second = turn_once(&mut one, None).posted == 0;
    let third = turn_once(&mut one, None).posted == 0;
    let fourth = turn_once(&mut one, None).posted == 0;
    let fifth = turn_once(&mut one, None).posted == 0;
    let (keeper, _, list) = one.finish();
    let posts = first && second && third && fourth && fifth;
    posts && list.turns == 5 && list.entries.is_empty() && is_begun(keeper.view())
}

/// Makes the turns over a wire of their own.
fn by_rounds(alloc: Global, first: SiteState, second: SiteState) -> Result<bool, Fail> {
    let b = second.me();
    let (wire, seat) = between(alloc, &first, &second)?;
    let (mine, theirs) = wire.split(seat, b);
    let one = begin(alloc, &wire, mine, first)?;
    let two = begin(alloc, &wire, theirs, second)?;
    Ok(take_rounds(alloc, one, two))
}

/// Likewise, of the first site alone. The second one's seat is held.
fn by_one(alloc: Global, first: SiteState, second: SiteState) -> Result<bool, Fail> {
    let b = second.me();
    let (wire, seat) = between(alloc, &first, &second)?;
    let (mine, _theirs) = wire.split(seat, b);
    let one = begin(alloc, &wire, mine, first)?;
    Ok(stands_beside(one))
}

#[test]
fn a_frame_that_nobody_takes_is_posted_once(rt: HostRuntime) -> Result<(), Fail> {
    let keys = RandomState::new(&rt)?;
    let first = begun(rt.alloc(), keys)?;
    let second = fresh(rt.alloc(), keys, true)?;
    assert!(rt; by_one(rt.alloc(), first, second)?);
    Ok(())
}

#[test]
fn messages_are_posted_in_rounds(rt: HostRuntime) -> Result<(), Fail> {
    let keys = RandomState::new(&rt)?;
    let first = fresh(rt.alloc(), keys, false)?;
    let second = fresh(rt.alloc(), keys, true)?;
    assert!(rt; by_rounds(rt.alloc(), first, second)?);
    Ok(())
}

/// Whether a desk of one job takes one, and gives the second back.
fn takes_one(rt: &impl Wait, desk: &mut Desk, one: Option<Job>, two: Option<Job>) -> bool
    requires { IsDesk desk.old }
{
    let (Some(one), Some(two)) = (one, two) else {
        return false;
    };
    let first = matches!(desk.put(rt, one), Ok(1));
    let second = matches!(desk.put(rt, two), Err(DeskFault::Spent(_)));
    first && second
}

/// Whether an end that has no job yet doesn't count its desk as gone, and gives the job that comes late.
fn gives_late(rt: &impl Wait, desk: &mut Desk, out: &mut DeskOut, job: Option<Job>) -> bool
    requires { IsDesk desk.old × IsOut out.old }
{
    let early = out.next(rt).is_none() && !out.gone;
    let put = match job {
        Some(job) => desk.put(rt, job).is_ok(),
        None => false,
    };
    early && put && out.next(rt).is_some()
}

#[test]
fn a_job_may_come_late(rt: HostRuntime) -> Result<(), Fail> {
    let (mut desk, mut out) = Desk::new(rt.alloc(), 1)?;
    assert!(rt; gives_late(&rt, &mut desk, &mut out, start(rt.alloc())));
    Ok(())
}

#[test]
fn a_desk_of_one_job_is_spent(rt: HostRuntime) -> Result<(), Fail> {
    let (mut desk, _out) = Desk::new(rt.alloc(), 1)?;
    let (one, two) = (start(rt.alloc()), start(rt.alloc()));
    assert!(rt; takes_one(&rt, &mut desk, one, two));
    Ok(())
}
