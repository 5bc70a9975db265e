//! A recall of two sites by turns, while one growth may be refused: `tests/hostile.sh` refuses each one in turn. Where that is
//! before the first turn the test fails for want of memory, and else it passes. With ample memory no turn is made again.

ghost use Rattle.std.specs.Prelude.{◌≡◌, ◌≤◌, ◌+◌};
ghost use Rattle.site_threads.specs.Running.{marks_in};

use crate::turns::fixtures::{capture, fresh, start};
use crate::turns::{begin, between, has_ended, held_under};
use frame_core::RecallId;
use keeper_core::SiteKeeper;
use site_core::SiteState;
use site_recovery::{are_all_sites, check_world};
use site_threads::{Gate, Job, RunningSite, TurnCause, TurnFault};
use std::alloc::{AllocError, Global};
use std::hash::RandomState;
use std::test::Fail;

/// Makes a turn, and makes it again where memory ran out. Whether one was made.
fn turned<K: SiteKeeper, G: Gate>(site: &mut RunningSite<'_, K, G>, job: Option<Job>) -> bool
    requires { marks_in site.old.seat.logs ≤ 900 }
    ensures { marks_in site.new.seat.logs ≤ marks_in site.old.seat.logs + 36 }
{
    match site.turn(job) {
        Ok(_) => true,
        Err(TurnFault { cause, job }) => {
            matches!(cause, TurnCause::NoMemory) && site.turn(job).is_ok()
        }
    }
}

/// A turn of the one site, and then one of the other. Whether both were made.
fn both_turned<K: SiteKeeper, G: Gate>(
    one: &mut RunningSite<'_, K, G>,
    two: &mut RunningSite<'_, K, G>,
) -> bool
    requires { (marks_in one.old.seat.logs ≤ 900) × (marks_in two.old.seat.logs ≤ 900) }
    ensures { (marks_in one.new.seat.logs ≤ marks_in one.old.seat.logs + 36)
        × (marks_in two.new.seat.logs ≤ marks_in two.old.seat.logs + 36) }
{
    let first = turned(one, None);
    let second = turned(two, None);
    first && second
}

/// Whether the records are consistent, and just the three pairs in reach are quarantined under the recall. `None` where
/// memory ran out.
fn is_exact(alloc: Global, first: &SiteState, second: &SiteState) -> Option<bool> {
    let states = [first, second];
    if !are_all_sites(&states) {
        return Some(false);
    }
    check_world(alloc, &states).ok()?;
    let recall = RecallId {
        site: first.me(),
        number: 1,
    };
    Some(held_under(Some(first), recall) == 2 && held_under(Some(second), recall) == 1)
}

/// Likewise, of records that may be closed, tried again where memory ran out.
fn are_exact(alloc: Global, first: Option<&SiteState>, second: Option<&SiteState>) -> bool {
    match (first, second) {
        (Some(first), Some(second)) => match is_exact(alloc, first, second) {
            None => is_exact(alloc, first, second) == Some(true),
            Some(exact) => exact,
        },
        _ => false,
    }
}

/// The first site captures and starts a recall, and three rounds of turns end it: in the first of them with ample memory,
/// and else a frame that was lost or not copied is sent again in the next.
fn ends<K: SiteKeeper, G: Gate>(
    alloc: Global,
    one: RunningSite<'_, K, G>,
    two: RunningSite<'_, K, G>,
    captured: Job,
    started: Job,
) -> bool
    requires { (marks_in one.seat.logs ≡ 0) × (marks_in two.seat.logs ≡ 0) }
{
    let mut one = one;
    let mut two = two;
    let captured = turned(&mut one, Some(captured));
    let started = turned(&mut one, Some(started));
    let first = both_turned(&mut two, &mut one);
    let second = both_turned(&mut two, &mut one);
    let third = both_turned(&mut two, &mut one);
    let made = captured && started && first && second && third;
    made && has_ended(one.view()) && are_exact(alloc, one.view(), two.view())
}

/// Makes the turns over a wire of their own.
fn by_refused(alloc: Global, first: SiteState, second: SiteState) -> Result<bool, Fail> {
    let captured = capture(alloc).ok_or(AllocError)?;
    let started = start(alloc).ok_or(AllocError)?;
    let b = second.me();
    let (wire, seat) = between(alloc, &first, &second)?;
    let (mine, theirs) = wire.split(seat, b);
    let one = begin(alloc, &wire, mine, first)?;
    let two = begin(alloc, &wire, theirs, second)?;
    Ok(ends(alloc, one, two, captured, started))
}

#[test]
fn a_recall_ends_where_growth_is_refused(rt: HostRuntime) -> Result<(), Fail> {
    let keys = RandomState::new(&rt)?;
    let first = fresh(rt.alloc(), keys, false)?;
    let second = fresh(rt.alloc(), keys, true)?;
    assert!(rt; by_refused(rt.alloc(), first, second)?);
    Ok(())
}
