//! In which order recalls, sites and messages are told of, while a recall waits on either of two sites.
ghost use Rattle.site_recovery.specs.Checking.{records_at};
ghost use Rattle.site_recovery.specs.FittingAt.{AreAllSites};

use crate::sites::At::{A, B, C};
use crate::sites::Given::{Made, Recalled, Shipped, Told};
use crate::sites::{At, Given, after, message, number, recall};
use frame_core::RecallId;
use query_core::{RecallStatus, SiteStanding, WaitingMessage, recall_detail, recall_statuses};
use site_core::SiteState;
use site_recovery::are_all_sites;
use std::alloc::Global;
use std::hash::RandomState;
use std::test::Fail;

/// Whether the recall is this one.
fn is_recall(status: &RecallStatus, at: At, count: u64) -> bool {
    status.recall
        == RecallId {
            site: number(at),
            number: count,
        }
}

/// Whether the message is this one, and counts as told or not.
fn is_message(waiting: &WaitingMessage, at: At, count: u64, told: bool) -> bool {
    waiting.message == message(at, count) && waiting.told == told
}

/// Whether A's two recalls come before B's first.
fn are_by_site(statuses: &[RecallStatus]) -> bool {
    match statuses {
        [one, two, three] => is_recall(one, A, 1) && is_recall(two, A, 2) && is_recall(three, B, 1),
        _ => false,
    }
}

/// Whether A's two messages, of which B has taken the first, come before B's own.
fn wait_by_site(waiting: &[WaitingMessage]) -> bool {
    match waiting {
        [one, two, three] => {
            is_message(one, A, 1, true)
                && is_message(two, A, 2, false)
                && is_message(three, B, 1, false)
        }
        _ => false,
    }
}

/// Whether A comes before B.
fn stand_by_number(standings: &[SiteStanding]) -> bool {
    match standings {
        [one, two] => one.site == number(A) && two.site == number(B),
        _ => false,
    }
}

/// Whether the recalls are listed by site, and then by number, and so are the messages of the recall A#1 that wait.
fn are_in_order(alloc: Global, sites: &[&SiteState]) -> Result<bool, Fail>
    requires all { AreAllSites (records_at sites.now) }
{
    let statuses = recall_statuses(alloc, sites)?;
    let detail = recall_detail(alloc, sites, recall())?;
    Ok(
        are_by_site(&statuses)
            && stand_by_number(detail.sites.as_slice())
            && wait_by_site(detail.waiting.as_slice()),
    )
}

/// Site A made y of x and shipped both to B, and began a recall of x, with two messages, and one of y.
const OF_A: [Given; 5] = [
    Made('x', 'y'),
    Shipped('x', 'b'),
    Shipped('y', 'b'),
    Recalled('x'),
    Recalled('y'),
];

/// Site B shipped x to A, took A's message that x is recalled, so that it has one for A, and began a recall of x.
const OF_B: [Given; 3] = [Shipped('x', 'a'), Told(A, 1, B, 'x'), Recalled('x')];

/// Whether they are so of A, B and an empty C.
fn tell_in_order(alloc: Global, keys: RandomState) -> Result<bool, Fail> {
    let a = after(alloc, keys, A, &OF_A)?;
    let b = after(alloc, keys, B, &OF_B)?;
    let c = after(alloc, keys, C, &[])?;
    let sites = [&a, &b, &c];
    if !are_all_sites(&sites) {
        return Ok(false);
    }
    are_in_order(alloc, &sites)
}

#[test]
fn recalls_and_messages_go_by_site_and_then_by_number(rt: HostRuntime) -> Result<(), Fail> {
    let keys = RandomState::new(&rt)?;
    assert!(rt; tell_in_order(rt.alloc(), keys)?);
    Ok(())
}
