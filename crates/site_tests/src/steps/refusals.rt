//! Frames that no site sends.
use super::Want::{Done, NotMine};
use super::{FRESH, give, started};
use crate::sites::At::{A, B};
use crate::sites::Given::{Made, Recalled, Shipped, Signalled, Told};
use crate::sites::fresh;
use site_core::{Effects, SiteState};
use std::alloc::Global;
use std::hash::RandomState;
use std::test::Fail;

/// The last number of a message.
const LAST: u64 = 1 << 62;

/// Site A makes y of x, ships y to B, and starts a recall of x. Not for A are a message for B, one of A itself, a
/// signal by A, and numbers below the first and past the last.
fn refuses(alloc: Global, a: &mut SiteState) -> Result<bool, Fail> {
    let rows = [
        (Made('x', 'y'), FRESH),
        (Shipped('y', 'b'), FRESH),
        (Recalled('x'), started(2, 1)),
        (Told(A, 1, B, 'y'), NotMine),
        (Signalled(A, 1, A), NotMine),
        (Told(A, 1, A, 'y'), NotMine),
        (Told(B, LAST + 1, A, 'y'), NotMine),
        (Told(B, 0, A, 'y'), NotMine),
        (Signalled(A, 0, B), NotMine),
        (Signalled(A, LAST + 1, B), NotMine),
        (Signalled(A, LAST, B), Done(Effects::Stale)),
        (Signalled(A, 2, A), Done(Effects::Stale)),
    ];
    give(alloc, a, &rows)
}

#[test]
fn frames_of_others_are_refused(rt: HostRuntime) -> Result<(), Fail> {
    let keys = RandomState::new(&rt)?;
    let mut a = fresh(rt.alloc(), keys, A)?;
    assert!(rt; refuses(rt.alloc(), &mut a)?);
    Ok(())
}
