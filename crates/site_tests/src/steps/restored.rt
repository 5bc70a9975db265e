//! Records of parts that come from elsewhere, to which no run leads, and parts that make no record.
use super::Want::NumbersSpent;
use super::{Row, gives, started, taken};
use crate::sites::At::{A, B};
use crate::sites::Given::{Recalled, Shipped, Signalled, Told};
use crate::sites::{At, Given, after, joined};
use frame_core::LAST_NUMBER;
use std::alloc::Global;
use std::hash::RandomState;
use std::test::Fail;

/// What a record has: of which site it is, the events, own recalls and messages of A after these steps, an empty
/// quarantine, and the numbers that come next, of a message and of a recall.
type Kept<'a> = (At, &'a [Given], (u64, u64));

/// A number that no message and no recall can have.
const PAST: u64 = LAST_NUMBER + 1;

/// Whether a site with such a record gives this answer; none where there is no such record.
fn answers(alloc: Global, keys: RandomState, kept: Kept, row: Row) -> Result<Option<bool>, Fail> {
    let (me, steps, next) = kept;
    let a = after(alloc, keys, A, steps)?;
    match joined(alloc, &a, &a, false, me, next)? {
        Some(mut state) => Ok(Some(gives(alloc, &mut state, row)?)),
        None => Ok(None),
    }
}

#[test]
fn records_to_which_no_run_leads_follow_the_rules(rt: HostRuntime) -> Result<(), Fail> {
    let keys = RandomState::new(&rt)?;
    let (begins, told) = (Recalled('y'), Told(B, 1, A, 'y'));
    let shipped = [Shipped('y', 'b')];
    let begun = [Shipped('y', 'b'), Recalled('y')];
    let ended = [Shipped('y', 'b'), Recalled('y'), Signalled(A, 1, B)];
    let (last, none, no_recall) = ((LAST_NUMBER, 1), (PAST, 1), (1, PAST));
    let rows: [(Kept, Row, Option<bool>); 8] = [
        // The last number of a message, and none; none of a recall.
        ((A, &shipped, last), (begins, started(1, 1)), Some(true)),
        ((A, &shipped, none), (begins, NumbersSpent), Some(true)),
        ((A, &shipped, no_recall), (begins, NumbersSpent), Some(true)),
        ((A, &shipped, last), (told, taken(1, 1, true)), Some(true)),
        ((A, &shipped, none), (told, NumbersSpent), Some(true)),
        // It is notified of its own recall: it owes nothing while that continues, and is engaged once it has ended.
        ((A, &begun, (2, 2)), (told, taken(1, 1, false)), Some(true)),
        ((A, &ended, (2, 2)), (told, taken(1, 1, true)), Some(true)),
        // What another site keeps makes no record of this one.
        ((B, &shipped, (1, 1)), (begins, started(1, 1)), None),
    ];
    for (kept, row, wanted) in rows {
        assert!(rt; answers(rt.alloc(), keys, kept, row)? == wanted);
    }
    Ok(())
}
