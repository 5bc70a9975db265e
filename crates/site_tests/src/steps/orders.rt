//! In which order messages are numbered, and frames may be sent.
use super::{FRESH, give, started, taken};
use crate::sites::At::{A, B, C};
use crate::sites::Given::{Made, Recalled, Shipped, Told};
use crate::sites::{At, fresh, item, message, number, recall};
use epc_core::Epc;
use frame_core::{FrameView, MsgId};
use site_core::{SiteState, emittable};
use std::alloc::Global;
use std::hash::RandomState;
use std::test::Fail;

/// Site A makes v and w of x, ships w to B and then v to C, and starts a recall of x. Then it is notified by C, and
/// then by B under a greater number.
fn recalls_both(alloc: Global, a: &mut SiteState) -> Result<bool, Fail> {
    let rows = [
        (Made('x', 'w'), FRESH),
        (Made('x', 'v'), FRESH),
        (Shipped('w', 'b'), FRESH),
        (Shipped('v', 'c'), FRESH),
        (Recalled('x'), started(3, 2)),
        (Told(C, 1, A, 'y'), taken(1, 0, false)),
        (Told(B, 2, A, 'y'), taken(0, 0, false)),
    ];
    give(alloc, a, &rows)
}

/// The message of A of this number.
fn told(count: u64, dest: At, item: &Epc) -> Option<FrameView<'_>> {
    Some(FrameView::Recall {
        id: message(A, count),
        dest: number(dest),
        recall: recall(),
        item,
    })
}

/// The signal of A for a message.
fn signal(id: MsgId) -> Option<FrameView<'static>> {
    Some(FrameView::Signal { id, by: number(A) })
}

/// The messages go by item, v before w, though B is before C and w was shipped first; then come the signals, by sender.
fn are_in_order(a: &SiteState, v: &Epc, w: &Epc) -> bool {
    let messages = emittable(a, 1) == told(1, C, v) && emittable(a, 2) == told(2, B, w);
    let signals = emittable(a, 3) == signal(message(B, 2))
        && emittable(a, 4) == signal(message(C, 1));
    messages && signals && emittable(a, 0) == None && emittable(a, 5) == None
}

#[test]
fn frames_go_by_number_and_then_by_sender(rt: HostRuntime) -> Result<(), Fail> {
    let keys = RandomState::new(&rt)?;
    let (v, w) = (item(rt.alloc(), 'v')?, item(rt.alloc(), 'w')?);
    let mut a = fresh(rt.alloc(), keys, A)?;
    assert!(rt; recalls_both(rt.alloc(), &mut a)?);
    assert!(rt; are_in_order(&a, &v, &w));
    Ok(())
}
