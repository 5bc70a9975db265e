//! Parts of what a site keeps, and of what it returns, which no step makes or copies so.
use crate::sites::{item, recall};
use epc_core::Epc;
use site_core::{Quarantine, Refusal};
use std::alloc::{AllocError, Global};
use std::test::Fail;

/// Whether both items come under the recall.
fn holds_both(alloc: Global, items: &[Epc; 2]) -> Result<bool, AllocError> {
    let mut quarantine = Quarantine::new(alloc);
    quarantine.hold_all(recall(), items)?;
    let [x, y] = items;
    Ok(quarantine.holds(recall(), x) && quarantine.holds(recall(), y))
}

#[test]
fn items_are_held_together(rt: HostRuntime) -> Result<(), Fail> {
    let items = [item(rt.alloc(), 'x')?, item(rt.alloc(), 'y')?];
    assert!(rt; holds_both(rt.alloc(), &items)?);
    Ok(())
}

#[test]
fn a_refusal_is_copied(rt: HostRuntime) -> Result<(), Fail> {
    let refusal = Refusal::Blocked {
        recall: recall(),
        item: item(rt.alloc(), 'y')?,
        event: 1,
    };
    assert!(rt; refusal.copy(rt.alloc())? == refusal);
    Ok(())
}
