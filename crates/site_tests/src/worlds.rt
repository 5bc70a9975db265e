//! Keepers that make no world of sites.
use crate::sites::At::{A, B, C};
use crate::sites::Given::Told;
use crate::sites::{At, Given, after, number};
use keeper_core::MemoryKeeper;
use site_recovery::Misfit;
use std::alloc::Global;
use std::hash::RandomState;
use std::test::Fail;
use world_core::{World, WorldFault};

/// Adds a keeper of a site that was given this.
fn add(
    alloc: Global,
    keys: RandomState,
    keepers: &mut Vec<MemoryKeeper>,
    me: At,
    given: &[Given],
) -> Result<(), Fail> {
    let state = after(alloc, keys, me, given)?;
    Ok(keepers.push(MemoryKeeper::new(state))?)
}

/// Whether these keepers make no world for this reason, and are given back.
fn are_refused(alloc: Global, keepers: Vec<MemoryKeeper>, wanted: WorldFault) -> bool {
    let count = keepers.len();
    match World::new(alloc, keepers) {
        Ok(_) => false,
        Err(refused) => refused.fault == wanted && refused.keepers.len() == count,
    }
}

/// Whether keepers of these sites, of which the second was given this, make no world for this reason.
fn is_refused(
    alloc: Global,
    keys: RandomState,
    sites: [At; 3],
    given: &[Given],
    wanted: WorldFault,
) -> Result<bool, Fail> {
    let [first, second, third] = sites;
    let mut keepers = Vec::new(alloc);
    add(alloc, keys, &mut keepers, first, &[])?;
    add(alloc, keys, &mut keepers, second, given)?;
    add(alloc, keys, &mut keepers, third, &[])?;
    Ok(are_refused(alloc, keepers, wanted))
}

/// Keepers of one site, keepers out of order, and one that was notified of a recall that A never began: the check names
/// what doesn't fit.
#[test]
fn keepers_that_make_no_world_are_handed_back(rt: HostRuntime) -> Result<(), Fail> {
    let keys = RandomState::new(&rt)?;
    let misfit = WorldFault::Misfit(Misfit {
        condition: 3,
        site: number(B),
    });
    let told = [Told(A, 1, B, 'x')];
    assert!(rt; is_refused(rt.alloc(), keys, [A, A, C], &[], WorldFault::OtherSites(1))?);
    assert!(rt; is_refused(rt.alloc(), keys, [B, A, C], &[], WorldFault::OtherSites(0))?);
    assert!(rt; is_refused(rt.alloc(), keys, [A, B, C], &told, misfit)?);
    Ok(())
}
