//! For each condition of the check of all records three sites that break it alone, at another site than A. The ninth is
//! broken only where the fourth or the sixth is, so the check never names it; 7 and 8 are of frames.

use crate::sites::At::{A, B, C};
use crate::sites::Given::{Made, Recalled, Shipped, Signalled, Told};
use crate::sites::{At, Given, after, joined, number};
use site_core::SiteState;
use site_recovery::{CheckFault, Misfit, are_all_sites, check_world};
use std::alloc::Global;
use std::hash::RandomState;
use std::test::Fail;

/// What A, B and C were given, one behind the other, and the condition that B breaks. Where two lists are B's, it
/// captured what it would of the first, and quarantined and sent what it would of the second, which isn't empty: it
/// has seen no message, and has no parents and no recalls of its own, and no steps lead there.
type Row<'a> = ([&'a [Given]; 4], u64);

/// Adds a site that was given this.
fn add(
    alloc: Global,
    keys: RandomState,
    sites: &mut Vec<SiteState>,
    me: At,
    given: &[Given],
) -> Result<(), Fail> {
    sites.push(after(alloc, keys, me, given)?)?;
    Ok(())
}

/// Adds B.
fn add_b(
    alloc: Global,
    keys: RandomState,
    sites: &mut Vec<SiteState>,
    captured: &[Given],
    steps: &[Given],
) -> Result<(), Fail> {
    if steps.is_empty() {
        return add(alloc, keys, sites, B, captured);
    }
    let one = after(alloc, keys, B, captured)?;
    let other = after(alloc, keys, B, steps)?;
    let next = (other.next_message(), other.next_recall());
    match joined(alloc, &one, &other, true, B, next)? {
        Some(state) => Ok(sites.push(state)?),
        None => Err("no record".into()),
    }
}

/// Adds A, B and C.
fn add_all(
    alloc: Global,
    keys: RandomState,
    sites: &mut Vec<SiteState>,
    given: [&[Given]; 4],
) -> Result<(), Fail> {
    let [a, captured, steps, c] = given;
    add(alloc, keys, sites, A, a)?;
    add_b(alloc, keys, sites, captured, steps)?;
    add(alloc, keys, sites, C, c)
}

/// Whether the check of these sites attributes this condition to B.
fn charges_b(alloc: Global, sites: &[SiteState], condition: u64) -> bool {
    let [a, b, c] = sites else {
        return false;
    };
    let states = [a, b, c];
    let misfit = Misfit {
        condition,
        site: number(B),
    };
    are_all_sites(&states) && check_world(alloc, &states) == Err(CheckFault::Misfit(misfit))
}

/// Whether it does for the sites of a row.
fn is_charged(alloc: Global, keys: RandomState, row: &Row) -> Result<bool, Fail> {
    let mut sites = Vec::new(alloc);
    add_all(alloc, keys, &mut sites, row.0)?;
    Ok(charges_b(alloc, &sites, row.1))
}

/// A made y of x, shipped it to B, and began to recall x.
const BEGUN: [Given; 3] = [Made('x', 'y'), Shipped('y', 'b'), Recalled('x')];

/// Then B's signal came, and the recall ended.
const ENDED: [Given; 4] = [
    Made('x', 'y'),
    Shipped('y', 'b'),
    Recalled('x'),
    Signalled(A, 1, B),
];

#[test]
fn each_condition_is_charged_alone(rt: HostRuntime) -> Result<(), Fail> {
    let keys = RandomState::new(&rt)?;
    let told = [Told(A, 1, B, 'y')];
    let shipped = [Shipped('y', 'a')];
    let back = [Shipped('y', 'a'), Told(A, 1, B, 'y')];
    let other_root = [Shipped('w', 'c'), Recalled('w'), Signalled(A, 1, C)];
    let taken = [
        Made('x', 'y'),
        Shipped('y', 'b'),
        Recalled('x'),
        Told(B, 1, A, 'y'),
    ];
    let rows: [Row; 7] = [
        // What is made of a quarantined item isn't quarantined.
        ([&ENDED, &[Made('y', 'z')], &told, &[]], 1),
        // B was notified of nothing, though A shipped y to it.
        ([&ENDED, &[], &[], &[]], 2),
        // B holds y, which w doesn't lead to.
        ([&other_root, &told, &[], &[Told(A, 1, C, 'w')]], 3),
        // A message waits at a site that isn't engaged.
        ([&BEGUN, &shipped, &back, &[]], 4),
        // A's message to B is gone, though it is B's parent.
        ([&ENDED, &back, &[], &[]], 5),
        // B and C are each other's parents.
        (
            [
                &BEGUN,
                &[Shipped('y', 'c'), Told(C, 1, B, 'y')],
                &[],
                &[Shipped('y', 'b'), Told(B, 1, C, 'y')],
            ],
            6,
        ),
        // A has seen a message that B hasn't numbered.
        ([&taken, &shipped, &[], &[]], 10),
    ];
    for row in &rows {
        assert!(rt; is_charged(rt.alloc(), keys, row)?);
    }
    Ok(())
}
