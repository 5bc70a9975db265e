//! Four sites, A to D, and what lies at their desks.
ghost use Rattle.std.specs.Prelude.{◌≡◌, ◌<◌, ◌≤◌, [], ◌∷◌, ◌++◌, All, IfOk, IfSome, vec_len, vec_capacity};
ghost use Rattle.std.specs.List.{AllZip};
ghost use Rattle.site_threads.specs.Ends.{IsDesk, IsUnused, SameDesk};
ghost use Rattle.site_tests.specs.Serving.{Serves};

use epc_core::Epc;
use event_json::{Sequence, SiteNo, Sites};
use keeper_core::MemoryKeeper;
use site_core::SiteState;
use site_threads::{Desk, DeskOut, Job};
use std::alloc::{AllocError, Global};
use std::hash::RandomState;
use std::sync::Wait;
use std::test::Fail;

/// What A captures: x was shipped to B, and to C.
const TO_B_AND_C: &str =
    "{\"type\":\"EPCISDocument\",\"epcisBody\":{\"eventList\":[{\"type\":\"ObjectEvent\",\"eventTime\":\"2024-05-01T08:00:00Z\",\"eventTimeZoneOffset\":\"+00:00\",\"action\":\"OBSERVE\",\"epcList\":[\"x\"],\"destinationList\":[{\"type\":\"location\",\"destination\":\"b\"}]},{\"type\":\"ObjectEvent\",\"eventTime\":\"2024-05-01T08:00:00Z\",\"eventTimeZoneOffset\":\"+00:00\",\"action\":\"OBSERVE\",\"epcList\":[\"x\"],\"destinationList\":[{\"type\":\"location\",\"destination\":\"c\"}]}]}}";

/// What B and C capture: x was shipped to D.
const TO_D: &str =
    "{\"type\":\"ObjectEvent\",\"eventTime\":\"2024-05-01T08:00:00Z\",\"eventTimeZoneOffset\":\"+00:00\",\"action\":\"OBSERVE\",\"epcList\":[\"x\"],\"destinationList\":[{\"type\":\"location\",\"destination\":\"d\"}]}";

/// What D captures: w was shipped to A.
const TO_A: &str =
    "{\"type\":\"ObjectEvent\",\"eventTime\":\"2024-05-01T08:00:00Z\",\"eventTimeZoneOffset\":\"+00:00\",\"action\":\"OBSERVE\",\"epcList\":[\"w\"],\"destinationList\":[{\"type\":\"location\",\"destination\":\"a\"}]}";

/// The site of this place, which has captured nothing.
fn fresh(alloc: Global, keys: RandomState, place: u64) -> Result<SiteState, Fail> {
    let mut sites = Sites::new(alloc);
    for (name, address) in [("A", "a"), ("B", "b"), ("C", "c"), ("D", "d")] {
        sites.add(name, &[address])?;
    }
    match SiteNo::of(place) {
        Some(me) if me.number() < sites.len() => Ok(SiteState::new(alloc, keys, sites, me)),
        _ => Err("no such site".into()),
    }
}

/// The keepers of the four sites.
pub fn keepers(alloc: Global, keys: RandomState) -> Result<Vec<MemoryKeeper>, Fail> {
    let mut keepers = Vec::with_capacity(alloc, 4)?;
    for place in 0..4 {
        keepers.push(MemoryKeeper::new(fresh(alloc, keys, place)?))?;
    }
    Ok(keepers)
}

/// The document that a site captures, and the item that it starts a recall of.
fn jobs_of(place: usize) -> (&'static str, Option<&'static str>) {
    match place {
        0 => (TO_B_AND_C, Some("x")),
        3 => (TO_A, Some("w")),
        _ => (TO_D, None),
    }
}

/// Puts the jobs of a site at its desk. Whether all were put.
fn put_jobs(rt: &impl Wait, alloc: Global, desk: &mut Desk, place: usize) -> bool
    requires { IsDesk desk.old }
    ensures { IsDesk desk.new × SameDesk desk.old desk.new }
{
    let (document, item) = jobs_of(place);
    let Ok(bytes) = document.as_bytes().to_vec(alloc) else {
        return false;
    };
    let captured = desk.put(rt, Job::Capture(Sequence::from_vec(bytes)));
    match item {
        None => captured.is_ok(),
        Some(item) => match Epc::read(alloc, item) {
            Ok(item) => desk.put(rt, Job::Start(item)).is_ok() && captured.is_ok(),
            Err(_) => false,
        },
    }
}

/// A desk at which the jobs of a site were put, and its other end.
fn desk_of(rt: &impl Wait, alloc: Global, place: usize) -> Option<(Desk, DeskOut)>
    ensures { IfSome result (λ r. Serves r.0 r.1 × IsUnused r.1) }
{
    let Ok((mut desk, out)) = Desk::new(alloc, 2) else {
        return None;
    };
    if put_jobs(rt, alloc, &mut desk, place) {
        Some((desk, out))
    } else {
        None
    }
}

/// Adds an item for which there is room.
pub fn add<T: Drop>(items: &mut Vec<T>, item: T)
    requires { vec_len items.old < vec_capacity items.old }
    ensures items { items.new.items ≡ items.old.items ++ item ∷ [] }
    ensures room { vec_capacity items.old ≤ vec_capacity items.new }
{
    let _ = items.push(item);
}

/// The desks of the four sites, with their jobs, and the other ends. Fewer where there was no memory for one.
pub fn desks(rt: &impl Wait, alloc: Global) -> Result<(Vec<Desk>, Vec<DeskOut>), AllocError>
    ensures { IfOk result (λ r. AllZip Serves r.0.items r.1.items × All IsUnused r.1.items) }
{
    let mut desks = Vec::with_capacity(alloc, 4)?;
    let mut outs = Vec::with_capacity(alloc, 4)?;
    for place in 0..4 {
        let Some((desk, out)) = desk_of(rt, alloc, place) else {
            break;
        };
        add(&mut desks, desk);
        add(&mut outs, out);
    }
    Ok((desks, outs))
}
