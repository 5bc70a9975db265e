//! Sites whose goods go round at random, and what they do late.
ghost use Rattle.std.specs.Prelude.{◌≡◌, ◌<◌, ◌≤◌, All, IfOk};
ghost use Rattle.site_threads.specs.Ends.{IsDesk, IsUnused};

use crate::running::fixtures::add;
use crate::seeded::chances::Chances;
use epc_core::Epc;
use event_json::{Sequence, SiteNo, Sites};
use keeper_core::{Keep, MemoryKeeper, SiteKeeper};
use site_core::{SiteInput, SiteState};
use site_threads::{Desk, DeskOut, Job};
use std::alloc::{AllocError, Global};
use std::hash::RandomState;
use std::sync::Wait;
use std::test::Fail;

/// So many sites, S0 on, with an address each.
fn sites(alloc: Global, count: u64) -> Result<Sites, Fail> {
    let mut sites = Sites::new(alloc);
    for place in 0..count {
        let name = format!(in alloc; "S{place}")?;
        let address = format!(in alloc; "s{place}")?;
        sites.add(name.as_str(), &[address.as_str()])?;
    }
    Ok(sites)
}

/// A document: x was shipped to two of so many sites, drawn at random.
fn shipment(alloc: Global, count: u64, chances: &mut Chances) -> Result<Sequence<u8>, AllocError>
    requires { 0 < count }
{
    let (first, second) = (chances.below(count), chances.below(count));
    let front =
        "{\"type\":\"ObjectEvent\",\"eventTime\":\"2024-05-01T08:00:00Z\",\"eventTimeZoneOffset\":\"+00:00\",\"action\":\"OBSERVE\",\"epcList\":[\"x\"],\"destinationList\":[";
    let mut text = String::from_str(alloc, front)?;
    let to = format!(in alloc;
        "{{\"destination\":\"s{first}\"}},{{\"destination\":\"s{second}\"}}"
    )?;
    text.push_str(to.as_str())?;
    text.push_str("]}")?;
    Ok(Sequence::from_vec(text.as_bytes().to_vec(alloc)?))
}

/// The keepers of so many sites, each of which has captured a shipment of x. The first and the last one have started a
/// recall of it.
pub fn keepers(
    alloc: Global,
    keys: RandomState,
    count: u64,
    chances: &mut Chances,
) -> Result<Vec<MemoryKeeper>, Fail>
    requires { 0 < count }
{
    let mut keepers = Vec::new(alloc);
    for place in 0..count {
        let Some(me) = SiteNo::of(place) else {
            return Err("no such site".into());
        };
        let sites = sites(alloc, count)?;
        if sites.len() <= me.number() {
            return Err("no such site".into());
        }
        let mut state = SiteState::new(alloc, keys, sites, me);
        state.apply(&SiteInput::Capture(shipment(alloc, count, chances)?))?;
        if place == 0 || place == count - 1 {
            state.apply(&SiteInput::Start(Epc::read(alloc, "x")?))?;
        }
        keepers.push(MemoryKeeper::new(state))?;
    }
    Ok(keepers)
}

/// Makes the next step of some of the sites a stop, which keeps the record before it or the one after it.
pub fn arm_some(keepers: &mut Vec<MemoryKeeper>, chances: &mut Chances) {
    for keeper in keepers.iter_mut() {
        match chances.below(4) {
            0 => keeper.arm(Keep::Old),
            1 => keeper.arm(Keep::New),
            _ => {}
        }
    }
}

/// Opens the sites that are closed.
pub fn opened(alloc: Global, keepers: Vec<MemoryKeeper>) -> Result<Vec<MemoryKeeper>, Fail> {
    let mut all = Vec::new(alloc);
    for keeper in keepers {
        match keeper.reopen() {
            Ok(keeper) => all.push(keeper)?,
            Err(_) => return Err("a keeper in memory isn't opened".into()),
        }
    }
    Ok(all)
}

/// What a site does late: nothing, or it captures a shipment of x, or starts a recall of it.
fn late_job(alloc: Global, count: u64, chances: &mut Chances) -> Result<Option<Job>, AllocError>
    requires { 0 < count }
{
    match chances.below(8) {
        0 => match Epc::read(alloc, "x") {
            Ok(item) => Ok(Some(Job::Start(item))),
            Err(_) => Err(AllocError),
        },
        1 | 2 | 3 => Ok(Some(Job::Capture(shipment(alloc, count, chances)?))),
        _ => Ok(None),
    }
}

/// A desk that would take one job more than what lies there, so that its site isn't done, and its other end. Nothing lies
/// there where nothing is done late.
fn late_desk(
    rt: &impl Wait,
    alloc: Global,
    count: u64,
    late: bool,
    chances: &mut Chances,
) -> Result<(Desk, DeskOut), AllocError>
    requires { 0 < count }
    ensures { IfOk result (λ r. IsUnused r.1) }
{
    let (mut desk, out) = Desk::new(alloc, 2)?;
    if late {
        if let Some(job) = late_job(alloc, count, chances)? {
            let _ = desk.put(rt, job);
        }
    }
    Ok((desk, out))
}

/// The desks of so many sites, at which something is done late or nothing.
pub fn desks(
    rt: &impl Wait,
    alloc: Global,
    count: u64,
    late: bool,
    chances: &mut Chances,
) -> Result<(Vec<Desk>, Vec<DeskOut>), AllocError>
    requires { (0 < count) × (count ≤ 16) }
    ensures { IfOk result (λ r. All IsUnused r.1.items) }
{
    let mut desks = Vec::with_capacity(alloc, 16)?;
    let mut outs = Vec::with_capacity(alloc, 16)?;
    for place in 0..count {
        let _ = place;
        let (desk, out) = late_desk(rt, alloc, count, late, chances)?;
        add(&mut desks, desk);
        add(&mut outs, out);
    }
    Ok((desks, outs))
}
