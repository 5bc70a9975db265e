//! The world of a script as it begins.

ghost use Rattle.std.specs.Prelude.{◌≡◌, ◌<◌, [], IfOk, length};
ghost use Rattle.script_core.specs.Beginning.{fresh_keeper, fresh_keepers};
ghost use Rattle.script_core.specs.State.{begun_world, fresh_sites};

use crate::running::Running;
use crate::worlds::MemoryWorld;
use event_json::{SiteNo, Sites};
use keeper_core::MemoryKeeper;
use recall_text::numbers::site_at;
use site_core::SiteState;
use std::alloc::{AllocError, Global};
use std::hash::RandomState;
use world_core::World;

/// The world of these sites, each of which is up. Nothing happened at them yet. Each numbers items by a hash with these
/// keys.
pub(crate) fn begin_world(
    alloc: Global,
    keys: RandomState,
    sites: Sites,
) -> Result<Running, AllocError>
    ensures { IfOk result (λ running. running ≡ begun_world sites) }
{
    let world = fresh_world(alloc, keys, &sites)?;
    let armed = vec![in alloc; None; sites.len() as usize]?;
    Ok(Running::new(sites, world, armed))
}

/// All sites, and no frame sent.
fn fresh_world(alloc: Global, keys: RandomState, sites: &Sites) -> Result<MemoryWorld, AllocError>
    ensures { IfOk result (λ world. world ≡ record { sites = fresh_sites sites.now; sent = [] }) }
{
    let keepers = fresh_keepers(alloc, keys, sites)?;
    match World::new(alloc, keepers) {
        Ok(world) => Ok(MemoryWorld::new(world)),
        // Only out of memory is left: the keepers are open, in order, and nothing happened at their sites.
        Err(_) => Err(AllocError),
    }
}

/// A keeper in memory for each site.
fn fresh_keepers(
    alloc: Global,
    keys: RandomState,
    sites: &Sites,
) -> Result<Vec<MemoryKeeper>, AllocError>
    ensures { IfOk result (λ keepers. keepers.items ≡ fresh_keepers sites.now) }
{
    let mut keepers = Vec::new(alloc);
    for number in 0..sites.len() {
        keepers.push(fresh_keeper(alloc, keys, sites, site_at(number))?)?;
    }
    Ok(keepers)
}

/// A keeper of a site at which nothing happened yet.
fn fresh_keeper(
    alloc: Global,
    keys: RandomState,
    sites: &Sites,
    site: SiteNo,
) -> Result<MemoryKeeper, AllocError>
    requires { site < length sites.now }
    ensures { IfOk result (λ keeper. keeper ≡ fresh_keeper sites.now site) }
{
    Ok(MemoryKeeper::new(SiteState::new(alloc, keys, sites.copy(alloc)?, site)))
}
