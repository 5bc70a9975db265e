//! Whether records are those of a world.

ghost use Rattle.std.specs.Prelude.{◌≡◌, ◌↔◌, ◌<◌, IsTrue, None, OnOk, IfErr, IfSome, List, length, map};
ghost use Rattle.site_core.specs.Records.{IsSound, Record};
ghost use Rattle.site_recovery.specs.FittingAt.{AreAllSites};
ghost use Rattle.world_core.specs.Faults.{AreOneWorld, Hinders, HindersKeepers, IsFirstOther, IsPlacedAmong, MakeAWorld};
ghost use Rattle.world_core.specs.Keepers.{AllShow};

use crate::faults::{ViewFault, WorldFault};
use crate::views::views;
use event_json::Sites;
use keeper_core::SiteKeeper;
use site_core::SiteState;
use site_recovery::{CheckFault, check_world};
use std::alloc::Global;

/// Whether the keepers are open, and their records make a world.
pub fn together<K: SiteKeeper>(alloc: Global, keepers: &[K]) -> Result<(), WorldFault>
    ensures ok { OnOk result ((records : List Record) × AllShow K.shown keepers.now records
        × MakeAWorld records) }
    ensures err { IfErr result (λ fault. HindersKeepers K.shown keepers.now fault) }
{
    match views(alloc, keepers) {
        Err(ViewFault::NoMemory) => Err(WorldFault::NoMemory),
        Err(ViewFault::Closed(place)) => Err(WorldFault::Closed(place)),
        Ok(states) => records_fit(alloc, &states),
    }
}

/// Whether the records make a world.
fn records_fit(alloc: Global, states: &[&SiteState]) -> Result<(), WorldFault>
    ensures ok { OnOk result (MakeAWorld (map (λ s. s.now) states.now)) }
    ensures err { IfErr result (λ fault. Hinders fault (map (λ s. s.now) states.now)) }
{
    if let Some(place) = first_other(states) {
        return Err(WorldFault::OtherSites(place));
    }
    match check_world(alloc, states) {
        Ok(()) => Ok(()),
        Err(CheckFault::NoMemory) => Err(WorldFault::NoMemory),
        Err(CheckFault::Misfit(misfit)) => Err(WorldFault::Misfit(misfit)),
    }
}

/// The first place with a record of other sites, or of another number, or without one.
fn first_other(states: &[&SiteState]) -> Option<u64>
    ensures none { result ≡ None → AreOneWorld (map (λ s. s.now) states.now) }
    ensures all { result ≡ None → AreAllSites (map (λ s. s.now) states.now) }
    ensures some { IfSome result (λ place. IsFirstOther (map (λ s. s.now) states.now) place) }
{
    let Some(first) = states.first() else {
        return Some(0);
    };
    let sites = first.sites();
    for (place, state) in states.iter().enumerate() {
        if !is_in_place(state, sites, place as u64) {
            return Some(place as u64);
        }
    }
    let number = states.len() as u64;
    if number < sites.len() {
        return Some(number);
    }
    None
}

/// Whether the record is of these sites, and has this number.
fn is_in_place(state: &SiteState, sites: &Sites, place: u64) -> bool
    ensures yes { IsTrue result ↔ IsPlacedAmong sites.now place state.now }
    ensures within { IsTrue result → place < length sites.now }
    ensures sound { IsTrue result → IsSound state.now }
{
    state.sites() == sites && state.me().number() == place
}
