//! The records that keepers show, all together.

ghost use Rattle.std.specs.Prelude.{IfOk, IfErr, map};
ghost use Rattle.world_core.specs.Faults.{IfClosed};
ghost use Rattle.world_core.specs.Keepers.{AllShow, IsFirstClosed};

use crate::faults::ViewFault;
use keeper_core::SiteKeeper;
use site_core::SiteState;
use std::alloc::Global;

/// The record of each keeper.
pub fn views<K: SiteKeeper>(alloc: Global, keepers: &[K]) -> Result<Vec<&SiteState>, ViewFault>
    ensures ok { IfOk result (λ states. AllShow K.shown keepers.now
        (map (λ s. s.now) states.items)) }
    ensures closed { IfErr result (λ fault. IfClosed fault (IsFirstClosed K.shown keepers.now)) }
{
    let mut states = Vec::new(alloc);
    for (place, keeper) in keepers.iter().enumerate() {
        match keeper.view() {
            None => return Err(ViewFault::Closed(place as u64)),
            Some(state) => states.push(state)?,
        }
    }
    Ok(states)
}
