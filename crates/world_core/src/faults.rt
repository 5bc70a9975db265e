//! Why records aren't shown, and why keepers make no world.
ghost use Rattle.std.specs.Prelude.{◌≡◌};
ghost use Rattle.world_core.specs.declared.faults.ViewFault.TheVariants.{NoMemory};

use site_recovery::Misfit;
use std::alloc::{AllocError, AllocFailed};
use thiserror::Error;

/// Why not all records are shown.
#[derive(Clone, Copy, Debug, PartialEq, Eq, Error)]
pub enum ViewFault {
    /// Memory ran out.
    #[error("memory ran out")]
    NoMemory,
    /// This site is closed, and no site before it.
    #[error("site {0} is closed")]
    Closed(u64),
}

impl From<AllocError> for ViewFault {
    ghost from_gives = { λ _ e. e ≡ NoMemory };

    fn from(_: AllocError) -> ViewFault {
        ViewFault::NoMemory
    }
}

impl<T: Drop> From<AllocFailed<T>> for ViewFault {
    ghost from_gives = { λ _ e. e ≡ NoMemory };

    fn from(_: AllocFailed<T>) -> ViewFault {
        ViewFault::NoMemory
    }
}

/// Why keepers make no world.
#[derive(Clone, Copy, Debug, PartialEq, Eq, Error)]
pub enum WorldFault {
    /// Memory ran out.
    #[error("memory ran out")]
    NoMemory,
    /// The keeper at this place, from 0, has another list of sites than the first one or another number than its
    /// place, or is missing. 0 where there are no keepers.
    #[error("the keeper at {0} is of other sites")]
    OtherSites(u64),
    /// The records aren't consistent while no frame is in flight: the least condition that fails, and the least
    /// site that it is attributed to.
    #[error("the sites don't fit together")]
    Misfit(Misfit),
    /// The keeper at this place, from 0, is closed, and none before it.
    #[error("the keeper at {0} is closed")]
    Closed(u64),
}

/// Keepers that make no world.
#[derive(Debug, Drop, Error)]
#[error("{fault}")]
pub struct NotAWorld<K> {
    /// As they were.
    pub keepers: Vec<K>,
    /// Why.
    pub fault: WorldFault,
}
