//! Why a keeper's call has no effects.
use site_core::Refusal;
use thiserror::Error;

/// Which record a stop leaves.
#[derive(Clone, Copy, Debug, PartialEq, Eq)]
pub enum Keep {
    /// The one before the input.
    Old,
    /// The one after it, or the one before where the input is refused.
    New,
}

/// Why an input had no effects that were reported.
#[derive(Debug, Drop, PartialEq, Eq, Error)]
pub enum KeepFault {
    /// Memory ran out. Nothing changed, and the keeper isn't closed by it.
    #[error("memory ran out")]
    NoMemory,
    /// The step refused the input, for another reason than memory. Nothing changed.
    #[error("{0}")]
    Refused(Refusal),
    /// The device failed. The keeper is closed, with the record before the input or the one after it.
    #[error("the device failed")]
    Device,
    /// The keeper is closed. Nothing changed.
    #[error("the keeper is closed")]
    Closed,
    /// The store refused for a cause of its own. The keeper is closed, as after a failure of the device.
    #[error("the store refused")]
    Store,
}

impl From<Refusal> for KeepFault {
    ghost use Rattle.std.specs.Prelude.{◌≡◌};
    ghost use Rattle.keeper_core.specs.Keeping.{fault_of};

    ghost from_gives = { λ refusal fault. fault ≡ fault_of refusal };

    fn from(refusal: Refusal) -> KeepFault {
        match refusal {
            Refusal::NoMemory => KeepFault::NoMemory,
            refusal => KeepFault::Refused(refusal),
        }
    }
}

/// A keeper that could not be opened, as closed as it was.
#[derive(Debug, Drop, Error)]
#[error("{fault}")]
pub struct Unopened<K> {
    /// It may be opened in no other record than before.
    pub keeper: K,
    /// Why: `NoMemory`, `Device` or `Store`.
    pub fault: KeepFault,
}
