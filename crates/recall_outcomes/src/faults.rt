//! Why a command on the sites' files ended without an outcome.

ghost use Rattle.std.specs.Prelude.{◌≡◌};

use std::alloc::{AllocError, AllocFailed};

/// Why a command on the sites' files ended without an outcome.
#[derive(Clone, Copy, Debug, Drop, PartialEq, Eq)]
pub enum Fault {
    /// Memory ran out.
    NoMemory,
    /// A file is missing or can't be read.
    Read,
    /// A file or the standard output can't be written.
    Write,
    /// The folder's list of sites lists fewer than two, or has a line that is refused.
    BadSites,
    /// A site's file has another list of sites than the folder.
    OtherSites,
    /// A site's file isn't one.
    NotAStore,
    /// A site's file is of another version.
    Version,
    /// A site's file is another site's.
    OtherSite,
    /// A row of a site's file stands in no record's rows.
    BadRow,
    /// The disk failed.
    Device,
    /// The database refused for a cause of its own.
    Store,
    /// A site is closed.
    Closed,
    /// A site was closed in a run, and wasn't opened again.
    SiteLost,
    /// The gate of a site gave up.
    GaveUp,
}

impl From<AllocError> for Fault {
    ghost use Rattle.recall_outcomes.specs.declared.faults.Fault.TheVariants.{NoMemory};

    ghost from_gives = { λ _ fault. fault ≡ NoMemory };

    fn from(_: AllocError) -> Fault {
        Fault::NoMemory
    }
}

impl<T: Drop> From<AllocFailed<T>> for Fault {
    ghost use Rattle.recall_outcomes.specs.declared.faults.Fault.TheVariants.{NoMemory};

    ghost from_gives = { λ _ fault. fault ≡ NoMemory };

    fn from(_: AllocFailed<T>) -> Fault {
        Fault::NoMemory
    }
}
