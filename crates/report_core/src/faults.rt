//! Why a recall has no report and no audit, and an item no trace.
ghost use Rattle.std.specs.Prelude.{◌≡◌};
ghost use Rattle.report_core.specs.declared.faults.ReportFault.TheVariants.{NoMemory};
ghost use Rattle.report_core.specs.declared.faults.TraceFault.TheVariants as untraced;

use std::alloc::AllocError;
use thiserror::Error;

/// Why a recall has no report and no audit.
#[derive(Clone, Copy, Debug, Drop, PartialEq, Eq, Error)]
pub enum ReportFault {
    /// Memory ran out.
    #[error("memory ran out")]
    NoMemory,
    /// No site's record has the recall as one that the site began.
    #[error("no site began this recall")]
    UnknownRecall,
}

impl From<AllocError> for ReportFault {
    ghost from_gives = { λ _ fault. fault ≡ NoMemory };

    fn from(_: AllocError) -> ReportFault {
        ReportFault::NoMemory
    }
}

/// Why an item has no trace.
#[derive(Clone, Copy, Debug, Drop, PartialEq, Eq, Error)]
pub enum TraceFault {
    /// Memory ran out.
    #[error("memory ran out")]
    NoMemory,
    /// No event of the site names the item, and it isn't quarantined there.
    #[error("the site doesn't know this item")]
    UnknownItem,
}

impl From<AllocError> for TraceFault {
    ghost from_gives = { λ _ fault. fault ≡ untraced.NoMemory };

    fn from(_: AllocError) -> TraceFault {
        TraceFault::NoMemory
    }
}
