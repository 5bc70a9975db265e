//! The check that the records of all sites are consistent.
ghost use Rattle.std.specs.Prelude.{◌<◌, ℕ, [], length, OnOk, IfErr};
ghost use Rattle.site_recovery.specs.Checking.{records_at, world_at};
ghost use Rattle.site_recovery.specs.Fit.{Fits, IsJustifiedAt};
ghost use Rattle.site_recovery.specs.FittingAt.{AreAllSites};
ghost use Rattle.site_recovery.specs.Misfits.{TellsMisfit, TellsUnmet};

use crate::closing::Closed;
use crate::conditions::{Both, Condition, least_unmet};
use crate::homeward::{ParentsLeadHome, ParentsStand};
use crate::justifying::{Rooted, RowsJustified};
use crate::narrowing::sites_within;
use crate::numbers::{HeldBelow, OwnBelow, RowsBelow, SeenBelow};
use crate::reaching::{Begun, Within};
use crate::telling::{Taken, Told};
use crate::waiting::{EndsAreQuiet, Waiting};
use event_json::SiteNo;
use site_core::SiteState;
use std::alloc::Global;
use thiserror::Error;

/// Where records aren't consistent.
#[derive(Clone, Copy, Debug, Drop, PartialEq, Eq)]
pub struct Misfit {
    /// The number of the least condition that fails: 1 to 6, 9 or 10.
    pub condition: u64,
    /// The least site that it is attributed to.
    pub site: SiteNo,
}

/// Why records weren't found to be consistent.
#[derive(Clone, Copy, Debug, Drop, PartialEq, Eq, Error)]
pub enum CheckFault {
    /// Memory ran out.
    #[error("memory ran out")]
    NoMemory,
    /// A condition fails.
    #[error("the records don't fit together")]
    Misfit(Misfit),
}

/// Whether a condition holds at each site.
fn check<C: Condition>(
    alloc: Global,
    sites: &[&SiteState],
    number: u64,
    condition: &C,
) -> Result<(), CheckFault>
    requires all { AreAllSites (records_at sites.now) }
    ensures ok { OnOk result ((s : ℕ) → s < length sites.now
        → C.holds condition.now (world_at sites.now) s) }
    ensures fault { IfErr result (TellsUnmet number (length sites.now)
        (C.holds condition.now (world_at sites.now))) }
{
    match least_unmet(alloc, sites, condition) {
        Ok(None) => Ok(()),
        Ok(Some(site)) => Err(CheckFault::Misfit(Misfit {
            condition: number,
            site,
        })),
        Err(_) => Err(CheckFault::NoMemory),
    }
}

/// Whether what is quarantined and announced has its reason, at each site.
fn check_justified(alloc: Global, sites: &[&SiteState]) -> Result<(), CheckFault>
    requires all { AreAllSites (records_at sites.now) }
    ensures ok { OnOk result ((s : ℕ) → s < length sites.now
        → IsJustifiedAt (world_at sites.now) s) }
    ensures fault { IfErr result (TellsUnmet 3 (length sites.now)
        (IsJustifiedAt (world_at sites.now))) }
{
    match sites_within(alloc, sites) {
        Ok(within) => {
            let justified = Both {
                first: Both {
                    first: Begun,
                    second: Within {
                        within: within.as_slice(),
                    },
                },
                second: Both {
                    first: Rooted,
                    second: RowsJustified,
                },
            };
            check(alloc, sites, 3, &justified)
        }
        Err(_) => Err(CheckFault::NoMemory),
    }
}

/// Checks that the records of all sites, in the order of their numbers, are consistent while no frame is
/// in flight.
///
/// # Errors
/// `Misfit` with the least condition that fails and the least site that it is attributed to, and
/// `NoMemory`.
pub fn check_world(alloc: Global, sites: &[&SiteState]) -> Result<(), CheckFault>
    requires all { AreAllSites (records_at sites.now) }
    // Not covered: it requires records of all sites, in order (`are_all_sites` tests it); that it succeeds with memory
    // at hand. No law names a condition's number.
    ensures ok { OnOk result (Fits (world_at sites.now) []) }
    ensures fault { IfErr result (TellsMisfit (length sites.now) (world_at sites.now)) }
{
    let told = Both {
        first: Told,
        second: Taken,
    };
    let below = Both {
        first: Both {
            first: RowsBelow,
            second: SeenBelow,
        },
        second: Both {
            first: OwnBelow,
            second: HeldBelow,
        },
    };
    check(alloc, sites, 1, &Closed)?;
    check(alloc, sites, 2, &told)?;
    check_justified(alloc, sites)?;
    check(alloc, sites, 4, &Waiting)?;
    check(alloc, sites, 5, &ParentsStand)?;
    check(alloc, sites, 6, &ParentsLeadHome)?;
    // Conditions 7 and 8 are of frames that were sent, and there are none. 9 follows from 4 and 6.
    check(alloc, sites, 9, &EndsAreQuiet)?;
    check(alloc, sites, 10, &below)?;
    Ok(())
}
