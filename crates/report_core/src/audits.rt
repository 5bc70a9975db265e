//! The audit of a recall: what is quarantined against what its root reaches.
ghost use Rattle.std.specs.Prelude.{◌≡◌, IfOk, IfErr, IsSome};
ghost use Rattle.site_recovery.specs.Checking.{records_at, world_at};
ghost use Rattle.site_recovery.specs.FittingAt.{AreAllSites};
ghost use Rattle.site_recovery.specs.Looks.{own};
ghost use Rattle.report_core.specs.Reports.{TellsFault};
ghost use Rattle.report_core.specs.Verdicts.{IsVerdict};

use crate::differences::first_difference;
use crate::faults::ReportFault;
use crate::roots::reached;
use frame_core::RecallId;
use site_core::SiteState;
use site_recovery::{own_recall, quarantined};
use std::alloc::Global;
use trace_core::Pair;

/// How what is quarantined under a recall compares with what its root reaches.
#[derive(Debug, Drop, PartialEq, Eq)]
pub enum Verdict {
    /// Just the pairs in reach are quarantined, and there are so many of them.
    Equal(u64),
    /// They differ.
    Differs {
        /// The least pair that is quarantined and not in reach, or in reach and not quarantined.
        pair: Pair,
        /// Whether it is in reach, and so is missing from the quarantine.
        missing: bool,
    },
}

/// Compares what is quarantined under a recall, by the records of all sites in the order of their numbers, with
/// what chains of made and shipped items reach from its root through the events that all sites captured.
///
/// # Errors
/// `UnknownRecall` where no site's record has the recall as one that the site began, and `NoMemory`, which comes
/// for no such recall.
pub fn audit(alloc: Global, sites: &[&SiteState], recall: RecallId) -> Result<Verdict, ReportFault>
    requires all { AreAllSites (records_at sites.now) }
    // An audit is `Equal`, with their number, exactly where the quarantined pairs are those in reach of the root; else
    // it names the least pair in one set and not in the other, and in which.
    ensures ok { IfOk result (IsVerdict (records_at sites.now) recall) }
    ensures known { IfOk result (λ _. IsSome (own (world_at sites.now) recall.site recall.number)) }
    ensures fault { IfErr result (TellsFault (world_at sites.now) recall) }
{
    let Some(own) = own_recall(sites, recall) else {
        return Err(ReportFault::UnknownRecall);
    };
    let held = quarantined(alloc, sites, recall)?;
    let reached = reached(alloc, sites, recall, own)?;
    match first_difference(held.as_slice(), reached.as_slice()) {
        Some((pair, missing)) => Ok(Verdict::Differs {
            pair: pair.copy(alloc)?,
            missing,
        }),
        None => Ok(Verdict::Equal(held.len() as u64)),
    }
}
