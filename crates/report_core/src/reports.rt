//! The report of a recall.
ghost use Rattle.std.specs.Prelude.{◌≡◌, IfOk, IfErr};
ghost use Rattle.site_recovery.specs.Checking.{records_at, world_at};
ghost use Rattle.site_recovery.specs.FittingAt.{AreAllSites};
ghost use Rattle.report_core.specs.Reports.{IsReport, TellsFault};

use crate::faults::ReportFault;
use crate::outside::{OutsideShipment, shipped_out};
use crate::roots::root_of;
use event_json::Sequence;
use frame_core::RecallId;
use site_core::SiteState;
use site_recovery::{captured, own_recall, quarantined};
use std::alloc::Global;
use trace_core::{Pair, Trails, trails_to};

/// What the records of all sites say of a recall.
#[derive(Debug, Drop)]
pub struct RecallReport {
    /// The recalled item, at the site that began the recall.
    pub root: Pair,
    /// Whether that site has recorded the end.
    pub ended: bool,
    /// What is quarantined under the recall at all sites, by site, then by item, and each once.
    pub pairs: Sequence<Pair>,
    /// For each of these pairs, in their order, a chain of related pairs from the root to it, without repeats and
    /// with as few pairs as any; None where no chain leads there.
    pub trails: Trails,
    /// What of it was shipped to places outside the traced sites, by site, item and destination, and each once.
    pub outside: Sequence<OutsideShipment>,
}

/// Reports a recall from the records of all sites, in the order of their numbers.
///
/// # Errors
/// `UnknownRecall` where no site's record has the recall as one that the site began, and `NoMemory`, which comes
/// for no such recall.
pub fn report(
    alloc: Global,
    sites: &[&SiteState],
    recall: RecallId,
) -> Result<RecallReport, ReportFault>
    requires all { AreAllSites (records_at sites.now) }
    // The report has the recall's root and whether it has ended, as the record of the site that began it has them; the
    // quarantined pairs in order, each once; for each a chain from the root without repeats, such that no chain has
    // fewer pairs, or that there is none; and each shipment of a quarantined item, or of what it lies in, out of the
    // traced sites, in order, each once.
    ensures ok { IfOk result (IsReport (records_at sites.now) recall) }
    ensures fault { IfErr result (TellsFault (world_at sites.now) recall) }
{
    let Some(own) = own_recall(sites, recall) else {
        return Err(ReportFault::UnknownRecall);
    };
    let root = root_of(alloc, recall, own)?;
    let pairs = quarantined(alloc, sites, recall)?;
    let captured = captured(alloc, sites)?;
    let trails = trails_to(alloc, captured.as_slice(), &root, pairs.as_slice())?;
    let outside = shipped_out(alloc, sites, recall)?;
    Ok(RecallReport {
        root,
        ended: own.ended,
        pairs: Sequence::from_vec(pairs),
        trails,
        outside: Sequence::from_vec(outside),
    })
}
