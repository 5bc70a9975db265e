//! Where an item came from.
ghost use Rattle.std.specs.Prelude.{IfOk, IfErr};
ghost use Rattle.site_recovery.specs.Checking.{records_at, world_at};
ghost use Rattle.site_recovery.specs.FittingAt.{AreAllSites};
ghost use Rattle.report_core.specs.Traces.{IsKnownAt, IsBackTrace, TellsTraceFault};

use crate::back_trails::BackTrails;
use crate::faults::TraceFault;
use crate::origins::origins_of;
use crate::sources::Sources;
use crate::traces::BackTrace;
use crate::tracing::is_known_at;
use epc_core::Epc;
use event_json::{Sequence, SiteNo};
use site_core::SiteState;
use site_recovery::captured;
use std::alloc::Global;
use trace_core::{Pair, trails_from};

/// Traces an item at a site back through what all sites captured, by the records of all sites in the order of their
/// numbers: to all that reaches it by chains of made and shipped items, and to where these began.
///
/// Goes over the events of all sites once, and comes to each transformation once.
///
/// # Errors
/// `UnknownItem` where no event of the site names the item and it isn't quarantined there, and also where there is
/// no such site: just where `trace` answers so. `NoMemory`, which comes for known items alone.
pub fn trace_back(
    alloc: Global,
    sites: &[&SiteState],
    site: SiteNo,
    item: &Epc,
) -> Result<BackTrace, TraceFault>
    requires all { AreAllSites (records_at sites.now) }
    // The trace has the item at the site as its root; just the pairs that reach it, in order, each once; from each a
    // chain to the root without repeats, such that no chain has fewer pairs; and those of them that no pair is related
    // to, in order, each once.
    ensures ok { IfOk result (IsBackTrace (records_at sites.now) site item.now) }
    ensures known { IfOk result (λ _. IsKnownAt (world_at sites.now) site item.now) }
    ensures fault { IfErr result (TellsTraceFault (world_at sites.now) site item.now) }
{
    if !is_known_at(sites, site, item) {
        return Err(TraceFault::UnknownItem);
    }
    let root = Pair {
        site,
        item: item.copy(alloc)?,
    };
    let captured = captured(alloc, sites)?;
    let sources = Sources::of(alloc, captured.as_slice())?;
    let found = trails_from(alloc, &sources, &root)?;
    let origins = origins_of(alloc, captured.as_slice(), found.pairs.as_slice())?;
    Ok(BackTrace {
        root,
        pairs: found.pairs,
        trails: BackTrails::of(found.trails),
        origins: Sequence::from_vec(origins),
    })
}
