//! The trace of an item, whether or not it was recalled.
ghost use Rattle.std.specs.Prelude.{◌↔◌, IfOk, IfErr, IsTrue};
ghost use Rattle.site_recovery.specs.Checking.{records_at, world_at};
ghost use Rattle.site_recovery.specs.FittingAt.{AreAllSites};
ghost use Rattle.report_core.specs.Traces.{IsKnownAt, IsTrace, TellsTraceFault};

use crate::faults::TraceFault;
use crate::outside::shipped_from;
use crate::traces::Trace;
use epc_core::Epc;
use event_json::{Sequence, SiteNo};
use site_core::{SiteState, is_known};
use site_recovery::captured;
use std::alloc::Global;
use trace_core::{Pair, trails_out};

/// Traces an item at a site through what all sites captured, by the records of all sites in the order of their
/// numbers. No recall is needed, and none is begun. One search finds the pairs and their trails.
///
/// # Errors
/// `UnknownItem` where no event of the site names the item and it isn't quarantined there, and also where there is
/// no such site: just where the site would refuse to begin a recall of it as unknown. `NoMemory`, which comes for
/// known items alone.
pub fn trace(
    alloc: Global,
    sites: &[&SiteState],
    site: SiteNo,
    item: &Epc,
) -> Result<Trace, TraceFault>
    requires all { AreAllSites (records_at sites.now) }
    // The trace has the item at the site as its root; just the pairs in reach of it, in order, each once; for each a
    // chain from the root without repeats, such that no chain has fewer pairs; and each shipment of such a pair's item,
    // or of what it lies in, from its site out of the traced sites, in order, each once.
    ensures ok { IfOk result (IsTrace (records_at sites.now) site item.now) }
    ensures known { IfOk result (λ _. IsKnownAt (world_at sites.now) site item.now) }
    ensures fault { IfErr result (TellsTraceFault (world_at sites.now) site item.now) }
{
    if !is_known_at(sites, site, item) {
        return Err(TraceFault::UnknownItem);
    }
    let root = Pair {
        site,
        item: item.copy(alloc)?,
    };
    let captured = captured(alloc, sites)?;
    let found = trails_out(alloc, captured.as_slice(), &root)?;
    let outside = shipped_from(alloc, sites, found.pairs.as_slice())?;
    Ok(Trace {
        root,
        pairs: found.pairs,
        trails: found.trails,
        outside: Sequence::from_vec(outside),
    })
}

/// Whether one of the events of the site names the item, or it is quarantined there.
pub(crate) fn is_known_at(sites: &[&SiteState], site: SiteNo, item: &Epc) -> bool
    ensures { IsTrue result ↔ IsKnownAt (world_at sites.now) site item.now }
{
    let place = site.number() as usize;
    if place < sites.len() {
        let state = sites[place];
        is_known(state.captured(), state.quarantine(), item)
    } else {
        false
    }
}
