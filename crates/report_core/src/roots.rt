//! The root of a recall, and what it reaches.
ghost use Rattle.std.specs.Prelude.{◌≡◌, ◌↔◌, IfOk, Some, Contains};
ghost use Rattle.trace_core.specs.Pairs.{IsStrictlyAscending};
ghost use Rattle.trace_core.specs.declared.pairs.Pair.{Pair};
ghost use Rattle.site_recovery.specs.Checking.{records_at, world_at, IsReachedBy};
ghost use Rattle.site_recovery.specs.Looks.{own};

use frame_core::RecallId;
use scholten_core::Own;
use site_core::SiteState;
use site_recovery::captured;
use std::alloc::{AllocError, Global};
use trace_core::{Pair, reach};

/// The recalled item at the site that began the recall.
pub(crate) fn root_of(alloc: Global, recall: RecallId, entry: &Own) -> Result<Pair, AllocError>
    ensures { IfOk result (λ root. root ≡ record { site = recall.site; item = entry.now.root }) }
{
    Ok(Pair {
        site: recall.site,
        item: entry.root.copy(alloc)?,
    })
}

/// The pairs that the recall's root reaches through what all sites captured, ascending and each once.
pub(crate) fn reached(
    alloc: Global,
    sites: &[&SiteState],
    recall: RecallId,
    entry: &Own,
) -> Result<Vec<Pair>, AllocError>
    requires begun { own (world_at sites.now) recall.site recall.number ≡ Some entry.now }
    ensures ascending { IfOk result (λ pairs. IsStrictlyAscending pairs.items) }
    ensures reached { IfOk result (λ pairs. (p : Pair) → Contains pairs.items p
        ↔ IsReachedBy (records_at sites.now) recall p) }
{
    let root = root_of(alloc, recall, entry)?;
    let captured = captured(alloc, sites)?;
    reach(alloc, captured.as_slice(), &root)
}
