//! What the records of all sites say of a recall.
ghost use Rattle.std.specs.Prelude.{◌≡◌, ◌↔◌, ◌++◌, IfOk, OnOk, Contains, option_map};
ghost use Rattle.trace_core.specs.Chains.{sites_at};
ghost use Rattle.trace_core.specs.Pairs.{IsStrictlyAscending};
ghost use Rattle.trace_core.specs.declared.pairs.Pair.{Pair};
ghost use Rattle.site_recovery.specs.Checking.{records_at, world_at};
ghost use Rattle.site_recovery.specs.Laws.{captured_of, AreInPlace};
ghost use Rattle.site_recovery.specs.Looks.{own, Held};
ghost use Rattle.site_recovery.specs.Recalls.{held_at, quarantined};

use crate::looks::own;
use frame_core::RecallId;
use scholten_core::Own;
use site_core::SiteState;
use std::alloc::{AllocError, Global};
use trace_core::{Captured, Pair};

/// The recall as the site that began it keeps it, None where that site's record has no such recall. Does not
/// allocate.
pub fn own_recall<'a>(sites: &'a [&'a SiteState], recall: RecallId) -> Option<&'a Own>
    ensures { option_map (λ o. o.now) result ≡ own (world_at sites.now) recall.site recall.number }
{
    own(sites, recall.site, recall.number)
}

/// What each site captured, in the order of the records.
pub fn captured<'a>(
    alloc: Global,
    sites: &'a [&'a SiteState],
) -> Result<Vec<&'a Captured>, AllocError>
    ensures { IfOk result (λ captured. sites_at captured.items ≡ captured_of
        (records_at sites.now)) }
{
    let mut captured = Vec::new(alloc);
    for state in sites {
        captured.push(state.captured())?;
    }
    Ok(captured)
}

/// All that is quarantined under a recall at these sites. Where each record is in its place, these are the pairs
/// of a site and an item that is held there under the recall, by site, then by item, and each once.
pub fn quarantined(
    alloc: Global,
    sites: &[&SiteState],
    recall: RecallId,
) -> Result<Vec<Pair>, AllocError>
    ensures list { IfOk result (λ pairs. pairs.items ≡ quarantined recall (records_at sites.now)) }
    ensures ascending { AreInPlace (records_at sites.now)
        → IfOk result (λ pairs. IsStrictlyAscending pairs.items) }
    ensures held { AreInPlace (records_at sites.now)
        → IfOk result (λ pairs. (p : Pair) → Contains pairs.items p
        ↔ Held (world_at sites.now) p.site recall p.item) }
{
    let mut pairs = Vec::new(alloc);
    for state in sites {
        add_held(alloc, &mut pairs, state, recall)?;
    }
    Ok(pairs)
}

/// Adds what one site holds under the recall.
fn add_held(
    alloc: Global,
    pairs: &mut Vec<Pair>,
    state: &SiteState,
    recall: RecallId,
) -> Result<(), AllocError>
    ensures { OnOk result (pairs.new.items ≡ pairs.old.items ++ held_at recall state.now) }
{
    let Some(items) = state.quarantine().under(recall) else {
        return Ok(());
    };
    let site = state.me();
    for item in items.items() {
        pairs.push(Pair {
            site,
            item: item.copy(alloc)?,
        })?;
    }
    Ok(())
}
