//! The recalls that sites are stuck in.
ghost use Rattle.std.specs.Prelude.{◌≡◌, ◌&&◌, ◌++◌, not, IfOk, OnOk, flat_map};
ghost use Rattle.frame_core.specs.Identifiers.{recall_cmp};
ghost use Rattle.frame_core.specs.Tables.{as_map};
ghost use Rattle.site_recovery.specs.Checking.{records_at};
ghost use Rattle.query_core.specs.Stuck.{AreRowCounts, awaits_none, own_of, stuck_as, stuck_engaged, stuck_from, stuck_own};

use crate::waiting::{count_of, count_rows};
use event_json::SiteNo;
use frame_core::RecallId;
use scholten_core::Own;
use site_core::SiteState;
use std::alloc::{AllocError, Global};
use std::collections::BTreeMap;

/// A site at which a recall waits in vain: it is engaged for the recall, or began it and hasn't recorded its end, and
/// has no message of it whose signal would go on with that. No run leads there from new sites.
#[derive(Clone, Copy, Debug, Drop, PartialEq, Eq)]
pub struct StuckRecall {
    pub recall: RecallId,
    pub site: SiteNo,
}

/// The recalls that sites are stuck in, by site: first those that it is engaged for, then its own. Goes over each outbox
/// once.
///
/// # Errors
/// Out of memory.
pub fn stuck_recalls(alloc: Global, sites: &[&SiteState]) -> Result<Vec<StuckRecall>, AllocError>
    ensures { IfOk result (λ stuck. stuck.items ≡ flat_map stuck_from (records_at sites.now)) }
{
    let mut stuck = Vec::new(alloc);
    for state in sites {
        add_stuck(alloc, &mut stuck, state)?;
    }
    Ok(stuck)
}

/// Adds the recalls that one site is stuck in.
fn add_stuck(
    alloc: Global,
    stuck: &mut Vec<StuckRecall>,
    state: &SiteState,
) -> Result<(), AllocError>
    ensures { OnOk result (stuck.new.items ≡ stuck.old.items ++ stuck_from state.now) }
{
    let mut counts = BTreeMap::new(alloc);
    count_rows(&mut counts, state.outbox())?;
    add_engaged(stuck, state, &counts)?;
    add_own(stuck, state, &counts)
}

/// Adds those of the recalls that the site is engaged for.
fn add_engaged(
    stuck: &mut Vec<StuckRecall>,
    state: &SiteState,
    counts: &BTreeMap<RecallId, u64>,
) -> Result<(), AllocError>
    requires { AreRowCounts state.now.engagement (as_map recall_cmp counts.now) }
    ensures { OnOk result (stuck.new.items
        ≡ stuck.old.items ++ stuck_engaged state.now.engagement) }
{
    let site = state.me();
    for (recall, _) in state.parents() {
        let recall = *recall;
        if count_of(counts, recall) == 0 {
            stuck.push(StuckRecall { recall, site })?;
        }
    }
    Ok(())
}

/// Adds those of its own recalls.
fn add_own(
    stuck: &mut Vec<StuckRecall>,
    state: &SiteState,
    counts: &BTreeMap<RecallId, u64>,
) -> Result<(), AllocError>
    requires { AreRowCounts state.now.engagement (as_map recall_cmp counts.now) }
    ensures { OnOk result (stuck.new.items ≡ stuck.old.items ++ stuck_own state.now.engagement) }
{
    for (number, own) in state.own_recalls() {
        if is_own_stuck(state, *number, own, counts) {
            stuck.push(own_stuck(state, *number))?;
        }
    }
    Ok(())
}

/// The site with the recall that it began under this number.
fn own_stuck(state: &SiteState, number: u64) -> StuckRecall
    ensures { result ≡ stuck_as state.now.engagement (own_of state.now.engagement number) }
{
    let site = state.me();
    StuckRecall {
        recall: RecallId { site, number },
        site,
    }
}

/// Whether that recall hasn't ended, and no message of it waits there.
fn is_own_stuck(state: &SiteState, number: u64, own: &Own, counts: &BTreeMap<RecallId, u64>) -> bool
    requires { AreRowCounts state.now.engagement (as_map recall_cmp counts.now) }
    ensures { result ≡ (not own.now.ended
        && awaits_none state.now.engagement (own_of state.now.engagement number)) }
{
    let site = state.me();
    !own.ended && count_of(counts, RecallId { site, number }) == 0
}
