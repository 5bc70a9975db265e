//! How each recall stands that a site began.
ghost use Rattle.std.specs.Prelude.{◌≡◌, ◌++◌, IfOk, OnOk, sum_by};
ghost use Rattle.frame_core.specs.Identifiers.{recall_cmp};
ghost use Rattle.frame_core.specs.Tables.{as_map};
ghost use Rattle.site_recovery.specs.Checking.{records_at};
ghost use Rattle.query_core.specs.BySite.{status_of, statuses_by, AreWaitingCounts};
ghost use Rattle.query_core.specs.Recalls.{waiting_count};

use crate::recalls::RecallStatus;
use crate::standings::quarantined_in;
use crate::waiting::count_of;
use frame_core::RecallId;
use scholten_core::Own;
use site_core::SiteState;
use std::alloc::{AllocError, Global};
use std::collections::BTreeMap;

/// Adds the recalls that one site began, by number, from the counts of the messages that wait.
pub(crate) fn add_statuses(
    alloc: Global,
    statuses: &mut Vec<RecallStatus>,
    sites: &[&SiteState],
    state: &SiteState,
    counts: &BTreeMap<RecallId, u64>,
) -> Result<(), AllocError>
    requires counted { AreWaitingCounts (records_at sites.now) (as_map recall_cmp counts.now) }
    ensures { OnOk result (statuses.new.items ≡ statuses.old.items ++ statuses_by
        (records_at sites.now) state.now) }
{
    let site = state.me();
    for (number, own) in state.own_recalls() {
        let recall = RecallId {
            site,
            number: *number,
        };
        statuses.push(status_of(alloc, sites, recall, own, count_of(counts, recall))?)?;
    }
    Ok(())
}

/// How one recall stands, of which this many messages wait.
pub(crate) fn status_of(
    alloc: Global,
    sites: &[&SiteState],
    recall: RecallId,
    own: &Own,
    waiting: u64,
) -> Result<RecallStatus, AllocError>
    requires waiting { waiting ≡ sum_by (waiting_count recall) (records_at sites.now) }
    ensures { IfOk result (λ status. status ≡ status_of (records_at sites.now) recall own.now) }
{
    Ok(RecallStatus {
        recall,
        root: own.root.copy(alloc)?,
        ended: own.ended,
        quarantined: quarantined_in(sites, recall)?,
        waiting,
    })
}
