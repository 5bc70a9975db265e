//! The messages of recalls that wait for their signal.
ghost use Rattle.std.specs.Prelude.{◌≡◌, ◌++◌, ◌+◌, IfOk, OnOk, flat_map, sum_by, is_some};
ghost use Rattle.std.specs.Ordering.{nat_cmp};
ghost use Rattle.frame_core.specs.Counts.{count_in, IsRaised};
ghost use Rattle.frame_core.specs.Identifiers.{recall_cmp};
ghost use Rattle.frame_core.specs.Numbers.{Recall};
ghost use Rattle.frame_core.specs.Outboxes.{rows_of};
ghost use Rattle.frame_core.specs.Tables.{as_map};
ghost use Rattle.site_recovery.specs.Checking.{records_at, world_at};
ghost use Rattle.site_recovery.specs.Looks.{seen};
ghost use Rattle.query_core.specs.BySite.{AreWaitingCounts, waiting_from};
ghost use Rattle.query_core.specs.Recalls.{waiting_count};

use crate::recalls::WaitingMessage;
use crate::sums::plus;
use event_json::SiteNo;
use frame_core::{MsgId, RecallId, Row, tables};
use site_core::SiteState;
use std::alloc::{AllocError, Global};
use std::collections::BTreeMap;

/// How many messages of the recall a site's outbox has.
pub(crate) fn waiting_at(state: &SiteState, recall: RecallId) -> u64
    ensures { result ≡ waiting_count recall state.now }
{
    let mut count = 0;
    for (_, row) in state.outbox() {
        if row.recall == recall {
            count += 1;
        }
    }
    count
}

/// How many messages of the recall are in all outboxes.
pub(crate) fn waiting_in(sites: &[&SiteState], recall: RecallId) -> Result<u64, AllocError>
    ensures { IfOk result (λ count. count ≡ sum_by (waiting_count recall) (records_at sites.now)) }
{
    let mut count = 0;
    for state in sites {
        count = plus(count, waiting_at(state, recall))?;
    }
    Ok(count)
}

/// How many messages of each recall are in all outboxes. Goes over each outbox once.
pub(crate) fn waiting_counts(
    alloc: Global,
    sites: &[&SiteState],
) -> Result<BTreeMap<RecallId, u64>, AllocError>
    ensures { IfOk result (λ counts. AreWaitingCounts (records_at sites.now)
        (as_map recall_cmp counts)) }
{
    let mut counts = BTreeMap::new(alloc);
    for state in sites {
        count_rows(&mut counts, state.outbox())?;
    }
    Ok(counts)
}

/// Counts the rows of an outbox for their recalls.
pub(crate) fn count_rows(
    counts: &mut BTreeMap<RecallId, u64>,
    rows: &BTreeMap<u64, Row>,
) -> Result<(), AllocError>
    ensures { OnOk result ((r : Recall) → count_in (as_map recall_cmp counts.new) r
        ≡ count_in (as_map recall_cmp counts.old) r + rows_of (as_map nat_cmp rows.now) r) }
{
    for (_, row) in rows {
        raise(counts, row.recall)?;
    }
    Ok(())
}

/// The count of a recall, 0 where it has none.
pub(crate) fn count_of(counts: &BTreeMap<RecallId, u64>, recall: RecallId) -> u64
    ensures { result ≡ count_in (as_map recall_cmp counts.now) recall }
{
    tables::get(counts, recall).copied().unwrap_or(0)
}

/// Raises the count of a recall by one.
fn raise(counts: &mut BTreeMap<RecallId, u64>, recall: RecallId) -> Result<(), AllocError>
    ensures { OnOk result (IsRaised (as_map recall_cmp counts.old) recall
        (as_map recall_cmp counts.new)) }
{
    let count = plus(count_of(counts, recall), 1)?;
    tables::put(counts, recall, count)?;
    Ok(())
}

/// The messages of the recall in all outboxes, by site, then by number.
pub(crate) fn waiting_messages(
    alloc: Global,
    sites: &[&SiteState],
    recall: RecallId,
) -> Result<Vec<WaitingMessage>, AllocError>
    ensures { IfOk result (λ waiting. waiting.items
        ≡ flat_map (waiting_from (world_at sites.now) recall) (records_at sites.now)) }
{
    let mut waiting = Vec::new(alloc);
    for state in sites {
        add_waiting(alloc, &mut waiting, sites, state, recall)?;
    }
    Ok(waiting)
}

/// Adds the messages of the recall that one site's outbox has, by number.
fn add_waiting(
    alloc: Global,
    waiting: &mut Vec<WaitingMessage>,
    sites: &[&SiteState],
    state: &SiteState,
    recall: RecallId,
) -> Result<(), AllocError>
    ensures { OnOk result (waiting.new.items
        ≡ waiting.old.items ++ waiting_from (world_at sites.now) recall state.now) }
{
    let site = state.me();
    for (number, row) in state.outbox() {
        if row.recall == recall {
            let message = MsgId {
                site,
                number: *number,
            };
            waiting.push(WaitingMessage {
                message,
                to: row.dest,
                item: row.item.copy(alloc)?,
                told: is_seen(sites, row.dest, message),
            })?;
        }
    }
    Ok(())
}

/// Whether the site has seen the message.
fn is_seen(sites: &[&SiteState], site: SiteNo, message: MsgId) -> bool
    ensures { result ≡ is_some (seen (world_at sites.now) site message) }
{
    let place = site.number() as usize;
    if place < sites.len() {
        sites[place].seen_under(message).is_some()
    } else {
        false
    }
}
