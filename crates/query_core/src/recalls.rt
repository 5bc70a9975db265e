//! How a recall stands, and what it waits for.
ghost use Rattle.std.specs.Prelude.{◌≡◌, IfErr, IfOk};
ghost use Rattle.site_recovery.specs.Checking.{records_at, world_at};
ghost use Rattle.site_recovery.specs.FittingAt.{AreAllSites};
ghost use Rattle.query_core.specs.Recalls.{AreStatuses, IsDetail, TellsFault};
ghost use Rattle.query_core.specs.declared.recalls.QueryFault.TheVariants.{NoMemory};

use crate::standings::standings;
use crate::statuses::{add_statuses, status_of};
use crate::waiting::{waiting_counts, waiting_in, waiting_messages};
use epc_core::Epc;
use event_json::{Sequence, SiteNo};
use frame_core::{MsgId, RecallId};
use site_core::SiteState;
use site_recovery::own_recall;
use std::alloc::{AllocError, Global};
use thiserror::Error;

/// How a recall stands, by the records of all sites.
#[derive(Debug, Drop)]
pub struct RecallStatus {
    pub recall: RecallId,
    /// The recalled item, at the site that began the recall.
    pub root: Epc,
    /// Whether that site has recorded the end.
    pub ended: bool,
    /// How many pairs of a site and an item are quarantined under it.
    pub quarantined: u64,
    /// How many messages of it wait for their signal.
    pub waiting: u64,
}

/// What a recall is to one site.
#[derive(Debug, Drop, PartialEq, Eq)]
pub struct SiteStanding {
    pub site: SiteNo,
    /// How many items are quarantined there under the recall.
    pub quarantined: u64,
    /// How many of the messages that the site sent under it wait for their signal.
    pub waiting: u64,
    /// The message by which the site is engaged for the recall, and which it signals last.
    pub engaged_by: Option<MsgId>,
}

/// A message that waits for its signal.
#[derive(Debug, Drop)]
pub struct WaitingMessage {
    pub message: MsgId,
    /// The site that it is for.
    pub to: SiteNo,
    /// The item that it tells of.
    pub item: Epc,
    /// Whether that site has taken it: then its signal is outstanding, and else the message itself.
    pub told: bool,
}

/// How a recall stands, site by site and message by message.
#[derive(Debug, Drop)]
pub struct RecallDetail {
    pub status: RecallStatus,
    /// The sites that hold an item under it, wait for a signal or are engaged for it, by number.
    pub sites: Sequence<SiteStanding>,
    /// The messages that wait, by site and number.
    pub waiting: Sequence<WaitingMessage>,
}

/// Why there is no answer about a recall.
#[derive(Clone, Copy, Debug, Drop, PartialEq, Eq, Error)]
pub enum QueryFault {
    /// No site's record has the recall as one that the site began.
    #[error("no site began this recall")]
    UnknownRecall,
    /// Out of memory.
    #[error("out of memory")]
    NoMemory,
}

impl From<AllocError> for QueryFault {
    ghost from_gives = { λ _ fault. fault ≡ NoMemory };

    fn from(_: AllocError) -> QueryFault {
        QueryFault::NoMemory
    }
}

/// How each recall stands that a site began, by site, then by number, from the records of all sites in the order of
/// their numbers. Goes over each outbox once, and looks up each recall at each site.
///
/// # Errors
/// Out of memory.
pub fn recall_statuses(alloc: Global, sites: &[&SiteState]) -> Result<Vec<RecallStatus>, AllocError>
    requires all { AreAllSites (records_at sites.now) }
    // All recalls that the sites began, in order, each once: its root and whether it has ended, as the record of its
    // site has them, how many pairs are quarantined under it at all sites, and how many rows of it all outboxes have.
    ensures { IfOk result (λ statuses. AreStatuses (records_at sites.now) statuses.items) }
{
    let counts = waiting_counts(alloc, sites)?;
    let mut statuses = Vec::new(alloc);
    for state in sites {
        add_statuses(alloc, &mut statuses, sites, state, &counts)?;
    }
    Ok(statuses)
}

/// How a recall stands, what it is to each site, and which messages of it wait, from the records of all sites in the
/// order of their numbers. Goes over each outbox three times.
///
/// # Errors
/// `UnknownRecall` where no site's record has the recall as one that the site began, and `NoMemory`, which comes
/// for no such recall.
pub fn recall_detail(
    alloc: Global,
    sites: &[&SiteState],
    recall: RecallId,
) -> Result<RecallDetail, QueryFault>
    requires all { AreAllSites (records_at sites.now) }
    // Also each site that holds an item under the recall, waits for a signal or is engaged, with its counts and its
    // parent; and each row of it in an outbox, with whether the site that it is for has seen the message. In order,
    // each once.
    ensures ok { IfOk result (IsDetail (records_at sites.now) recall) }
    ensures fault { IfErr result (TellsFault (world_at sites.now) recall) }
{
    let Some(own) = own_recall(sites, recall) else {
        return Err(QueryFault::UnknownRecall);
    };
    let status = status_of(alloc, sites, recall, own, waiting_in(sites, recall)?)?;
    let standings = standings(alloc, sites, recall)?;
    let waiting = waiting_messages(alloc, sites, recall)?;
    Ok(RecallDetail {
        status,
        sites: Sequence::from_vec(standings),
        waiting: Sequence::from_vec(waiting),
    })
}
