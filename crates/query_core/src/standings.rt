//! What a recall is to each site.
ghost use Rattle.std.specs.Prelude.{◌≡◌, IfOk, flat_map, sum_by};
ghost use Rattle.site_recovery.specs.Checking.{records_at};
ghost use Rattle.query_core.specs.BySite.{is_concerned, standing_of, standings_at};
ghost use Rattle.query_core.specs.Recalls.{quarantined_count};

use crate::recalls::SiteStanding;
use crate::sums::plus;
use crate::waiting::waiting_at;
use frame_core::{RecallId, tables};
use site_core::SiteState;
use std::alloc::{AllocError, Global};

/// How many items a site has quarantined under the recall.
fn quarantined_at(state: &SiteState, recall: RecallId) -> u64
    ensures { result ≡ quarantined_count recall state.now }
{
    match state.quarantine().under(recall) {
        Some(items) => items.len() as u64,
        None => 0,
    }
}

/// How many pairs of a site and an item are quarantined under the recall.
pub(crate) fn quarantined_in(sites: &[&SiteState], recall: RecallId) -> Result<u64, AllocError>
    ensures { IfOk result (λ count. count ≡ sum_by (quarantined_count recall)
        (records_at sites.now)) }
{
    let mut count = 0;
    for state in sites {
        count = plus(count, quarantined_at(state, recall))?;
    }
    Ok(count)
}

/// What the recall is to each site that it concerns, by site.
pub(crate) fn standings(
    alloc: Global,
    sites: &[&SiteState],
    recall: RecallId,
) -> Result<Vec<SiteStanding>, AllocError>
    ensures { IfOk result (λ standings. standings.items ≡ flat_map (standings_at recall)
        (records_at sites.now)) }
{
    let mut standings = Vec::new(alloc);
    for state in sites {
        let standing = standing_at(state, recall);
        if is_concerned(&standing) {
            standings.push(standing)?;
        }
    }
    Ok(standings)
}

/// What the recall is to one site.
fn standing_at(state: &SiteState, recall: RecallId) -> SiteStanding
    ensures { result ≡ standing_of recall state.now }
{
    SiteStanding {
        site: state.me(),
        quarantined: quarantined_at(state, recall),
        waiting: waiting_at(state, recall),
        engaged_by: tables::get(state.parents(), recall).copied(),
    }
}

/// Whether the site holds an item, waits for a signal or is engaged.
fn is_concerned(standing: &SiteStanding) -> bool
    ensures { result ≡ is_concerned standing.now }
{
    standing.quarantined != 0 || standing.waiting != 0 || standing.engaged_by.is_some()
}
