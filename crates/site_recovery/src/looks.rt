//! Looks at the records of all sites. Past the end of the list stand sites that keep nothing.
ghost use Rattle.std.specs.Prelude.{◌≡◌, option_map};
ghost use Rattle.frame_core.specs.Rows.{row_of};
ghost use Rattle.site_core.specs.Quarantines.{held};
ghost use Rattle.site_recovery.specs.Checking.{world_at, Finds};
ghost use Rattle.site_recovery.specs.Looks.{row, seen, parent, own};

use epc_core::Epc;
use event_json::SiteNo;
use frame_core::{MsgId, RecallId, RowView, tables};
use scholten_core::Own;
use site_core::SiteState;

/// The record of the site.
pub(crate) fn site_at<'a>(sites: &'a [&'a SiteState], site: SiteNo) -> Option<&'a SiteState>
    ensures { Finds (world_at sites.now) site result }
{
    let place = site.number() as usize;
    if place < sites.len() {
        Some(sites[place])
    } else {
        None
    }
}

/// The row of the number in the site's outbox.
pub(crate) fn row<'a>(sites: &'a [&'a SiteState], site: SiteNo, number: u64) -> Option<RowView<'a>>
    ensures { option_map row_of result ≡ row (world_at sites.now) site number }
{
    match site_at(sites, site) {
        Some(state) => state.row(number),
        None => None,
    }
}

/// The recall under which the site has seen the message.
pub(crate) fn seen(sites: &[&SiteState], site: SiteNo, message: MsgId) -> Option<RecallId>
    ensures { result ≡ seen (world_at sites.now) site message }
{
    match site_at(sites, site) {
        Some(state) => state.seen_under(message),
        None => None,
    }
}

/// The message that engaged the site for the recall.
pub(crate) fn parent(sites: &[&SiteState], site: SiteNo, recall: RecallId) -> Option<MsgId>
    ensures { result ≡ parent (world_at sites.now) site recall }
{
    match site_at(sites, site) {
        Some(state) => tables::get(state.parents(), recall).copied(),
        None => None,
    }
}

/// The recall that the site began under the number.
pub(crate) fn own<'a>(sites: &'a [&'a SiteState], site: SiteNo, number: u64) -> Option<&'a Own>
    ensures { option_map (λ o. o.now) result ≡ own (world_at sites.now) site number }
{
    match site_at(sites, site) {
        Some(state) => tables::get(state.own_recalls(), number),
        None => None,
    }
}

/// Whether the item is quarantined at the site under the recall.
pub(crate) fn is_held(sites: &[&SiteState], site: SiteNo, recall: RecallId, item: &Epc) -> bool
    ensures { result ≡ held (world_at sites.now site).quarantine recall item.now }
{
    match site_at(sites, site) {
        Some(state) => state.quarantine().holds(recall, item),
        None => false,
    }
}
