//! Numbers, recalls, messages and items of rows, read back.
ghost use Rattle.std.specs.Prelude.{◌≡◌, ◌≤◌, pos, IfOk};
ghost use Rattle.event_json.specs.declared.limits.TheConstants.{MAX_SITES};
ghost use Rattle.frame_core.specs.Unsignalled.{IsNextNumber};
ghost use Rattle.site_core.specs.Records.{IsNumber};
ghost use Rattle.site_rows.specs.BadRows.{Tells, IsSiteNumber, IsRecallRow, IsMessageRow, IsItemRow};

use crate::reading_texts::item_of_key;
use crate::texts::Text;
use epc_core::Epc;
use event_json::SiteNo;
use frame_core::{LAST_NUMBER, MsgId, RecallId};
use std::alloc::{AllocError, Global};

/// A number that isn't negative.
pub(crate) fn natural(number: i64) -> Option<u64>
    ensures { Tells result (λ n. number ≡ pos n) }
{
    match u64::try_from(number) {
        Ok(number) => Some(number),
        Err(_) => None,
    }
}

/// The site of a number, where there are so many sites.
pub(crate) fn site_of(sites: u64, number: i64) -> Option<SiteNo>
    requires few { sites ≤ MAX_SITES }
    ensures { Tells result (IsSiteNumber sites number) }
{
    match natural(number) {
        Some(number) if number < sites => SiteNo::of(number),
        _ => None,
    }
}

/// The number of a message or a recall, 1 to 2^62.
pub(crate) fn number_of(number: i64) -> Option<u64>
    ensures { Tells result (λ n. (number ≡ pos n) × IsNumber n) }
{
    match natural(number) {
        Some(number) if number >= 1 && number <= LAST_NUMBER => Some(number),
        _ => None,
    }
}

/// The number of a next message or recall, 1 to 2^62 + 1.
pub(crate) fn next_number_of(number: i64) -> Option<u64>
    ensures { Tells result (λ n. (number ≡ pos n) × IsNextNumber n) }
{
    match natural(number) {
        Some(number) if number >= 1 && number <= LAST_NUMBER + 1 => Some(number),
        _ => None,
    }
}

/// The recall of a site and a number.
pub(crate) fn recall_of(sites: u64, site: i64, number: i64) -> Option<RecallId>
    requires few { sites ≤ MAX_SITES }
    ensures { Tells result (IsRecallRow sites site number) }
{
    match (site_of(sites, site), number_of(number)) {
        (Some(site), Some(number)) => Some(RecallId { site, number }),
        _ => None,
    }
}

/// The message of a sender and a number.
pub(crate) fn message_of(sites: u64, sender: i64, number: i64) -> Option<MsgId>
    requires few { sites ≤ MAX_SITES }
    ensures { Tells result (IsMessageRow sites sender number) }
{
    match (site_of(sites, sender), number_of(number)) {
        (Some(site), Some(number)) => Some(MsgId { site, number }),
        _ => None,
    }
}

/// The item of a key.
pub(crate) fn item_of(alloc: Global, key: &Text) -> Result<Option<Epc>, AllocError>
    ensures { IfOk result (λ item. Tells item (IsItemRow key.now)) }
{
    item_of_key(alloc, key)
}
