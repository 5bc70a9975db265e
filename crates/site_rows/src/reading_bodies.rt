//! What events say of their items, read back from the rows of their lists in turn.
ghost use Rattle.std.specs.Prelude.{◌≡◌, ◌≤◌, length, pos, IfOk, None};
ghost use Rattle.event_json.specs.Events.{IsIdentifier};
ghost use Rattle.site_rows.specs.PartsInTurn.{IsBodyAnswer, IsBodyRead};

use crate::event_rows::{INPUT, ITEM, OUTPUT, OUTSIDE, SITE};
use crate::reading_lists::{ListKey, list_at};
use crate::rows::PartRow;
use epc_core::Epc;
use event_json::{Body, MAX_LIST_MEMBERS, PlainText, Sequence, SiteNo, Sites};
use std::alloc::{AllocError, Global};

/// The most members of a list, and the most destinations.
const MEMBERS: u64 = MAX_LIST_MEMBERS as u64;

/// The items that were seen in an event.
pub(crate) fn note_at(
    alloc: Global,
    sites: &Sites,
    rows: &[PartRow],
    at: &mut usize,
    event: u64,
) -> Result<Body, AllocError>
    requires within { at.old ≤ length rows.now }
    ensures { IfOk result (λ body. IsBodyRead sites.now event (pos 0) None rows.now at.old at.new
        body) }
{
    let items: Sequence<Epc> = list_at(alloc, sites, rows, at, list(event, ITEM, MEMBERS))?;
    Ok(Body::Note { items })
}

/// The items that were shipped in an event, and where to; `None` where it has no destination.
pub(crate) fn ship_at(
    alloc: Global,
    sites: &Sites,
    rows: &[PartRow],
    at: &mut usize,
    event: u64,
) -> Result<Option<Body>, AllocError>
    requires within { at.old ≤ length rows.now }
    ensures { IfOk result (λ body. IsBodyAnswer sites.now event (pos 1) None rows.now at.old at.new
        body) }
{
    let items: Sequence<Epc> = list_at(alloc, sites, rows, at, list(event, ITEM, MEMBERS))?;
    let to: Sequence<SiteNo> = list_at(alloc, sites, rows, at, list(event, SITE, MEMBERS))?;
    let left = MEMBERS - to.len() as u64;
    let outside: Sequence<PlainText> = list_at(alloc, sites, rows, at, list(event, OUTSIDE, left))?;
    if to.is_empty() && outside.is_empty() {
        return Ok(None);
    }
    Ok(Some(Body::Ship {
        items,
        sites: to,
        outside,
    }))
}

/// The items that were made in an event, and from what; `None` where it has no transformationID and lacks an input or
/// an output.
pub(crate) fn make_at(
    alloc: Global,
    sites: &Sites,
    rows: &[PartRow],
    at: &mut usize,
    event: u64,
    id: Option<PlainText>,
) -> Result<Option<Body>, AllocError>
    requires within { at.old ≤ length rows.now }
    requires plain { IsIdentifier id }
    ensures { IfOk result (λ body. IsBodyAnswer sites.now event
        (pos 2) id rows.now at.old at.new body) }
{
    let ins: Sequence<Epc> = list_at(alloc, sites, rows, at, list(event, INPUT, MEMBERS))?;
    if id.is_none() && ins.is_empty() {
        return Ok(None);
    }
    let outs: Sequence<Epc> = list_at(alloc, sites, rows, at, list(event, OUTPUT, MEMBERS))?;
    if id.is_none() && outs.is_empty() {
        return Ok(None);
    }
    Ok(Some(Body::Make { id, ins, outs }))
}

/// A list of an event.
fn list(event: u64, role: u64, most: u64) -> ListKey
    ensures { result ≡ record { event = event; role = role; most = most } }
{
    ListKey { event, role, most }
}
