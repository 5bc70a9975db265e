//! By what an event that is no transformation is blocked: what it newly sent to other sites is looked through.
ghost use Rattle.std.specs.Prelude.{◌≡◌, ◌++◌, ◌∷◌, [], List, IfOk, option_map};
ghost use Rattle.event_json.specs.Events.{Content};
ghost use Rattle.site_core.specs.Blocks.{IsMaking, IsFirstBlockOf};
ghost use Rattle.site_core.specs.SentBlocks.{IsHeldAway, IsLeastHolder, IsLeastSent, IsLesser};

use crate::holding::{holders, is_held};
use crate::quarantines::Quarantine;
use epc_core::Epc;
use frame_core::RecallId;
use std::alloc::{AllocError, Global};
use std::cmp::Ordering;
use trace_core::{Captured, Sending};

/// The least item, and then the least recall, by which the last event, no transformation, would have been blocked.
pub fn sent_block(
    alloc: Global,
    captured: &Captured,
    quarantine: &Quarantine,
) -> Result<Option<(RecallId, Epc)>, AllocError>
    ensures { IfOk result (λ block. (before : List Content) (e : Content)
        → captured.now.events ≡ before ++ e ∷ [] → (IsMaking e.body → ⊥)
        → IsFirstBlockOf (record captured.now { events = before }) quarantine.now e block) }
{
    if quarantine.is_empty() {
        return Ok(None);
    }
    match least_sent(captured, quarantine) {
        Some(item) => least_holder(alloc, quarantine, item),
        None => Ok(None),
    }
}

/// The least recall under which an item is quarantined, with the item.
fn least_holder(
    alloc: Global,
    quarantine: &Quarantine,
    item: &Epc,
) -> Result<Option<(RecallId, Epc)>, AllocError>
    ensures { IfOk result (IsLeastHolder quarantine.now item.now) }
{
    let recalls = holders(alloc, quarantine, item)?;
    match recalls.first() {
        Some(recall) => Ok(Some((*recall, item.copy(alloc)?))),
        None => Ok(None),
    }
}

/// The least of the quarantined items that the last event newly sent to another site.
fn least_sent<'c>(captured: &'c Captured, quarantine: &Quarantine) -> Option<&'c Epc>
    ensures { (before : List Content) (e : Content) → captured.now.events ≡ before ++ e ∷ []
        → IsLeastSent (record captured.now { events = before }) quarantine.now e
        (option_map (λ i. i.now) result) }
{
    let mut least = None;
    for sending in captured.last_sent() {
        if let Some(item) = held_away(captured, quarantine, sending) {
            least = Some(lesser(least, item));
        }
    }
    least
}

/// The item of a sending to another site, where it is quarantined.
fn held_away<'c>(
    captured: &'c Captured,
    quarantine: &Quarantine,
    sending: &Sending,
) -> Option<&'c Epc>
    ensures { IsHeldAway captured.now quarantine.now sending.now (option_map (λ i. i.now) result) }
{
    if sending.site == captured.me() {
        return None;
    }
    match captured.item(sending.item) {
        Some(item) if is_held(quarantine, item) => Some(item),
        _ => None,
    }
}

/// The lesser of two items, or the one that there is.
fn lesser<'c>(least: Option<&'c Epc>, item: &'c Epc) -> &'c Epc
    ensures { IsLesser (option_map (λ i. i.now) least.entry) item.now result.now }
{
    match least {
        Some(other) => match other.cmp(item) {
            Ordering::Greater => item,
            _ => other,
        },
        None => item,
    }
}
