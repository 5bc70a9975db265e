//! By what a transformation is blocked, which is found before it is added.
ghost use Rattle.std.specs.Prelude.{◌≡◌, ◌==◌, ◌&&◌, not, true, IfOk, IsTrue, Contains};
ghost use Rattle.std.specs.List.{list_any};
ghost use Rattle.frame_core.specs.Numbers.{Recall};
ghost use Rattle.site_core.specs.Blocks.{IsMaking, IsLeastBlock, IsBlockFrom, IsFirstBlockOf, IsOldInput, JoinsAsPart, Covers};
ghost use Rattle.site_core.specs.Capturing.{IsBlockedBy};
ghost use Rattle.site_core.specs.Quarantines.{held};
ghost use Rattle.site_core.specs.Shortcuts.{IsClosedInside};

use crate::covering::{Covering, covering_recalls, each_is_covered};
use crate::holding::holders;
use crate::quarantines::Quarantine;
use crate::sources::{part_id, sources};
use epc_core::Epc;
use event_json::{Body, Event, PlainText, SiteNo};
use frame_core::RecallId;
use std::alloc::{AllocError, Global};
use trace_core::{Captured, Pair};

/// The least item, and then the least recall, by which a transformation is blocked: it would lead from the item,
/// which is quarantined under the recall, to a pair that isn't at this site and quarantined under it. `closed` tells
/// whether what is quarantined is known to be closed inside the site.
pub fn first_block(
    alloc: Global,
    captured: &Captured,
    quarantine: &Quarantine,
    closed: bool,
    event: &Event,
) -> Result<Option<(RecallId, Epc)>, AllocError>
    requires making { IsMaking event.now.body }
    requires closed { closed ≡ true → IsClosedInside captured.now quarantine.now }
    ensures { IfOk result (λ block. IsFirstBlockOf captured.now quarantine.now event.now block) }
{
    if quarantine.is_empty() {
        return Ok(None);
    }
    let own = covering_recalls(alloc, quarantine, event)?;
    let items = sources(alloc, captured, quarantine, closed, &own, event)?;
    let covering = Covering::of(alloc, captured, quarantine, closed, own, event, &items)?;
    for item in items {
        match block_from(alloc, captured, quarantine, event, &covering, item)? {
            Some(block) => return Ok(Some(block)),
            None => {}
        }
    }
    Ok(None)
}

/// The least recall by which a transformation is blocked from the item, with the item.
fn block_from(
    alloc: Global,
    captured: &Captured,
    quarantine: &Quarantine,
    event: &Event,
    covering: &Covering,
    item: Epc,
) -> Result<Option<(RecallId, Epc)>, AllocError>
    requires making { IsMaking event.now.body }
    requires covers { Covers captured.now.events quarantine.now event.now.body covering.now }
    ensures { IfOk result (λ block. IsBlockFrom captured.now quarantine.now event.now item block) }
{
    match least_recall(alloc, captured, quarantine, event, covering, &item)? {
        Some(recall) => Ok(Some((recall, item))),
        None => Ok(None),
    }
}

/// The least recall by which a transformation is blocked from the item.
fn least_recall(
    alloc: Global,
    captured: &Captured,
    quarantine: &Quarantine,
    event: &Event,
    covering: &Covering,
    item: &Epc,
) -> Result<Option<RecallId>, AllocError>
    requires making { IsMaking event.now.body }
    requires covers { Covers captured.now.events quarantine.now event.now.body covering.now }
    ensures { IfOk result (λ recall. IsLeastBlock captured.now quarantine.now event.now item.now
        recall) }
{
    let recalls = holders(alloc, quarantine, item)?;
    if recalls.is_empty() {
        return Ok(None);
    }
    if stays_inside(captured, quarantine, event, covering, item, &recalls) {
        return Ok(None);
    }
    if covering.has_each(&recalls) {
        return Ok(None);
    }
    let targets = captured.new_made(event, item)?;
    for recall in recalls {
        if leads_out(captured.me(), quarantine, recall, &targets) {
            return Ok(Some(recall));
        }
    }
    Ok(None)
}

/// Whether a transformation leads the item to outputs of its own alone, all of which are quarantined under each
/// of the recalls. It is found by look-ups, without what the item is related to.
fn stays_inside(
    captured: &Captured,
    quarantine: &Quarantine,
    event: &Event,
    covering: &Covering,
    item: &Epc,
    recalls: &[RecallId],
) -> bool
    requires making { IsMaking event.now.body }
    requires covers { Covers captured.now.events quarantine.now event.now.body covering.now }
    ensures { IsTrue result → (r : Recall) → Contains recalls.now r
        → IsBlockedBy captured.now quarantine.now event.now item.now r → ⊥ }
{
    let body = event.body();
    joins_as_part(captured, body, item) && each_is_covered(&covering.own, recalls, body)
}

/// Whether a captured part of the body's transformation takes the item in, or none is captured, if it has an id: then
/// the outputs of those parts aren't new.
fn joins_as_part(captured: &Captured, body: &Body, item: &Epc) -> bool
    ensures { IsTrue result → JoinsAsPart captured.now body.now item.now }
{
    match part_id(body) {
        Some(id) => is_old_input(captured, id, item),
        None => true,
    }
}

/// Whether a captured part of a transformation takes the item in, or none is captured.
fn is_old_input(captured: &Captured, id: &PlainText, item: &Epc) -> bool
    ensures { IsTrue result → IsOldInput captured.now.events id.now item.now }
{
    if captured.part_count(id) == 0 {
        true
    } else {
        captured.is_part_input(id, item)
    }
}

/// Whether one of the pairs isn't at this site and quarantined there under the recall.
fn leads_out(me: SiteNo, quarantine: &Quarantine, recall: RecallId, targets: &[Pair]) -> bool
    ensures { result ≡ list_any (λ p. not (p.site == me && held quarantine.now recall p.item))
        targets.now }
{
    targets.iter().any(|pair| !(pair.site == me && quarantine.holds(recall, &pair.item)))
}
