//! What is known of the inputs and outputs of a transformation's captured parts, where what is quarantined is closed
//! inside the site, without going through them.
ghost use Rattle.std.specs.Prelude.{◌≡◌, true, Any, Some, Contains, IfOk, IfSome, IsTrue, slice_get};
ghost use Rattle.std.specs.BTreeSet.{contains};
ghost use Rattle.std.specs.List.{list_all, list_any};
ghost use Rattle.frame_core.specs.Identifiers.{recall_cmp};
ghost use Rattle.trace_core.specs.Pairs.{GivesOut, make_id};
ghost use Rattle.trace_core.specs.Spreads.{ins_in};
ghost use Rattle.site_core.specs.Blocks.{holds_at, CoverOutputs};
ghost use Rattle.site_core.specs.Joined.{AreParts, CoversAnOutput, GivesAt, JoinedAreCovered, TakesHeldAt};
ghost use Rattle.site_core.specs.Quarantines.{held};
ghost use Rattle.site_core.specs.Shortcuts.{IsClosedInside};

use crate::covering::holds_at_each;
use crate::holding::holders;
use crate::quarantines::Quarantine;
use crate::sources::part_id;
use epc_core::Epc;
use event_json::{Body, PlainText};
use frame_core::RecallId;
use std::alloc::{AllocError, Global};
use std::collections::BTreeSet;
use trace_core::Captured;

/// Whether the outputs of a body are known to be quarantined under each recall that holds an input of the captured
/// parts of its transformation. Such a recall holds all that these parts give out, too, so that it is enough to look
/// at the recalls of one of their outputs; `own` are recalls that hold all outputs of the body.
pub fn are_joined_covered(
    alloc: Global,
    captured: &Captured,
    quarantine: &Quarantine,
    closed: bool,
    own: &BTreeSet<RecallId>,
    body: &Body,
) -> Result<bool, AllocError>
    requires closed { closed ≡ true → IsClosedInside captured.now quarantine.now }
    requires own { CoverOutputs quarantine.now body.now own.now }
    ensures { IfOk result (λ covered. IsTrue covered
        → JoinedAreCovered captured.now quarantine.now body.now) }
{
    if !closed {
        return Ok(false);
    }
    match part_id(body) {
        Some(id) => are_outputs_covered(alloc, captured, quarantine, own, id),
        None => Ok(false),
    }
}

/// Whether the recalls that hold an output of a transformation are among these.
fn are_outputs_covered(
    alloc: Global,
    captured: &Captured,
    quarantine: &Quarantine,
    own: &BTreeSet<RecallId>,
    id: &PlainText,
) -> Result<bool, AllocError>
    ensures { IfOk result (λ covered. IsTrue covered
        → CoversAnOutput captured.now.events quarantine.now id.now own.now) }
{
    match an_output(captured, id)? {
        Some(item) => {
            let recalls = holders(alloc, quarantine, item)?;
            Ok(has_each(own, &recalls))
        }
        None => Ok(false),
    }
}

/// Whether each of the recalls is in the set.
fn has_each(found: &BTreeSet<RecallId>, recalls: &[RecallId]) -> bool
    ensures { result ≡ list_all (λ r. contains recall_cmp found.now r) recalls.now }
{
    recalls.iter().all(|recall| found.contains(recall))
}

/// An output of a transformation: the first one of the first captured part that has one.
fn an_output<'a>(captured: &'a Captured, id: &PlainText) -> Result<Option<&'a Epc>, AllocError>
    ensures { IfOk result (λ item. IfSome item (λ o. Any (λ e. (make_id e.body ≡ Some id.now)
        × GivesOut o.now e.body) captured.now.events)) }
{
    let places = captured.parts_of(id)?;
    for place in &places {
        if let Some(item) = output_at(captured, *place) {
            return Ok(Some(item));
        }
    }
    Ok(None)
}

/// The first output of the event at a place.
fn output_at(captured: &Captured, place: usize) -> Option<&Epc>
    ensures { IfSome result (λ o. GivesAt (slice_get captured.now.events place) o.now) }
{
    match captured.event(place) {
        Some(event) => first_output(event.body()),
        None => None,
    }
}

/// The first output of a transformation.
pub fn first_output(body: &Body) -> Option<&Epc>
    ensures { IfSome result (λ o. GivesOut o.now body.now) }
{
    match body {
        Body::Make { outs, .. } => outs.as_slice().first(),
        _ => None,
    }
}

/// Whether all outputs of the parts of a transformation at these places are quarantined under a recall. Where the last
/// one takes in what is quarantined under it, so are all that they give out; else each is looked up.
pub fn holds_parts(
    captured: &Captured,
    quarantine: &Quarantine,
    closed: bool,
    recall: RecallId,
    places: &[usize],
) -> bool
    requires closed { closed ≡ true → IsClosedInside captured.now quarantine.now }
    ensures { IsTrue result → AreParts captured.now.events places.now
        → list_all (λ k. holds_at quarantine.now (slice_get captured.now.events k) recall)
        places.now ≡ true }
{
    if closed {
        if takes_held_last(captured, quarantine, recall, places) {
            return true;
        }
    }
    holds_at_each(captured, quarantine, recall, places)
}

/// Whether the event at the last of the places takes in what is quarantined under the recall.
fn takes_held_last(
    captured: &Captured,
    quarantine: &Quarantine,
    recall: RecallId,
    places: &[usize],
) -> bool
    ensures { IsTrue result → Any (λ k.
        TakesHeldAt (slice_get captured.now.events k) quarantine.now recall) places.now }
{
    match places.last() {
        Some(place) => takes_held_at(captured, quarantine, recall, *place),
        None => false,
    }
}

/// Whether the event at a place takes in what is quarantined under the recall.
fn takes_held_at(
    captured: &Captured,
    quarantine: &Quarantine,
    recall: RecallId,
    place: usize,
) -> bool
    ensures { IsTrue result
        → TakesHeldAt (slice_get captured.now.events place) quarantine.now recall }
{
    match captured.event(place) {
        Some(event) => takes_held(quarantine, recall, event.body()),
        None => false,
    }
}

/// Whether a transformation takes in what is quarantined under the recall.
fn takes_held(quarantine: &Quarantine, recall: RecallId, body: &Body) -> bool
    ensures { result ≡ list_any (λ i. held quarantine.now recall i) (ins_in body.now) }
{
    match body {
        Body::Make { ins, .. } => ins
            .as_slice()
            .iter()
            .any(|item| quarantine.holds(recall, item)),
        _ => false,
    }
}
