//! The recalls under which all outputs of a transformation are quarantined, found once for each event.
ghost use Rattle.std.specs.Prelude.{◌≡◌, IfOk, OnOk, Some, slice_get, true};
ghost use Rattle.std.specs.BTreeSet.{contains};
ghost use Rattle.std.specs.List.{list_all};
ghost use Rattle.frame_core.specs.Identifiers.{recall_cmp};
ghost use Rattle.trace_core.specs.Pairs.{make_id};
ghost use Rattle.site_core.specs.Blocks.{holds_at, holds_outputs, is_covered, CoverOutputs, CoverParts, Covers, HasAllParts};
ghost use Rattle.site_core.specs.Joined.{AreParts};
ghost use Rattle.site_core.specs.Quarantines.{held};
ghost use Rattle.site_core.specs.Shortcuts.{IsClosedInside};

use crate::holding::holders;
use crate::joined::{first_output, holds_parts};
use crate::quarantines::Quarantine;
use crate::sources::part_id;
use epc_core::Epc;
use event_json::{Body, Event, PlainText};
use frame_core::RecallId;
use std::alloc::{AllocError, Global};
use std::collections::BTreeSet;
use trace_core::Captured;

/// Recalls under which all outputs of a transformation are quarantined.
#[derive(Drop)]
pub struct Covering {
    /// All outputs of the event itself: each such recall, where it has outputs.
    pub own: BTreeSet<RecallId>,
    /// Those, and all outputs of the captured parts of its id: each such recall that holds a source which none of
    /// these parts takes in. From such a source the event leads to the outputs of all parts.
    pub all: BTreeSet<RecallId>,
}

impl Covering {
    /// The recalls of an event that leads from these items on, and maybe others of them, with those of its own
    /// outputs.
    pub fn of(
        alloc: Global,
        captured: &Captured,
        quarantine: &Quarantine,
        closed: bool,
        own: BTreeSet<RecallId>,
        event: &Event,
        items: &[Epc],
    ) -> Result<Covering, AllocError>
        requires closed { closed ≡ true → IsClosedInside captured.now quarantine.now }
        requires own { CoverOutputs quarantine.now event.now.body own }
        ensures { IfOk result (Covers captured.now.events quarantine.now event.now.body) }
    {
        let all = covering_all(alloc, captured, quarantine, closed, event, items)?;
        Ok(Covering { own, all })
    }

    /// Whether under each of the recalls all outputs of all parts are found to be quarantined.
    pub fn has_each(&self, recalls: &[RecallId]) -> bool
        ensures { result ≡ list_all (λ r. contains recall_cmp self.now.all r) recalls.now }
    {
        recalls.iter().all(|recall| self.all.contains(recall))
    }
}

/// Recalls under which all outputs of a transformation are quarantined: all such recalls, where it has outputs.
pub fn covering_recalls(
    alloc: Global,
    quarantine: &Quarantine,
    event: &Event,
) -> Result<BTreeSet<RecallId>, AllocError>
    ensures { IfOk result (CoverOutputs quarantine.now event.now.body) }
{
    let body = event.body();
    match first_output(body) {
        Some(item) => {
            let recalls = holders(alloc, quarantine, item)?;
            covering_among(alloc, quarantine, body, &recalls)
        }
        None => Ok(BTreeSet::new(alloc)),
    }
}

/// Those of the recalls under which all outputs of a body are quarantined.
fn covering_among(
    alloc: Global,
    quarantine: &Quarantine,
    body: &Body,
    recalls: &[RecallId],
) -> Result<BTreeSet<RecallId>, AllocError>
    ensures { IfOk result (CoverOutputs quarantine.now body.now) }
{
    let mut found = BTreeSet::new(alloc);
    for recall in recalls {
        add_if_covering(quarantine, *recall, body, &mut found)?;
    }
    Ok(found)
}

/// Adds a recall if all outputs of a body are quarantined under it.
fn add_if_covering(
    quarantine: &Quarantine,
    recall: RecallId,
    body: &Body,
    found: &mut BTreeSet<RecallId>,
) -> Result<(), AllocError>
    ensures { OnOk result (CoverOutputs quarantine.now body.now found.old
        → CoverOutputs quarantine.now body.now found.new) }
{
    if holds_outputs(quarantine, recall, body) {
        found.insert(recall)?;
    }
    Ok(())
}

/// Recalls under which all outputs of all parts of a transformation are quarantined: of those that hold an item which
/// no captured part takes in.
fn covering_all(
    alloc: Global,
    captured: &Captured,
    quarantine: &Quarantine,
    closed: bool,
    event: &Event,
    items: &[Epc],
) -> Result<BTreeSet<RecallId>, AllocError>
    requires closed { closed ≡ true → IsClosedInside captured.now quarantine.now }
    ensures { IfOk result (CoverParts captured.now.events quarantine.now event.now.body) }
{
    let body = event.body();
    match part_id(body) {
        Some(id) => {
            let recalls = new_holders(alloc, captured, quarantine, id, items)?;
            covering_parts(alloc, captured, quarantine, closed, id, body, &recalls)
        }
        None => Ok(BTreeSet::new(alloc)),
    }
}

/// The recalls that hold one of the items which no captured part of a transformation takes in; none where no part is
/// captured.
fn new_holders(
    alloc: Global,
    captured: &Captured,
    quarantine: &Quarantine,
    id: &PlainText,
    items: &[Epc],
) -> Result<BTreeSet<RecallId>, AllocError> {
    let mut found = BTreeSet::new(alloc);
    if captured.part_count(id) == 0 {
        return Ok(found);
    }
    for item in items {
        add_new_holders(captured, quarantine, id, item, &mut found)?;
    }
    Ok(found)
}

/// Adds the recalls that hold an item, unless a captured part of the transformation takes it in.
fn add_new_holders(
    captured: &Captured,
    quarantine: &Quarantine,
    id: &PlainText,
    item: &Epc,
    found: &mut BTreeSet<RecallId>,
) -> Result<(), AllocError> {
    match quarantine.recalls_of(item) {
        Some(recalls) if !captured.is_part_input(id, item) => add_recalls(recalls, found),
        _ => Ok(()),
    }
}

/// Adds recalls.
fn add_recalls(
    recalls: &BTreeSet<RecallId>,
    found: &mut BTreeSet<RecallId>,
) -> Result<(), AllocError> {
    for recall in recalls {
        found.insert(*recall)?;
    }
    Ok(())
}

/// Those of the recalls under which all outputs of a body, and of the captured parts of its id, are quarantined.
fn covering_parts(
    alloc: Global,
    captured: &Captured,
    quarantine: &Quarantine,
    closed: bool,
    id: &PlainText,
    body: &Body,
    recalls: &BTreeSet<RecallId>,
) -> Result<BTreeSet<RecallId>, AllocError>
    requires closed { closed ≡ true → IsClosedInside captured.now quarantine.now }
    requires named { make_id body.now ≡ Some id.now }
    ensures { IfOk result (CoverParts captured.now.events quarantine.now body.now) }
{
    let mut found = BTreeSet::new(alloc);
    if recalls.is_empty() {
        return Ok(found);
    }
    let places = captured.parts_of(id)?;
    for recall in recalls {
        add_if_held_at(
            captured, quarantine, closed, *recall, body, &places, &mut found,
        )?;
    }
    Ok(found)
}

/// Adds a recall if all outputs of a body, and of the events at the places, are quarantined under it.
fn add_if_held_at(
    captured: &Captured,
    quarantine: &Quarantine,
    closed: bool,
    recall: RecallId,
    body: &Body,
    places: &[usize],
    found: &mut BTreeSet<RecallId>,
) -> Result<(), AllocError>
    requires closed { closed ≡ true → IsClosedInside captured.now quarantine.now }
    ensures { OnOk result (HasAllParts captured.now.events body.now places.now
        → AreParts captured.now.events places.now
        → CoverParts captured.now.events quarantine.now body.now found.old
        → CoverParts captured.now.events quarantine.now body.now found.new) }
{
    if holds_outputs(quarantine, recall, body) {
        if holds_parts(captured, quarantine, closed, recall, places) {
            found.insert(recall)?;
        }
    }
    Ok(())
}

/// Whether all outputs of the events at the places are quarantined under a recall.
pub fn holds_at_each(
    captured: &Captured,
    quarantine: &Quarantine,
    recall: RecallId,
    places: &[usize],
) -> bool
    ensures { result
        ≡ list_all (λ k. holds_at quarantine.now (slice_get captured.now.events k) recall)
        places.now }
{
    places
        .iter()
        .all(|place| holds_at(captured, quarantine, recall, *place))
}

/// Whether all outputs of the event at a place are quarantined under a recall.
fn holds_at(captured: &Captured, quarantine: &Quarantine, recall: RecallId, place: usize) -> bool
    ensures { result ≡ holds_at quarantine.now (slice_get captured.now.events place) recall }
{
    match captured.event(place) {
        Some(event) => holds_outputs(quarantine, recall, event.body()),
        None => true,
    }
}

/// Whether all outputs of a body are found to be quarantined under each of the recalls: by a look-up of each.
pub fn each_is_covered(covering: &BTreeSet<RecallId>, recalls: &[RecallId], body: &Body) -> bool
    ensures { result ≡ list_all (is_covered covering.now body.now) recalls.now }
{
    recalls
        .iter()
        .all(|recall| is_covered(covering, *recall, body))
}

/// Whether all outputs of a body are found to be quarantined under a recall: there are none, or the recall is among
/// those that were found.
fn is_covered(covering: &BTreeSet<RecallId>, recall: RecallId, body: &Body) -> bool
    ensures { result ≡ is_covered covering.now body.now recall }
{
    match body {
        Body::Make { outs, .. } => outs.is_empty() || covering.contains(&recall),
        _ => true,
    }
}

/// Whether all outputs of a body are quarantined under a recall.
fn holds_outputs(quarantine: &Quarantine, recall: RecallId, body: &Body) -> bool
    ensures { result ≡ holds_outputs quarantine.now body.now recall }
{
    match body {
        Body::Make { outs, .. } => holds_all(quarantine, recall, outs.as_slice()),
        _ => true,
    }
}

/// Whether each of the items is quarantined under a recall.
fn holds_all(quarantine: &Quarantine, recall: RecallId, items: &[Epc]) -> bool
    ensures { result ≡ list_all (λ j. held quarantine.now recall j) items.now }
{
    items.iter().all(|item| quarantine.holds(recall, item))
}
