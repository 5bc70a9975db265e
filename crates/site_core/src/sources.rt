//! The items from which a transformation that comes would give new pairs.
ghost use Rattle.std.specs.Prelude.{◌≡◌, IfOk, OnOk, ℕ, List, Some, Contains, true, option_map, slice_get};
ghost use Rattle.frame_core.specs.Numbers.{Recall};
ghost use Rattle.trace_core.specs.Pairs.{make_id};
ghost use Rattle.trace_core.specs.Spreads.{AreAscendingItems, ins_in};
ghost use Rattle.site_core.specs.Blocks.{CoverOutputs, IsMaking};
ghost use Rattle.site_core.specs.Capturing.{IsBlockedBy};
ghost use Rattle.site_core.specs.Shortcuts.{IsClosedInside};
ghost use Rattle.site_core.specs.Sources.{FindsAlso, FindsInputsAt, FindsParts, FindsIfInput, FindsHeldInputs, FindsJoined, FindsUncovered, FindsGiving, has_outputs};

use crate::joined::are_joined_covered;
use crate::quarantines::Quarantine;
use epc_core::Epc;
use event_json::{Body, Event, PlainText};
use frame_core::RecallId;
use std::alloc::{AllocError, Global};
use std::collections::BTreeSet;
use trace_core::{Captured, keys_in_order};

/// All quarantined items by which a transformation is blocked, and maybe others, ascending. Of a part of a
/// transformation with an id that has outputs they are looked for among what is quarantined, or among the inputs of the
/// captured parts of the transformation, whichever are fewer; but not where these are known to lead to what is
/// quarantined alone. `own` are recalls under which all outputs of the event are quarantined.
pub fn sources(
    alloc: Global,
    captured: &Captured,
    quarantine: &Quarantine,
    closed: bool,
    own: &BTreeSet<RecallId>,
    event: &Event,
) -> Result<Vec<Epc>, AllocError>
    requires making { IsMaking event.now.body }
    requires closed { closed ≡ true → IsClosedInside captured.now quarantine.now }
    requires own { CoverOutputs quarantine.now event.now.body own.now }
    ensures ascending { IfOk result (λ items. AreAscendingItems items.items) }
    ensures all { IfOk result (λ items. (i : List ℕ) (r : Recall)
        → IsBlockedBy captured.now quarantine.now event.now i r → Contains items.items i) }
{
    let mut found = BTreeSet::new(alloc);
    add_inputs(alloc, event.body(), &mut found)?;
    add_if_giving(
        alloc,
        captured,
        quarantine,
        closed,
        own,
        event.body(),
        &mut found,
    )?;
    keys_in_order(alloc, found)
}

/// Adds the quarantined inputs of the captured parts of the body's transformation, and maybe others of them, where the
/// body has outputs: without, it makes nothing of them.
fn add_if_giving(
    alloc: Global,
    captured: &Captured,
    quarantine: &Quarantine,
    closed: bool,
    own: &BTreeSet<RecallId>,
    body: &Body,
    found: &mut BTreeSet<Epc>,
) -> Result<(), AllocError>
    requires closed { closed ≡ true → IsClosedInside captured.now quarantine.now }
    requires own { CoverOutputs quarantine.now body.now own.now }
    ensures { OnOk result (FindsGiving captured.now.events quarantine.now body.now found.old
        found.new) }
{
    if has_outputs(body) {
        add_uncovered(alloc, captured, quarantine, closed, own, body, found)
    } else {
        Ok(())
    }
}

/// Adds the quarantined inputs of the captured parts of the body's transformation, and maybe others of them, unless
/// each is quarantined under recalls that hold all outputs of the body, too.
fn add_uncovered(
    alloc: Global,
    captured: &Captured,
    quarantine: &Quarantine,
    closed: bool,
    own: &BTreeSet<RecallId>,
    body: &Body,
    found: &mut BTreeSet<Epc>,
) -> Result<(), AllocError>
    requires closed { closed ≡ true → IsClosedInside captured.now quarantine.now }
    requires own { CoverOutputs quarantine.now body.now own.now }
    ensures { OnOk result (FindsUncovered captured.now.events quarantine.now body.now found.old
        found.new) }
{
    if are_joined_covered(alloc, captured, quarantine, closed, own, body)? {
        return Ok(());
    }
    add_joined(alloc, captured, quarantine, body, found)
}

/// Whether a transformation has outputs.
fn has_outputs(body: &Body) -> bool
    ensures { result ≡ has_outputs body.now }
{
    match body {
        Body::Make { outs, .. } => !outs.is_empty(),
        _ => false,
    }
}

/// Adds the quarantined inputs of the captured parts of the body's transformation, and maybe others of them.
fn add_joined(
    alloc: Global,
    captured: &Captured,
    quarantine: &Quarantine,
    body: &Body,
    found: &mut BTreeSet<Epc>,
) -> Result<(), AllocError>
    ensures { OnOk result (FindsJoined captured.now.events quarantine.now body.now found.old
        found.new) }
{
    match part_id(body) {
        Some(id) => add_held_inputs(alloc, captured, quarantine, id, found),
        None => Ok(()),
    }
}

/// Adds the quarantined inputs of the captured parts of a transformation, and maybe others of their inputs.
/// It goes through what is quarantined, or through these parts where there are no more of them.
fn add_held_inputs(
    alloc: Global,
    captured: &Captured,
    quarantine: &Quarantine,
    id: &PlainText,
    found: &mut BTreeSet<Epc>,
) -> Result<(), AllocError>
    ensures { OnOk result (FindsHeldInputs captured.now.events quarantine.now id.now found.old
        found.new) }
{
    if quarantine.item_count() < captured.part_count(id) {
        add_inputs_held(alloc, captured, quarantine, id, found)
    } else {
        add_parts(alloc, captured, id, found)
    }
}

/// Adds those of the quarantined items that captured parts of a transformation take in.
fn add_inputs_held(
    alloc: Global,
    captured: &Captured,
    quarantine: &Quarantine,
    id: &PlainText,
    found: &mut BTreeSet<Epc>,
) -> Result<(), AllocError>
    ensures { OnOk result (FindsHeldInputs captured.now.events quarantine.now id.now found.old
        found.new) }
{
    for (item, _recalls) in quarantine.by_item() {
        add_if_input(alloc, captured, id, item, found)?;
    }
    Ok(())
}

/// Adds an item if a captured part of a transformation takes it in.
fn add_if_input(
    alloc: Global,
    captured: &Captured,
    id: &PlainText,
    item: &Epc,
    found: &mut BTreeSet<Epc>,
) -> Result<(), AllocError>
    ensures { OnOk result (FindsIfInput captured.now.events id.now item.now found.old found.new) }
{
    if captured.is_part_input(id, item) {
        found.insert(item.copy(alloc)?)?;
    }
    Ok(())
}

/// Adds what the captured parts of a transformation take in.
fn add_parts(
    alloc: Global,
    captured: &Captured,
    id: &PlainText,
    found: &mut BTreeSet<Epc>,
) -> Result<(), AllocError>
    ensures { OnOk result (FindsParts (Some id.now) captured.now.events found.old found.new) }
{
    let places = captured.parts_of(id)?;
    for place in &places {
        add_inputs_at(alloc, captured, *place, found)?;
    }
    Ok(())
}

/// Adds what the event at a place takes in.
fn add_inputs_at(
    alloc: Global,
    captured: &Captured,
    place: usize,
    found: &mut BTreeSet<Epc>,
) -> Result<(), AllocError>
    ensures { OnOk result (FindsInputsAt (slice_get captured.now.events place) found.old
        found.new) }
{
    match captured.event(place) {
        Some(event) => add_inputs(alloc, event.body(), found),
        None => Ok(()),
    }
}

/// The id of a transformation, where it has one.
pub fn part_id(body: &Body) -> Option<&PlainText>
    ensures { option_map (λ id. id.now) result ≡ make_id body.now }
{
    match body {
        Body::Make { id, .. } => id.as_ref(),
        _ => None,
    }
}

/// Adds the items that an event takes in.
fn add_inputs(alloc: Global, body: &Body, found: &mut BTreeSet<Epc>) -> Result<(), AllocError>
    ensures { OnOk result (FindsAlso found.old found.new (ins_in body.now)) }
{
    match body {
        Body::Make { ins, .. } => add_all(alloc, ins.as_slice(), found),
        _ => Ok(()),
    }
}

/// Adds items.
fn add_all(alloc: Global, items: &[Epc], found: &mut BTreeSet<Epc>) -> Result<(), AllocError>
    ensures { OnOk result (FindsAlso found.old found.new items.now) }
{
    for item in items {
        found.insert(item.copy(alloc)?)?;
    }
    Ok(())
}
