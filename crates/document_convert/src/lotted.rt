//! A document with the lots of its events among their items.

ghost use Rattle.std.specs.Prelude.{◌≡◌, ◌++◌, IfOk, OnOk, bytes_eq, codes, map};
ghost use Rattle.std.specs.List.{flat_map, list_any};
ghost use Rattle.serde_json.specs.View.{items_view, view};
ghost use Rattle.event_json.specs.Checks.{type_text};
ghost use Rattle.event_json.specs.Untraced.{in_order, is_text};
ghost use Rattle.document_convert.specs.Lotted.{bare_with_lots, converted_event, document_with_lots, events_with_lots, has_lots, lotted};
ghost use Rattle.document_convert.specs.SeenLots.{seen_lots};
ghost use Rattle.document_convert.specs.UnitLots.{unit_lots};

use crate::documents::document_around;
use crate::event_lists::listed;
use crate::lot_events::{has_unit_lots, push_lot_events, with_made};
use crate::quantities::{has_quantities, with_its_lots};
use crate::respelling::{Speller, spells_otherwise_by, with_spelled};
use crate::types::type_text;
use crate::unit_lots::{UnitLot, unit_lots};
use serde_json::{Value, json};
use std::alloc::{AllocError, Global};

/// An event with the lots of its quantities among its items, and all lots there by their one spelling.
fn lotted(alloc: Global, event: Value) -> Result<Value, AllocError>
    ensures { IfOk result (λ found. view found ≡ lotted (view event)) }
{
    let event = with_its_lots(alloc, event)?;
    with_spelled(alloc, Speller::Lots, event)
}

/// Whether an event has quantities, spells a lot otherwise, or tells the lot of units.
fn has_lots(alloc: Global, event: &Value) -> Result<bool, AllocError>
    ensures { IfOk result (λ has. has ≡ has_lots (view event.now)) }
{
    if has_quantities(event) || spells_otherwise_by(alloc, Speller::Lots, event)? {
        return Ok(true);
    }
    has_unit_lots(alloc, event)
}

/// Whether an event of a list does.
fn have_lots(alloc: Global, list: &[Value]) -> Result<bool, AllocError>
    ensures { IfOk result (λ have. have ≡ list_any has_lots (in_order (items_view list.now))) }
{
    for event in list.iter() {
        if has_lots(alloc, event)? {
            return Ok(true);
        }
    }
    Ok(false)
}

/// An event as it is written, of which these are the lots of its units.
#[tactic(auto, unfolding(crate::specs::Lotted::converted_event))]
fn converted_event(alloc: Global, event: &Value, lots: &[UnitLot<'_>]) -> Result<Value, AllocError>
    requires { seen_lots lots.now ≡ unit_lots (view event.now) }
    ensures { IfOk result (λ found. view found ≡ converted_event (view event.now)) }
{
    let found = lotted(alloc, event.clone()?)?;
    with_made(alloc, found, lots)
}

/// Adds an event with its lots, and behind it the events that lead from each lot of its units to these.
fn push_event(alloc: Global, events: &mut Vec<Value>, event: &Value) -> Result<(), AllocError>
    ensures { OnOk result (map view events.new.items
        ≡ map view events.old.items ++ events_with_lots (view event.now)) }
{
    let lots = unit_lots(alloc, event)?;
    let converted = converted_event(alloc, event, lots.as_slice())?;
    events.push(converted)?;
    push_lot_events(alloc, events, event, lots.as_slice())?;
    Ok(())
}

/// The events of a list with their lots.
fn events_with_lots(alloc: Global, list: &[Value]) -> Result<Vec<Value>, AllocError>
    ensures { IfOk result (λ events. map view events.items
        ≡ flat_map events_with_lots (in_order (items_view list.now))) }
{
    let mut events = Vec::new(alloc);
    for value in list.iter() {
        push_event(alloc, &mut events, value)?;
    }
    Ok(events)
}

/// The document of an event alone.
fn bare_with_lots(alloc: Global, event: Value) -> Result<Value, AllocError>
    ensures { IfOk result (λ found. view found ≡ bare_with_lots (view event)) }
{
    if !has_unit_lots(alloc, &event)? {
        return lotted(alloc, event);
    }
    let mut events = Vec::new(alloc);
    push_event(alloc, &mut events, &event)?;
    let empty = json!(in alloc; {})?;
    document_around(alloc, empty, events)
}

/// Whether a value is an EPCISDocument by its member `type`.
pub(crate) fn is_document(value: &Value) -> bool
    ensures { result ≡ is_text (λ text. bytes_eq text (codes "EPCISDocument"))
        (type_text (view value.now)) }
{
    match type_text(value) {
        Some(text) => text == "EPCISDocument",
        None => false,
    }
}

/// A document of GS1 EPCIS 2.0, as [`document_in`](crate::document_in) finds it, with the lots of its events among
/// their items (section 7.4).
///
/// Each quantity element whose `epcClass` spells a lot, as [`lot_of`](crate::lot_of) reads it, adds the lot's one
/// spelling behind the items of the list: `quantityList` of an ObjectEvent to `epcList`, `inputQuantityList` and
/// `outputQuantityList` of a TransformationEvent to `inputEPCList` and `outputEPCList`, `childQuantityList` of an
/// AggregationEvent to `childEPCs`; one lot for each element, in order, and the list of quantities goes. An event keeps
/// its quantities where one of their elements has no lot, and where one of these lists is no array. Then each item of
/// these lists, and of `parentID`, that spells a lot is written by its one spelling. All other items stay, in order,
/// and so do all other members.
///
/// Behind an event whose `ilmd` names lots (section 7.3) stand TransformationEvents, one for each lot and each GTIN of
/// its units, from the lot to these units: the units in `epcList` of an ObjectEvent, and in `outputEPCList` of a
/// TransformationEvent, which has the lots behind them, too. They have the event's time, and its `eventID` with `#lot1`,
/// `#lot2` .. behind it, where that has at most 512 bytes. An event alone becomes an EPCISDocument then.
///
/// A document whose events have no quantities, spell no lot otherwise and tell none of units stays as it is, and any
/// other has all that stands beside its body.
///
/// # Errors
/// Where memory runs out.
#[tactic(auto, unfolding(crate::specs::Lotted::document_with_lots))]
pub fn document_with_lots(alloc: Global, document: Value) -> Result<Value, AllocError>
    // Each lot of an event's quantities stands behind the items of the list of the same role, which all stay, in order,
    // and no other member changes; or the event keeps its quantities, since an element has no lot or a list is none.
    // Each unit of a lot that an event's `ilmd` names has an event right behind it that leads from the lot to the unit,
    // each of these events leads from one such lot to units with its GTIN, and no other event is added. A document that
    // a capture reads stays as it is where it spells no lot otherwise, and tells none of units.
    // Not covered: that a list is longer than 1,000 items, or a document than 1,000 events, with its lots: a capture
    // refuses it then. That a capture takes the events that are added.
    ensures { IfOk result (λ found. view found ≡ document_with_lots (view document)) }
{
    if !is_document(&document) {
        return bare_with_lots(alloc, document);
    }
    let Some(list) = listed(&document) else {
        return Ok(document);
    };
    if !have_lots(alloc, list)? {
        return Ok(document);
    }
    let events = events_with_lots(alloc, list)?;
    document_around(alloc, document, events)
}
