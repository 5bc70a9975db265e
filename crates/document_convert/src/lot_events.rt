//! The events that lead from a lot to its units.

ghost use Rattle.std.specs.Prelude.{◌≡◌, ◌++◌, IfOk, OnOk, bytes_eq, codes, map, option_and_then, option_map, string_bytes};
ghost use Rattle.serde_json.specs.Find.{as_str};
ghost use Rattle.serde_json.specs.View.{view};
ghost use Rattle.event_json.specs.Checks.{type_text};
ghost use Rattle.event_json.specs.Members.{member_named};
ghost use Rattle.event_json.specs.Untraced.{is_text};
ghost use Rattle.document_convert.specs.LotEvents.{array_of, has_unit_lots, lot_event, lot_events, lot_id, spellings, transformation, with_id, with_made, with_own, with_texts};
ghost use Rattle.document_convert.specs.SeenLots.{seen_lot, seen_lots};
ghost use Rattle.document_convert.specs.UnitLots.{unit_lots};

use crate::quantities::{and_texts, list_of};
use crate::types::{member_named, type_text, with_member};
use crate::unit_lots::{UnitLot, unit_lots};
use serde_json::{Value, json};
use std::alloc::{AllocError, Global};

/// The most bytes of an identifier.
pub(crate) const MOST_BYTES: usize = 512;

/// An array of these texts.
fn array_of(alloc: Global, texts: &[&str]) -> Result<Value, AllocError>
    ensures { IfOk result (λ v. view v ≡ array_of (map (λ t. t.now) texts.now)) }
{
    let mut list = Vec::new(alloc);
    for text in texts {
        list.push(Value::String(String::from_str(alloc, text)?))?;
    }
    Ok(Value::Array(list))
}

/// The event that leads from a lot to its units.
fn transformation(alloc: Global, lot: &str, units: &[&str]) -> Result<Value, AllocError>
    ensures { IfOk result
        (λ v. view v ≡ transformation lot.now (map (λ t. t.now) units.now)) }
{
    let ins = array_of(alloc, &[lot])?;
    let outs = array_of(alloc, units)?;
    json!(in alloc; {"inputEPCList": ins, "outputEPCList": outs, "type": "TransformationEvent"})
}

/// An event with a member as another one has it.
fn with_own(alloc: Global, event: Value, other: &Value, name: &str) -> Result<Value, AllocError>
    ensures { IfOk result (λ v. view v ≡ with_own name.now (view other.now) (view event)) }
{
    match member_named(other, name) {
        Some(value) => with_member(alloc, event, name, value.clone()?),
        None => Ok(event),
    }
}

/// The identifier of an event, where it is a text.
pub(crate) fn id_of(event: &Value) -> Option<&str>
    ensures { option_map (λ t. t.now) result
        ≡ option_and_then as_str (member_named (codes "eventID") (view event.now)) }
{
    member_named(event, "eventID")?.as_str()
}

/// The identifier of the event of an event's lot of this number, where it has one.
fn lot_id(alloc: Global, event: &Value, number: u64) -> Result<Option<String>, AllocError>
    ensures { IfOk result (λ id. option_map string_bytes id ≡ lot_id (view event.now) number) }
{
    let Some(id) = id_of(event) else {
        return Ok(None);
    };
    let id = format!(in alloc; "{id}#lot{number}")?;
    if id.len() <= MOST_BYTES {
        Ok(Some(id))
    } else {
        Ok(None)
    }
}

/// An event with this identifier.
fn with_id(alloc: Global, event: Value, id: Option<String>) -> Result<Value, AllocError>
    ensures { IfOk result (λ v. view v ≡ with_id (option_map string_bytes id) (view event)) }
{
    match id {
        Some(id) => with_member(alloc, event, "eventID", Value::String(id)),
        None => Ok(event),
    }
}

/// The event of an event's lot of this number, which happened when that did.
fn lot_event(
    alloc: Global,
    event: &Value,
    number: u64,
    lot: &UnitLot<'_>,
) -> Result<Value, AllocError>
    ensures { IfOk result
        (λ v. view v ≡ lot_event (view event.now) number (seen_lot lot.now)) }
{
    let found = transformation(alloc, lot.lot.as_str(), lot.units.as_slice())?;
    let found = with_own(alloc, found, event, "eventTime")?;
    let found = with_own(alloc, found, event, "eventTimeZoneOffset")?;
    let id = lot_id(alloc, event, number)?;
    with_id(alloc, found, id)
}

/// Adds the events of an event's lots, which are these.
pub(crate) fn push_lot_events(
    alloc: Global,
    events: &mut Vec<Value>,
    event: &Value,
    lots: &[UnitLot<'_>],
) -> Result<(), AllocError>
    requires { seen_lots lots.now ≡ unit_lots (view event.now) }
    ensures { OnOk result (map view events.new.items
        ≡ map view events.old.items ++ lot_events (view event.now)) }
{
    for (place, lot) in lots.iter().enumerate() {
        events.push(lot_event(alloc, event, place as u64 + 1, lot)?)?;
    }
    Ok(())
}

/// An event with these texts behind the items of a member, where there are some and it is an array or absent.
fn with_texts(
    alloc: Global,
    event: Value,
    name: &str,
    texts: Vec<String>,
) -> Result<Value, AllocError>
    ensures { IfOk result
        (λ v. view v ≡ with_texts name.now (map string_bytes texts.items) (view event)) }
{
    if texts.is_empty() {
        return Ok(event);
    }
    match list_of(alloc, &event, name)? {
        Some(list) => {
            let list = and_texts(list, texts)?;
            with_member(alloc, event, name, list)
        }
        None => Ok(event),
    }
}

/// Copies of the spellings of these lots.
fn spellings(alloc: Global, lots: &[UnitLot<'_>]) -> Result<Vec<String>, AllocError>
    ensures { IfOk result (λ texts. map string_bytes texts.items ≡ spellings (seen_lots lots.now)) }
{
    let mut texts = Vec::new(alloc);
    for lot in lots.iter() {
        texts.push(lot.lot.clone()?)?;
    }
    Ok(texts)
}

/// Whether an event is a transformation by its member `type`.
fn is_transformation(event: &Value) -> bool
    ensures { result ≡ is_text (λ type. bytes_eq type (codes "TransformationEvent"))
        (type_text (view event.now)) }
{
    match type_text(event) {
        Some(text) => text == "TransformationEvent",
        None => false,
    }
}

/// An event that makes these lots, too, where it is a transformation.
pub(crate) fn with_made(
    alloc: Global,
    event: Value,
    lots: &[UnitLot<'_>],
) -> Result<Value, AllocError>
    ensures { IfOk result (λ v. view v ≡ with_made (spellings (seen_lots lots.now)) (view event)) }
{
    if !is_transformation(&event) {
        return Ok(event);
    }
    let texts = spellings(alloc, lots)?;
    with_texts(alloc, event, "outputEPCList", texts)
}

/// Whether an event tells the lot of units.
pub(crate) fn has_unit_lots(alloc: Global, event: &Value) -> Result<bool, AllocError>
    ensures { IfOk result (λ has. has ≡ has_unit_lots (view event.now)) }
{
    Ok(!unit_lots(alloc, event)?.is_empty())
}
