//! The lots of an event's lists of quantities, among its items.

ghost use Rattle.std.specs.Prelude.{◌≡◌, Some, ◌++◌, ◌<◌, IfOk, OnOk, codes, length, map, option_and_then, option_map, string_bytes};
ghost use Rattle.serde_json.specs.Data.{array, string};
ghost use Rattle.serde_json.specs.Find.{as_str};
ghost use Rattle.serde_json.specs.View.{items_view, view};
ghost use Rattle.event_json.specs.Members.{member_named};
ghost use Rattle.document_convert.specs.Quantities.{and_texts, has_by, has_elements, has_quantities, is_filled, list_of, lot_in, lots_in, lots_of, moved, moved_by, with_its_lots, with_lots, without_member};

use crate::lots::lot_of;
use crate::types::{member_named, type_text, with_member};
use serde_json::Value;
use std::alloc::{AllocError, Global};

/// The lot of a quantity element.
fn lot_in(alloc: Global, element: &Value) -> Result<Option<String>, AllocError>
    ensures { IfOk result (λ lot. option_map string_bytes lot ≡ lot_in (view element.now)) }
{
    match class_of(element) {
        Some(class) => lot_of(alloc, class),
        None => Ok(None),
    }
}

/// The class of goods of a quantity element.
fn class_of(element: &Value) -> Option<&str>
    ensures { option_map (λ t. t.now) result
        ≡ option_and_then as_str (member_named (codes "epcClass") (view element.now)) }
{
    member_named(element, "epcClass")?.as_str()
}

/// The lots of all elements of a list, `None` where one has none.
fn lots_in(alloc: Global, list: &[Value]) -> Result<Option<Vec<String>>, AllocError>
    ensures { IfOk result
        (λ lots. option_map (λ v. map string_bytes v.items) lots ≡ lots_in (items_view list.now)) }
{
    let mut lots = Vec::new(alloc);
    for element in list.iter() {
        match lot_in(alloc, element)? {
            Some(lot) => lots.push(lot)?,
            None => return Ok(None),
        }
    }
    Ok(Some(lots))
}

/// The lots of a member, which has none where it is absent; `None` where it is no list, or an element has none.
fn lots_of(alloc: Global, event: &Value, name: &str) -> Result<Option<Vec<String>>, AllocError>
    ensures { IfOk result (λ lots. option_map (λ v. map string_bytes v.items) lots
        ≡ lots_of (member_named name.now (view event.now))) }
{
    let Some(value) = member_named(event, name) else {
        return Ok(Some(Vec::new(alloc)));
    };
    match value.as_array() {
        Some(list) => lots_in(alloc, list.as_slice()),
        None => Ok(None),
    }
}

/// A copy of the array of a member, which is empty where it is absent; `None` where it is no array.
pub(crate) fn list_of(
    alloc: Global,
    event: &Value,
    name: &str,
) -> Result<Option<Vec<Value>>, AllocError>
    ensures { IfOk result (λ list. option_map (λ l. items_view l.items) list
        ≡ list_of (member_named name.now (view event.now))) }
{
    let Some(value) = member_named(event, name) else {
        return Ok(Some(Vec::new(alloc)));
    };
    match value.as_array() {
        Some(list) => Ok(Some(copies(alloc, list.as_slice())?)),
        None => Ok(None),
    }
}

/// Copies of these values.
pub(crate) fn copies(alloc: Global, list: &[Value]) -> Result<Vec<Value>, AllocError>
    ensures { IfOk result (λ copies. map view copies.items ≡ map view list.now) }
{
    let mut copies = Vec::new(alloc);
    for value in list.iter() {
        copies.push(value.clone()?)?;
    }
    Ok(copies)
}

/// Appends these texts to a list.
fn push_texts(list: &mut Vec<Value>, texts: Vec<String>) -> Result<(), AllocError>
    ensures { OnOk result (map view list.new.items
        ≡ map view list.old.items ++ map string (map string_bytes texts.items)) }
{
    for text in texts {
        list.push(Value::String(text))?;
    }
    Ok(())
}

/// An array of these values, and then these texts.
pub(crate) fn and_texts(mut list: Vec<Value>, texts: Vec<String>) -> Result<Value, AllocError>
    ensures { IfOk result (λ v. view v
        ≡ array (and_texts (items_view list.items) (map string_bytes texts.items))) }
{
    push_texts(&mut list, texts)?;
    Ok(Value::Array(list))
}

/// A value without this member.
pub(crate) fn without_member(value: Value, name: &str) -> Value
    ensures { view result ≡ without_member name.now (view value) }
{
    match value {
        Value::Null => Value::Null,
        Value::Bool(truth) => Value::Bool(truth),
        Value::Number(number) => Value::Number(number),
        Value::String(text) => Value::String(text),
        Value::Array(list) => Value::Array(list),
        Value::Object(mut members) => {
            // The names ascend: this shows it.
            let _ascending = members.iter();
            drop(members.remove(name));
            Value::Object(members)
        }
    }
}

/// An event with these lots, of which there are some, behind the items of one member, and without the other one.
#[tactic(auto, using(crate::proofs::Moved::some_lots))]
fn with_some_lots(
    alloc: Global,
    event: &Value,
    quantities: &str,
    items: &str,
    lots: Vec<String>,
) -> Result<Option<Value>, AllocError>
    requires { 0 < length lots.items }
    ensures { IfOk result (λ found. option_map view found
        ≡ with_lots quantities.now items.now (view event.now) (map string_bytes lots.items)) }
{
    let Some(list) = list_of(alloc, event, items)? else {
        return Ok(None);
    };
    let list = and_texts(list, lots)?;
    let event = with_member(alloc, event.clone()?, items, list)?;
    Ok(Some(without_member(event, quantities)))
}

/// An event with these lots behind the items of one member, and without the other one; as it is where there are none.
#[tactic(auto, using(crate::proofs::Moved::no_lots))]
fn with_lots(
    alloc: Global,
    event: &Value,
    quantities: &str,
    items: &str,
    lots: Vec<String>,
) -> Result<Option<Value>, AllocError>
    ensures { IfOk result (λ found. option_map view found
        ≡ with_lots quantities.now items.now (view event.now) (map string_bytes lots.items)) }
{
    if lots.is_empty() {
        Ok(Some(event.clone()?))
    } else {
        with_some_lots(alloc, event, quantities, items, lots)
    }
}

/// An event with the lots of a list of quantities behind the items of a list.
#[tactic(auto, unfolding(crate::specs::Quantities::moved))]
fn moved(
    alloc: Global,
    event: &Value,
    quantities: &str,
    items: &str,
) -> Result<Option<Value>, AllocError>
    ensures { IfOk result (λ found. option_map view found
        ≡ moved quantities.now items.now (view event.now)) }
{
    match lots_of(alloc, event, quantities)? {
        Some(lots) => with_lots(alloc, event, quantities, items, lots),
        None => Ok(None),
    }
}

/// A TransformationEvent with the lots of both lists of quantities.
fn moved_both(alloc: Global, event: &Value) -> Result<Option<Value>, AllocError>
    ensures { IfOk result (λ found. option_map view found ≡ option_and_then
        (moved (codes "outputQuantityList") (codes "outputEPCList"))
        (moved (codes "inputQuantityList") (codes "inputEPCList") (view event.now))) }
{
    match moved(alloc, event, "inputQuantityList", "inputEPCList")? {
        Some(event) => moved(alloc, &event, "outputQuantityList", "outputEPCList"),
        None => Ok(None),
    }
}

/// An event of a type with the lots of all its lists of quantities.
fn moved_by(alloc: Global, event: &Value, kind: &str) -> Result<Option<Value>, AllocError>
    ensures { IfOk result (λ found. option_map view found ≡ moved_by (view event.now) kind.now) }
{
    match kind {
        "ObjectEvent" => moved(alloc, event, "quantityList", "epcList"),
        "AggregationEvent" => moved(alloc, event, "childQuantityList", "childEPCs"),
        "TransformationEvent" => moved_both(alloc, event),
        _ => Ok(Some(event.clone()?)),
    }
}

/// An event of GS1 EPCIS 2.0 (section 7.4) with the lots of its lists of quantities among its items.
///
/// Each quantity element whose `epcClass` spells a lot, as [`lot_of`] reads it, adds the lot's one spelling behind the
/// items of the list: `quantityList` of an ObjectEvent to `epcList`, `inputQuantityList` and `outputQuantityList` of a
/// TransformationEvent to `inputEPCList` and `outputEPCList`, `childQuantityList` of an AggregationEvent to `childEPCs`;
/// one lot for each element, in order, and the list of quantities goes. An event stays as it is where it has no
/// quantities, where an element has no lot, where one of the lists is no array, and where it is of another type.
///
/// # Errors
/// Where memory runs out.
#[tactic(auto, unfolding(crate::specs::Quantities::with_its_lots))]
pub(crate) fn with_its_lots(alloc: Global, event: Value) -> Result<Value, AllocError>
    ensures { IfOk result (λ found. view found ≡ with_its_lots (view event)) }
{
    let Some(kind) = type_text(&event) else {
        return Ok(event);
    };
    match moved_by(alloc, &event, kind)? {
        Some(found) => Ok(found),
        None => Ok(event),
    }
}

/// Whether a list has elements.
#[tactic(auto, using(crate::proofs::Lists::filled))]
fn is_filled(list: &[Value]) -> bool
    ensures { result ≡ is_filled (Some (items_view list.now)) }
{
    !list.is_empty()
}

/// Whether a member is a list with elements.
fn has_elements(event: &Value, name: &str) -> bool
    ensures { result ≡ has_elements (member_named name.now (view event.now)) }
{
    let Some(value) = member_named(event, name) else {
        return false;
    };
    match value.as_array() {
        Some(list) => is_filled(list.as_slice()),
        None => false,
    }
}

/// Whether an event of a type has quantities.
fn has_by(event: &Value, kind: &str) -> bool
    ensures { result ≡ has_by (view event.now) kind.now }
{
    match kind {
        "ObjectEvent" => has_elements(event, "quantityList"),
        "AggregationEvent" => has_elements(event, "childQuantityList"),
        "TransformationEvent" => {
            has_elements(event, "inputQuantityList") || has_elements(event, "outputQuantityList")
        }
        _ => false,
    }
}

/// Whether an event has quantities.
pub(crate) fn has_quantities(event: &Value) -> bool
    ensures { result ≡ has_quantities (view event.now) }
{
    match type_text(event) {
        Some(kind) => has_by(event, kind),
        None => false,
    }
}
