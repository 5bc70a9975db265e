//! Lots or units among an event's items, by their one spelling.

ghost use Rattle.std.specs.Prelude.{◌≡◌, ◌||◌, IfOk, map, option_map, string_bytes};
ghost use Rattle.std.specs.List.{list_any};
ghost use Rattle.serde_json.specs.Data.{array};
ghost use Rattle.serde_json.specs.View.{items_of, items_view, view};
ghost use Rattle.event_json.specs.Checks.{type_text};
ghost use Rattle.event_json.specs.Members.{member_named};
ghost use Rattle.event_json.specs.Untraced.{in_order};
ghost use Rattle.document_convert.specs.Respelled.{is_otherwise, item_otherwise, otherwise_as, spelled, spelled_as, spelled_at, spelled_item, spelled_text, spells_otherwise_by, value_otherwise, with_spelled};
ghost use Rattle.document_convert.specs.Speller.{spelled_by};

use crate::links::link_of;
use crate::lots::lot_of;
use crate::types::{member_named, type_text, with_member};
use serde_json::Value;
use std::alloc::{AllocError, Global};

/// What is respelled, each by its one spelling.
#[derive(Clone, Copy, Debug)]
pub(crate) enum Speller {
    /// Lots, as [`lot_of`] spells them.
    Lots,
    /// Units, as [`link_of`] spells them.
    Links,
}

/// The one spelling of what a text spells.
fn spelling_of(alloc: Global, by: Speller, text: &str) -> Result<Option<String>, AllocError>
    ensures { IfOk result (λ t. option_map string_bytes t ≡ spelled_by by text.now) }
{
    match by {
        Speller::Lots => lot_of(alloc, text),
        Speller::Links => link_of(alloc, text),
    }
}

/// The one spelling of what a text spells, or the text where it spells nothing.
fn spelled_text(alloc: Global, by: Speller, text: &str) -> Result<String, AllocError>
    ensures { IfOk result (λ t. string_bytes t ≡ spelled_text (spelled_by by) text.now) }
{
    match spelling_of(alloc, by, text)? {
        Some(spelled) => Ok(spelled),
        None => String::from_str(alloc, text),
    }
}

/// A copy of an item, respelled.
fn spelled_item(alloc: Global, by: Speller, item: &Value) -> Result<Value, AllocError>
    ensures { IfOk result (λ v. view v ≡ spelled_item (spelled_by by) (view item.now)) }
{
    match item.as_str() {
        Some(text) => Ok(Value::String(spelled_text(alloc, by, text)?)),
        None => item.clone(),
    }
}

/// Copies of items, respelled.
fn spelled_items(alloc: Global, by: Speller, list: &[Value]) -> Result<Vec<Value>, AllocError>
    ensures { IfOk result
        (λ items. map view items.items
        ≡ map (spelled_item (spelled_by by)) (in_order (items_view list.now))) }
{
    let mut items = Vec::new(alloc);
    for value in list.iter() {
        items.push(spelled_item(alloc, by, value)?)?;
    }
    Ok(items)
}

/// An array of items, respelled.
fn spelled_array(alloc: Global, by: Speller, list: &[Value]) -> Result<Value, AllocError>
    ensures { IfOk result (λ v. view v
        ≡ array (items_of (map (spelled_item (spelled_by by)) (in_order (items_view list.now))))) }
{
    Ok(Value::Array(spelled_items(alloc, by, list)?))
}

/// A copy of an item or an array of items, respelled.
fn spelled(alloc: Global, by: Speller, value: &Value) -> Result<Value, AllocError>
    ensures { IfOk result (λ v. view v ≡ spelled (spelled_by by) (view value.now)) }
{
    if let Some(text) = value.as_str() {
        return Ok(Value::String(spelled_text(alloc, by, text)?));
    }
    match value.as_array() {
        Some(list) => spelled_array(alloc, by, list.as_slice()),
        None => value.clone(),
    }
}

/// An event with this member respelled.
#[tactic(auto, unfolding(crate::specs::Respelled::spelled_at))]
fn spelled_at(alloc: Global, by: Speller, event: Value, name: &str) -> Result<Value, AllocError>
    ensures { IfOk result (λ v. view v ≡ spelled_at (spelled_by by) name.now (view event)) }
{
    match member_named(&event, name) {
        Some(value) => {
            let value = spelled(alloc, by, value)?;
            with_member(alloc, event, name, value)
        }
        None => Ok(event),
    }
}

/// An event with two members respelled.
fn spelled_both(
    alloc: Global,
    by: Speller,
    event: Value,
    first: &str,
    second: &str,
) -> Result<Value, AllocError>
    ensures { IfOk result
        (λ v. view v ≡ spelled_at (spelled_by by) second.now
        (spelled_at (spelled_by by) first.now (view event))) }
{
    let event = spelled_at(alloc, by, event, first)?;
    spelled_at(alloc, by, event, second)
}

/// Whether a text spells something, and not by its one spelling.
fn is_otherwise(alloc: Global, by: Speller, text: &str) -> Result<bool, AllocError>
    ensures { IfOk result (λ otherwise. otherwise ≡ is_otherwise (spelled_by by) text.now) }
{
    match spelling_of(alloc, by, text)? {
        Some(spelled) => Ok(spelled.as_str() != text),
        None => Ok(false),
    }
}

/// Whether an item is spelled, and not by its one spelling.
fn item_otherwise(alloc: Global, by: Speller, item: &Value) -> Result<bool, AllocError>
    ensures { IfOk result
        (λ otherwise. otherwise ≡ item_otherwise (spelled_by by) (view item.now)) }
{
    match item.as_str() {
        Some(text) => is_otherwise(alloc, by, text),
        None => Ok(false),
    }
}

/// Whether one of these items is so.
fn items_otherwise(alloc: Global, by: Speller, list: &[Value]) -> Result<bool, AllocError>
    ensures { IfOk result
        (λ otherwise. otherwise
        ≡ list_any (item_otherwise (spelled_by by)) (in_order (items_view list.now))) }
{
    for value in list.iter() {
        if item_otherwise(alloc, by, value)? {
            return Ok(true);
        }
    }
    Ok(false)
}

/// Whether a member, an item or an array of items, has one that is so.
fn value_otherwise(
    alloc: Global,
    by: Speller,
    event: &Value,
    name: &str,
) -> Result<bool, AllocError>
    ensures { IfOk result
        (λ otherwise. otherwise
        ≡ value_otherwise (spelled_by by) (member_named name.now (view event.now))) }
{
    let Some(value) = member_named(event, name) else {
        return Ok(false);
    };
    if item_otherwise(alloc, by, value)? {
        return Ok(true);
    }
    match value.as_array() {
        Some(list) => items_otherwise(alloc, by, list.as_slice()),
        None => Ok(false),
    }
}

/// Whether one of two members has one that is so.
fn either_otherwise(
    alloc: Global,
    by: Speller,
    event: &Value,
    first: &str,
    second: &str,
) -> Result<bool, AllocError>
    ensures { IfOk result (λ otherwise. otherwise
        ≡ (value_otherwise (spelled_by by) (member_named first.now (view event.now))
        || value_otherwise (spelled_by by) (member_named second.now (view event.now)))) }
{
    if value_otherwise(alloc, by, event, first)? {
        return Ok(true);
    }
    value_otherwise(alloc, by, event, second)
}

/// Whether an event of a type names something, and not by its one spelling.
fn otherwise_as(alloc: Global, by: Speller, event: &Value, kind: &str) -> Result<bool, AllocError>
    ensures { IfOk result
        (λ otherwise. otherwise ≡ otherwise_as (spelled_by by) (view event.now) kind.now) }
{
    match kind {
        "ObjectEvent" => value_otherwise(alloc, by, event, "epcList"),
        "AggregationEvent" => either_otherwise(alloc, by, event, "parentID", "childEPCs"),
        "TransformationEvent" => either_otherwise(
            alloc,
            by,
            event,
            "inputEPCList",
            "outputEPCList",
        ),
        _ => Ok(false),
    }
}

/// Whether an event names something, and not by its one spelling.
#[tactic(auto, unfolding(crate::specs::Respelled::spells_otherwise_by))]
pub(crate) fn spells_otherwise_by(
    alloc: Global,
    by: Speller,
    event: &Value,
) -> Result<bool, AllocError>
    ensures { IfOk result
        (λ otherwise. otherwise ≡ spells_otherwise_by (spelled_by by) (view event.now)) }
{
    match type_text(event) {
        Some(kind) => otherwise_as(alloc, by, event, kind),
        None => Ok(false),
    }
}

/// An event of a type, respelled.
fn spelled_as(alloc: Global, by: Speller, event: Value, kind: &str) -> Result<Value, AllocError>
    ensures { IfOk result (λ v. view v ≡ spelled_as (spelled_by by) (view event) kind.now) }
{
    match kind {
        "ObjectEvent" => spelled_at(alloc, by, event, "epcList"),
        "AggregationEvent" => spelled_both(alloc, by, event, "parentID", "childEPCs"),
        "TransformationEvent" => spelled_both(alloc, by, event, "inputEPCList", "outputEPCList"),
        _ => Ok(event),
    }
}

/// An event of GS1 EPCIS 2.0 (section 7.4) with what its items spell by its one spelling: of an ObjectEvent the items of
/// `epcList`, of an AggregationEvent `parentID` and those of `childEPCs`, of a TransformationEvent those of
/// `inputEPCList` and `outputEPCList`. Other items stay, and so does an event that spells nothing otherwise.
///
/// # Errors
/// Where memory runs out.
#[tactic(auto, unfolding(crate::specs::Respelled::with_spelled))]
pub(crate) fn with_spelled(alloc: Global, by: Speller, event: Value) -> Result<Value, AllocError>
    ensures { IfOk result (λ found. view found ≡ with_spelled (spelled_by by) (view event)) }
{
    if !spells_otherwise_by(alloc, by, &event)? {
        return Ok(event);
    }
    let Some(kind) = type_copy(alloc, &event)? else {
        return Ok(event);
    };
    spelled_as(alloc, by, event, kind.as_str())
}

/// A copy of the text of the member `type`, where it is a text.
fn type_copy(alloc: Global, event: &Value) -> Result<Option<String>, AllocError>
    ensures { IfOk result (λ kind. option_map string_bytes kind ≡ type_text (view event.now)) }
{
    match type_text(event) {
        Some(kind) => Ok(Some(String::from_str(alloc, kind)?)),
        None => Ok(None),
    }
}
