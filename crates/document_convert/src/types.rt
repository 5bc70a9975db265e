//! The type of a value, and a value with its type.

ghost use Rattle.std.specs.Prelude.{◌≡◌, IfOk, codes, is_some, option_map};
ghost use Rattle.serde_json.specs.Data.{string};
ghost use Rattle.serde_json.specs.View.{items_view, view};
ghost use Rattle.event_json.specs.Checks.{type_named, type_text};
ghost use Rattle.event_json.specs.Members.{member_named};
ghost use Rattle.document_convert.specs.Types.{is_event, missing_type, one_text, only_text, typed, type_told, with_member};

use serde_json::{Value, put};
use std::alloc::{AllocError, Global};

/// The member of a name; one that is null counts as absent.
pub(crate) fn member_named<'v>(value: &'v Value, name: &str) -> Option<&'v Value>
    ensures { option_map (λ v. view v.now) result ≡ member_named name.now (view value.now) }
{
    match value.get(name) {
        Some(found) if !found.is_null() => Some(found),
        _ => None,
    }
}

/// The text of the member `type`, where it is a text.
pub(crate) fn type_text(value: &Value) -> Option<&str>
    ensures { option_map (λ t. t.now) result ≡ type_text (view value.now) }
{
    member_named(value, "type")?.as_str()
}

/// The text of a list that has one member.
fn only_text(list: &[Value]) -> Option<&str>
    ensures { option_map (λ t. t.now) result ≡ only_text (items_view list.now) }
{
    if list.len() == 1 {
        list[0].as_str()
    } else {
        None
    }
}

/// A text, alone or in an array of one.
fn one_text(value: &Value) -> Option<&str>
    ensures { option_map (λ t. t.now) result ≡ one_text (view value.now) }
{
    match value.as_str() {
        Some(text) => Some(text),
        None => only_text(value.as_array()?.as_slice()),
    }
}

/// The type that a value names, but not by the member `type`.
#[tactic(auto, unfolding(crate::specs::Types::missing_type))]
pub(crate) fn missing_type(value: &Value) -> Option<&str>
    ensures { option_map (λ t. t.now) result ≡ missing_type (view value.now) }
{
    if member_named(value, "type").is_some() {
        return None;
    }
    match member_named(value, "@type") {
        Some(found) => one_text(found),
        None => member_named(value, "isA")?.as_str(),
    }
}

/// The type that a value names.
pub(crate) fn type_told(value: &Value) -> Option<&str>
    ensures { option_map (λ t. t.now) result ≡ type_told (view value.now) }
{
    match type_text(value) {
        Some(text) => Some(text),
        None => missing_type(value),
    }
}

/// Whether a text is an event type of the standard.
#[tactic(auto, unfolding(event_json::specs::Checks::type_named))]
pub(crate) fn is_event_type(text: &str) -> bool
    ensures { result ≡ is_some (type_named text.now) }
{
    text == "ObjectEvent"
        || text == "AggregationEvent"
        || text == "TransactionEvent"
        || text == "TransformationEvent"
        || text == "AssociationEvent"
}

/// Whether a value is an event by its type.
pub(crate) fn is_event(value: &Value) -> bool
    ensures { result ≡ is_event (view value.now) }
{
    match type_told(value) {
        Some(text) => is_event_type(text),
        None => false,
    }
}

/// A value with this member.
pub(crate) fn with_member(
    alloc: Global,
    value: Value,
    name: &str,
    member: Value,
) -> Result<Value, AllocError>
    ensures { IfOk result (λ v. view v ≡ with_member name.now (view member) (view value)) }
{
    match value {
        Value::Null => Ok(Value::Null),
        Value::Bool(truth) => Ok(Value::Bool(truth)),
        Value::Number(number) => Ok(Value::Number(number)),
        Value::String(text) => Ok(Value::String(text)),
        Value::Array(list) => Ok(Value::Array(list)),
        Value::Object(mut members) => {
            put(&mut members, alloc, name, member)?;
            Ok(Value::Object(members))
        }
    }
}

/// A value with this type.
pub(crate) fn with_type(alloc: Global, value: Value, text: &str) -> Result<Value, AllocError>
    ensures { IfOk result
        (λ v. view v ≡ with_member (codes "type") (string text.now) (view value)) }
{
    let text = Value::String(String::from_str(alloc, text)?);
    with_member(alloc, value, "type", text)
}

/// A copy of a value, with its type as the member `type`.
pub(crate) fn typed(alloc: Global, value: &Value) -> Result<Value, AllocError>
    ensures { IfOk result (λ v. view v ≡ typed (view value.now)) }
{
    let copy = value.clone()?;
    match missing_type(value) {
        Some(text) => with_type(alloc, copy, text),
        None => Ok(copy),
    }
}
