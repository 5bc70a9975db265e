//! The identifiers of an event's parts.

ghost use Rattle.std.specs.Prelude.{◌≡◌, ◌++◌, IfOk, None, OnOk, Some, is_some, map, option_map, string_bytes};
ghost use Rattle.std.specs.List.{enumerate_from};
ghost use Rattle.serde_json.specs.View.{view};
ghost use Rattle.document_convert.specs.LotEvents.{short};
ghost use Rattle.document_convert.specs.Parted.{event_id, id_made, made_id, part_id, with_event_id, with_part_id};

use crate::lot_events::{MOST_BYTES, id_of};
use crate::quantities::without_member;
use crate::types::{member_named, with_member};
use serde_json::Value;
use std::alloc::{AllocError, Global};

/// An identifier, where it isn't too long.
fn short(id: String) -> Option<String>
    ensures { option_map string_bytes result ≡ short (string_bytes id) }
{
    if id.len() <= MOST_BYTES {
        Some(id)
    } else {
        None
    }
}

/// The identifier of a part of an event of this one, by its number from 1.
fn part_id(alloc: Global, id: &str, number: u64) -> Result<Option<String>, AllocError>
    ensures { IfOk result (λ found. option_map string_bytes found ≡ part_id id.now number) }
{
    Ok(short(format!(in alloc; "{id}#{number}")?))
}

/// The identifier of a transformation in several events whose event has this identifier.
fn derived_id(alloc: Global, id: &str) -> Result<Option<String>, AllocError>
    ensures { IfOk result
        (λ found. option_map string_bytes found ≡ id_made None (Some id.now)) }
{
    Ok(short(format!(in alloc; "{id}#made")?))
}

/// The identifier of a transformation that is reported in several events: its own, or that of its event with `#made`
/// behind it.
pub(crate) fn made_id(alloc: Global, event: &Value) -> Result<Option<String>, AllocError>
    ensures { IfOk result (λ found. option_map string_bytes found ≡ made_id (view event.now)) }
{
    if let Some(own) = member_named(event, "transformationID") {
        return match own.as_str() {
            Some(text) => Ok(Some(String::from_str(alloc, text)?)),
            None => Ok(None),
        };
    }
    match id_of(event) {
        Some(id) => derived_id(alloc, id),
        None => Ok(None),
    }
}

/// Whether there is such a one.
pub(crate) fn has_made_id(event: &Value) -> bool
    ensures { result ≡ is_some (made_id (view event.now)) }
{
    if let Some(own) = member_named(event, "transformationID") {
        return own.as_str().is_some();
    }
    match id_of(event) {
        Some(id) => id.len() + "#made".len() <= MOST_BYTES,
        None => false,
    }
}

/// An event with this identifier, or with none.
fn with_event_id(alloc: Global, event: Value, id: Option<String>) -> Result<Value, AllocError>
    ensures { IfOk result
        (λ v. view v ≡ with_event_id (option_map string_bytes id) (view event)) }
{
    match id {
        Some(id) => with_member(alloc, event, "eventID", Value::String(id)),
        None => Ok(without_member(event, "eventID")),
    }
}

/// The part of this number of an event, by its identifier.
fn with_part_id(alloc: Global, event: &Value, number: u64, part: Value) -> Result<Value, AllocError>
    ensures { IfOk result (λ v. view v
        ≡ with_part_id (event_id (view event.now)) (number, view part)) }
{
    match id_of(event) {
        Some(id) => {
            let id = part_id(alloc, id, number)?;
            with_event_id(alloc, part, id)
        }
        None => Ok(part),
    }
}

/// Adds the parts of an event, numbered from 1.
pub(crate) fn push_numbered(
    alloc: Global,
    events: &mut Vec<Value>,
    event: &Value,
    parts: Vec<Value>,
) -> Result<(), AllocError>
    ensures { OnOk result (map view events.new.items ≡ map view events.old.items
        ++ map (with_part_id (event_id (view event.now)))
        (enumerate_from 1 (map view parts.items))) }
{
    let mut number = 1;
    for part in parts {
        let numbered = with_part_id(alloc, event, number, part)?;
        events.push(numbered)?;
        number += 1;
    }
    Ok(())
}
