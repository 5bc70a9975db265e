//! Events with lists of more than 1,000 members, in parts.

ghost use Rattle.std.specs.Prelude.{◌≡◌, ◌++◌, [], IfOk, OnOk, codes, map, option_map, string_bytes};
ghost use Rattle.std.specs.List.{list_any};
ghost use Rattle.serde_json.specs.View.{items_view, view};
ghost use Rattle.event_json.specs.Untraced.{in_order};
ghost use Rattle.document_convert.specs.Parted.{count_at, emptied, event_parts, has_parts, is_long_as, is_long_make, listed_parts, made_id, made_in_step, made_of_each, made_part, made_parts, made_with, of_each, parts_as, with_list, with_make_id, with_thousand};

use crate::part_ids::{has_made_id, made_id, push_numbered};
use crate::thousands::{THOUSAND, count_at, is_list, is_long, with_list, with_thousand};
use crate::types::{type_text, with_member};
use serde_json::Value;
use std::alloc::{AllocError, Global};

/// A copy of an event with a list empty.
fn with_none(alloc: Global, event: &Value, name: &str) -> Result<Value, AllocError>
    ensures { IfOk result (λ v. view v ≡ with_list name.now [] (view event.now)) }
{
    with_list(alloc, event.clone()?, name, Vec::new(alloc))
}

/// A part of an event with one list: this thousand of it.
fn listed_part(
    alloc: Global,
    event: &Value,
    beside: &Value,
    name: &str,
    number: usize,
) -> Result<Value, AllocError>
    requires { view beside.now ≡ with_list name.now [] (view event.now) }
    ensures { IfOk result
        (λ v. view v ≡ with_thousand (view event.now) name.now number (view event.now)) }
{
    let copy = beside.clone()?;
    let found = with_thousand(alloc, event, name, number, copy)?;
    Ok(found)
}

/// The parts of an event with one list, of which this is what they have beside it.
fn listed_each(
    alloc: Global,
    event: &Value,
    beside: &Value,
    name: &str,
) -> Result<Vec<Value>, AllocError>
    requires { view beside.now ≡ with_list name.now [] (view event.now) }
    ensures { IfOk result
        (λ parts. map view parts.items ≡ listed_parts name.now (view event.now)) }
{
    let count = count_at(event, name);
    let mut parts = Vec::new(alloc);
    for number in 0..count {
        let part = listed_part(alloc, event, beside, name, number)?;
        parts.push(part)?;
    }
    Ok(parts)
}

/// The parts of an event with one list, a thousand of it in each.
fn listed_parts(alloc: Global, event: &Value, name: &str) -> Result<Vec<Value>, AllocError>
    ensures { IfOk result
        (λ parts. map view parts.items ≡ listed_parts name.now (view event.now)) }
{
    let beside = with_none(alloc, event, name)?;
    listed_each(alloc, event, &beside, name)
}

/// A transformation with both lists empty.
fn emptied(alloc: Global, event: &Value) -> Result<Value, AllocError>
    ensures { IfOk result (λ v. view v ≡ emptied (view event.now)) }
{
    let half = with_none(alloc, event, "inputEPCList")?;
    with_list(alloc, half, "outputEPCList", Vec::new(alloc))
}

/// An event with this identifier of a transformation, where there is one.
fn with_make_id(alloc: Global, event: Value, id: Option<String>) -> Result<Value, AllocError>
    ensures { IfOk result
        (λ v. view v ≡ with_make_id (option_map string_bytes id) (view event)) }
{
    match id {
        Some(id) => with_member(alloc, event, "transformationID", Value::String(id)),
        None => Ok(event),
    }
}

/// What the parts of a transformation of this identifier have beside their lists.
fn made_with(alloc: Global, event: &Value, id: Option<String>) -> Result<Value, AllocError>
    ensures { IfOk result
        (λ v. view v ≡ made_with (option_map string_bytes id) (view event.now)) }
{
    let beside = emptied(alloc, event)?;
    with_make_id(alloc, beside, id)
}

/// A part of a transformation, with this thousand of its inputs and that one of its outputs.
fn made_part(
    alloc: Global,
    event: &Value,
    beside: &Value,
    input: usize,
    output: usize,
) -> Result<Value, AllocError>
    requires { view beside.now ≡ made_with (made_id (view event.now)) (view event.now) }
    ensures { IfOk result (λ v. view v ≡ made_part (view event.now) input output) }
{
    let part = beside.clone()?;
    let part = with_thousand(alloc, event, "inputEPCList", input, part)?;
    with_thousand(alloc, event, "outputEPCList", output, part)
}

/// The parts of a transformation with an identifier: each thousand of its inputs with the same one of its outputs.
fn made_in_step(alloc: Global, event: &Value, beside: &Value) -> Result<Vec<Value>, AllocError>
    requires { view beside.now ≡ made_with (made_id (view event.now)) (view event.now) }
    ensures { IfOk result (λ parts. map view parts.items ≡ made_in_step (view event.now)) }
{
    let ins = count_at(event, "inputEPCList");
    let outs = count_at(event, "outputEPCList");
    let count = ins.max(outs);
    let mut parts = Vec::new(alloc);
    for number in 0..count {
        let part = made_part(alloc, event, beside, number, number)?;
        parts.push(part)?;
    }
    Ok(parts)
}

/// Adds the parts of a transformation that have this thousand of its inputs: one with each of its outputs.
fn push_made(
    alloc: Global,
    parts: &mut Vec<Value>,
    event: &Value,
    beside: &Value,
    input: usize,
) -> Result<(), AllocError>
    requires { view beside.now ≡ made_with (made_id (view event.now)) (view event.now) }
    ensures { OnOk result (map view parts.new.items ≡ map view parts.old.items
        ++ of_each (made_part (view event.now) input)
        (count_at (codes "outputEPCList") (view event.now))) }
{
    let count = count_at(event, "outputEPCList");
    for output in 0..count {
        let part = made_part(alloc, event, beside, input, output)?;
        parts.push(part)?;
    }
    Ok(())
}

/// The parts of a transformation without an identifier: each thousand of its inputs with each of its outputs.
fn made_of_each(alloc: Global, event: &Value, beside: &Value) -> Result<Vec<Value>, AllocError>
    requires { view beside.now ≡ made_with (made_id (view event.now)) (view event.now) }
    ensures { IfOk result (λ parts. map view parts.items ≡ made_of_each (view event.now)) }
{
    let count = count_at(event, "inputEPCList");
    let mut parts = Vec::new(alloc);
    for input in 0..count {
        push_made(alloc, &mut parts, event, beside, input)?;
    }
    Ok(parts)
}

/// The parts of a transformation, before they are numbered.
fn made_parts(alloc: Global, event: &Value) -> Result<Vec<Value>, AllocError>
    ensures { IfOk result (λ parts. map view parts.items ≡ made_parts (view event.now)) }
{
    let id = made_id(alloc, event)?;
    let has_id = id.is_some();
    let beside = made_with(alloc, event, id)?;
    if has_id {
        made_in_step(alloc, event, &beside)
    } else {
        made_of_each(alloc, event, &beside)
    }
}

/// The parts of an event of a type, before they are numbered.
fn parts_as(alloc: Global, event: &Value, kind: &str) -> Result<Vec<Value>, AllocError>
    ensures { IfOk result
        (λ parts. map view parts.items ≡ parts_as (view event.now) kind.now) }
{
    match kind {
        "ObjectEvent" => listed_parts(alloc, event, "epcList"),
        "AggregationEvent" => listed_parts(alloc, event, "childEPCs"),
        _ => made_parts(alloc, event),
    }
}

/// Whether a transformation has a list of more than 1,000 members, and at most 1,000 parts where it has no identifier.
fn is_long_make(event: &Value) -> bool
    ensures { result ≡ is_long_make (view event.now) }
{
    if !is_list(event, "inputEPCList") || !is_list(event, "outputEPCList") {
        return false;
    }
    if !is_long(event, "inputEPCList") && !is_long(event, "outputEPCList") {
        return false;
    }
    let ins = count_at(event, "inputEPCList");
    let outs = count_at(event, "outputEPCList");
    has_made_id(event) || ins.saturating_mul(outs) <= THOUSAND
}

/// Whether an event of a type has parts.
fn is_long_as(event: &Value, kind: &str) -> bool
    ensures { result ≡ is_long_as (view event.now) kind.now }
{
    match kind {
        "ObjectEvent" => is_long(event, "epcList"),
        "AggregationEvent" => is_long(event, "childEPCs"),
        "TransformationEvent" => is_long_make(event),
        _ => false,
    }
}

/// Whether an event has a list of more than 1,000 members that is parted.
#[tactic(auto, unfolding(crate::specs::Parted::has_parts))]
pub(crate) fn has_parts(event: &Value) -> bool
    ensures { result ≡ has_parts (view event.now) }
{
    match type_text(event) {
        Some(kind) => is_long_as(event, kind),
        None => false,
    }
}

/// Whether an event of a list does.
pub(crate) fn have_parts(list: &[Value]) -> bool
    ensures { result ≡ list_any has_parts (in_order (items_view list.now)) }
{
    for event in list.iter() {
        if has_parts(event) {
            return true;
        }
    }
    false
}

/// Adds an event in parts, or a copy of it as it is.
#[tactic(auto, unfolding(crate::specs::Parted::event_parts))]
pub(crate) fn push_parts(
    alloc: Global,
    events: &mut Vec<Value>,
    event: &Value,
) -> Result<(), AllocError>
    ensures { OnOk result (map view events.new.items
        ≡ map view events.old.items ++ event_parts (view event.now)) }
{
    if !has_parts(event) {
        events.push(event.clone()?)?;
        return Ok(());
    }
    let parts = match type_text(event) {
        Some(kind) => parts_as(alloc, event, kind)?,
        None => Vec::new(alloc),
    };
    push_numbered(alloc, events, event, parts)
}
