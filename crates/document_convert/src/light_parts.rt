//! Whether the parts of long lists repeat little.

ghost use Rattle.std.specs.Prelude.{◌≡◌, IfOk, length, map, nat_le};
ghost use Rattle.std.specs.List.{flat_map, list_all};
ghost use Rattle.serde_json.specs.View.{items_view, view};
ghost use Rattle.event_json.specs.Untraced.{in_order};
ghost use Rattle.document_convert.specs.LightParts.{
  is_light_around,
  is_light_as,
  is_light_document,
  is_light_event,
  is_made_in_few,
};
ghost use Rattle.document_convert.specs.Parted.{event_parts};

use crate::document_parts::events_in_parts;
use crate::event_lists::listed;
use crate::lotted::is_document;
use crate::part_ids::has_made_id;
use crate::parted::has_parts;
use crate::thousands::{THOUSAND, count_at};
use crate::types::type_text;
use crate::weights::is_light;
use serde_json::Value;
use std::alloc::{AllocError, Global};

/// The most, by weight, that each part of an event, and each of several documents, may repeat.
const MOST_REPEATED: usize = 10_000;

/// The most parts of a transformation in which each 1,000 inputs stand with each 1,000 outputs.
const MOST_PAIRS: usize = 10;

/// Whether a transformation has an identifier for its parts, or at most 10 of them.
fn is_made_in_few(event: &Value) -> bool
    ensures { result ≡ is_made_in_few (view event.now) }
{
    let ins = count_at(event, "inputEPCList");
    let outs = count_at(event, "outputEPCList");
    has_made_id(event) || ins.saturating_mul(outs) <= MOST_PAIRS
}

/// Whether the parts of an event of a type repeat little.
fn is_light_as(event: &Value, kind: &str) -> bool
    ensures { result ≡ is_light_as (view event.now) kind.now }
{
    match kind {
        "ObjectEvent" => is_light(event, "epcList", "epcList", MOST_REPEATED),
        "AggregationEvent" => is_light(event, "childEPCs", "childEPCs", MOST_REPEATED),
        _ => {
            is_light(event, "inputEPCList", "outputEPCList", MOST_REPEATED) && is_made_in_few(event)
        }
    }
}

/// Whether an event has no parts, or they repeat little.
#[tactic(auto, unfolding(crate::specs::LightParts::is_light_event))]
fn is_light_event(event: &Value) -> bool
    ensures { result ≡ is_light_event (view event.now) }
{
    if !has_parts(event) {
        return true;
    }
    match type_text(event) {
        Some(kind) => is_light_as(event, kind),
        None => false,
    }
}

/// Whether each event of a list does so.
fn are_light(list: &[Value]) -> bool
    ensures { result ≡ list_all is_light_event (in_order (items_view list.now)) }
{
    for event in list.iter() {
        if !is_light_event(event) {
            return false;
        }
    }
    true
}

/// Whether the events of a list are at most 1,000 with all parts, so that they are one document.
fn are_few(alloc: Global, list: &[Value]) -> Result<bool, AllocError>
    ensures { IfOk result (λ few. few
        ≡ nat_le (length (flat_map event_parts (in_order (items_view list.now)))) 1000) }
{
    let events = events_in_parts(alloc, list)?;
    Ok(events.len() <= THOUSAND)
}

/// Whether the documents of a document with these events repeat little.
fn is_light_around(alloc: Global, document: &Value, list: &[Value]) -> Result<bool, AllocError>
    ensures { IfOk result (λ light. light
        ≡ is_light_around (view document.now) (in_order (items_view list.now))) }
{
    if !are_light(list) {
        return Ok(false);
    }
    if is_light(document, "epcisBody", "epcisBody", MOST_REPEATED) {
        return Ok(true);
    }
    are_few(alloc, list)
}

/// Whether a document, or an event alone, has no parts, or they repeat little: what stands beside each long list that
/// is parted, and beside the body of what becomes several documents, weighs at most 10,000, and a transformation
/// without an identifier has at most 10 parts. A weight is the bytes of the texts and of the members' names, and one
/// for each value.
///
/// # Errors
/// Where memory runs out.
#[tactic(auto, unfolding(crate::specs::LightParts::is_light_document))]
pub(crate) fn is_light_document(alloc: Global, document: &Value) -> Result<bool, AllocError>
    ensures { IfOk result (λ light. light ≡ is_light_document (view document.now)) }
{
    if !is_document(document) {
        return Ok(is_light_event(document));
    }
    match listed(document) {
        Some(list) => is_light_around(alloc, document, list),
        None => Ok(true),
    }
}
