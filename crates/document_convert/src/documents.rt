//! The document that a value holds.

ghost use Rattle.std.specs.Prelude.{◌≡◌, IfOk, map, option_map};
ghost use Rattle.serde_json.specs.View.{items_view, view};
ghost use Rattle.event_json.specs.Untraced.{in_order};
ghost use Rattle.document_convert.specs.Documents.{body_of, document_around, document_in, documents_in};
ghost use Rattle.document_convert.specs.Types.{typed};

use crate::event_lists::{document_events, is_settled};
use crate::types::{is_event, typed, with_member, with_type};
use serde_json::{Value, json};
use std::alloc::{AllocError, Global};

/// The document that a JSON value holds, as an EPCISDocument or a bare event of GS1 EPCIS 2.0 (section 10) with the
/// types of its events in the member `type`; `None` where it is no document.
///
/// An EPCISDocument has its events in `epcisBody.eventList`, or else in `epcisBody.event`, an array or one event; an
/// EPCISQueryDocument in `resultsBody.eventList` of `queryResults`. Of either comes an EPCISDocument with these events
/// in `eventList`, and all that stands beside its body. Any other value is a document where it is an event by its type,
/// which is `type`, or else `@type`, a text or an array of one, or else `isA`; a member that is null is absent. A
/// document with all this in place stays as it is, and so does an event with its `type`.
///
/// Events themselves aren't looked into: no event is lost, none is added, and each has the members that it had.
///
/// # Errors
/// Where memory runs out.
#[tactic(auto, unfolding(crate::specs::Documents::document_in))]
pub fn document_in(alloc: Global, value: Value) -> Result<Option<Value>, AllocError>
    // A capture finds in the document each event of the value, in order, and no other; each has the members that it
    // had, but its type in `type`; what stands beside the body stays. What a capture reads stays as it is, and a second
    // time changes nothing.
    // Not covered: of an array its members are taken one by one, which no law says. Where a document changes, what
    // stands in its body beside the list of events goes. A document may nest a level deeper than the value.
    ensures { IfOk result (λ found. option_map view found ≡ document_in (view value)) }
{
    if is_settled(&value) {
        return Ok(Some(value));
    }
    if let Some(list) = document_events(&value) {
        let events = typed_events(alloc, list)?;
        return Ok(Some(document_around(alloc, value, events)?));
    }
    if is_event(&value) {
        Ok(Some(typed(alloc, &value)?))
    } else {
        Ok(None)
    }
}

/// The events of a list, each with its type as the member `type`.
fn typed_events(alloc: Global, list: &[Value]) -> Result<Vec<Value>, AllocError>
    ensures { IfOk result
        (λ events. map view events.items ≡ map typed (in_order (items_view list.now))) }
{
    let mut events = Vec::new(alloc);
    for value in list.iter() {
        events.push(typed(alloc, value)?)?;
    }
    Ok(events)
}

/// The body of a document of these events.
pub(crate) fn body_of(alloc: Global, events: Vec<Value>) -> Result<Value, AllocError>
    ensures { IfOk result (λ v. view v ≡ body_of (map view events.items)) }
{
    let list = Value::Array(events);
    json!(in alloc; {"eventList": list})
}

/// A document of these events, with all that stands beside the body of a value.
pub(crate) fn document_around(
    alloc: Global,
    value: Value,
    events: Vec<Value>,
) -> Result<Value, AllocError>
    ensures { IfOk result (λ v. view v ≡ document_around (view value) (map view events.items)) }
{
    let body = body_of(alloc, events)?;
    let document = with_type(alloc, value, "EPCISDocument")?;
    with_member(alloc, document, "epcisBody", body)
}

/// The document that each member of an array holds, in order, or that the value holds itself, where it is no array:
/// what [`document_in`] finds, `None` where it is no document.
///
/// # Errors
/// Where memory runs out.
pub fn documents_in(alloc: Global, value: Value) -> Result<Vec<Option<Value>>, AllocError>
    ensures { IfOk result
        (λ found. map (option_map view) found.items ≡ documents_in (view value)) }
{
    if let Value::Array(values) = value {
        return documents_of(alloc, values);
    }
    let mut found = Vec::new(alloc);
    found.push(document_in(alloc, value)?)?;
    Ok(found)
}

/// The document of each value, in order.
fn documents_of(alloc: Global, values: Vec<Value>) -> Result<Vec<Option<Value>>, AllocError>
    ensures { IfOk result
        (λ found. map (option_map view) found.items ≡ map document_in (map view values.items)) }
{
    let mut found = Vec::new(alloc);
    for value in values {
        found.push(document_in(alloc, value)?)?;
    }
    Ok(found)
}
