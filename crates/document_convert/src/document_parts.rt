//! Documents with long lists, in several.

ghost use Rattle.std.specs.Prelude.{◌≡◌, ◌∷◌, [], IfOk, codes, length, map};
ghost use Rattle.std.specs.List.{flat_map};
ghost use Rattle.serde_json.specs.View.{items_view, view};
ghost use Rattle.event_json.specs.Untraced.{in_order};
ghost use Rattle.document_convert.specs.Documents.{body_of, document_around};
ghost use Rattle.document_convert.specs.Parted.{
  are_long,
  bare_in_parts,
  documents_around,
  event_parts,
  in_parts,
  of_each,
  thousand,
  thousands,
};
ghost use Rattle.document_convert.specs.Types.{with_member};

use crate::documents::{body_of, document_around};
use crate::event_lists::listed;
use crate::lotted::is_document;
use crate::parted::{has_parts, have_parts, push_parts};
use crate::quantities::copies;
use crate::thousands::{THOUSAND, thousand, thousands};
use crate::types::with_member;
use serde_json::{Value, json};
use std::alloc::{AllocError, Global};

/// Whether these are more than 1,000 events, or one has parts.
#[tactic(auto, using(crate::proofs::Lists::listed_length))]
fn are_long(list: &[Value]) -> bool
    ensures { result ≡ are_long (in_order (items_view list.now)) }
{
    list.len() > THOUSAND || have_parts(list)
}

/// The events of a list in parts.
pub(crate) fn events_in_parts(alloc: Global, list: &[Value]) -> Result<Vec<Value>, AllocError>
    ensures { IfOk result (λ events. map view events.items
        ≡ flat_map event_parts (in_order (items_view list.now))) }
{
    let mut events = Vec::new(alloc);
    for value in list.iter() {
        push_parts(alloc, &mut events, value)?;
    }
    Ok(events)
}

/// A document alone.
pub(crate) fn alone(alloc: Global, document: Value) -> Result<Vec<Value>, AllocError>
    ensures { IfOk result (λ found. map view found.items ≡ view document ∷ []) }
{
    let mut found = Vec::new(alloc);
    found.push(document)?;
    Ok(found)
}

/// A document without events, with all that stands beside the body of a value.
fn emptied(alloc: Global, value: Value) -> Result<Value, AllocError>
    ensures { IfOk result (λ v. view v ≡ document_around (view value) []) }
{
    document_around(alloc, value, Vec::new(alloc))
}

/// The document of this thousand of some events, with all that stands beside the body of another.
fn document_of(
    alloc: Global,
    beside: &Value,
    events: &[Value],
    number: usize,
) -> Result<Value, AllocError>
    ensures { IfOk result (λ v. view v ≡ with_member (codes "epcisBody")
        (body_of (thousand number (map view events.now))) (view beside.now)) }
{
    let slice = thousand(events, number);
    let members = copies(alloc, slice)?;
    let body = body_of(alloc, members)?;
    let copy = beside.clone()?;
    let document = with_member(alloc, copy, "epcisBody", body)?;
    Ok(document)
}

/// A document for each thousand of these events, with all that stands beside the body of another.
fn documents_of(alloc: Global, beside: &Value, events: &[Value]) -> Result<Vec<Value>, AllocError>
    ensures { IfOk result (λ found. map view found.items
        ≡ of_each (λ k. with_member (codes "epcisBody")
        (body_of (thousand k (map view events.now))) (view beside.now))
        (thousands (length (map view events.now)))) }
{
    let count = thousands(events.len());
    let mut found = Vec::new(alloc);
    for number in 0..count {
        let document = document_of(alloc, beside, events, number)?;
        found.push(document)?;
    }
    Ok(found)
}

/// A document for each thousand of these events, with all that stands beside the body of a value.
fn documents_around(alloc: Global, value: Value, events: &[Value]) -> Result<Vec<Value>, AllocError>
    ensures { IfOk result
        (λ found. map view found.items ≡ documents_around (view value) (map view events.now)) }
{
    let beside = emptied(alloc, value)?;
    let found = documents_of(alloc, &beside, events)?;
    Ok(found)
}

/// The documents of an event alone.
fn bare_in_parts(alloc: Global, event: Value) -> Result<Vec<Value>, AllocError>
    ensures { IfOk result (λ found. map view found.items ≡ bare_in_parts (view event)) }
{
    if !has_parts(&event) {
        return alone(alloc, event);
    }
    let mut events = Vec::new(alloc);
    push_parts(alloc, &mut events, &event)?;
    let empty = json!(in alloc; {})?;
    documents_around(alloc, empty, events.as_slice())
}

/// The documents of a document of GS1 EPCIS 2.0, as [`document_in`](crate::document_in) finds it, that a capture takes
/// by the length of their lists.
///
/// An ObjectEvent with more than 1,000 items in `epcList`, and an AggregationEvent with as many in `childEPCs`, becomes
/// parts: each has the next 1,000 of them, the last one the rest, and all other members. Its `eventID` is that of the
/// event with `#1`, `#2` .. behind it, where that has at most 512 bytes, and none else. A TransformationEvent with more
/// than 1,000 in `inputEPCList` or `outputEPCList` becomes parts that each have the next 1,000 of both, where they have
/// one `transformationID`: its own, or its `eventID` with `#made` behind it, where that has at most 512 bytes. Without
/// either each 1,000 inputs stand with each 1,000 outputs, in an event of their own; where these were more than 1,000
/// the event stays as it is.
///
/// A document with more than 1,000 events then becomes several with the next 1,000 of them each, in order, and with all
/// that stands beside its body. An event alone that has parts becomes such documents, too. Any other document stays as
/// it is.
///
/// # Errors
/// Where memory runs out.
#[tactic(auto, unfolding(crate::specs::Parted::in_parts))]
pub fn in_parts(alloc: Global, document: Value) -> Result<Vec<Value>, AllocError>
    // The events of the documents, one after another, are the parts of the document's events, in order; each document
    // has the next 1,000, and all that stood beside the body. The lists of an event's parts, one after another, are the
    // event's lists, each part has the next 1,000 of each, and every other member but the identifiers. Of a
    // transformation without an identifier each 1,000 inputs stand with each 1,000 outputs; it stays as it is where
    // these were more than 1,000 events, and so does any of which a list is no array. A document that a capture reads
    // stays as it is.
    // Not covered: that a capture takes the parts, and that no other event has the identifier of one. What stands
    // beside a long list is written in each part.
    ensures { IfOk result (λ found. map view found.items ≡ in_parts (view document)) }
{
    if !is_document(&document) {
        return bare_in_parts(alloc, document);
    }
    let Some(list) = listed(&document) else {
        return alone(alloc, document);
    };
    if !are_long(list) {
        return alone(alloc, document);
    }
    let events = events_in_parts(alloc, list)?;
    documents_around(alloc, document, events.as_slice())
}
