//! Taking a document apart.

ghost use Rattle.std.specs.Prelude.{◌≡◌, ◌≤◌, ◌+◌, IfOk, codes, bytes_eq, map};
ghost use Rattle.std.specs.List.{AllZip};
ghost use Rattle.serde_json.specs.Data.{depth, items_depth};
ghost use Rattle.serde_json.specs.Read.{max_depth};
ghost use Rattle.serde_json.specs.View.{items_view, view};
ghost use Rattle.event_json.specs.Checks.{type_text};
ghost use Rattle.event_json.specs.Untraced.{in_order, is_text};
ghost use Rattle.document_lint.specs.Findings.{alone};
ghost use Rattle.document_lint.specs.Splitting.{IsAlone, IsSplit};

use crate::event_lists::{event_list, type_text};
use serde_json::{Value, json};
use std::alloc::{AllocError, Global};

/// A document, taken apart.
#[derive(Debug, Drop)]
pub enum Split {
    /// Documents of which each has one of its events and no other, in order.
    Events(Vec<Vec<u8>>),
    /// Its own bytes, where it isn't one that has a list of events.
    Unlisted(Vec<u8>),
}

/// Takes a document in the JSON form of GS1 EPCIS 2.0 apart: for each of its events, skipped and faulty ones too, there
/// is a document of that event alone, which is read as the event is read among the others. A bare event is its own.
/// There may be more events than one document may have.
///
/// # Errors
/// Where memory runs out.
pub fn split_document(alloc: Global, bytes: Vec<u8>) -> Result<Split, AllocError>
    // Not covered: what else stands in these documents: it isn't read.
    ensures { IfOk result (IsSplit bytes.items) }
{
    let value = match Value::from_slice(alloc, bytes.as_slice()) {
        Ok(value) => value,
        Err(error) => {
            return if error.is_memory() {
                Err(AllocError)
            } else {
                Ok(Split::Unlisted(bytes))
            };
        }
    };
    let Ok(list) = event_list(&value) else {
        return Ok(Split::Unlisted(bytes));
    };
    if has_body(&value) {
        Ok(Split::Events(documents_of(alloc, list)?))
    } else {
        let mut documents = Vec::new(alloc);
        documents.push(bytes)?;
        Ok(Split::Events(documents))
    }
}

/// Whether a value is an EPCISDocument by its type, and no bare event.
fn has_body(value: &Value) -> bool
    ensures { result ≡ is_text (λ text. bytes_eq text (codes "EPCISDocument"))
        (type_text (view value.now)) }
{
    match type_text(value) {
        Some(text) => text == "EPCISDocument",
        None => false,
    }
}

/// A document for each event of a list.
fn documents_of(alloc: Global, list: &[Value]) -> Result<Vec<Vec<u8>>, AllocError>
    requires { items_depth (items_view list.now) + 3 ≤ max_depth }
    ensures { IfOk result (λ documents. AllZip IsAlone (in_order (items_view list.now))
        (map (λ d. d.items) documents.items)) }
{
    let mut documents = Vec::new(alloc);
    for value in list.iter() {
        documents.push(document_of(alloc, value)?)?;
    }
    Ok(documents)
}

/// A document of an event alone.
fn document_of(alloc: Global, value: &Value) -> Result<Vec<u8>, AllocError>
    requires { depth (view value.now) + 3 ≤ max_depth }
    ensures { IfOk result (λ document. IsAlone (view value.now) document.items) }
{
    alone(alloc, value)?.to_vec(alloc)
}

/// A document of this event alone.
fn alone(alloc: Global, value: &Value) -> Result<Value, AllocError>
    ensures { IfOk result (λ document. view document ≡ alone (view value.now)) }
{
    let mut events = Vec::new(alloc);
    events.push(value.clone()?)?;
    let list = Value::Array(events);
    json!(in alloc; {"epcisBody": {"eventList": list}, "type": "EPCISDocument"})
}
