//! A packing as a document.
ghost use Rattle.std.specs.Prelude.{◌≡◌, ℕ, List, IfOk, IfSome, None, Some, map, option_map, string_bytes};
ghost use Rattle.serde_json.specs.Data.{array, string};
ghost use Rattle.serde_json.specs.View.{items_of, view};
ghost use Rattle.event_writing.specs.Packings.{IsDocumentOf, IsNotWritten, IsPacking, IsPackingText, IsReadAs, document_value, event_value};

use crate::item_texts::{item_text, item_values};
use crate::times::event_time;
use epc_core::Epc;
use event_json::{Action, Body, Event, PlainText};
use serde_json::{Value, json};
use std::alloc::{AllocError, Global};

/// A packing, which is an AggregationEvent of action ADD, as an EPCISDocument in the JSON form of GS1 EPCIS 2.0 that
/// `event_json::read_document` reads as this event alone, with its eventID, its instant, its parent and its children in
/// order, whatever sites are listed. `None` where the event is no packing, or no time names its instant.
///
/// Trade items and logistic units are given by their Digital Links on `id.gs1.org`, other items by their texts, and
/// times in UTC; the creationDate is the time of the event, so that nothing but the event decides over the text.
///
/// # Errors
/// Out of memory.
pub fn packing_document(alloc: Global, event: &Event) -> Result<Option<String>, AllocError>
    // There is none only where the event is no packing, or no time names its instant.
    ensures none { IfOk result (λ text. text ≡ None → IsNotWritten event.now) }
    // It is the text of a document of this event, with the members that such a document has and no others.
    // Not covered: which of its texts stands for an item, and that the time is in UTC: tests/scripts has rows.
    ensures is { IfOk result (λ text. IfSome text (λ t. IsPackingText event.now (string_bytes t))) }
    // It is read as this event alone.
    ensures read { IfOk result (λ text. IfSome text (λ t. IsReadAs event.now (string_bytes t))) }
{
    let Some((parent, children)) = packed(event.body()) else {
        return Ok(None);
    };
    let Some(time) = event_time(alloc, event)? else {
        return Ok(None);
    };
    let value = document(alloc, event.id(), time.as_str(), parent, children)?;
    Ok(Some(value.to_string(alloc)?))
}

/// The parent and the children of what is a packing.
fn packed(body: &Body) -> Option<(&Epc, &[Epc])>
    ensures some { IfSome result (λ p. body.now ≡ Body.Pack Action.Add (Some p.0.now) p.1.now) }
    ensures none { result ≡ None → ¬ IsPacking body.now }
{
    match body {
        Body::Pack {
            action: Action::Add,
            parent: Some(parent),
            children,
        } => Some((parent, children.as_slice())),
        _ => None,
    }
}

/// The document of a packing of these.
fn document(
    alloc: Global,
    id: Option<&PlainText>,
    time: &str,
    parent: &Epc,
    children: &[Epc],
) -> Result<Value, AllocError>
    ensures { IfOk result (λ v. IsDocumentOf (option_map (λ t. t.now) id.entry) time.now parent.now
        children.now (view v)) }
{
    let parent = item_text(alloc, parent)?;
    let children = Value::Array(item_values(alloc, children)?);
    let event = event_value(alloc, id, time, parent.as_str(), children)?;
    document_value(alloc, time, event)
}

/// The event of a packing of these.
fn event_value(
    alloc: Global,
    id: Option<&PlainText>,
    time: &str,
    parent: &str,
    children: Value,
) -> Result<Value, AllocError>
    ensures { IfOk result (λ v. (texts : List (List ℕ))
        → view children ≡ array (items_of (map string texts))
        → view v ≡ event_value (option_map (λ t. t.now) id.entry) time.now parent.now texts) }
{
    match id {
        Some(id) => json!(in alloc; {
            "action": "ADD",
            "childEPCs": children,
            "eventID": id.as_str(),
            "eventTime": time,
            "eventTimeZoneOffset": "+00:00",
            "parentID": parent,
            "type": "AggregationEvent"
        }),
        None => json!(in alloc; {
            "action": "ADD",
            "childEPCs": children,
            "eventTime": time,
            "eventTimeZoneOffset": "+00:00",
            "parentID": parent,
            "type": "AggregationEvent"
        }),
    }
}

/// The document of one event.
fn document_value(alloc: Global, time: &str, event: Value) -> Result<Value, AllocError>
    ensures { IfOk result (λ v. view v ≡ document_value time.now (view event)) }
{
    json!(in alloc; {
        "@context": ["https://ref.gs1.org/standards/epcis/2.0.0/epcis-context.jsonld"],
        "creationDate": time,
        "epcisBody": {"eventList": [event]},
        "schemaVersion": "2.0",
        "type": "EPCISDocument"
    })
}
