//! The list of events of a value.

ghost use Rattle.std.specs.Prelude.{◌≡◌, is_none, option_map};
ghost use Rattle.std.specs.List.{list_all};
ghost use Rattle.serde_json.specs.Find.{as_array};
ghost use Rattle.serde_json.specs.View.{items_view, view};
ghost use Rattle.event_json.specs.Documents.{listed};
ghost use Rattle.event_json.specs.Untraced.{in_order, listed_events};
ghost use Rattle.document_convert.specs.Documents.{body_events, document_events, is_settled, list_or_one, result_events};
ghost use Rattle.document_convert.specs.Types.{missing_type};

use crate::types::{is_event_type, member_named, missing_type, type_text, type_told};
use serde_json::Value;

/// An array, or an object, which is a list of itself.
fn list_or_one(value: &Value) -> Option<&[Value]>
    ensures { option_map (λ l. items_view l.now) result ≡ list_or_one (view value.now) }
{
    if let Some(list) = value.as_array() {
        return Some(list.as_slice());
    }
    if value.is_object() {
        Some(std::slice::from_ref(value))
    } else {
        None
    }
}

/// An array.
fn list_of(value: &Value) -> Option<&[Value]>
    ensures { option_map (λ l. items_view l.now) result ≡ as_array (view value.now) }
{
    Some(value.as_array()?.as_slice())
}

/// The events in the body of an EPCISDocument.
#[tactic(auto, unfolding(crate::specs::Documents::body_events))]
fn body_events(value: &Value) -> Option<&[Value]>
    ensures { option_map (λ l. items_view l.now) result ≡ body_events (view value.now) }
{
    let body = member_named(value, "epcisBody")?;
    match member_named(body, "eventList") {
        Some(list) => list_of(list),
        None => list_or_one(member_named(body, "event")?),
    }
}

/// The events that an EPCISQueryDocument found.
#[tactic(auto, unfolding(crate::specs::Documents::result_events))]
fn result_events(value: &Value) -> Option<&[Value]>
    ensures { option_map (λ l. items_view l.now) result ≡ result_events (view value.now) }
{
    let body = member_named(value, "epcisBody")?;
    let results = member_named(body, "queryResults")?;
    let found = member_named(results, "resultsBody")?;
    list_of(member_named(found, "eventList")?)
}

/// The list of events of a value that is no event itself.
#[tactic(auto, unfolding(crate::specs::Documents::document_events))]
pub(crate) fn document_events(value: &Value) -> Option<&[Value]>
    ensures { option_map (λ l. items_view l.now) result ≡ document_events (view value.now) }
{
    match type_told(value)? {
        "EPCISDocument" => body_events(value),
        "EPCISQueryDocument" => result_events(value),
        _ => None,
    }
}

/// The event list of an EPCISDocument, where a capture looks for it.
#[tactic(auto, unfolding(event_json::specs::Documents::listed))]
pub(crate) fn listed(value: &Value) -> Option<&[Value]>
    ensures { option_map (λ l. items_view l.now) result ≡ listed (view value.now) }
{
    let body = member_named(value, "epcisBody")?;
    list_of(member_named(body, "eventList")?)
}

/// Whether no event of a list has its type elsewhere than in `type`.
fn are_typed(list: &[Value]) -> bool
    ensures { result ≡ list_all (λ e. is_none (missing_type e)) (in_order (items_view list.now)) }
{
    for event in list.iter() {
        if missing_type(event).is_some() {
            return false;
        }
    }
    true
}

/// Whether a value is a document with its type, its list and the types of its events where a capture looks for them.
#[tactic(auto, unfolding(crate::specs::Documents::is_settled))]
pub(crate) fn is_settled(value: &Value) -> bool
    ensures { result ≡ is_settled (view value.now) }
{
    let Some(text) = type_text(value) else {
        return false;
    };
    let Some(list) = listed(value) else {
        return false;
    };
    text == "EPCISDocument" && are_typed(list)
}

/// The events of a document in which a capture finds them, one where it is a bare event; none where it has no list of
/// events.
#[tactic(auto, unfolding(event_json::specs::Untraced::listed_events, event_json::specs::Documents::event_list))]
pub(crate) fn events_of(document: &Value) -> &[Value]
    ensures { in_order (items_view result.now) ≡ listed_events (view document.now) }
{
    let Some(text) = type_text(document) else {
        return &[];
    };
    if text == "EPCISDocument" {
        return listed(document).unwrap_or(&[]);
    }
    if is_event_type(text) {
        std::slice::from_ref(document)
    } else {
        &[]
    }
}
