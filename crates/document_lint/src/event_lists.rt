//! The list of events of a document's value.

ghost use Rattle.std.specs.Prelude.{◌≡◌, is_some, option_map};
ghost use Rattle.serde_json.specs.Find.{as_str};
ghost use Rattle.serde_json.specs.View.{items_view, view};
ghost use Rattle.event_json.specs.Checks.{type_named, type_text};
ghost use Rattle.event_json.specs.Documents.{event_list, listed, whole};
ghost use Rattle.event_json.specs.Faults.{Shows};
ghost use Rattle.event_json.specs.Members.{member_named};
ghost use Rattle.document_lint.specs.Findings.{is_event};

use event_json::{DocFault, DocFaultKind, DocField};
use serde_json::Value;

/// The member of a name; one that is null counts as absent.
pub(crate) fn member_named<'v>(value: &'v Value, name: &str) -> Option<&'v Value>
    ensures { option_map (λ v. view v.now) result ≡ member_named name.now (view value.now) }
{
    match value.get(name) {
        Some(found) if !found.is_null() => Some(found),
        _ => None,
    }
}

/// The text of the member `type`, where it is a text.
pub(crate) fn type_text(value: &Value) -> Option<&str>
    ensures { option_map (λ t. t.now) result ≡ type_text (view value.now) }
{
    member_named(value, "type")?.as_str()
}

/// A fault of the document itself.
pub(crate) fn whole(field: DocField, kind: DocFaultKind) -> DocFault
    ensures { result ≡ whole field kind }
{
    DocFault {
        event: 0,
        field,
        kind,
    }
}

/// Whether a text is an event type of the standard.
#[tactic(auto, unfolding(event_json::specs::Checks::type_named))]
fn is_event_type(text: &str) -> bool
    ensures { result ≡ is_some (type_named text.now) }
{
    text == "ObjectEvent"
        || text == "AggregationEvent"
        || text == "TransactionEvent"
        || text == "TransformationEvent"
        || text == "AssociationEvent"
}

/// Whether a value is an event by its type.
pub(crate) fn is_event(value: &Value) -> bool
    ensures { result ≡ is_event (view value.now) }
{
    match type_text(value) {
        Some(text) => is_event_type(text),
        None => false,
    }
}

/// The event list of an EPCISDocument.
#[tactic(auto, unfolding(event_json::specs::Documents::listed))]
fn listed(value: &Value) -> Option<&[Value]>
    ensures { option_map (λ l. items_view l.now) result ≡ listed (view value.now) }
{
    let body = member_named(value, "epcisBody")?;
    let list = member_named(body, "eventList")?.as_array()?;
    Some(list.as_slice())
}

/// The events of a document, one where it is a bare event.
#[tactic(auto, unfolding(event_json::specs::Documents::event_list))]
pub(crate) fn event_list(value: &Value) -> Result<&[Value], DocFault>
    ensures { Shows (λ l. items_view l.now) result (event_list (view value.now)) }
{
    let Some(text) = type_text(value) else {
        return Err(whole(DocField::Document, DocFaultKind::NotDocument));
    };
    if text == "EPCISDocument" {
        return match listed(value) {
            Some(list) => Ok(list),
            None => Err(whole(DocField::EventList, DocFaultKind::NotDocument)),
        };
    }
    if is_event_type(text) {
        Ok(std::slice::from_ref(value))
    } else {
        Err(whole(DocField::Document, DocFaultKind::NotDocument))
    }
}
