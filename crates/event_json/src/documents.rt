//! Reading a document.

ghost use Rattle.std.specs.Prelude.{◌≡◌, ◌≤◌, ◌<◌, IsUtf8, IsOk, IfOk, OnOk, Err, length, option_map};
ghost use Rattle.serde_json.specs.View.{view, items_view};
ghost use Rattle.event_json.specs.Documents.{whole, listed, event_list, few_events, numbered_event, events_of, document_of, text_document};
ghost use Rattle.event_json.specs.Faults.{Shows, Gives};
ghost use Rattle.event_json.specs.declared.limits.TheConstants.{MAX_EVENTS};
ghost use Rattle.event_json.specs.declared.doc_faults.DocField.TheVariants as fields;
ghost use Rattle.event_json.specs.declared.doc_faults.DocFaultKind.TheVariants as kinds;

use crate::checks::type_text;
use crate::doc_faults::{DocFault, DocFaultKind, DocField, ReadFault};
use crate::event_building::build;
use crate::event_checks::{check_events, numbered_event};
use crate::event_types::EventType;
use crate::events::Event;
use crate::foreign_faults::json_fault;
use crate::limits::MAX_EVENTS;
use crate::members::{member, member_named};
use crate::sequences::Sequence;
use crate::site_lists::Sites;
use serde_json::Value;
use std::alloc::{AllocError, Global};

/// What a document says.
#[derive(Debug, Drop)]
pub struct Doc {
    /// The events that weren't skipped, in order.
    pub events: Sequence<Event>,
    /// How many events were skipped, being of a type that isn't traced.
    pub skipped: u64,
}

impl Doc {
    /// An equal document.
    pub fn copy(&self, alloc: Global) -> Result<Doc, AllocError>
        ensures { IfOk result (λ doc. doc ≡ self.now) }
    {
        Ok(Doc {
            events: self.events.copy(alloc)?,
            skipped: self.skipped,
        })
    }
}

/// A fault of the document itself.
fn whole(field: DocField, kind: DocFaultKind) -> DocFault
    ensures { result ≡ whole field kind }
{
    DocFault {
        event: 0,
        field,
        kind,
    }
}

/// The event list of an EPCISDocument.
#[tactic(auto, unfolding(crate::specs::Documents::listed))]
fn listed(value: &Value) -> Option<&[Value]>
    ensures { option_map (λ l. items_view l.now) result ≡ listed (view value.now) }
{
    let body = member_named(value, "epcisBody")?;
    let list = member(body, DocField::EventList)?.as_array()?;
    Some(list.as_slice())
}

/// The events of a document, one where it is a bare event.
#[tactic(auto, unfolding(crate::specs::Documents::event_list))]
pub(crate) fn event_list(value: &Value) -> Result<&[Value], DocFault>
    ensures { Shows (λ l. items_view l.now) result (event_list (view value.now)) }
{
    let Some(text) = type_text(value) else {
        return Err(whole(DocField::Document, DocFaultKind::NotDocument));
    };
    if text == "EPCISDocument" {
        return match listed(value) {
            Some(list) => Ok(list),
            None => Err(whole(DocField::EventList, DocFaultKind::NotDocument)),
        };
    }
    match EventType::named(text) {
        Some(_) => Ok(std::slice::from_ref(value)),
        None => Err(whole(DocField::Document, DocFaultKind::NotDocument)),
    }
}

/// The event of this number, `None` where it is skipped.
fn read_event(
    alloc: Global,
    sites: &Sites,
    number: u64,
    value: &Value,
) -> Result<Option<Event>, ReadFault>
    ensures { Gives result (numbered_event sites.now number (view value.now)) }
{
    match numbered_event(number, value)? {
        Some(checked) => Ok(Some(build(alloc, sites, &checked)?)),
        None => Ok(None),
    }
}

/// The events of a list, the first of them being number 1.
fn each_event(alloc: Global, sites: &Sites, list: &[Value]) -> Result<Doc, ReadFault>
    requires { length list.now ≤ MAX_EVENTS }
    ensures { Gives result (events_of sites.now (items_view list.now)) }
{
    let mut events = Vec::new(alloc);
    let mut skipped = 0;
    for (place, value) in list.iter().enumerate() {
        match read_event(alloc, sites, place as u64 + 1, value)? {
            Some(event) => events.push(event)?,
            None => skipped += 1,
        }
    }
    Ok(Doc {
        events: Sequence::from_vec(events),
        skipped,
    })
}

/// Refuses a list of more than 1,000 events.
#[tactic(auto, using(crate::proofs::Lists::items_count), unfolding(crate::specs::Documents::few_events))]
fn check_count(list: &[Value]) -> Result<(), DocFault>
    ensures checked { result ≡ few_events (items_view list.now) }
    ensures few { OnOk result (length list.now ≤ MAX_EVENTS) }
{
    if list.len() > MAX_EVENTS {
        Err(whole(DocField::EventList, DocFaultKind::TooManyEvents))
    } else {
        Ok(())
    }
}

/// The events of a document's value, with destinations looked up among the sites; or its first fault.
///
/// Each event is checked and built in one pass. Where memory runs out, all are checked once more, which doesn't
/// allocate: so a document that has a fault is refused with it.
///
/// # Errors
/// `Doc` with the document's first fault, or `NoMemory` where it has none.
#[tactic(auto, unfolding(crate::specs::Documents::document_of))]
pub fn read_value(alloc: Global, value: &Value, sites: &Sites) -> Result<Doc, ReadFault>
    ensures gives { Gives result (document_of sites.now (view value.now)) }
    ensures memory { result ≡ Err ReadFault.NoMemory
        → IsOk (document_of sites.now (view value.now)) }
{
    let list = event_list(value)?;
    check_count(list)?;
    match each_event(alloc, sites, list) {
        Ok(doc) => Ok(doc),
        Err(ReadFault::NoMemory) => {
            check_events(list)?;
            Err(ReadFault::NoMemory)
        }
        Err(fault) => Err(fault),
    }
}

/// The events of a document in the JSON form of GS1 EPCIS 2.0, an EPCISDocument or one
/// bare event, with destinations looked up among the sites; or its first fault.
///
/// # Errors
/// `Doc` with the document's first fault, or `NoMemory`, which comes of no empty bytes; once the bytes
/// are read as JSON, it comes only of a document that has no fault (`read_value`).
#[tactic(auto, unfolding(crate::specs::Documents::text_document))]
pub fn read_document(alloc: Global, bytes: &[u8], sites: &Sites) -> Result<Doc, ReadFault>
    // The bytes are read as exactly the document's events, with the number of those that it skips; or its first fault
    // is returned, with event, member and kind, in the order of the checks. Nothing else is accepted.
    // Not covered: `event_list`, `event_of` and `text_document` stand by cases, one definition for each check.
    ensures text { IsUtf8 bytes.now → Gives result (text_document sites.now bytes.now) }
    ensures bytes { (IsUtf8 bytes.now → ⊥)
        → Gives result (Err (whole fields.Document kinds.Syntax)) }
    // Not covered: `serde_json` allocates while it reads the bytes, and may run out before a fault is known.
    ensures memory { result ≡ Err ReadFault.NoMemory → 0 < length bytes.now }
{
    match Value::from_slice(alloc, bytes) {
        Ok(value) => read_value(alloc, &value, sites),
        Err(error) => Err(json_fault(&error)),
    }
}
