//! What a document says that isn't traced, in counts.

ghost use Rattle.std.specs.Prelude.{◌≡◌, ◌≤◌, IsUtf8, Err, length, count_by, sum_by, is_none};
ghost use Rattle.serde_json.specs.View.{view};
ghost use Rattle.event_json.specs.Documents.{whole};
ghost use Rattle.event_json.specs.Faults.{Gives};
ghost use Rattle.event_json.specs.Untraced.{is_shipping, is_aimless, listed_events, outside_of, untraced_of, value_untraced, text_untraced};
ghost use Rattle.event_json.specs.declared.doc_faults.DocField.TheVariants as fields;
ghost use Rattle.event_json.specs.declared.doc_faults.DocFaultKind.TheVariants as kinds;
ghost use Rattle.event_json.specs.declared.limits.TheConstants.{MAX_EVENTS};

use crate::bodies::Body;
use crate::checks::type_text;
use crate::doc_faults::{DocField, ReadFault};
use crate::documents::{Doc, event_list, read_value};
use crate::events::Event;
use crate::foreign_faults::json_fault;
use crate::limits::MAX_EVENTS;
use crate::members::{list, member_named};
use crate::site_lists::Sites;
use serde_json::Value;
use std::alloc::Global;

/// How much of what a document says isn't traced.
#[derive(Clone, Copy, Debug, PartialEq, Eq)]
pub struct Untraced {
    /// Events of a type that is skipped.
    pub skipped: u64,
    /// ObjectEvents whose business step is shipping and which have no destination: they are kept as
    /// observations.
    pub aimless: u64,
    /// Destinations of shipments that are no traced site, each as often as it is named.
    pub outside: u64,
    /// Events that are kept and have no eventID.
    pub unnamed: u64,
}

/// Whether a business step is shipping.
#[tactic(auto, unfolding(crate::specs::Untraced::is_shipping))]
fn is_shipping(step: &str) -> bool
    ensures { result ≡ is_shipping step.now }
{
    step == "shipping"
        || step == "urn:epcglobal:cbv:bizstep:shipping"
        || step == "https://ref.gs1.org/cbv/BizStep-shipping"
}

/// Whether an event is an ObjectEvent that ships without a destination.
#[tactic(auto, using(crate::proofs::Lists::items_count), unfolding(crate::specs::Untraced::is_aimless))]
fn is_aimless(value: &Value) -> bool
    ensures { result ≡ is_aimless (view value.now) }
{
    let Some(text) = type_text(value) else {
        return false;
    };
    let Some(step) = member_named(value, "bizStep").and_then(Value::as_str) else {
        return false;
    };
    let Ok(destinations) = list(value, DocField::DestinationList) else {
        return false;
    };
    text == "ObjectEvent" && is_shipping(step) && destinations.is_empty()
}

/// How many events of a document ship without a destination.
#[tactic(auto, using(crate::proofs::Counted::counted), unfolding(crate::specs::Untraced::listed_events))]
fn aimless(value: &Value) -> u64
    ensures { result ≡ count_by is_aimless (listed_events (view value.now)) }
{
    match event_list(value) {
        Ok(list) => list.iter().filter(|v| is_aimless(v)).count() as u64,
        Err(_) => 0,
    }
}

/// How many destinations of an event are no traced site.
fn outside_of(event: &Event) -> u64
    ensures value { result ≡ length (outside_of event.now.body) }
    ensures few { result ≤ 1000 }
{
    match event.body() {
        Body::Ship {
            items: _,
            sites: _,
            outside,
        } => outside.len() as u64,
        Body::Note { items: _ } => 0,
        Body::Make {
            id: _,
            ins: _,
            outs: _,
        } => 0,
        Body::Pack {
            action: _,
            parent: _,
            children: _,
        } => 0,
    }
}

/// How many destinations of these events are no traced site.
fn outside(events: &[Event]) -> u64
    requires { length events.now ≤ MAX_EVENTS }
    ensures { result ≡ sum_by (λ e. length (outside_of e.body)) events.now }
{
    let mut outside = 0;
    for event in events {
        outside += outside_of(event);
    }
    outside
}

/// Whether an event has no eventID.
fn is_unnamed(event: &Event) -> bool
    ensures { result ≡ is_none event.now.id }
{
    event.id().is_none()
}

/// How many of these events have no eventID.
fn unnamed(events: &[Event]) -> u64
    ensures { result ≡ count_by (λ e. is_none e.id) events.now }
{
    let mut unnamed = 0;
    for event in events {
        if is_unnamed(event) {
            unnamed += 1;
        }
    }
    unnamed
}

/// What the document that was read of this value says and isn't traced.
fn untraced_of(value: &Value, doc: &Doc) -> Untraced
    requires { length doc.now.events ≤ MAX_EVENTS }
    ensures { result ≡ untraced_of (view value.now) doc.now }
{
    let events = doc.events.as_slice();
    Untraced {
        skipped: doc.skipped,
        aimless: aimless(value),
        outside: outside(events),
        unnamed: unnamed(events),
    }
}

/// What the document of a value says and isn't traced; or the document's first fault.
#[tactic(auto, using(crate::proofs::Counted::few_kept), unfolding(crate::specs::Untraced::value_untraced))]
fn of_value(alloc: Global, value: &Value, sites: &Sites) -> Result<Untraced, ReadFault>
    ensures { Gives result (value_untraced sites.now (view value.now)) }
{
    let doc = read_value(alloc, value, sites)?;
    Ok(untraced_of(value, &doc))
}

/// What a document in the JSON form of GS1 EPCIS 2.0, an EPCISDocument or one bare event, says and isn't traced, with
/// destinations looked up among the sites; or the document's first fault.
///
/// # Errors
/// `Doc` with the document's first fault, as [`read_document`](crate::read_document) has it, or `NoMemory`.
#[tactic(auto, unfolding(crate::specs::Untraced::text_untraced))]
pub fn read_untraced(alloc: Global, bytes: &[u8], sites: &Sites) -> Result<Untraced, ReadFault>
    // Counts skipped events, ObjectEvents of business step shipping without a destination, destinations that are no
    // traced site, and kept events without an eventID; or the document's first fault is returned.
    ensures text { IsUtf8 bytes.now → Gives result (text_untraced sites.now bytes.now) }
    ensures bytes { (IsUtf8 bytes.now → ⊥)
        → Gives result (Err (whole fields.Document kinds.Syntax)) }
{
    match Value::from_slice(alloc, bytes) {
        Ok(value) => of_value(alloc, &value, sites),
        Err(error) => Err(json_fault(&error)),
    }
}
