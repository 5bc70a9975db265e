//! A document with its events that were declared to be errors, as if they weren't.

ghost use Rattle.std.specs.Prelude.{◌≡◌, IfOk, map};
ghost use Rattle.std.specs.List.{list_any};
ghost use Rattle.serde_json.specs.View.{items_view, view};
ghost use Rattle.event_json.specs.Untraced.{in_order};
ghost use Rattle.document_convert.specs.DeclaredErrors.{document_with_errors_kept, is_declared, undeclared};

use crate::documents::document_around;
use crate::event_lists::listed;
use crate::lotted::is_document;
use crate::quantities::without_member;
use crate::types::member_named;
use serde_json::Value;
use std::alloc::{AllocError, Global};

/// Whether an event was declared to be an error.
pub(crate) fn is_declared(event: &Value) -> bool
    ensures { result ≡ is_declared (view event.now) }
{
    member_named(event, "errorDeclaration").is_some()
}

/// Whether an event of a list was.
fn have_declared(list: &[Value]) -> bool
    ensures { result ≡ list_any is_declared (in_order (items_view list.now)) }
{
    for event in list.iter() {
        if is_declared(event) {
            return true;
        }
    }
    false
}

/// An event without its declaration.
#[tactic(auto, unfolding(crate::specs::DeclaredErrors::undeclared))]
fn undeclared(event: Value) -> Value
    ensures { view result ≡ undeclared (view event) }
{
    if is_declared(&event) {
        without_member(event, "errorDeclaration")
    } else {
        event
    }
}

/// The events of a list without their declarations.
fn events_undeclared(alloc: Global, list: &[Value]) -> Result<Vec<Value>, AllocError>
    ensures { IfOk result
        (λ events. map view events.items ≡ map undeclared (in_order (items_view list.now))) }
{
    let mut events = Vec::new(alloc);
    for value in list.iter() {
        events.push(undeclared(value.clone()?))?;
    }
    Ok(events)
}

/// A document of GS1 EPCIS 2.0, as [`document_in`](crate::document_in) finds it, in which the events that were declared
/// to be errors (section 7.4.1) are kept as if they weren't: the member `errorDeclaration` of an event goes, and all
/// else stays. One that is null is no declaration, and stays.
///
/// A capture refuses a declared event, and takes this one for what it said before it was declared to be an error. So a
/// recall follows both what the event said and what corrects it, and may find too much, and never too little.
///
/// A document without a declared event stays as it is, and any other has all that stands beside its body.
///
/// # Errors
/// Where memory runs out.
#[tactic(auto, unfolding(crate::specs::EachEvent::with_each))]
pub fn document_with_errors_kept(alloc: Global, document: Value) -> Result<Value, AllocError>
    // Each event is there, in order, and no other is. One that was declared to be an error has all its members but the
    // declaration, so that a capture reads it as it reads the event that says the same and wasn't declared; any other
    // stays as it is, and so does what stands in the document beside its body.
    // Not covered: what an event says that corrects a declared one isn't looked at.
    ensures { IfOk result (λ found. view found ≡ document_with_errors_kept (view document)) }
{
    if !is_document(&document) {
        return Ok(undeclared(document));
    }
    let Some(list) = listed(&document) else {
        return Ok(document);
    };
    if !have_declared(list) {
        return Ok(document);
    }
    let events = events_undeclared(alloc, list)?;
    document_around(alloc, document, events)
}
