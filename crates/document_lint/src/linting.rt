//! Linting a document.

ghost use Rattle.std.specs.Prelude.{◌≡◌, ◌≤◌, ◌++◌, false, List, Err, IfOk, OnOk, length, option_to_list};
ghost use Rattle.std.specs.List.{enumerate_from, flat_map};
ghost use Rattle.event_json.specs.Untraced.{in_order};
ghost use Rattle.serde_json.specs.View.{items_view, view};
ghost use Rattle.event_json.specs.Documents.{few_events, numbered_event, whole};
ghost use Rattle.event_json.specs.Sites.{Site};
ghost use Rattle.event_json.specs.declared.doc_faults.DocField.TheVariants as fields;
ghost use Rattle.event_json.specs.declared.doc_faults.DocFaultKind.TheVariants as kinds;
ghost use Rattle.document_lint.specs.Findings.{IsLint, at_number, event_findings, fault_finding, found_of, is_event, length_findings, text_lint, value_lint, without_list};

use crate::event_faults::push_event_faults;
use crate::event_lists::{event_list, is_event, whole};
use crate::findings::{Finding, Lint, Listing, What};
use crate::strange_events::{push_strange, skipped_type};
use event_json::{
    Doc, DocFault, DocFaultKind, DocField, Event, MAX_EVENTS, ReadFault, Sequence, Sites,
    read_value,
};
use serde_json::Value;
use std::alloc::{AllocError, Global};

/// What is wrong with a document in the JSON form of GS1 EPCIS 2.0, an EPCISDocument or one bare event, and what is
/// strange about its events, with destinations looked up among the sites. An event that can't be read is reported with
/// all its faults, one for each of its members. A document without a fault is one that `read_document` of `event_json`
/// reads. Where the site that is to capture it is named, it is told of events that happened at another one.
///
/// # Errors
/// Where memory runs out.
#[tactic(auto, unfolding(crate::specs::Findings::text_lint))]
pub fn lint_document(alloc: Global, bytes: &[u8], listing: &Listing<'_>) -> Result<Lint, AllocError>
    // Not covered: which warnings there are has no law above its definition.
    ensures { IfOk result (IsLint listing.now.sites.now listing.now.here bytes.now) }
{
    match Value::from_slice(alloc, bytes) {
        Ok(value) => lint_value(alloc, &value, listing),
        Err(error) => {
            if error.is_memory() {
                Err(AllocError)
            } else {
                without_list(alloc, whole(DocField::Document, DocFaultKind::Syntax))
            }
        }
    }
}

/// What is found in a document that has no list of events.
fn without_list(alloc: Global, fault: DocFault) -> Result<Lint, AllocError>
    ensures { IfOk result (λ l. l ≡ without_list fault) }
{
    let mut findings = Vec::new(alloc);
    findings.push(fault_finding(fault))?;
    Ok(Lint {
        events: 0,
        findings: Sequence::from_vec(findings),
    })
}

/// A fault, as it is found.
fn fault_finding(fault: DocFault) -> Finding
    ensures { result ≡ fault_finding fault }
{
    Finding {
        event: fault.event,
        what: What::Fault {
            field: fault.field,
            kind: fault.kind,
        },
    }
}

/// What is found in the document of a value.
#[tactic(auto, unfolding(crate::specs::Findings::value_lint))]
fn lint_value(alloc: Global, value: &Value, listing: &Listing<'_>) -> Result<Lint, AllocError>
    ensures { IfOk result (λ l. l ≡ value_lint listing.now.sites.now listing.now.here
        (view value.now)) }
{
    let list = match event_list(value) {
        Ok(list) => list,
        Err(fault) => return without_list(alloc, fault),
    };
    let mut findings = Vec::new(alloc);
    push_length(&mut findings, list)?;
    push_events(alloc, &mut findings, listing, list)?;
    Ok(Lint {
        events: list.len() as u64,
        findings: Sequence::from_vec(findings),
    })
}

/// Adds the fault of a list of more than 1,000 events.
fn push_length(findings: &mut Vec<Finding>, list: &[Value]) -> Result<(), AllocError>
    ensures { OnOk result (findings.new.items ≡ findings.old.items ++ length_findings
        (few_events (items_view list.now))) }
{
    if let Err(fault) = check_count(list) {
        findings.push(fault_finding(fault))?;
    }
    Ok(())
}

/// Refuses a list of more than 1,000 events.
#[tactic(auto, using(event_json::proofs::Lists::items_count), unfolding(event_json::specs::Documents::few_events))]
fn check_count(list: &[Value]) -> Result<(), DocFault>
    ensures { result ≡ few_events (items_view list.now) }
{
    if list.len() > MAX_EVENTS {
        Err(whole(DocField::EventList, DocFaultKind::TooManyEvents))
    } else {
        Ok(())
    }
}

/// Adds what is found of each event of a list, the first of them being number 1.
fn push_events(
    alloc: Global,
    findings: &mut Vec<Finding>,
    listing: &Listing<'_>,
    list: &[Value],
) -> Result<(), AllocError>
    ensures { OnOk result (findings.new.items ≡ findings.old.items ++ flat_map
        (event_findings listing.now.sites.now listing.now.here)
        (enumerate_from 1 (in_order (items_view list.now)))) }
{
    for (place, value) in list.iter().enumerate() {
        push_event(alloc, findings, listing, place as u64 + 1, value)?;
    }
    Ok(())
}

/// Adds what is found of the event of a number.
#[tactic(auto, using(crate::proofs::Alone::at_any_number))]
fn push_event(
    alloc: Global,
    findings: &mut Vec<Finding>,
    listing: &Listing<'_>,
    number: u64,
    value: &Value,
) -> Result<(), AllocError>
    ensures { OnOk result (findings.new.items
        ≡ findings.old.items ++ event_findings listing.now.sites.now listing.now.here
        (number, view value.now)) }
{
    let found = found_of(alloc, listing, value)?;
    push_at(findings, number, found)
}

/// Adds what was found of the event of a number.
fn push_at(findings: &mut Vec<Finding>, number: u64, found: Vec<What>) -> Result<(), AllocError>
    ensures { OnOk result (findings.new.items
        ≡ findings.old.items ++ at_number number found.items) }
{
    for what in found {
        findings.push(Finding {
            event: number,
            what,
        })?;
    }
    Ok(())
}

/// The faults of an event, that it is skipped, or what is strange about it.
fn found_of(alloc: Global, listing: &Listing<'_>, value: &Value) -> Result<Vec<What>, AllocError>
    ensures { IfOk result (λ found. found.items ≡ found_of listing.now.sites.now listing.now.here
        (view value.now) (numbered_event listing.now.sites.now 1 (view value.now))) }
{
    let mut found = Vec::new(alloc);
    match read_alone(alloc, listing.sites, value)? {
        Err(_) => push_event_faults(&mut found, value)?,
        Ok(None) => found.push(What::Skipped(skipped_type(value)))?,
        Ok(Some(event)) => push_strange(alloc, &mut found, listing, value, &event)?,
    }
    Ok(found)
}

/// The event that a document of this event alone has, None where it is skipped, or its fault. An event is read where it
/// lies, since a bare event is a document, too.
fn read_alone(
    alloc: Global,
    sites: &Sites,
    value: &Value,
) -> Result<Result<Option<Event>, DocFault>, AllocError>
    ensures { IfOk result (λ read. read ≡ numbered_event sites.now 1 (view value.now)) }
{
    if is_event(value) {
        match read_value(alloc, value, sites) {
            Ok(doc) => Ok(Ok(only_event(doc))),
            Err(ReadFault::Doc(fault)) => Ok(Err(fault)),
            Err(ReadFault::NoMemory) => Err(AllocError),
        }
    } else {
        Ok(Err(type_fault(value)))
    }
}

/// The fault of a value that is no event by its type.
fn type_fault(value: &Value) -> DocFault
    requires { is_event (view value.now) ≡ false }
    ensures { (sites : List Site) → Err result ≡ numbered_event sites 1 (view value.now) }
{
    if value.is_object() {
        DocFault {
            event: 1,
            field: DocField::Type,
            kind: DocFaultKind::NoType,
        }
    } else {
        DocFault {
            event: 1,
            field: DocField::Event,
            kind: DocFaultKind::WrongShape,
        }
    }
}

/// The event of a document that has at most one.
fn only_event(doc: Doc) -> Option<Event>
    requires { length doc.events ≤ 1 }
    ensures { option_to_list result ≡ doc.events }
{
    doc.events.into_vec().pop()
}
