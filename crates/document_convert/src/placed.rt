//! A document with the destinations of its events as addresses of listed sites.

ghost use Rattle.std.specs.Prelude.{◌≡◌, IfOk, map, option_map};
ghost use Rattle.std.specs.List.{list_any};
ghost use Rattle.serde_json.specs.View.{items_view, view};
ghost use Rattle.event_json.specs.Untraced.{in_order};
ghost use Rattle.document_convert.specs.Placed.{asked_of, destination_in, destinations, document_with_places, goes_to, has_destination, has_places, placed_member, with_places};
ghost use Rattle.document_convert.specs.Places.{place_of};
ghost use Rattle.document_convert.specs.Respelled.{is_otherwise};

use crate::documents::document_around;
use crate::event_lists::listed;
use crate::lotted::is_document;
use crate::places::{is_of_several, place_of};
use crate::types::{member_named, type_text, with_member};
use event_json::Sites;
use serde_json::Value;
use std::alloc::{AllocError, Global};

/// What is asked of the text of a destination.
#[derive(Clone, Copy, Debug)]
pub(crate) enum Question {
    /// Whether it is the place of an address, and another text.
    Otherwise,
    /// Whether it names the GLN of several listed sites, and stays.
    Several,
}

/// Whether a text is the place of an address, and another text.
fn is_otherwise(alloc: Global, sites: &Sites, text: &str) -> Result<bool, AllocError>
    ensures { IfOk result
        (λ otherwise. otherwise ≡ is_otherwise (place_of sites.now) text.now) }
{
    match place_of(alloc, sites, text)? {
        Some(place) => Ok(place.as_str() != text),
        None => Ok(false),
    }
}

/// Whether a text is as it is asked.
fn is_so(alloc: Global, sites: &Sites, question: Question, text: &str) -> Result<bool, AllocError>
    ensures { IfOk result (λ so. so ≡ asked_of sites.now question text.now) }
{
    match question {
        Question::Otherwise => is_otherwise(alloc, sites, text),
        Question::Several => is_of_several(alloc, sites, text),
    }
}

/// The text of a member of a list of destinations.
fn destination_in(member: &Value) -> Option<&str>
    ensures { option_map (λ t. t.now) result ≡ destination_in (view member.now) }
{
    member_named(member, "destination")?.as_str()
}

/// The list of destinations of an ObjectEvent.
#[tactic(auto, unfolding(crate::specs::Placed::destinations))]
fn destinations(event: &Value) -> Option<&[Value]>
    ensures { option_map (λ l. items_view l.now) result ≡ destinations (view event.now) }
{
    match type_text(event)? {
        "ObjectEvent" => Some(
            member_named(event, "destinationList")?
                .as_array()?
                .as_slice(),
        ),
        _ => None,
    }
}

/// Whether the text of a member of the list is as it is asked.
fn goes_to(
    alloc: Global,
    sites: &Sites,
    question: Question,
    member: &Value,
) -> Result<bool, AllocError>
    ensures { IfOk result
        (λ so. so ≡ goes_to (asked_of sites.now question) (view member.now)) }
{
    match destination_in(member) {
        Some(text) => is_so(alloc, sites, question, text),
        None => Ok(false),
    }
}

/// Whether that of one of the members is.
fn go_to(
    alloc: Global,
    sites: &Sites,
    question: Question,
    list: &[Value],
) -> Result<bool, AllocError>
    ensures { IfOk result (λ so. so
        ≡ list_any (goes_to (asked_of sites.now question)) (in_order (items_view list.now))) }
{
    for member in list.iter() {
        if goes_to(alloc, sites, question, member)? {
            return Ok(true);
        }
    }
    Ok(false)
}

/// Whether an event has a destination whose text is as it is asked.
#[tactic(auto, unfolding(crate::specs::Placed::has_destination))]
pub(crate) fn has_destination(
    alloc: Global,
    sites: &Sites,
    question: Question,
    event: &Value,
) -> Result<bool, AllocError>
    ensures { IfOk result
        (λ has. has ≡ has_destination (asked_of sites.now question) (view event.now)) }
{
    match destinations(event) {
        Some(list) => go_to(alloc, sites, question, list),
        None => Ok(false),
    }
}

/// A copy of a member of a list of destinations, by the address of its place.
#[tactic(auto, unfolding(crate::specs::Placed::placed_member))]
fn placed_member(alloc: Global, sites: &Sites, member: &Value) -> Result<Value, AllocError>
    ensures { IfOk result
        (λ v. view v ≡ placed_member (place_of sites.now) (view member.now)) }
{
    let copy = member.clone()?;
    let Some(text) = destination_in(member) else {
        return Ok(copy);
    };
    let Some(place) = place_of(alloc, sites, text)? else {
        return Ok(copy);
    };
    if place.as_str() == text {
        Ok(copy)
    } else {
        with_member(alloc, copy, "destination", Value::String(place))
    }
}

/// Copies of the members of a list of destinations, by the addresses of their places.
fn placed_members(alloc: Global, sites: &Sites, list: &[Value]) -> Result<Vec<Value>, AllocError>
    ensures { IfOk result (λ members. map view members.items
        ≡ map (placed_member (place_of sites.now)) (in_order (items_view list.now))) }
{
    let mut members = Vec::new(alloc);
    for value in list.iter() {
        members.push(placed_member(alloc, sites, value)?)?;
    }
    Ok(members)
}

/// An event with its destinations as addresses of listed sites; one of which none becomes another stays as it is.
#[tactic(auto, unfolding(crate::specs::Placed::with_places))]
fn with_places(alloc: Global, sites: &Sites, event: Value) -> Result<Value, AllocError>
    ensures { IfOk result (λ found. view found ≡ with_places sites.now (view event)) }
{
    if !has_destination(alloc, sites, Question::Otherwise, &event)? {
        return Ok(event);
    }
    let Some(list) = destinations(&event) else {
        return Ok(event);
    };
    let members = placed_members(alloc, sites, list)?;
    with_member(alloc, event, "destinationList", Value::Array(members))
}

/// Whether an event of a list has a destination that becomes an address.
fn have_places(alloc: Global, sites: &Sites, list: &[Value]) -> Result<bool, AllocError>
    ensures { IfOk result (λ have. have
        ≡ list_any (has_places sites.now) (in_order (items_view list.now))) }
{
    for event in list.iter() {
        if has_destination(alloc, sites, Question::Otherwise, event)? {
            return Ok(true);
        }
    }
    Ok(false)
}

/// The events of a list with their destinations as addresses.
fn events_with_places(
    alloc: Global,
    sites: &Sites,
    list: &[Value],
) -> Result<Vec<Value>, AllocError>
    ensures { IfOk result (λ events. map view events.items
        ≡ map (with_places sites.now) (in_order (items_view list.now))) }
{
    let mut events = Vec::new(alloc);
    for value in list.iter() {
        events.push(with_places(alloc, sites, value.clone()?)?)?;
    }
    Ok(events)
}

/// A document of GS1 EPCIS 2.0, as [`document_in`](crate::document_in) finds it, with the destinations of its
/// ObjectEvents (section 7.4.2, `destinationList`) as addresses of listed sites, so that what was shipped to a site in
/// another spelling is traced.
///
/// A text that is an address of a listed site stays. Any other becomes the first address of the one site that has the
/// same place in its other spelling, as Digital Link or as EPC URI, with its extension; else the first address of the
/// one site that has an address with the same GLN, whatever the extensions: of an EPC URI, of a Digital Link on any
/// host, or the GLN alone. Where no site has, or several have, the text stays. So do all other members, and two that
/// become one address stay two.
///
/// A document without such a text stays as it is, and any other has all that stands beside its body.
///
/// # Errors
/// Where memory runs out.
#[tactic(auto, unfolding(crate::specs::EachEvent::with_each))]
pub fn document_with_places(
    alloc: Global,
    sites: &Sites,
    document: Value,
) -> Result<Value, AllocError>
    // Each event is there, in order, and no other is. A destination of an ObjectEvent that is no address of a listed
    // site, and names the place of one, becomes in its place the first address of this site that names the same place,
    // else the same GLN, so that a capture reads this address; one that names the GLN of several sites, or of none,
    // stays. Nothing else changes; nor does what stands in the document beside its body. A second time changes nothing.
    // Not covered: which texts are one place stands by the definition of item_spellings. A GLN with an extension may be
    // another place than the site that is listed by this GLN.
    ensures { IfOk result
        (λ found. view found ≡ document_with_places sites.now (view document)) }
{
    if !is_document(&document) {
        return with_places(alloc, sites, document);
    }
    let Some(list) = listed(&document) else {
        return Ok(document);
    };
    if !have_places(alloc, sites, list)? {
        return Ok(document);
    }
    let events = events_with_places(alloc, sites, list)?;
    document_around(alloc, document, events)
}
