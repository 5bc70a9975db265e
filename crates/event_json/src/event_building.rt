//! Building an event from what was checked of it.

ghost use Rattle.std.specs.Prelude.{◌≡◌, ◌<◌, None, IfOk, IsSome, length, filter, filter_map, is_none};
ghost use Rattle.event_json.specs.declared.bodies.Body.TheVariants.{Make, Pack};
ghost use Rattle.event_json.specs.EventReading.{shipment};
ghost use Rattle.event_json.specs.Events.{IsIdentifier, IsBody};
ghost use Rattle.event_json.specs.Checked.{body_of, content_of, IsComplete, IsReady};
ghost use Rattle.event_json.specs.Sites.{addressed};

use crate::bodies::{Action, Body};
use crate::event_checks::{CheckedBody, CheckedEvent};
use crate::events::Event;
use crate::item_lists::{DestinationTexts, EpcTexts};
use crate::lent_texts::{EpcText, PlainStr};
use crate::sequences::Sequence;
use crate::site_lists::Sites;
use crate::site_numbers::SiteNo;
use crate::texts::PlainText;
use epc_core::Epc;
use std::alloc::{AllocError, Global};

/// The sites among the destinations, in order.
fn traced(alloc: Global, sites: &Sites, texts: &[PlainText]) -> Result<Sequence<SiteNo>, AllocError>
    ensures { IfOk result (λ s. s ≡ filter_map (addressed sites.now) texts.now) }
{
    let mut traced = Vec::new(alloc);
    for text in texts {
        if let Some(site) = sites.addressed(text.as_str()) {
            traced.push(site)?;
        }
    }
    Ok(Sequence::from_vec(traced))
}

/// The other destinations, in order.
fn outside(
    alloc: Global,
    sites: &Sites,
    texts: &[PlainText],
) -> Result<Sequence<PlainText>, AllocError>
    ensures { IfOk result (λ s. s ≡ filter (λ t. is_none (addressed sites.now t)) texts.now) }
{
    let mut outside = Vec::new(alloc);
    for text in texts {
        if sites.addressed(text.as_str()).is_none() {
            outside.push(text.copy(alloc)?)?;
        }
    }
    Ok(Sequence::from_vec(outside))
}

/// A copy of an identifier, where there is one.
fn copy_identifier(
    alloc: Global,
    id: &Option<PlainStr<'_>>,
) -> Result<Option<PlainText>, AllocError>
    ensures value { IfOk result (λ copy. copy ≡ id.now) }
    ensures plain { IfOk result IsIdentifier }
{
    match id {
        Some(text) => Ok(Some(text.copy(alloc)?)),
        None => Ok(None),
    }
}

/// The item of a parent, where it is named.
fn read_parent(alloc: Global, parent: &Option<EpcText<'_>>) -> Result<Option<Epc>, AllocError>
    ensures { IfOk result (λ item. item ≡ parent.now) }
{
    match parent {
        Some(text) => Ok(Some(text.read(alloc)?)),
        None => Ok(None),
    }
}

/// Items that were seen, or shipped where there are destinations.
#[tactic(auto, using(crate::proofs::Lists::parted))]
fn shipment(
    alloc: Global,
    sites: &Sites,
    items: &EpcTexts<'_>,
    destinations: &DestinationTexts<'_>,
) -> Result<Body, AllocError>
    ensures value { IfOk result (λ body. body ≡ shipment sites.now items.now destinations.now) }
    ensures within_limits { IfOk result IsBody }
{
    let items = items.read(alloc)?;
    let destinations = destinations.copy(alloc)?;
    if destinations.is_empty() {
        return Ok(Body::Note { items });
    }
    let traced = traced(alloc, sites, destinations.as_slice())?;
    let outside = outside(alloc, sites, destinations.as_slice())?;
    Ok(Body::Ship {
        items,
        sites: traced,
        outside,
    })
}

/// What is made from what, as it was checked.
fn transformation(
    alloc: Global,
    id: &Option<PlainStr<'_>>,
    ins: &EpcTexts<'_>,
    outs: &EpcTexts<'_>,
) -> Result<Body, AllocError>
    requires { id.now ≡ None → (0 < length ins.now) × (0 < length outs.now) }
    ensures value { IfOk result (λ body. body ≡ Make id.now ins.now outs.now) }
    ensures within_limits { IfOk result IsBody }
{
    Ok(Body::Make {
        id: copy_identifier(alloc, id)?,
        ins: ins.read(alloc)?,
        outs: outs.read(alloc)?,
    })
}

/// What was done to children, as it was checked.
fn aggregation(
    alloc: Global,
    action: Action,
    parent: &Option<EpcText<'_>>,
    children: &EpcTexts<'_>,
) -> Result<Body, AllocError>
    requires { action ≡ Action.Add → IsSome parent.now }
    ensures value { IfOk result (λ body. body ≡ Pack action parent.now children.now) }
    ensures within_limits { IfOk result IsBody }
{
    Ok(Body::Pack {
        action,
        parent: read_parent(alloc, parent)?,
        children: children.read(alloc)?,
    })
}

/// What a checked event says of its items.
fn body(alloc: Global, sites: &Sites, checked: &CheckedBody<'_>) -> Result<Body, AllocError>
    requires { IsComplete checked.now }
    ensures value { IfOk result (λ body. body ≡ body_of sites.now checked.now) }
    ensures within_limits { IfOk result IsBody }
{
    match checked {
        CheckedBody::Object {
            items,
            destinations,
        } => shipment(alloc, sites, items, destinations),
        CheckedBody::Transformation { id, ins, outs } => transformation(alloc, id, ins, outs),
        CheckedBody::Aggregation {
            action,
            parent,
            children,
        } => aggregation(alloc, *action, parent, children),
    }
}

/// The event that was checked. It fails only where memory runs out.
pub fn build(alloc: Global, sites: &Sites, checked: &CheckedEvent<'_>) -> Result<Event, AllocError>
    requires { IsReady checked.now }
    ensures { IfOk result (λ event. event ≡ content_of sites.now checked.now) }
{
    let id = copy_identifier(alloc, &checked.head.id)?;
    let body = body(alloc, sites, &checked.body)?;
    Ok(Event::new(id, checked.head.instant, body))
}
