//! The checks of an event. They find each of its faults and allocate nothing, and what they find is
//! lent by the JSON value.

ghost use Rattle.std.specs.Prelude.{◌≡◌, ◌≤◌, List, length, option_map, IfOk, IfSome, IsSome};
ghost use Rattle.serde_json.specs.View.{view, items_view};
ghost use Rattle.event_json.specs.Documents.{numbered_event, events_of};
ghost use Rattle.event_json.specs.EventReading.{object_event, made, transformation_event, parent_of, aggregation_event, event_of_type, event_of};
ghost use Rattle.event_json.specs.Faults.{Shows, Passes};
ghost use Rattle.event_json.specs.declared.limits.TheConstants.{MAX_EVENTS};
ghost use Rattle.event_json.specs.Checked.{body_of, content_of, IsComplete, IsReady};
ghost use Rattle.event_json.specs.Sites.{Site};

use crate::bodies::Action;
use crate::checks::{
    Head, action_of, check_action, event_type, head_of, without_declaration, without_quantities,
};
use crate::doc_faults::{DocFault, DocFaultKind, DocField, Flaw};
use crate::event_types::EventType;
use crate::item_lists::{DestinationTexts, EpcTexts, destinations, epc, epcs};
use crate::lent_texts::{EpcText, PlainStr};
use crate::members::{identifier, member};
use serde_json::Value;

/// What an event without a fault says of its items.
#[derive(Debug, Drop)]
pub enum CheckedBody<'v> {
    Object {
        items: EpcTexts<'v>,
        destinations: DestinationTexts<'v>,
    },
    Transformation {
        id: Option<PlainStr<'v>>,
        ins: EpcTexts<'v>,
        outs: EpcTexts<'v>,
    },
    Aggregation {
        action: Action,
        parent: Option<EpcText<'v>>,
        children: EpcTexts<'v>,
    },
}

/// An event without a fault, lent by its JSON value.
#[derive(Debug, Drop)]
pub struct CheckedEvent<'v> {
    pub head: Head<'v>,
    pub body: CheckedBody<'v>,
}

/// An ObjectEvent.
#[tactic(auto, unfolding(crate::specs::EventReading::object_event))]
fn object_event<'v>(value: &'v Value) -> Result<CheckedEvent<'v>, Flaw>
    ensures value { (sites : List Site)
        → Shows (content_of sites) result (object_event sites (view value.now)) }
    ensures ready { IfOk result IsReady }
{
    without_declaration(value)?;
    without_quantities(value, DocField::QuantityList)?;
    let head = head_of(value)?;
    check_action(value)?;
    let items = epcs(value, DocField::EpcList)?;
    let destinations = destinations(value)?;
    Ok(CheckedEvent {
        head,
        body: CheckedBody::Object {
            items,
            destinations,
        },
    })
}

/// What was made from what; without an id it has both inputs and outputs.
fn made<'v>(
    id: Option<PlainStr<'v>>,
    ins: EpcTexts<'v>,
    outs: EpcTexts<'v>,
) -> Result<CheckedBody<'v>, Flaw>
    ensures value { (sites : List Site)
        → Shows (body_of sites) result (made id.entry ins.entry outs.entry) }
    ensures complete { IfOk result IsComplete }
{
    if id.is_none() && (ins.is_empty() || outs.is_empty()) {
        return Err(Flaw {
            field: DocField::TransformationId,
            kind: DocFaultKind::HalfTransformation,
        });
    }
    Ok(CheckedBody::Transformation { id, ins, outs })
}

/// A TransformationEvent.
#[tactic(auto, unfolding(crate::specs::EventReading::transformation_event))]
fn transformation_event<'v>(value: &'v Value) -> Result<CheckedEvent<'v>, Flaw>
    ensures value { (sites : List Site)
        → Shows (content_of sites) result (transformation_event (view value.now)) }
    ensures ready { IfOk result IsReady }
{
    without_declaration(value)?;
    without_quantities(value, DocField::InputQuantityList)?;
    without_quantities(value, DocField::OutputQuantityList)?;
    let head = head_of(value)?;
    let ins = epcs(value, DocField::InputEpcList)?;
    let outs = epcs(value, DocField::OutputEpcList)?;
    let id = identifier(value, DocField::TransformationId)?;
    let body = made(id, ins, outs)?;
    Ok(CheckedEvent { head, body })
}

/// What the children of an aggregation were put into, seen in or taken out of, where it is named.
#[tactic(auto, unfolding(crate::specs::EventReading::parent_of))]
fn parent<'v>(value: &'v Value, action: Action) -> Result<Option<EpcText<'v>>, Flaw>
    ensures value { result ≡ parent_of action (view value.now) }
    ensures named { IfOk result (λ parent. action ≡ Action.Add → IsSome parent) }
{
    match (member(value, DocField::ParentId), action) {
        (Some(found), _) => Ok(Some(epc(found, DocField::ParentId)?)),
        (None, Action::Add) => Err(Flaw {
            field: DocField::ParentId,
            kind: DocFaultKind::Missing,
        }),
        (None, _) => Ok(None),
    }
}

/// An AggregationEvent.
#[tactic(auto, unfolding(crate::specs::EventReading::aggregation_event))]
fn aggregation_event<'v>(value: &'v Value) -> Result<CheckedEvent<'v>, Flaw>
    ensures value { (sites : List Site)
        → Shows (content_of sites) result (aggregation_event (view value.now)) }
    ensures ready { IfOk result IsReady }
{
    without_declaration(value)?;
    without_quantities(value, DocField::ChildQuantityList)?;
    let head = head_of(value)?;
    let action = action_of(value)?;
    let parent = parent(value, action)?;
    let children = epcs(value, DocField::ChildEpcs)?;
    Ok(CheckedEvent {
        head,
        body: CheckedBody::Aggregation {
            action,
            parent,
            children,
        },
    })
}

/// An event of this type, `None` where it is skipped.
#[tactic(auto, unfolding(crate::specs::EventReading::event_of_type))]
fn event_of_type<'v>(
    event_type: EventType,
    value: &'v Value,
) -> Result<Option<CheckedEvent<'v>>, Flaw>
    ensures value { (sites : List Site) → Shows (option_map (content_of sites)) result
        (event_of_type sites event_type (view value.now)) }
    ensures ready { IfOk result (λ event. IfSome event IsReady) }
{
    match event_type {
        EventType::Object => Ok(Some(object_event(value)?)),
        EventType::Transformation => Ok(Some(transformation_event(value)?)),
        EventType::Aggregation => Ok(Some(aggregation_event(value)?)),
        EventType::Transaction | EventType::Association => Ok(None),
    }
}

/// An event, `None` where it is skipped.
#[tactic(auto, unfolding(crate::specs::EventReading::event_of))]
fn event<'v>(value: &'v Value) -> Result<Option<CheckedEvent<'v>>, Flaw>
    ensures value { (sites : List Site)
        → Shows (option_map (content_of sites)) result (event_of sites (view value.now)) }
    ensures ready { IfOk result (λ event. IfSome event IsReady) }
{
    let event_type = event_type(value)?;
    event_of_type(event_type, value)
}

/// The event of this number, `None` where it is skipped; or its first fault.
pub fn numbered_event<'v>(
    number: u64,
    value: &'v Value,
) -> Result<Option<CheckedEvent<'v>>, DocFault>
    ensures value { (sites : List Site) → Shows (option_map (content_of sites)) result
        (numbered_event sites number (view value.now)) }
    ensures ready { IfOk result (λ event. IfSome event IsReady) }
{
    match event(value) {
        Ok(event) => Ok(event),
        Err(flaw) => Err(DocFault {
            event: number,
            field: flaw.field,
            kind: flaw.kind,
        }),
    }
}

/// Whether each event of a list is without a fault, the first of them being number 1.
pub fn check_events(list: &[Value]) -> Result<(), DocFault>
    requires { length list.now ≤ MAX_EVENTS }
    ensures { (sites : List Site) → Passes result (events_of sites (items_view list.now)) }
{
    for (place, value) in list.iter().enumerate() {
        match numbered_event(place as u64 + 1, value) {
            Ok(_) => {}
            Err(fault) => return Err(fault),
        }
    }
    Ok(())
}
