//! Events by which goods are lost to a trace.

ghost use Rattle.std.specs.Prelude.{◌≡◌, option_map};
ghost use Rattle.serde_json.specs.View.{view};
ghost use Rattle.event_json.specs.Members.{list_of, member_of};
ghost use Rattle.event_json.specs.Untraced.{is_aimless, is_empty_list, is_shipping};
ghost use Rattle.event_json.specs.declared.doc_faults.DocField.TheVariants as fields;
ghost use Rattle.document_lint.specs.LostGoods.{is_leaving, is_unshipped, leaves_unshipped, names_destinations, packs_nothing, ships_nowhere, step_name, step_text};

use crate::event_lists::{member_named, type_text};
use event_json::{Action, Body};
use serde_json::Value;

/// Whether goods leave by an event, which was read of a value, and nobody says where to.
pub(crate) fn ships_nowhere(value: &Value, body: &Body) -> bool
    ensures { result ≡ ships_nowhere (view value.now) body.now }
{
    is_aimless(value) || leaves_unshipped(value, body)
}

/// Whether a business step is shipping.
#[tactic(auto, unfolding(event_json::specs::Untraced::is_shipping))]
fn is_shipping(step: &str) -> bool
    ensures { result ≡ is_shipping step.now }
{
    step == "shipping"
        || step == "urn:epcglobal:cbv:bizstep:shipping"
        || step == "https://ref.gs1.org/cbv/BizStep-shipping"
}

/// Whether an event is an ObjectEvent that ships without a destination.
#[tactic(auto, unfolding(event_json::specs::Untraced::is_aimless))]
fn is_aimless(value: &Value) -> bool
    ensures { result ≡ is_aimless (view value.now) }
{
    let Some(text) = type_text(value) else {
        return false;
    };
    let Some(step) = step_text(value) else {
        return false;
    };
    text == "ObjectEvent" && is_shipping(step) && has_no_destination(value)
}

/// The business step of an event, where it is a text.
fn step_text(value: &Value) -> Option<&str>
    ensures { option_map (λ t. t.now) result ≡ step_text (view value.now) }
{
    member_named(value, "bizStep")?.as_str()
}

/// Whether an event has no destinations, in a list that is one.
#[tactic(auto, using(event_json::proofs::Lists::items_count))]
fn has_no_destination(value: &Value) -> bool
    ensures { result ≡ is_empty_list (list_of fields.DestinationList
        (member_of fields.DestinationList (view value.now))) }
{
    match member_named(value, "destinationList") {
        None => true,
        Some(list) => match list.as_array() {
            Some(list) => list.is_empty(),
            None => false,
        },
    }
}

/// Whether an event is an observation of goods that leave.
fn leaves_unshipped(value: &Value, body: &Body) -> bool
    ensures { result ≡ leaves_unshipped (view value.now) body.now }
{
    match body {
        Body::Note { items: _ } => match step_text(value) {
            Some(step) => is_leaving(step),
            None => false,
        },
        Body::Ship {
            items: _,
            sites: _,
            outside: _,
        } => false,
        Body::Make {
            id: _,
            ins: _,
            outs: _,
        } => false,
        Body::Pack {
            action: _,
            parent: _,
            children: _,
        } => false,
    }
}

/// Whether goods leave with a business step, other than shipping.
fn is_leaving(step: &str) -> bool
    ensures { result ≡ is_leaving step.now }
{
    let name = step_name(step);
    name == "departing" || name == "consigning"
}

/// The short name of a business step.
fn step_name(step: &str) -> &str
    ensures { result.now ≡ step_name step.now }
{
    if let Some(name) = step.strip_prefix("urn:epcglobal:cbv:bizstep:") {
        return name;
    }
    match step.strip_prefix("https://ref.gs1.org/cbv/BizStep-") {
        Some(name) => name,
        None => step,
    }
}

/// Whether an event that ships nothing has destinations.
pub(crate) fn is_unshipped(value: &Value, body: &Body) -> bool
    ensures { result ≡ is_unshipped (view value.now) body.now }
{
    match body {
        Body::Note { items: _ } => false,
        Body::Ship {
            items: _,
            sites: _,
            outside: _,
        } => false,
        Body::Make {
            id: _,
            ins: _,
            outs: _,
        } => names_destinations(value),
        Body::Pack {
            action: _,
            parent: _,
            children: _,
        } => names_destinations(value),
    }
}

/// Whether an event has destinations, or something else in their place.
fn names_destinations(value: &Value) -> bool
    ensures { result ≡ names_destinations (view value.now) }
{
    !has_no_destination(value)
}

/// Whether an event puts nothing into something.
pub(crate) fn packs_nothing(body: &Body) -> bool
    ensures { result ≡ packs_nothing body.now }
{
    match body {
        Body::Pack {
            action: Action::Add,
            parent: _,
            children,
        } => children.is_empty(),
        _ => false,
    }
}
