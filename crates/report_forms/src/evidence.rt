//! The captured event behind a row, and what its item left in.

ghost use Rattle.std.specs.Prelude.{◌≡◌, [], IfOk, map, option_map, string_bytes};
ghost use Rattle.std.specs.Option.{unwrap_or};
ghost use Rattle.report_forms.specs.Accounts.{outside_part_of, part_of};
ghost use Rattle.report_forms.specs.Evidence.{carrier_of, event_beside, event_outside, first_event, id_of, if_told, step_beside, time_of};

use crate::accounts::{OutsidePart, Part, Way};
use epc_core::Epc;
use event_json::PlainText;
use report_core::{CapturedEvent, OutsideEvent, StepEvents};
use std::alloc::{AllocError, Global};

/// The event of the step between a pair and the pair beside it, where it is told: of a transformation the one that takes
/// the item in.
pub(crate) fn event_beside<'a>(part: &Part<'a>) -> Option<&'a CapturedEvent>
    ensures { option_map (λ e. e.now) result ≡ event_beside (part_of part.now) }
{
    match part.events {
        None => None,
        Some(steps) => match step_beside(&part.way, steps) {
            None => None,
            Some(step) => Some(first_event(step)),
        },
    }
}

/// The step between a pair and the pair beside it.
fn step_beside<'a>(way: &Way<'_>, steps: &'a [StepEvents]) -> Option<&'a StepEvents>
    ensures { option_map (λ s. s.now) result ≡ step_beside way.now steps.now }
{
    match way {
        Way::Unknown => None,
        Way::From(_) => steps.last(),
        Way::To(_) => steps.first(),
    }
}

/// The first event of a step.
fn first_event(step: &StepEvents) -> &CapturedEvent
    ensures { result.now ≡ first_event step.now }
{
    match step {
        StepEvents::Shipped { event, packings: _ } => event,
        StepEvents::Made {
            taken_in,
            given_out: _,
        } => taken_in,
    }
}

/// The event of a shipment that left, where it is told.
pub(crate) fn event_outside<'a>(part: &OutsidePart<'a>) -> Option<&'a CapturedEvent>
    ensures { option_map (λ e. e.now) result ≡ event_outside (outside_part_of part.now) }
{
    match part.event {
        None => None,
        Some(shown) => Some(&shown.event),
    }
}

/// The eventID of an event, empty where there is none.
pub(crate) fn id_of<'a>(event: Option<&'a CapturedEvent>) -> &'a str
    ensures { result.now ≡ id_of (option_map (λ e. e.now) event.entry) }
{
    match event {
        None => "",
        Some(event) => or_empty(event.id.as_ref()),
    }
}

/// The time of an event, empty where there is none.
pub(crate) fn time_of<'a>(event: Option<&'a CapturedEvent>) -> &'a str
    ensures { result.now ≡ time_of (option_map (λ e. e.now) event.entry) }
{
    match event {
        None => "",
        Some(event) => or_empty(event.time.as_ref()),
    }
}

/// A text, or the empty one.
fn or_empty<'a>(text: Option<&'a PlainText>) -> &'a str
    ensures { result.now ≡ unwrap_or (option_map (λ t. t.now) text.entry) [] }
{
    match text {
        None => "",
        Some(text) => text.as_str(),
    }
}

/// The container that an item left in, empty where it left by itself.
pub(crate) fn carrier_of(
    alloc: Global,
    item: &Epc,
    shown: Option<&OutsideEvent>,
) -> Result<String, AllocError>
    ensures { IfOk result (λ t. string_bytes t
        ≡ carrier_of item.now (option_map (λ e. e.now) shown.entry)) }
{
    match shown {
        None => Ok(String::new(alloc)),
        Some(shown) => if shown.carrier == *item {
            Ok(String::new(alloc))
        } else {
            shown.carrier.key(alloc)
        },
    }
}

/// These fields where the events are told, and else none.
pub(crate) fn if_told<'a, 'b>(told: bool, fields: &'a [&'b str]) -> &'a [&'b str]
    ensures { map (λ f. f.now) result.now ≡ if_told told (map (λ f. f.now) fields.now) }
{
    if told { fields } else { &[] }
}
