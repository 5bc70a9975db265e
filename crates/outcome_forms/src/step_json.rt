//! The events behind a step of a trail, as JSON values.

ghost use Rattle.std.specs.Prelude.{◌≡◌, IfOk, OnOk, option_map};
ghost use Rattle.serde_json.specs.View.{members_view, view};
ghost use Rattle.outcome_forms.specs.Json.{event_json, list_of, packing_json, step_json, text_or_null, with_events};

use crate::values::{ToJson, array, values};
use event_json::{PlainText, Sites};
use report_core::{CapturedEvent, PackingEvent, StepEvents};
use serde_json::{Map, Value, json};
use std::alloc::{AllocError, Global};

/// Puts the events of the steps of a trail into an object, where they are told.
pub(crate) fn put_events(
    alloc: Global,
    sites: &Sites,
    members: &mut Map<String, Value>,
    steps: Option<&[StepEvents]>,
) -> Result<(), AllocError>
    ensures { OnOk result (members_view members.new.entries
        ≡ with_events (option_map (λ s. s.now) steps.entry) (members_view members.old.entries)) }
{
    let Some(steps) = steps else {
        return Ok(());
    };
    let events = array(values(alloc, sites, steps)?);
    serde_json::put(members, alloc, "events", events)?;
    Ok(())
}

impl ToJson for StepEvents {
    ghost use Rattle.outcome_forms.specs.Json.{step_json};

    ghost value = { λ _ step. step_json step };

    fn json(&self, alloc: Global, sites: &Sites) -> Result<Value, AllocError> {
        step_json(alloc, sites, self)
    }
}

impl ToJson for PackingEvent {
    ghost use Rattle.outcome_forms.specs.Json.{packing_json};

    ghost value = { λ _ packing. packing_json packing };

    fn json(&self, alloc: Global, _: &Sites) -> Result<Value, AllocError> {
        packing_json(alloc, self)
    }
}

/// The events of a step.
fn step_json(alloc: Global, sites: &Sites, step: &StepEvents) -> Result<Value, AllocError>
    ensures { IfOk result (λ v. view v ≡ step_json step.now) }
{
    match step {
        StepEvents::Shipped { event, packings } => {
            let event = event_json(alloc, event)?;
            let packings = packings_json(alloc, sites, packings.as_slice())?;
            json!(in alloc; {"event": event, "kind": "shipped", "packings": packings})
        }
        StepEvents::Made {
            taken_in,
            given_out,
        } => {
            let (input, output) = (event_json(alloc, taken_in)?, event_json(alloc, given_out)?);
            json!(in alloc; {"input": input, "kind": "made", "output": output})
        }
    }
}

/// How an item came to lie in what was shipped.
fn packings_json(
    alloc: Global,
    sites: &Sites,
    packings: &[PackingEvent],
) -> Result<Value, AllocError>
    ensures { IfOk result (λ v. view v ≡ list_of packing_json packings.now) }
{
    Ok(array(values(alloc, sites, packings)?))
}

/// An event that put an item into another one, and which that is.
fn packing_json(alloc: Global, packing: &PackingEvent) -> Result<Value, AllocError>
    ensures { IfOk result (λ v. view v ≡ packing_json packing.now) }
{
    let event = event_json(alloc, &packing.event)?;
    let into = packing.into.key(alloc)?;
    json!(in alloc; {"event": event, "into": into.as_str()})
}

/// An event.
pub(crate) fn event_json(alloc: Global, event: &CapturedEvent) -> Result<Value, AllocError>
    ensures { IfOk result (λ v. view v ≡ event_json event.now) }
{
    let id = text_or_null(alloc, event.id.as_ref())?;
    let time = text_or_null(alloc, event.time.as_ref())?;
    json!(in alloc; {"id": id, "number": event.number, "time": time})
}

/// A text, or null where there is none.
pub(crate) fn text_or_null(alloc: Global, text: Option<&PlainText>) -> Result<Value, AllocError>
    ensures { IfOk result (λ v. view v ≡ text_or_null (option_map (λ t. t.now) text.entry)) }
{
    match text {
        None => Ok(Value::Null),
        Some(text) => Value::try_from_str(alloc, text.as_str()),
    }
}
