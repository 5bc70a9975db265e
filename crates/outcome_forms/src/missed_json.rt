//! What a recall misses, as a JSON value.

ghost use Rattle.std.specs.Prelude.{◌≡◌, IfOk};
ghost use Rattle.serde_json.specs.View.{view};
ghost use Rattle.outcome_forms.specs.Json.{held_json, left_json, missed_json, missed_pair_json};

use crate::values::{ToJson, array, values};
use event_json::Sites;
use frame_core::RecallId;
use gap_core::UntoldShipment;
use recall_outcomes::{MissedPair, MissedReach};
use recall_text::telling::{name_of, recall_text};
use serde_json::{Value, json};
use std::alloc::{AllocError, Global};

/// What a recall misses: the pairs, and what left the traced sites.
#[tactic(auto, unfolding(crate::specs::Json::missed_json))]
pub(crate) fn missed_json(
    alloc: Global,
    sites: &Sites,
    recall: RecallId,
    missed: &MissedReach,
) -> Result<Value, AllocError>
    ensures { IfOk result (λ v. view v ≡ missed_json sites.now recall missed.now) }
{
    let left = array(values(alloc, sites, missed.outside.as_slice())?);
    let pairs = array(values(alloc, sites, missed.pairs.as_slice())?);
    let recall = recall_text(alloc, sites, recall)?;
    json!(in alloc; {"left": left, "missed": pairs, "recall": recall.as_str()})
}

impl ToJson for MissedPair {
    ghost use Rattle.outcome_forms.specs.Json.{missed_pair_json};

    ghost value = { missed_pair_json };

    fn json(&self, alloc: Global, sites: &Sites) -> Result<Value, AllocError> {
        missed_pair_json(alloc, sites, self)
    }
}

impl ToJson for UntoldShipment {
    ghost use Rattle.outcome_forms.specs.Json.{left_json};

    ghost value = { left_json };

    fn json(&self, alloc: Global, sites: &Sites) -> Result<Value, AllocError> {
        left_json(alloc, sites, self)
    }
}

/// A pair, and the recall that holds it.
fn missed_pair_json(alloc: Global, sites: &Sites, missed: &MissedPair) -> Result<Value, AllocError>
    ensures { IfOk result (λ v. view v ≡ missed_pair_json sites.now missed.now) }
{
    let held = held_json(alloc, sites, missed.held)?;
    let item = missed.pair.item.key(alloc)?;
    let site = name_of(sites, missed.pair.site);
    json!(in alloc; {"held_by": held, "item": item.as_str(), "site": site})
}

/// The recall that holds a pair, or null.
fn held_json(alloc: Global, sites: &Sites, held: Option<RecallId>) -> Result<Value, AllocError>
    ensures { IfOk result (λ v. view v ≡ held_json sites.now held) }
{
    match held {
        None => Ok(Value::Null),
        Some(recall) => {
            let text = recall_text(alloc, sites, recall)?;
            Value::try_from_str(alloc, text.as_str())
        }
    }
}

/// An item that left the traced sites.
fn left_json(alloc: Global, sites: &Sites, left: &UntoldShipment) -> Result<Value, AllocError>
    ensures { IfOk result (λ v. view v ≡ left_json sites.now left.now) }
{
    let destination = left.destination.as_str();
    let item = left.item.key(alloc)?;
    let site = name_of(sites, left.site);
    json!(in alloc; {"destination": destination, "item": item.as_str(), "site": site})
}
