//! The elements of an event's lists of quantities, counted.

ghost use Rattle.std.specs.Prelude.{◌≡◌};
ghost use Rattle.serde_json.specs.View.{view};
ghost use Rattle.event_json.specs.Members.{member_named};
ghost use Rattle.document_convert.specs.Accounts.{elements_by, elements_in, elements_of};

use crate::types::{member_named, type_text};
use serde_json::Value;

/// How many elements the lists of quantities of an event have.
pub(crate) fn elements_of(event: &Value) -> u64
    ensures { result ≡ elements_of (view event.now) }
{
    match type_text(event) {
        Some(kind) => elements_by(event, kind),
        None => 0,
    }
}

/// How many those of an event of a type have.
fn elements_by(event: &Value, kind: &str) -> u64
    ensures { result ≡ elements_by (view event.now) kind.now }
{
    match kind {
        "ObjectEvent" => elements_in(event, "quantityList"),
        "AggregationEvent" => elements_in(event, "childQuantityList"),
        "TransformationEvent" => {
            let ins = elements_in(event, "inputQuantityList");
            ins.saturating_add(elements_in(event, "outputQuantityList"))
        }
        _ => 0,
    }
}

/// How many elements a member has, where it is a list.
#[tactic(auto, using(event_json::proofs::Lists::items_count))]
fn elements_in(event: &Value, name: &str) -> u64
    ensures { result ≡ elements_in (member_named name.now (view event.now)) }
{
    let Some(list) = member_named(event, name) else {
        return 0;
    };
    match list.as_array() {
        Some(list) => list.len() as u64,
        None => 0,
    }
}
