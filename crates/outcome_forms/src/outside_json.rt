//! What left the traced sites, as JSON.

ghost use Rattle.std.specs.Prelude.{◌≡◌, None, Some, IfOk, map, string_bytes};
ghost use Rattle.serde_json.specs.View.{view};
ghost use Rattle.serde_json.specs.Written.{compact_text};
ghost use Rattle.report_forms.specs.Accounts.{outside_part_of};
ghost use Rattle.outcome_forms.specs.Json.{list_of, outside_json, shown_outside};

use crate::account_json::value_text;
use crate::step_json::event_json;
use crate::values::array;
use event_json::Sites;
use recall_text::telling::name_of;
use report_core::{OutsideEvent, OutsideShipment};
use report_forms::{Account, OutsidePart};
use serde_json::{Value, json};
use std::alloc::{AllocError, Global};

/// The text of the array of what left the traced sites.
#[tactic(auto, using(crate::proofs::Trees::outside_free))]
pub(crate) fn outside_text(
    alloc: Global,
    sites: &Sites,
    account: &Account<'_>,
) -> Result<String, AllocError>
    ensures { IfOk result (λ t. string_bytes t
        ≡ compact_text (list_of (outside_json sites.now) account.now.outside)) }
{
    value_text(alloc, &array(outside_values(alloc, sites, account)?))
}

/// The values of what left the traced sites.
fn outside_values(
    alloc: Global,
    sites: &Sites,
    account: &Account<'_>,
) -> Result<Vec<Value>, AllocError>
    ensures { IfOk result (λ vs. map view vs.items
        ≡ map (outside_json sites.now) account.now.outside) }
{
    let mut values = Vec::new(alloc);
    for place in 0..account.outside_len() {
        let Some(part) = account.outside_part(place) else {
            unreachable!()
        };
        values.push(outside_json(alloc, sites, &part)?)?;
    }
    Ok(values)
}

/// A shipment, with its event and what the item left with, where they are told.
fn outside_json(alloc: Global, sites: &Sites, part: &OutsidePart<'_>) -> Result<Value, AllocError>
    ensures { IfOk result (λ v. view v ≡ outside_json sites.now (outside_part_of part.now)) }
{
    match part.event {
        None => shipment_json(alloc, sites, part.shipment),
        Some(shown) => shown_json(alloc, sites, part.shipment, shown),
    }
}

/// A shipment alone.
fn shipment_json(
    alloc: Global,
    sites: &Sites,
    shipment: &OutsideShipment,
) -> Result<Value, AllocError>
    ensures { IfOk result (λ v. view v ≡ shown_outside sites.now shipment.now None) }
{
    let site = name_of(sites, shipment.site);
    let item = shipment.item.key(alloc)?;
    let destination = shipment.destination.as_str();
    json!(in alloc; {"destination": destination, "item": item.as_str(), "site": site})
}

/// A shipment, with its event and what the item left with.
fn shown_json(
    alloc: Global,
    sites: &Sites,
    shipment: &OutsideShipment,
    shown: &OutsideEvent,
) -> Result<Value, AllocError>
    ensures { IfOk result (λ v. view v
        ≡ shown_outside sites.now shipment.now (Some shown.now)) }
{
    let carrier = shown.carrier.key(alloc)?;
    let event = event_json(alloc, &shown.event)?;
    let site = name_of(sites, shipment.site);
    let item = shipment.item.key(alloc)?;
    json!(in alloc; {
        "carrier": carrier.as_str(),
        "destination": shipment.destination.as_str(),
        "event": event,
        "item": item.as_str(),
        "site": site
    })
}
