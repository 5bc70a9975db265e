//! What is strange about an event that is read: that nothing is traced past it, or that it is probably not meant so.

ghost use Rattle.std.specs.Prelude.{◌≡◌, ◌++◌, OnOk};
ghost use Rattle.serde_json.specs.View.{view};
ghost use Rattle.document_lint.specs.Findings.{losses, near, nears, nears_of, skipped_type, strange};

use crate::event_lists::type_text;
use crate::findings::{Listing, SkippedType, What};
use crate::lost_goods::{is_unshipped, packs_nothing, ships_nowhere};
use crate::near_misses::near_text;
use crate::other_places::push_other_places;
use crate::unlisted::push_unlisted;
use epc_core::Epc;
use event_json::{Body, DocField, Event, PlainText, Sites};
use serde_json::Value;
use std::alloc::{AllocError, Global};

/// The type of an event that is skipped.
pub(crate) fn skipped_type(value: &Value) -> SkippedType
    ensures { result ≡ skipped_type (view value.now) }
{
    match type_text(value) {
        Some("TransactionEvent") => SkippedType::Transaction,
        _ => SkippedType::Association,
    }
}

/// Adds what is strange about an event, which was read of a value.
pub(crate) fn push_strange(
    alloc: Global,
    found: &mut Vec<What>,
    listing: &Listing<'_>,
    value: &Value,
    event: &Event,
) -> Result<(), AllocError>
    ensures { OnOk result (found.new.items
        ≡ found.old.items ++ strange listing.now.sites.now listing.now.here
        (view value.now) event.now) }
{
    push_losses(alloc, found, listing.sites, value, event.body())?;
    if event.id().is_none() {
        found.push(What::NoEventId)?;
    }
    push_nears(alloc, found, event.body())?;
    push_other_places(alloc, found, listing, value)
}

/// Adds what loses the goods of an event to a trace.
fn push_losses(
    alloc: Global,
    found: &mut Vec<What>,
    sites: &Sites,
    value: &Value,
    body: &Body,
) -> Result<(), AllocError>
    ensures { OnOk result (found.new.items
        ≡ found.old.items ++ losses sites.now (view value.now) body.now) }
{
    if ships_nowhere(value, body) {
        found.push(What::ShipsNowhere)?;
    }
    push_unlisted(alloc, found, sites, body)?;
    if is_unshipped(value, body) {
        found.push(What::NotShipped)?;
    }
    if packs_nothing(body) {
        found.push(What::NothingPacked)?;
    }
    Ok(())
}

/// Adds the near misses among the items of an event.
fn push_nears(alloc: Global, found: &mut Vec<What>, body: &Body) -> Result<(), AllocError>
    ensures { OnOk result (found.new.items ≡ found.old.items ++ nears body.now) }
{
    match body {
        Body::Note { items } => push_nears_of(alloc, found, DocField::EpcList, items.as_slice()),
        Body::Ship {
            items,
            sites: _,
            outside: _,
        } => push_nears_of(alloc, found, DocField::EpcList, items.as_slice()),
        Body::Make { id: _, ins, outs } => {
            push_nears_of(alloc, found, DocField::InputEpcList, ins.as_slice())?;
            push_nears_of(alloc, found, DocField::OutputEpcList, outs.as_slice())
        }
        Body::Pack {
            action: _,
            parent,
            children,
        } => {
            if let Some(parent) = parent {
                push_near(alloc, found, DocField::ParentId, parent)?;
            }
            push_nears_of(alloc, found, DocField::ChildEpcs, children.as_slice())
        }
    }
}

/// Adds the near misses among items.
fn push_nears_of(
    alloc: Global,
    found: &mut Vec<What>,
    field: DocField,
    items: &[Epc],
) -> Result<(), AllocError>
    ensures { OnOk result (found.new.items ≡ found.old.items ++ nears_of field items.now) }
{
    for item in items {
        push_near(alloc, found, field, item)?;
    }
    Ok(())
}

/// Adds an item that is a near miss.
fn push_near(
    alloc: Global,
    found: &mut Vec<What>,
    field: DocField,
    item: &Epc,
) -> Result<(), AllocError>
    ensures { OnOk result (found.new.items ≡ found.old.items ++ near field item.now) }
{
    let Some(text) = near_text(item) else {
        return Ok(());
    };
    let Some(text) = PlainText::read(alloc, text.as_str())? else {
        unreachable!()
    };
    found.push(What::NearMiss { field, text })?;
    Ok(())
}
