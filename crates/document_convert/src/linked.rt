//! A document with the units of its events as links.

ghost use Rattle.std.specs.Prelude.{◌≡◌, IfOk, map};
ghost use Rattle.std.specs.List.{list_any};
ghost use Rattle.serde_json.specs.View.{items_view, view};
ghost use Rattle.event_json.specs.Untraced.{in_order};
ghost use Rattle.document_convert.specs.Linked.{document_with_links};
ghost use Rattle.document_convert.specs.Links.{link_of};
ghost use Rattle.document_convert.specs.Respelled.{spells_otherwise_by, with_spelled};

use crate::documents::document_around;
use crate::event_lists::listed;
use crate::lotted::is_document;
use crate::respelling::{Speller, spells_otherwise_by, with_spelled};
use serde_json::Value;
use std::alloc::{AllocError, Global};

/// Whether an event of a list spells a unit otherwise than by its link.
fn have_links(alloc: Global, list: &[Value]) -> Result<bool, AllocError>
    ensures { IfOk result
        (λ have. have ≡ list_any (spells_otherwise_by link_of) (in_order (items_view list.now))) }
{
    for event in list.iter() {
        if spells_otherwise_by(alloc, Speller::Links, event)? {
            return Ok(true);
        }
    }
    Ok(false)
}

/// The events of a list with their units as links.
fn events_with_links(alloc: Global, list: &[Value]) -> Result<Vec<Value>, AllocError>
    ensures { IfOk result (λ events. map view events.items
        ≡ map (with_spelled link_of) (in_order (items_view list.now))) }
{
    let mut events = Vec::new(alloc);
    for value in list.iter() {
        events.push(with_spelled(alloc, Speller::Links, value.clone()?)?)?;
    }
    Ok(events)
}

/// A document of GS1 EPCIS 2.0, as [`document_in`](crate::document_in) finds it, with the units of its events as links
/// (section 7.4).
///
/// Each text in `epcList` of an ObjectEvent, `parentID` and `childEPCs` of an AggregationEvent, and `inputEPCList` and
/// `outputEPCList` of a TransformationEvent that spells a unit, as [`link_of`](crate::link_of) reads it, becomes the
/// unit's one link, in its place. All other texts stay, and so do all other members.
///
/// A document whose events spell no unit otherwise stays as it is, and any other has all that stands beside its body.
///
/// # Errors
/// Where memory runs out.
#[tactic(auto, unfolding(crate::specs::EachEvent::with_each))]
pub fn document_with_links(alloc: Global, document: Value) -> Result<Value, AllocError>
    // Each event is there, in order, and no other is. In the lists of items of an event, and its parent, a text that
    // names a unit becomes the unit's one link, in its place, and nothing else changes; nor does what stands in the
    // document beside its body.
    ensures { IfOk result (λ found. view found ≡ document_with_links (view document)) }
{
    if !is_document(&document) {
        return with_spelled(alloc, Speller::Links, document);
    }
    let Some(list) = listed(&document) else {
        return Ok(document);
    };
    if !have_links(alloc, list)? {
        return Ok(document);
    }
    let events = events_with_links(alloc, list)?;
    document_around(alloc, document, events)
}
