//! What is taken into transformations, by all their parts.
ghost use Rattle.std.specs.Prelude.{◌≡◌, ◌↔◌, ℕ, List, IfOk, OnOk, Contains, option_map};
ghost use Rattle.trace_core.specs.Pairs.{make_id};
ghost use Rattle.gap_core.specs.Adding.{ByOne, NotesThose};
ghost use Rattle.gap_core.specs.Used.{IsTakenAt, IsTakenOnce, taken_in};

use crate::item_lists::ItemList;
use crate::shipments::note_items;
use epc_core::Epc;
use event_json::{Body, PlainText};
use std::alloc::{AllocError, Global};
use trace_core::Captured;

/// What goes into the transformation of the event at a place, by all its parts: nothing where there is none.
pub fn inputs_with(alloc: Global, site: &Captured, place: usize) -> Result<ItemList, AllocError>
    ensures { IfOk result (λ inputs. (i : List ℕ)
        → Contains inputs i ↔ IsTakenAt site.now.events place i) }
{
    let mut inputs = ItemList::new(alloc, site.hash_keys());
    note_group(alloc, site, place, &mut inputs)?;
    Ok(inputs)
}

/// Notes what goes into the transformation of the event at a place.
fn note_group(
    alloc: Global,
    site: &Captured,
    place: usize,
    inputs: &mut ItemList,
) -> Result<(), AllocError>
    ensures { OnOk result (NotesThose (IsTakenAt site.now.events place) inputs.old inputs.new) }
{
    let Some(event) = site.event(place) else {
        return Ok(());
    };
    match id_of(event.body()) {
        Some(id) => {
            let parts = site.parts_of(id)?;
            note_parts(alloc, site, parts.as_slice(), inputs)
        }
        None => note_items(alloc, taken_in(event.body()), inputs),
    }
}

/// The id of a transformation, if there is one.
fn id_of(body: &Body) -> Option<&PlainText>
    ensures { option_map (λ t. t.now) result ≡ make_id body.now }
{
    match body {
        Body::Make { id, .. } => id.as_ref(),
        Body::Note { .. } | Body::Ship { .. } | Body::Pack { .. } => None,
    }
}

/// Notes what the events at some places take in.
fn note_parts(
    alloc: Global,
    site: &Captured,
    places: &[usize],
    inputs: &mut ItemList,
) -> Result<(), AllocError>
    ensures { OnOk result (NotesThose (ByOne places.now (IsTakenOnce site.now.events)) inputs.old
        inputs.new) }
{
    for place in places {
        note_part(alloc, site, *place, inputs)?;
    }
    Ok(())
}

/// Notes what the event at a place takes in.
fn note_part(
    alloc: Global,
    site: &Captured,
    place: usize,
    inputs: &mut ItemList,
) -> Result<(), AllocError>
    ensures { OnOk result (NotesThose (IsTakenOnce site.now.events place) inputs.old inputs.new) }
{
    match site.event(place) {
        Some(event) => note_items(alloc, taken_in(event.body()), inputs),
        None => Ok(()),
    }
}

/// The items that an event takes in.
fn taken_in(body: &Body) -> &[Epc]
    ensures { result.now ≡ taken_in body.now }
{
    match body {
        Body::Make { ins, .. } => ins.as_slice(),
        Body::Note { .. } | Body::Ship { .. } | Body::Pack { .. } => &[],
    }
}
