//! Destinations that are no traced site, a few of which are named.

ghost use Rattle.std.specs.Prelude.{◌≡◌, Contains, OnOk};
ghost use Rattle.event_json.specs.Untraced.{outside_of};
ghost use Rattle.folder_commands.specs.Untraced.{IsOutside, NamesPlaces};

use event_json::{Body, Event, PlainText};
use std::alloc::{AllocError, Global};

/// How many destinations are named at most.
pub(crate) const MAX_PLACES: usize = 5;

/// Names destinations of these events that are no traced site.
pub(crate) fn name_events(
    alloc: Global,
    events: &[Event],
    named: &mut Vec<PlainText>,
) -> Result<(), AllocError>
    ensures { OnOk result (NamesPlaces (IsOutside events.now) named.old.items named.new.items) }
{
    for event in events {
        name_event(alloc, event, named)?;
    }
    Ok(())
}

/// Names destinations of an event that are no traced site.
fn name_event(alloc: Global, event: &Event, named: &mut Vec<PlainText>) -> Result<(), AllocError>
    ensures { OnOk result (NamesPlaces (Contains (outside_of event.now.body)) named.old.items
        named.new.items) }
{
    name_places(alloc, outside_of(event.body()), named)
}

/// The destinations of a shipment that are no traced site.
fn outside_of(body: &Body) -> &[PlainText]
    ensures { result.now ≡ outside_of body.now }
{
    match body {
        Body::Ship { outside, .. } => outside.as_slice(),
        Body::Note { .. } | Body::Make { .. } | Body::Pack { .. } => &[],
    }
}

/// Names these destinations.
fn name_places(
    alloc: Global,
    places: &[PlainText],
    named: &mut Vec<PlainText>,
) -> Result<(), AllocError>
    ensures { OnOk result (NamesPlaces (Contains places.now) named.old.items named.new.items) }
{
    for place in places {
        name_place(alloc, place, named)?;
    }
    Ok(())
}

/// Names a destination, unless it is named or enough are.
fn name_place(
    alloc: Global,
    place: &PlainText,
    named: &mut Vec<PlainText>,
) -> Result<(), AllocError>
    ensures { OnOk result (NamesPlaces (λ x. place.now ≡ x) named.old.items named.new.items) }
{
    if named.len() >= MAX_PLACES || named.contains(place) {
        return Ok(());
    }
    named.push(place.copy(alloc)?)?;
    Ok(())
}
