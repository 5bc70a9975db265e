//! What the captured parts of a transformation take in, by look-ups.
ghost use Rattle.std.specs.Prelude.{◌≡◌, ◌↔◌, ◌&&◌, Some, IsTrue, length, slice_get};
ghost use Rattle.std.specs.List.{list_any};
ghost use Rattle.trace_core.specs.PairTests.{same_id, takes_in};
ghost use Rattle.trace_core.specs.Pairs.{make_id};
ghost use Rattle.trace_core.specs.Parts.{TakesInAsPart};
ghost use Rattle.trace_core.specs.Places.{at_place, has_part, places_where};

use crate::books::Book;
use crate::captured::Captured;
use crate::gathering::make_id;
use epc_core::Epc;
use event_json::{Body, PlainText};

impl Captured {
    /// How many captured parts a transformation has: transformations with this transformationID. Does not allocate.
    pub fn part_count(&self, id: &PlainText) -> usize
        ensures { result ≡ length (places_where (has_part id.now) self.now.events) }
    {
        self.book().parts_of(Some(id)).len()
    }

    /// Whether a captured part of a transformation takes the item in. Does not allocate.
    pub fn is_part_input(&self, id: &PlainText, item: &Epc) -> bool
        ensures { IsTrue result ↔ TakesInAsPart self.now.events id.now item.now }
    {
        is_input_of_part(self.book(), id, item)
    }
}

/// Whether a part of the transformation takes the item in. Each place of the item's takers takes it in, so that no
/// list of inputs is gone through.
pub fn is_input_of_part(book: &Book, id: &PlainText, item: &Epc) -> bool
    ensures { result ≡ list_any (λ e. takes_in item.now e.body && has_part id.now e) book.now }
{
    is_part_among(book, book.takers_of(item), id)
}

/// Whether a part of the transformation stands at one of the places.
fn is_part_among(book: &Book, places: &[usize], id: &PlainText) -> bool
    ensures { result ≡ list_any (λ k. at_place (has_part id.now) (slice_get book.now k)) places.now }
{
    places.iter().any(|place| is_part_at(book, *place, id))
}

/// Whether a part of the transformation stands at a place.
fn is_part_at(book: &Book, place: usize, id: &PlainText) -> bool
    ensures { result ≡ at_place (has_part id.now) (slice_get book.now place) }
{
    match book.get(place) {
        Some(event) => is_part_of(event.body(), id),
        None => false,
    }
}

/// Whether it is a part of the transformation.
fn is_part_of(body: &Body, id: &PlainText) -> bool
    ensures { result ≡ same_id (make_id body.now) (Some id.now) }
{
    match make_id(body) {
        Some(own) => *own == *id,
        None => false,
    }
}
