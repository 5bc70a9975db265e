//! Transformations as a search names them: all parts of one id at a site are one.
ghost use Rattle.std.specs.Prelude.{◌≡◌, ℕ, List, Some, slice_get};
ghost use Rattle.event_json.specs.Events.{Content};
ghost use Rattle.trace_core.specs.Groups.{outs_of, first_of};
ghost use Rattle.trace_core.specs.Places.{at_place};

use crate::books::Book;
use crate::gathering::make_id;
use event_json::Body;

/// A transformation that a search comes to: all parts of one id at one site, or one without an id.
#[derive(Clone, Copy, Debug, PartialEq, Eq, PartialOrd, Ord)]
pub struct Group {
    /// The site's place among those that are searched.
    pub site: usize,
    /// The place of its first part.
    pub first: usize,
}

/// The place that stands for the transformation of the event at a place: that of the first part with its
/// id, and its own where it has none.
pub fn first_part(book: &Book, place: usize, body: &Body) -> usize
    ensures first { result ≡ first_of book.now place body.now }
    ensures outputs { (e : Content) (j : List ℕ) → slice_get book.now place ≡ Some e
        → e.body ≡ body.now → at_place (λ f. outs_of book.now j f.body) (slice_get book.now result)
        ≡ outs_of book.now j body.now }
{
    match book.parts_of(make_id(body)).first() {
        Some(first) => *first,
        None => place,
    }
}
