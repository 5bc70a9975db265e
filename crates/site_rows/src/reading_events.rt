//! The rows of the events, tested.
ghost use Rattle.std.specs.Prelude.{◌≡◌, ◌↔◌, ◌⊎◌, ◌+◌, pos, ℕ, Some, None, slice_get, IfErr, IsTrue, OnOk};
ghost use Rattle.site_rows.specs.BadEvents.{IsBelow, IsEvent, IsEventFault, IsEventTable};
ghost use Rattle.site_rows.specs.Texts.{IsTextOrNone};

use crate::reading_entries::TableFault;
use crate::reading_numbers::natural;
use crate::reading_texts::is_plain_text;
use crate::rows::EventRow;
use crate::texts::Text;

/// A second has as many nanoseconds.
const SECOND: u64 = 1_000_000_000;

/// The kind of an event that makes items.
const MAKE: i64 = 2;

/// Tests that the rows are those of events of so many kinds, the members of their lists aside. Does not allocate.
///
/// # Errors
/// The first row that is no event's: its number isn't the next one, from 1, its eventID or its transformationID isn't
/// plain and UTF-8, its nanoseconds or its kind are out of range, or it has a transformationID and makes no items.
pub(crate) fn check_events(kinds: u64, rows: &[EventRow]) -> Result<(), TableFault>
    ensures good { OnOk result (IsEventTable kinds rows.now) }
    ensures bad { IfErr result (λ fault. IsEventFault kinds rows.now fault) }
{
    for (place, row) in rows.iter().enumerate() {
        if !is_event(kinds, place, row) {
            return Err(TableFault::BadRow(place as u64 + 1));
        }
    }
    Ok(())
}

/// Whether the row at a place is one of an event.
fn is_event(kinds: u64, place: usize, row: &EventRow) -> bool
    ensures { IsTrue result ↔ IsEvent kinds place row.now }
{
    if !is_next(place, row.no) || !is_identifier(&row.id) || !is_identifier(&row.make_id) {
        return false;
    }
    if !is_below(SECOND, row.nanos) || !is_below(kinds, row.kind) {
        return false;
    }
    row.kind == MAKE || row.make_id.is_none()
}

/// Whether a number is that of the event at a place, from 0.
fn is_next(place: usize, number: i64) -> bool
    ensures { IsTrue result ↔ (number ≡ pos (place + 1)) }
{
    match natural(number) {
        Some(number) => number >= 1 && number - 1 == place as u64,
        None => false,
    }
}

/// Whether a text is plain and UTF-8, where there is one.
fn is_identifier(text: &Option<Text>) -> bool
    ensures { IsTrue result ↔ IsTextOrNone text.now }
{
    match text {
        Some(text) => is_plain_text(text),
        None => true,
    }
}

/// Whether a number is at least 0 and below another.
fn is_below(most: u64, number: i64) -> bool
    ensures { IsTrue result ↔ ((n : ℕ) × IsBelow most number n) }
{
    match natural(number) {
        Some(number) => number < most,
        None => false,
    }
}
