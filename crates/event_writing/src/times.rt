//! The time of an event, as it is written.
ghost use Rattle.std.specs.Prelude.{IfOk};
ghost use Rattle.event_writing.specs.Times.{NamesInstant};

use event_json::Event;
use jiff::Timestamp;
use jiff::tz::Offset;
use std::alloc::{AllocError, Global};

/// The time of an event, `None` where no time names its instant.
///
/// # Errors
/// Out of memory.
pub(crate) fn event_time(alloc: Global, event: &Event) -> Result<Option<String>, AllocError>
    ensures { IfOk result (NamesInstant event.now.instant) }
{
    time_of(alloc, event.instant())
}

/// The time of an instant, which is given in nanoseconds from 1970 in UTC: `2024-05-01T13:20:00Z`, with as many
/// decimals of the second as it has. `None` where the instant lies outside those that an event's time can name.
///
/// # Errors
/// Out of memory.
fn time_of(alloc: Global, instant: i128) -> Result<Option<String>, AllocError>
    ensures { IfOk result (NamesInstant instant) }
{
    let Ok(timestamp) = Timestamp::from_nanosecond(instant) else {
        return Ok(None);
    };
    let clock = Offset::UTC.to_datetime(timestamp);
    Ok(Some(format!(in alloc; "{clock}Z")?))
}
