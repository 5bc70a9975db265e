//! The time of an event, as it is written.
ghost use Rattle.std.specs.Prelude.{IfOk};
ghost use Rattle.report_core.specs.EventTimes.{TellsTime};

use event_json::PlainText;
use jiff::Timestamp;
use jiff::tz::Offset;
use std::alloc::{AllocError, Global};

/// The time of an instant, which is given in nanoseconds from 1970 in UTC: `2024-05-01T13:20:00Z`, with as many
/// decimals of the second as it has. An event's time that is written so is read as this instant. `None` where the
/// instant lies outside those that an event's time can name.
///
/// # Errors
/// Out of memory.
pub fn time_of(alloc: Global, instant: i128) -> Result<Option<PlainText>, AllocError>
    ensures { IfOk result (TellsTime instant) }
{
    let Ok(timestamp) = Timestamp::from_nanosecond(instant) else {
        return Ok(None);
    };
    let clock = Offset::UTC.to_datetime(timestamp);
    let text = format!(in alloc; "{clock}Z")?;
    PlainText::read(alloc, &text)
}
