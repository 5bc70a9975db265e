//! The checks of an event's own members, in the order in which they are made.

ghost use Rattle.std.specs.Prelude.{◌≡◌, ◌<◌, IfOk, option_map};
ghost use Rattle.serde_json.specs.View.{view};
ghost use Rattle.event_json.specs.Checks.{action_of, type_text, event_type, without_declaration, without_quantities, instant_of, is_number_below, is_offset, offset_checked, head_of, action_checked};
ghost use Rattle.event_json.specs.Events.{IsInstant};

use crate::bodies::Action;
use crate::doc_faults::{DocFaultKind, DocField, Flaw};
use crate::event_types::EventType;
use crate::lent_texts::PlainStr;
use crate::members::{identifier, member, text};
use jiff::Timestamp;
use serde_json::Value;

/// What each event says of itself.
#[derive(Debug, Drop)]
pub struct Head<'v> {
    /// The eventID, where there is one.
    pub id: Option<PlainStr<'v>>,
    /// The instant, in nanoseconds from 1970 in UTC.
    pub instant: i128,
}

/// The text of the member `type`, where it is a text.
pub fn type_text(value: &Value) -> Option<&str>
    ensures { option_map (λ s. s.now) result ≡ type_text (view value.now) }
{
    member(value, DocField::Type)?.as_str()
}

/// The type of an event.
#[tactic(auto, unfolding(crate::specs::Checks::event_type))]
pub fn event_type(value: &Value) -> Result<EventType, Flaw>
    ensures { result ≡ event_type (view value.now) }
{
    if !value.is_object() {
        return Err(Flaw {
            field: DocField::Event,
            kind: DocFaultKind::WrongShape,
        });
    }
    match type_text(value).and_then(EventType::named) {
        Some(event_type) => Ok(event_type),
        None => Err(Flaw {
            field: DocField::Type,
            kind: DocFaultKind::NoType,
        }),
    }
}

/// Refuses an event that is declared to be in error.
#[tactic(auto, unfolding(crate::specs::Checks::without_declaration))]
pub fn without_declaration(value: &Value) -> Result<(), Flaw>
    ensures { result ≡ without_declaration (view value.now) }
{
    match member(value, DocField::ErrorDeclaration) {
        None => Ok(()),
        Some(_) => Err(Flaw {
            field: DocField::ErrorDeclaration,
            kind: DocFaultKind::ErrorDeclared,
        }),
    }
}

/// Refuses a list of quantities that isn't empty.
#[tactic(auto, using(crate::proofs::Lists::items_count), unfolding(crate::specs::Checks::without_quantities))]
pub fn without_quantities(value: &Value, field: DocField) -> Result<(), Flaw>
    ensures { result ≡ without_quantities field (view value.now) }
{
    let Some(found) = member(value, field) else {
        return Ok(());
    };
    match found.as_array() {
        None => Err(Flaw {
            field,
            kind: DocFaultKind::WrongShape,
        }),
        Some(list) if list.is_empty() => Ok(()),
        Some(_) => Err(Flaw {
            field,
            kind: DocFaultKind::Quantities,
        }),
    }
}

/// The instant that a text names, in nanoseconds from 1970 in UTC.
#[tactic(auto, unfolding(crate::specs::Checks::instant_of))]
pub fn instant(text: &str) -> Result<i128, Flaw>
    ensures value { result ≡ instant_of text.now }
    ensures fits { IfOk result IsInstant }
{
    let read: Result<Timestamp, jiff::Error> = text.parse();
    match read {
        Ok(at) => Ok(at.as_nanosecond()),
        Err(_) => Err(Flaw {
            field: DocField::EventTime,
            kind: DocFaultKind::Time,
        }),
    }
}

/// Whether two digits stand for a number below the limit.
fn is_number_below(limit: u8, tens: u8, ones: u8) -> bool
    ensures { result ≡ is_number_below limit tens ones }
{
    tens.is_ascii_digit()
        && ones.is_ascii_digit()
        && u16::from(tens - b'0') * 10 + u16::from(ones - b'0') < u16::from(limit)
}

/// Whether a text is a time zone offset: a sign, hours to 14, a colon and minutes.
#[tactic(auto, unfolding(crate::specs::Checks::is_offset))]
fn is_offset(text: &str) -> bool
    ensures { result ≡ is_offset text.now }
{
    let bytes = text.as_bytes();
    bytes.len() == 6
        && (bytes[0] == b'+' || bytes[0] == b'-')
        && is_number_below(15, bytes[1], bytes[2])
        && bytes[3] == b':'
        && is_number_below(60, bytes[4], bytes[5])
}

/// Refuses a text that is no time zone offset.
#[tactic(auto, unfolding(crate::specs::Checks::offset_checked))]
pub fn check_offset(text: &str) -> Result<(), Flaw>
    ensures { result ≡ offset_checked text.now }
{
    if is_offset(text) {
        Ok(())
    } else {
        Err(Flaw {
            field: DocField::EventTimeZoneOffset,
            kind: DocFaultKind::Offset,
        })
    }
}

/// The eventID and the instant; the offset is only checked.
#[tactic(auto, unfolding(crate::specs::Checks::head_of))]
pub fn head_of<'v>(value: &'v Value) -> Result<Head<'v>, Flaw>
    ensures value { result ≡ head_of (view value.now) }
    ensures instant { IfOk result (λ h. IsInstant h.instant) }
{
    let id = identifier(value, DocField::EventId)?;
    let instant = instant(text(value, DocField::EventTime)?)?;
    check_offset(text(value, DocField::EventTimeZoneOffset)?)?;
    Ok(Head { id, instant })
}

/// What was done to the children.
#[tactic(auto, unfolding(crate::specs::Checks::action_of))]
pub fn action_of(value: &Value) -> Result<Action, Flaw>
    ensures { result ≡ action_of (view value.now) }
{
    match Action::named(text(value, DocField::Action)?) {
        Some(action) => Ok(action),
        None => Err(Flaw {
            field: DocField::Action,
            kind: DocFaultKind::Action,
        }),
    }
}

/// Refuses an action that isn't one of the standard's.
#[tactic(auto, using(crate::proofs::Actions::checked_by_name))]
pub fn check_action(value: &Value) -> Result<(), Flaw>
    ensures { result ≡ action_checked (view value.now) }
{
    action_of(value)?;
    Ok(())
}
