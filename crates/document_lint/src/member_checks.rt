//! The checks of an event's members, each of which is made whatever the others find.

ghost use Rattle.std.specs.Prelude.{◌≡◌, option_map};
ghost use Rattle.serde_json.specs.View.{items_view, view};
ghost use Rattle.event_json.specs.Checks.{action_checked, action_named, action_of, instant_of, is_number_below, is_offset, offset_checked, without_declaration, without_quantities};
ghost use Rattle.event_json.specs.Members.{identifier_of, list_of, member_of, plain_of, text_of};
ghost use Rattle.document_lint.specs.EventFaults.{faults_in, time_of, zone_of};
ghost use Rattle.document_lint.specs.MemberFaults.{Finds, told_by};

use crate::event_lists::member_named;
use epc_core::is_plain;
use event_json::{Action, DocFaultKind, DocField};
use jiff::Timestamp;
use serde_json::Value;

/// A fault of a member of an event.
#[derive(Clone, Copy, Debug, PartialEq, Eq)]
pub struct MemberFault {
    pub field: DocField,
    pub kind: DocFaultKind,
}

/// The member of this field.
pub(crate) fn member(value: &Value, field: DocField) -> Option<&Value>
    ensures { option_map (λ v. view v.now) result ≡ member_of field (view value.now) }
{
    member_named(value, field.name())
}

/// Refuses an event that is declared to be in error.
#[tactic(auto, unfolding(event_json::specs::Checks::without_declaration))]
pub(crate) fn without_declaration(value: &Value) -> Result<(), MemberFault>
    ensures { told_by result ≡ faults_in (without_declaration (view value.now)) }
{
    match member(value, DocField::ErrorDeclaration) {
        None => Ok(()),
        Some(_) => Err(MemberFault {
            field: DocField::ErrorDeclaration,
            kind: DocFaultKind::ErrorDeclared,
        }),
    }
}

/// Refuses a list of quantities that isn't empty.
#[tactic(auto, using(event_json::proofs::Lists::items_count), unfolding(event_json::specs::Checks::without_quantities))]
pub(crate) fn without_quantities(value: &Value, field: DocField) -> Result<(), MemberFault>
    ensures { told_by result ≡ faults_in (without_quantities field (view value.now)) }
{
    let Some(found) = member(value, field) else {
        return Ok(());
    };
    match found.as_array() {
        None => Err(MemberFault {
            field,
            kind: DocFaultKind::WrongShape,
        }),
        Some(list) if list.is_empty() => Ok(()),
        Some(_) => Err(MemberFault {
            field,
            kind: DocFaultKind::Quantities,
        }),
    }
}

/// The text of a member that has to be there.
fn text(value: &Value, field: DocField) -> Result<&str, MemberFault>
    ensures { Finds (λ s. s.now) result (text_of field (member_of field (view value.now))) }
{
    let Some(found) = member(value, field) else {
        return Err(MemberFault {
            field,
            kind: DocFaultKind::Missing,
        });
    };
    match found.as_str() {
        Some(text) => Ok(text),
        None => Err(MemberFault {
            field,
            kind: DocFaultKind::WrongShape,
        }),
    }
}

/// The plain text of a value.
pub(crate) fn plain(value: &Value, field: DocField) -> Result<&str, MemberFault>
    ensures { Finds (λ s. s.now) result (plain_of field (view value.now)) }
{
    match value.as_str() {
        Some(text) if is_plain(text) => Ok(text),
        _ => Err(MemberFault {
            field,
            kind: DocFaultKind::WrongShape,
        }),
    }
}

/// The plain text of a member that may be absent.
pub(crate) fn identifier(value: &Value, field: DocField) -> Result<Option<&str>, MemberFault>
    ensures value { Finds (λ o. option_map (λ s. s.now) o) result
        (identifier_of field (member_of field (view value.now))) }
    ensures told { told_by result
        ≡ faults_in (identifier_of field (member_of field (view value.now))) }
{
    match member(value, field) {
        Some(found) => Ok(Some(plain(found, field)?)),
        None => Ok(None),
    }
}

/// The instant that a text names, in nanoseconds from 1970 in UTC.
#[tactic(auto, unfolding(event_json::specs::Checks::instant_of))]
fn instant(text: &str) -> Result<i128, MemberFault>
    ensures { Finds (λ n. n) result (instant_of text.now) }
{
    let read: Result<Timestamp, jiff::Error> = text.parse();
    match read {
        Ok(at) => Ok(at.as_nanosecond()),
        Err(_) => Err(MemberFault {
            field: DocField::EventTime,
            kind: DocFaultKind::Time,
        }),
    }
}

/// The instant of an event.
pub(crate) fn time(value: &Value) -> Result<i128, MemberFault>
    ensures { told_by result ≡ faults_in (time_of (view value.now)) }
{
    instant(text(value, DocField::EventTime)?)
}

/// Whether two digits stand for a number below the limit.
fn is_number_below(limit: u8, tens: u8, ones: u8) -> bool
    ensures { result ≡ is_number_below limit tens ones }
{
    tens.is_ascii_digit()
        && ones.is_ascii_digit()
        && u16::from(tens - b'0') * 10 + u16::from(ones - b'0') < u16::from(limit)
}

/// Whether a text is a time zone offset: a sign, hours to 14, a colon and minutes.
#[tactic(auto, unfolding(event_json::specs::Checks::is_offset))]
fn is_offset(text: &str) -> bool
    ensures { result ≡ is_offset text.now }
{
    let bytes = text.as_bytes();
    bytes.len() == 6
        && (bytes[0] == b'+' || bytes[0] == b'-')
        && is_number_below(15, bytes[1], bytes[2])
        && bytes[3] == b':'
        && is_number_below(60, bytes[4], bytes[5])
}

/// Refuses a text that is no time zone offset.
#[tactic(auto, unfolding(event_json::specs::Checks::offset_checked))]
fn check_offset(text: &str) -> Result<(), MemberFault>
    ensures { Finds (λ u. u) result (offset_checked text.now) }
{
    if is_offset(text) {
        Ok(())
    } else {
        Err(MemberFault {
            field: DocField::EventTimeZoneOffset,
            kind: DocFaultKind::Offset,
        })
    }
}

/// Refuses an event without the offset of its clock.
pub(crate) fn check_zone(value: &Value) -> Result<(), MemberFault>
    ensures { told_by result ≡ faults_in (zone_of (view value.now)) }
{
    check_offset(text(value, DocField::EventTimeZoneOffset)?)
}

/// The action that is written so.
#[tactic(auto, unfolding(event_json::specs::Checks::action_named))]
fn action_named(text: &str) -> Option<Action>
    ensures { result ≡ action_named text.now }
{
    if text == "ADD" {
        Some(Action::Add)
    } else if text == "OBSERVE" {
        Some(Action::Observe)
    } else if text == "DELETE" {
        Some(Action::Delete)
    } else {
        None
    }
}

/// What was done to the items or children.
#[tactic(auto, unfolding(event_json::specs::Checks::action_of))]
pub(crate) fn action(value: &Value) -> Result<Action, MemberFault>
    ensures value { Finds (λ a. a) result (action_of (view value.now)) }
    ensures told { told_by result ≡ faults_in (action_of (view value.now)) }
{
    match action_named(text(value, DocField::Action)?) {
        Some(action) => Ok(action),
        None => Err(MemberFault {
            field: DocField::Action,
            kind: DocFaultKind::Action,
        }),
    }
}

/// Refuses an action that isn't one of the standard's.
#[tactic(auto, using(event_json::proofs::Actions::checked_by_name))]
pub(crate) fn check_action(value: &Value) -> Result<(), MemberFault>
    ensures { told_by result ≡ faults_in (action_checked (view value.now)) }
{
    action(value)?;
    Ok(())
}

/// The members of an array, none where it is absent.
pub(crate) fn list(value: &Value, field: DocField) -> Result<&[Value], MemberFault>
    ensures { Finds (λ l. items_view l.now) result
        (list_of field (member_of field (view value.now))) }
{
    let Some(found) = member(value, field) else {
        return Ok(&[]);
    };
    match found.as_array() {
        Some(list) => Ok(list.as_slice()),
        None => Err(MemberFault {
            field,
            kind: DocFaultKind::WrongShape,
        }),
    }
}
