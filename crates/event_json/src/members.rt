//! The members of a JSON object.

ghost use Rattle.std.specs.Prelude.{◌≡◌, option_map, OnOk};
ghost use Rattle.serde_json.specs.View.{view, items_view};
ghost use Rattle.event_json.specs.Faults.{Shows};
ghost use Rattle.event_json.specs.Lent.{IsPlainValue};
ghost use Rattle.event_json.specs.Members.{member_named, member_of, text_of, plain_of, identifier_of, list_of};

use crate::doc_faults::{DocFaultKind, DocField, Flaw};
use crate::lent_texts::PlainStr;
use serde_json::Value;

/// The member of this name; one that is null counts as absent.
pub fn member_named<'v>(value: &'v Value, name: &str) -> Option<&'v Value>
    ensures { option_map (λ v. view v.now) result ≡ member_named name.now (view value.now) }
{
    match value.get(name) {
        Some(found) if !found.is_null() => Some(found),
        _ => None,
    }
}

/// The member of this field.
pub fn member<'v>(value: &'v Value, field: DocField) -> Option<&'v Value>
    ensures { option_map (λ v. view v.now) result ≡ member_of field (view value.now) }
{
    member_named(value, field.name())
}

/// The text of a member that has to be there.
pub fn text<'v>(value: &'v Value, field: DocField) -> Result<&'v str, Flaw>
    ensures { Shows (λ s. s.now) result (text_of field (member_of field (view value.now))) }
{
    let Some(found) = member(value, field) else {
        return Err(Flaw {
            field,
            kind: DocFaultKind::Missing,
        });
    };
    match found.as_str() {
        Some(text) => Ok(text),
        None => Err(Flaw {
            field,
            kind: DocFaultKind::WrongShape,
        }),
    }
}

/// The plain text of a value.
pub fn plain<'v>(value: &'v Value, field: DocField) -> Result<PlainStr<'v>, Flaw>
    ensures value { result ≡ plain_of field (view value.now) }
    ensures plain { OnOk result (IsPlainValue value.now) }
{
    let wrong = Flaw {
        field,
        kind: DocFaultKind::WrongShape,
    };
    let Some(text) = value.as_str() else {
        return Err(wrong);
    };
    match PlainStr::of(text) {
        Some(plain) => Ok(plain),
        None => Err(wrong),
    }
}

/// The plain text of a member that may be absent.
pub fn identifier<'v>(value: &'v Value, field: DocField) -> Result<Option<PlainStr<'v>>, Flaw>
    ensures { result ≡ identifier_of field (member_of field (view value.now)) }
{
    match member(value, field) {
        Some(found) => Ok(Some(plain(found, field)?)),
        None => Ok(None),
    }
}

/// The members of an array, none where it is absent.
pub fn list<'v>(value: &'v Value, field: DocField) -> Result<&'v [Value], Flaw>
    ensures { Shows (λ l. items_view l.now) result
        (list_of field (member_of field (view value.now))) }
{
    let Some(found) = member(value, field) else {
        return Ok(&[]);
    };
    match found.as_array() {
        Some(list) => Ok(list.as_slice()),
        None => Err(Flaw {
            field,
            kind: DocFaultKind::WrongShape,
        }),
    }
}
