//! The lists of an event, by thousands.

ghost use Rattle.std.specs.Prelude.{◌≡◌, IfOk, map};
ghost use Rattle.serde_json.specs.View.{items_view, view};
ghost use Rattle.document_convert.specs.Parted.{array_at, count_at, is_list, is_long, thousand, thousands, with_list, with_thousand};

use crate::quantities::copies;
use crate::types::{member_named, with_member};
use serde_json::Value;
use std::alloc::{AllocError, Global};

/// The most members of a list, and the most events of a document, that a capture takes.
pub(crate) const THOUSAND: usize = 1000;

/// The thousand of this number of a list, from 0; the last has the rest.
pub(crate) fn thousand(list: &[Value], number: usize) -> &[Value]
    ensures { result.now ≡ thousand number list.now }
{
    let start = number.saturating_mul(THOUSAND).min(list.len());
    let rest = &list[start..];
    &rest[..rest.len().min(THOUSAND)]
}

/// How many thousands so many members are, at least one.
pub(crate) fn thousands(count: usize) -> usize
    ensures { result ≡ thousands count }
{
    1 + count.saturating_sub(1) / THOUSAND
}

/// The array of a member; an empty one where it is absent, or none.
pub(crate) fn array_at<'v>(event: &'v Value, name: &str) -> &'v [Value]
    ensures { items_view result.now ≡ array_at name.now (view event.now) }
{
    let Some(value) = member_named(event, name) else {
        return &[];
    };
    match value.as_array() {
        Some(list) => list.as_slice(),
        None => &[],
    }
}

/// Whether a member is an array, or absent.
pub(crate) fn is_list(event: &Value, name: &str) -> bool
    ensures { result ≡ is_list name.now (view event.now) }
{
    match member_named(event, name) {
        Some(value) => value.is_array(),
        None => true,
    }
}

/// Whether a list has more than 1,000 members.
#[tactic(auto, using(crate::proofs::Lists::listed_length))]
pub(crate) fn is_long(event: &Value, name: &str) -> bool
    ensures { result ≡ is_long name.now (view event.now) }
{
    array_at(event, name).len() > THOUSAND
}

/// How many thousands a list has.
#[tactic(auto, using(crate::proofs::Lists::listed_length))]
pub(crate) fn count_at(event: &Value, name: &str) -> usize
    ensures { result ≡ count_at name.now (view event.now) }
{
    thousands(array_at(event, name).len())
}

/// An event whose list has these members.
pub(crate) fn with_list(
    alloc: Global,
    event: Value,
    name: &str,
    members: Vec<Value>,
) -> Result<Value, AllocError>
    ensures { IfOk result
        (λ v. view v ≡ with_list name.now (map view members.items) (view event)) }
{
    with_member(alloc, event, name, Value::Array(members))
}

/// A part whose list has the thousand of this number of the event's list.
pub(crate) fn with_thousand(
    alloc: Global,
    event: &Value,
    name: &str,
    number: usize,
    part: Value,
) -> Result<Value, AllocError>
    ensures { IfOk result
        (λ v. view v ≡ with_thousand (view event.now) name.now number (view part)) }
{
    let list = array_at(event, name);
    let slice = thousand(list, number);
    let members = copies(alloc, slice)?;
    let found = with_list(alloc, part, name, members)?;
    Ok(found)
}
