//! How much a value is, so that it can be bounded what copies of it take.

ghost use Rattle.std.specs.Prelude.{◌≡◌, ◌-◌, Some, None, if◌then◌else◌, nat_le, string_bytes};
ghost use Rattle.serde_json.specs.View.{items_view, members_view, view};
ghost use Rattle.document_convert.specs.Weights.{
  is_light,
  items_weight,
  members_weight,
  room_behind,
  weight,
  weight_beside,
  weight_of_other,
};

use serde_json::{Map, Value};

/// What is left of some room behind so much, where it fits.
fn room_behind(room: usize, much: usize) -> Option<usize>
    ensures { result ≡ room_behind room much }
{
    if much <= room {
        Some(room - much)
    } else {
        None
    }
}

/// What is left of some room behind a value.
#[cycle(weigh)]
fn room_behind_value(value: &Value, room: usize) -> Option<usize>
    ensures { result ≡ room_behind room (weight (view value.now)) }
{
    let room = room_behind(room, 1)?;
    match value {
        Value::Null => Some(room),
        Value::Bool(_) => Some(room),
        Value::Number(_) => Some(room),
        Value::String(text) => room_behind(room, text.as_str().len()),
        Value::Array(items) => room_behind_items(items, room),
        Value::Object(members) => room_behind_members(members, room),
    }
}

#[cycle(weigh)]
fn room_behind_items(items: &Vec<Value>, room: usize) -> Option<usize>
    ensures { result ≡ room_behind room (items_weight (items_view items.now.items)) }
{
    let mut left = room;
    for item in items {
        left = room_behind_value(item, left)?;
    }
    Some(left)
}

#[cycle(weigh)]
fn room_behind_members(members: &Map<String, Value>, room: usize) -> Option<usize>
    ensures { result ≡ room_behind room (members_weight (members_view members.now.entries)) }
{
    let mut left = room;
    for (name, member) in members.iter() {
        left = room_behind(left, name.as_str().len())?;
        left = room_behind_value(member, left)?;
    }
    Some(left)
}

/// What is left of some room behind a member, unless it has one of two names.
#[tactic(auto, using(crate::proofs::Weighing::and_more, crate::proofs::Weighing::no_more))]
fn room_behind_other(
    name: &String,
    member: &Value,
    one: &str,
    other: &str,
    room: usize,
) -> Option<usize>
    ensures { result ≡ room_behind room
        (weight_of_other one.now other.now (string_bytes name.now) (view member.now)) }
{
    if name.as_str() == one || name.as_str() == other {
        return Some(room);
    }
    let left = room_behind(room, name.as_str().len())?;
    room_behind_value(member, left)
}

/// What is left of some room behind the members of an object but those of two names.
fn room_beside(members: &Map<String, Value>, one: &str, other: &str, room: usize) -> Option<usize>
    ensures { result ≡ room_behind room
        (weight_beside one.now other.now (members_view members.now.entries)) }
{
    let mut left = room;
    for (name, member) in members.iter() {
        left = room_behind_other(name, member, one, other, left)?;
    }
    Some(left)
}

/// Whether what stands in an event beside two of its members isn't more than so much.
#[tactic(auto, unfolding(crate::specs::Weights::is_light))]
pub(crate) fn is_light(event: &Value, one: &str, other: &str, room: usize) -> bool
    ensures { result ≡ is_light room one.now other.now (view event.now) }
{
    match event.as_object() {
        Some(members) => room_beside(members, one, other, room).is_some(),
        None => false,
    }
}
