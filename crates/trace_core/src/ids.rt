//! The places of the ids of transformations.
ghost use Rattle.std.specs.Prelude.{◌≡◌, ℕ, List, Some, OnOk, OnErr, option_map};
ghost use Rattle.trace_core.specs.PairTests.{same_id, same_item};
ghost use Rattle.trace_core.specs.Places.{text_places, id_places, is_emptied, ForgetsIn, Notes, Forgets};

use crate::places::Places;
use event_json::PlainText;
use indexmap::IndexMap;
use std::alloc::{AllocError, Global};
use std::hash::RandomState;

/// Texts, each with the places of the events that have it. No choice of texts makes a look-up slow: the hash has random
/// keys.
pub type TextIndex = IndexMap<String, Places, RandomState>;

/// The places of an id, none where there is no id.
pub fn places_of_id<'a>(index: &'a TextIndex, id: Option<&PlainText>) -> &'a [usize]
    ensures { result.now ≡ id_places (text_places index.now) (option_map (λ t. t.now) id.entry) }
{
    match id {
        Some(text) => match index.get(text.as_str()) {
            Some(places) => places.as_slice(),
            None => &[],
        },
        None => &[],
    }
}

/// Notes that the event at a place has this id, if it has one. Only a new place allocates. An `Err`
/// changes nothing.
pub fn note_id(
    alloc: Global,
    index: &mut TextIndex,
    id: Option<&PlainText>,
    place: usize,
) -> Result<(), AllocError>
    ensures ok { OnOk result (Notes (text_places index.old) (text_places index.new) place (λ i.
        same_id (option_map (λ t. t.now) id.entry) (Some i))) }
    ensures err { OnErr result ((i : List ℕ) → text_places index.new i ≡ text_places index.old i) }
{
    match id {
        Some(text) => note_text(alloc, index, text.as_str(), place),
        None => Ok(()),
    }
}

/// Notes a place of a text. An `Err` changes nothing.
fn note_text(
    alloc: Global,
    index: &mut TextIndex,
    text: &str,
    place: usize,
) -> Result<(), AllocError>
    ensures ok { OnOk result (Notes (text_places index.old) (text_places index.new) place
        (same_item text.now)) }
    ensures err { OnErr result ((i : List ℕ) → text_places index.new i ≡ text_places index.old i) }
{
    if let Some(places) = index.get_mut(text) {
        return places.note(place);
    }
    let places = Places::one(alloc, place)?;
    index.insert(String::from_str(alloc, text)?, places)?;
    Ok(())
}

/// Takes a place away from the id of the event there, if it has one. Does not allocate.
pub fn forget_id(index: &mut TextIndex, id: Option<&PlainText>, place: usize)
    ensures { Forgets (text_places index.old) (text_places index.new) place (λ i.
        same_id (option_map (λ t. t.now) id.entry) (Some i)) }
{
    if let Some(text) = id {
        forget_text(index, text.as_str(), place);
    }
}

/// Takes a place away from a text, if it is its last one, and the text with its only place. Does not allocate.
fn forget_text(index: &mut TextIndex, text: &str, place: usize)
    ensures { Forgets (text_places index.old) (text_places index.new) place (same_item text.now) }
{
    if forget_in(index, text, place) {
        index.swap_remove(text);
    }
}

/// Takes a place away from a text, if it is its last one, and returns whether none is left. Does not allocate.
fn forget_in(index: &mut TextIndex, text: &str, place: usize) -> bool
    ensures left { ForgetsIn (text_places index.old) (text_places index.new) place text.now }
    ensures emptied { result ≡ is_emptied place (text_places index.old text.now) }
{
    match index.get_mut(text) {
        Some(places) => {
            places.forget(place);
            places.is_empty()
        }
        None => false,
    }
}
