//! The places of eventIDs, by the hashes of their texts. The texts lie in the events alone.
ghost use Rattle.std.specs.Prelude.{◌≡◌, ℕ, List, None, Some, OnOk, OnErr, option_map};
ghost use Rattle.trace_core.specs.EventIds.{text_hash, hash_key, hash_keys, hash_places};
ghost use Rattle.trace_core.specs.PairTests.{same_id, same_item};
ghost use Rattle.trace_core.specs.Places.{id_places, is_emptied, ForgetsIn, Notes, Forgets};

use crate::places::Places;
use event_json::PlainText;
use indexmap::IndexMap;
use std::alloc::{AllocError, Global};
use std::hash::{BuildHasher, RandomState};

/// Hashes of eventIDs, each with the places of the events whose eventID has it.
pub type HashIndex = IndexMap<u64, Places>;

/// The places of eventIDs, by their hashes. No choice of texts makes a look-up slow: the hash has random keys.
#[derive(Debug, Drop)]
pub struct EventIds {
    /// The keys of the hash.
    pub keys: RandomState,
    /// By hash: the events whose eventID has it.
    pub places: HashIndex,
}

impl EventIds {
    /// No eventIDs, with the keys of the hash. Does not allocate.
    pub fn new(alloc: Global, keys: RandomState) -> EventIds
        ensures { (key : List ℕ) → hash_places result.places key ≡ None }
    {
        EventIds {
            keys,
            places: IndexMap::new(alloc),
        }
    }

    /// The places of the events whose eventID has the hash of this one, none where there is no eventID.
    pub fn alike(&self, id: Option<&PlainText>) -> &[usize]
        ensures { result.now ≡ id_places (hash_places self.now.places)
            (hash_keys self.now.keys (option_map (λ t. t.now) id.entry)) }
    {
        match id {
            Some(text) => places_of(&self.places, hash_of(&self.keys, text)),
            None => &[],
        }
    }

    /// Notes that the event at a place has this eventID, if it has one. An `Err` changes nothing.
    pub fn note(
        &mut self,
        alloc: Global,
        id: Option<&PlainText>,
        place: usize,
    ) -> Result<(), AllocError>
        ensures ok { OnOk result (Notes (hash_places self.old.places) (hash_places self.new.places)
            place (λ key. same_id (hash_keys self.old.keys (option_map (λ t. t.now) id.entry))
            (Some key))) }
        ensures err { OnErr result ((key : List ℕ)
            → hash_places self.new.places key ≡ hash_places self.old.places key) }
        ensures keys { self.new.keys ≡ self.old.keys }
    {
        match id {
            Some(text) => {
                let hash = hash_of(&self.keys, text);
                note_hash(alloc, &mut self.places, hash, place)
            }
            None => Ok(()),
        }
    }

    /// Takes a place away from the eventID of the event there, if it has one. Does not allocate.
    pub fn forget(&mut self, id: Option<&PlainText>, place: usize)
        ensures forgotten { Forgets (hash_places self.old.places) (hash_places self.new.places)
            place (λ key. same_id (hash_keys self.old.keys (option_map (λ t. t.now) id.entry))
            (Some key)) }
        ensures keys { self.new.keys ≡ self.old.keys }
    {
        if let Some(text) = id {
            let hash = hash_of(&self.keys, text);
            forget_hash(&mut self.places, hash, place);
        }
    }
}

/// The hash of an eventID.
#[tactic(auto, unfolding(crate::specs::EventIds::text_hash))]
fn hash_of(keys: &RandomState, id: &PlainText) -> u64
    ensures { result ≡ text_hash keys.now id.now }
{
    keys.hash_one(id.as_str())
}

/// The places of a hash.
fn places_of(index: &HashIndex, hash: u64) -> &[usize]
    ensures { result.now ≡ id_places (hash_places index.now) (Some (hash_key hash)) }
{
    match index.get(&hash) {
        Some(places) => places.as_slice(),
        None => &[],
    }
}

/// Notes a place of a hash. An `Err` changes nothing.
fn note_hash(
    alloc: Global,
    index: &mut HashIndex,
    hash: u64,
    place: usize,
) -> Result<(), AllocError>
    ensures ok { OnOk result (Notes (hash_places index.old) (hash_places index.new) place
        (same_item (hash_key hash))) }
    ensures err { OnErr result ((key : List ℕ)
        → hash_places index.new key ≡ hash_places index.old key) }
{
    if let Some(places) = index.get_mut(&hash) {
        return places.note(place);
    }
    let places = Places::one(alloc, place)?;
    index.insert(hash, places)?;
    Ok(())
}

/// Takes a place away from a hash, if it is its last one, and the hash with its only place. Does not allocate.
fn forget_hash(index: &mut HashIndex, hash: u64, place: usize)
    ensures { Forgets (hash_places index.old) (hash_places index.new) place
        (same_item (hash_key hash)) }
{
    if forget_in(index, hash, place) {
        index.swap_remove(&hash);
    }
}

/// Takes a place away from a hash, if it is its last one, and returns whether none is left. Does not allocate.
fn forget_in(index: &mut HashIndex, hash: u64, place: usize) -> bool
    ensures left { ForgetsIn (hash_places index.old) (hash_places index.new) place
        (hash_key hash) }
    ensures emptied { result ≡ is_emptied place (hash_places index.old (hash_key hash)) }
{
    match index.get_mut(&hash) {
        Some(places) => {
            places.forget(place);
            places.is_empty()
        }
        None => false,
    }
}
