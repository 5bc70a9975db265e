//! What is looked up of a list of events: kept with it, event by event.
ghost use Rattle.std.specs.Prelude.{◌≡◌, ◌++◌, ◌∷◌, [], ℕ, List, OnOk, OnErr, length, slice_get, option_map};
ghost use Rattle.event_json.specs.Events.{Content};
ghost use Rattle.trace_core.specs.Indexes.{HasIds, HasItems, HasPlaces};
ghost use Rattle.trace_core.specs.Numbers.{numbered};
ghost use Rattle.trace_core.specs.PutIn.{children_in, put_at};
ghost use Rattle.trace_core.specs.Sendings.{AreNewlySent, Extends, Goes, HasSent, SendsOn};

use crate::event_ids::EventIds;
use crate::event_items::{
    Members, forget_items_of, kept_numbers, moved_count, note_items_of, parent_number,
};
use crate::gathering::make_id;
use crate::ids::{TextIndex, forget_id, note_id};
use crate::items::Items;
use crate::packed::Packed;
use crate::places::Places;
use crate::sendings::{Sending, Sent};
use event_json::Event;
use indexmap::IndexMap;
use std::alloc::{AllocError, Global};
use std::hash::RandomState;

/// Which items a list of events names, the transformations that take each of them in, what was put into it and the
/// sites that it was sent to; at which places eventIDs and the ids of transformations stand, and which outputs each
/// event has. No choice of texts makes a look-up slow: the hash by which items and ids are looked up has random keys.
#[derive(Debug, Drop)]
pub struct Index {
    /// By item: its number, and the transformations that take it in.
    pub items: Items,
    /// By event: its members.
    pub members: Vec<Members>,
    /// By the hash of an eventID: the events whose eventID has it.
    pub ids: EventIds,
    /// By transformationID: the transformations that have it.
    pub parts: TextIndex,
    /// What all events sent, by the numbers of items.
    pub sent: Sent,
    /// By event: how much was sent before it.
    pub counts: Vec<usize>,
    /// What all events put into items, by their numbers.
    pub packed: Packed,
}

impl Index {
    /// The index of no events, with the keys of the hash by which items and ids are looked up, drawn at random, so
    /// that nobody can choose texts that collide. Does not allocate.
    pub fn new(alloc: Global, keys: RandomState) -> Index
        ensures { HasPlaces result [] }
    {
        Index {
            items: Items::new(alloc, keys),
            members: Vec::new(alloc),
            ids: EventIds::new(alloc, keys),
            parts: IndexMap::with_hasher(alloc, keys),
            sent: Sent::new(alloc),
            counts: Vec::new(alloc),
            packed: Packed::new(alloc),
        }
    }

    /// Notes the event that comes at a place, after all others. An `Err` changes nothing that can be looked
    /// up.
    pub fn note(&mut self, alloc: Global, event: &Event, place: usize) -> Result<(), AllocError>
        ensures ok { OnOk result ((events : List Content) → place ≡ length events
            → HasPlaces self.old events → HasPlaces self.new (events ++ event.now ∷ [])) }
        ensures err { OnErr result ((events : List Content) → place ≡ length events
            → HasPlaces self.old events → HasPlaces self.new events) }
    {
        let known = self.items.len();
        let before = self.sent.len();
        self.members.reserve(1)?;
        self.counts.reserve(1)?;
        let numbers = note_items_of(alloc, &mut self.items, event.body(), place)?;
        let parent = parent_number(&self.items, event.body());
        match note_rest(
            alloc,
            &mut self.sent,
            &mut self.packed,
            &mut self.ids,
            &mut self.parts,
            event,
            parent,
            numbers.as_slice(),
            place,
        ) {
            Ok(()) => {
                let outs = kept_numbers(alloc, event.body(), numbers);
                self.members.push_reserved(Members { known, outs });
                self.counts.push_reserved(before);
                Ok(())
            }
            Err(_) => {
                self.sent.truncate(before);
                forget_items_of(&mut self.items, event.body(), place, known);
                Err(AllocError)
            }
        }
    }

    /// What is kept of the members of the event at a place.
    pub fn members_at(&self, place: usize) -> Option<&Members>
        ensures { option_map (λ m. m.now) result ≡ slice_get self.now.members.items place }
    {
        self.members.get(place)
    }

    /// What the last event sent that wasn't sent before it, none where there is no event.
    pub fn last_sent(&self) -> &[Sending]
        ensures new { (events : List Content) (e : Content) → HasPlaces self.now (events ++ e ∷ [])
            → AreNewlySent (numbered (events ++ e ∷ [])) events e result.now }
        ensures none { HasPlaces self.now [] → result.now ≡ [] }
    {
        match self.counts.last() {
            Some(before) => self.sent.since(*before),
            None => &[],
        }
    }

    /// Takes away the last event, which stood at a place. Does not allocate.
    pub fn forget(&mut self, event: &Event, place: usize)
        ensures { (events : List Content) → place ≡ length events
            → HasPlaces self.old (events ++ event.now ∷ []) → HasPlaces self.new events }
    {
        let parent = parent_number(&self.items, event.body());
        self.packed.forget(parent, moved_count(event.body()));
        forget_members(&mut self.items, &mut self.members, event, place);
        forget_sent(&mut self.sent, &mut self.counts);
        self.ids.forget(event.id(), place);
        forget_id(&mut self.parts, make_id(event.body()), place);
    }
}

/// Takes away the members of the last event, which stood at a place. Does not allocate.
fn forget_members(items: &mut Items, members: &mut Vec<Members>, event: &Event, place: usize)
    ensures { (events : List Content) → place ≡ length events
        → HasItems items.old members.old.items (events ++ event.now ∷ [])
        → HasItems items.new members.new.items events }
{
    if let Some(own) = members.pop() {
        forget_items_of(items, event.body(), place, own.known);
    }
}

/// Takes away what the last event sent. Does not allocate.
fn forget_sent(sent: &mut Sent, counts: &mut Vec<usize>)
    ensures { (events : List Content) (e : Content)
        → HasSent (events ++ e ∷ []) sent.old counts.old.items
        → HasSent events sent.new counts.new.items }
{
    if let Some(before) = counts.pop() {
        sent.truncate(before);
    }
}

/// Notes what the event that comes at a place sends and what it puts into a parent, which ships, makes or tells of the
/// items of these numbers, and its ids. An `Err` changes no id and puts nothing into anything, and leaves all sendings
/// that were there.
fn note_rest(
    alloc: Global,
    sent: &mut Sent,
    packed: &mut Packed,
    ids: &mut EventIds,
    parts: &mut TextIndex,
    event: &Event,
    parent: Option<usize>,
    numbers: &[usize],
    place: usize,
) -> Result<(), AllocError>
    ensures sent { OnOk result (SendsOn (children_in packed.old) numbers.now
        (Goes sent.old event.now.body parent) sent.old sent.new) }
    ensures front { Extends sent.old sent.new }
    ensures packed { OnOk result ((n : ℕ)
        → children_in packed.new n ≡ children_in packed.old n ++ put_at parent numbers.now n) }
    ensures kept { OnErr result ((n : ℕ) → children_in packed.new n ≡ children_in packed.old n) }
    ensures ok { OnOk result ((events : List Content) → place ≡ length events
        → HasIds ids.old parts.old events → HasIds ids.new parts.new (events ++ event.now ∷ [])) }
    ensures err { OnErr result ((events : List Content) → place ≡ length events
        → HasIds ids.old parts.old events → HasIds ids.new parts.new events) }
{
    sent.note_event(packed, event.body(), parent, numbers)?;
    packed.note(alloc, parent, numbers)?;
    match note_ids(alloc, ids, parts, event, place) {
        Ok(()) => Ok(()),
        Err(_) => {
            packed.forget(parent, numbers.len());
            Err(AllocError)
        }
    }
}

/// Notes the ids of the event that comes at a place. An `Err` changes nothing that can be looked up.
fn note_ids(
    alloc: Global,
    ids: &mut EventIds,
    parts: &mut TextIndex,
    event: &Event,
    place: usize,
) -> Result<(), AllocError>
    ensures ok { OnOk result ((events : List Content) → place ≡ length events
        → HasIds ids.old parts.old events → HasIds ids.new parts.new (events ++ event.now ∷ [])) }
    ensures err { OnErr result ((events : List Content) → place ≡ length events
        → HasIds ids.old parts.old events → HasIds ids.new parts.new events) }
{
    ids.note(alloc, event.id(), place)?;
    match note_id(alloc, parts, make_id(event.body()), place) {
        Ok(()) => Ok(()),
        Err(_) => {
            ids.forget(event.id(), place);
            Err(AllocError)
        }
    }
}
