//! Events in the order in which they came, with the index that is kept of them.
ghost use Rattle.std.specs.Prelude.{◌≡◌, ◌↔◌, ◌++◌, ◌∷◌, [], ◌-◌, ℕ, true, List, Some, IfOk, OnOk, OnErr, length, take, slice_get, option_map};
ghost use Rattle.std.specs.List.{list_any};
ghost use Rattle.event_json.specs.Contents.{same_content};
ghost use Rattle.event_json.specs.Events.{Content};
ghost use Rattle.trace_core.specs.Adding.{standing_among};
ghost use Rattle.trace_core.specs.Groups.{outputs_at};
ghost use Rattle.trace_core.specs.Looks.{one_look, more_looks, LooksAtEach};
ghost use Rattle.trace_core.specs.Numbers.{numbered, number_in, outs_at, AreNumbersOf};
ghost use Rattle.trace_core.specs.Pairs.{make_id, Carries, IsSentTo};
ghost use Rattle.trace_core.specs.PairTests.{lists, same_id};
ghost use Rattle.trace_core.specs.PutIn.{children_at};
ghost use Rattle.trace_core.specs.Relations.{ReachedFrom};
ghost use Rattle.trace_core.specs.Sendings.{AreNewlySent, HasItemOf};
ghost use Rattle.trace_core.specs.SiteSets.{has_site};
ghost use Rattle.trace_core.specs.Places.{at_place, names_item, takes_item, places_where};

use crate::adding::Standing;
use crate::ids::places_of_id;
use crate::indexes::Index;
use crate::looks::{count_look, count_looks};
use crate::sendings::{Sending, Sent};
use crate::site_sets::SiteSet;
use epc_core::Epc;
use event_json::{Event, PlainText, SiteNo};
use std::alloc::{AllocError, Global};
use std::hash::RandomState;
use std::marker::Model;

/// Events in the order in which they came, and an index of what they name.
#[derive(Debug, Drop)]
pub struct Book {
    events: Vec<Event>,
    index: Index,
}

impl Model for Book {
    ghost use Rattle.std.specs.Prelude.{List};
    ghost use Rattle.event_json.specs.Events.{Content};
    ghost use Rattle.trace_core.specs.Indexes.{HasPlaces};

    ghost Value = { List Content };

    ghost view = { λ b. b.events.items };

    ghost invariant = { λ b. HasPlaces b.index b.events.items };
}

impl Book {
    /// No events, with the keys of the hash by which items and ids are looked up, drawn at random, so that nobody can
    /// choose texts that collide. Does not allocate.
    pub fn new(alloc: Global, keys: RandomState) -> Book
        ensures { result ≡ [] }
    {
        Book {
            events: Vec::new(alloc),
            index: Index::new(alloc, keys),
        }
    }

    /// How many events there are.
    pub fn len(&self) -> usize
        ensures { result ≡ length self.now }
    {
        self.events.len()
    }

    /// The event at a place.
    pub fn get(&self, place: usize) -> Option<&Event>
        ensures { option_map (λ e. e.now) result ≡ slice_get self.now place }
    {
        self.events.get(place)
    }

    /// What memory is allocated from.
    pub fn alloc(&self) -> Global {
        *self.events.allocator()
    }

    /// Adds an event at the end. An `Err` changes nothing: what was added is taken away again.
    pub fn push(&mut self, event: Event) -> Result<(), AllocError>
        ensures ok { OnOk result (self.new ≡ self.old ++ event ∷ []) }
        ensures err { OnErr result (self.new ≡ self.old) }
    {
        let alloc = self.alloc();
        self.events.reserve(1)?;
        self.index.note(alloc, &event, self.events.len())?;
        self.events.push_reserved(event);
        Ok(())
    }

    /// Leaves the first events alone. Does not allocate.
    pub fn truncate(&mut self, kept: usize)
        ensures { self.new ≡ take kept self.old }
    {
        while kept < self.len() {
            self.pop();
        }
    }

    /// Takes the last event away. Does not allocate.
    fn pop(&mut self)
        ensures { self.new ≡ take (length self.old - 1) self.old }
    {
        if let Some(event) = self.events.pop() {
            self.index.forget(&event, self.events.len());
        }
    }

    /// The number of an item that an event names, in the order in which items are first named.
    pub fn number_of(&self, item: &Epc) -> Option<usize>
        ensures { result ≡ number_in (numbered self.now) item.now }
    {
        self.index.items.number(item)
    }

    /// The item of a number.
    pub fn item(&self, number: usize) -> Option<&Epc>
        ensures { option_map (λ i. i.now) result ≡ slice_get (numbered self.now) number }
    {
        self.index.items.name(number)
    }

    /// How many items events name.
    pub fn item_count(&self) -> usize
        ensures { result ≡ length (numbered self.now) }
    {
        self.index.items.len()
    }

    /// The places of the transformations that take the item of a number in, ascending. It is one look.
    pub fn takers_at(&self, number: usize, looks: &mut u64) -> &[usize]
        ensures takers { (i : List ℕ) → slice_get (numbered self.now) number ≡ Some i
            → result.now ≡ places_where (takes_item i) self.now }
        ensures counted { looks.new ≡ one_look looks.old }
    {
        count_look(looks);
        self.index.items.places_at(number)
    }

    /// The places of the transformations that take an item in, ascending; none if it isn't known.
    pub fn takers_of(&self, item: &Epc) -> &[usize]
        ensures { result.now ≡ places_where (takes_item item.now) self.now }
    {
        self.index.items.places_of(item)
    }

    /// The sites that the item of a number was sent to.
    pub fn sites_at(&self, number: usize) -> SiteSet
        ensures { (i : List ℕ) → slice_get (numbered self.now) number ≡ Some i → (t : ℕ)
            → has_site result t ≡ true ↔ IsSentTo self.now i t }
    {
        self.index.sent.sites_of(number)
    }

    /// The sites that an item was sent to, none if it isn't known.
    pub fn sites_of(&self, item: &Epc) -> SiteSet
        ensures { (t : ℕ) → has_site result t ≡ true ↔ IsSentTo self.now item.now t }
    {
        match self.number_of(item) {
            Some(number) => self.sites_at(number),
            None => SiteSet::new(),
        }
    }

    /// What the last event sent that wasn't sent before it, none where there is no event.
    pub fn last_sent(&self) -> &[Sending]
        ensures new { (before : List Content) (e : Content) → self.now ≡ before ++ e ∷ []
            → AreNewlySent (numbered self.now) before e result.now }
        ensures none { self.now ≡ [] → result.now ≡ [] }
    {
        self.index.last_sent()
    }

    /// The numbers of the known ones of some items, and of all that lies in these, as sendings to a site.
    pub fn carried_with(&self, site: SiteNo, items: &[Epc]) -> Result<Sent, AllocError>
        ensures { IfOk result (λ found. (i : List ℕ) → HasItemOf self.now found i
            ↔ ((lists (numbered self.now) i ≡ true) × ReachedFrom (Carries self.now) items.now i)) }
    {
        let numbers = self.known_numbers(items)?;
        let mut found = Sent::new(self.alloc());
        found.note_at(&numbers, site)?;
        found.follow(&self.index.packed, 0)?;
        Ok(found)
    }

    /// The numbers of the known ones of some items.
    fn known_numbers(&self, items: &[Epc]) -> Result<Vec<usize>, AllocError>
        ensures { IfOk result (λ numbers. AreNumbersOf
            (numbered self.now) items.now numbers.items) }
    {
        let mut numbers = Vec::new(self.alloc());
        for item in items {
            if let Some(number) = self.number_of(item) {
                numbers.push(number)?;
            }
        }
        Ok(numbers)
    }

    /// The numbers of what events put into the item of a number, in order.
    pub fn children_at(&self, number: usize) -> &[usize]
        ensures { result.now ≡ children_at (numbered self.now) self.now
            (slice_get (numbered self.now) number) }
    {
        self.index.packed.children_of(number)
    }

    /// The keys of the hash by which items and ids are looked up.
    pub fn hash_keys(&self) -> RandomState {
        self.index.items.keys()
    }

    /// The numbers of the outputs of the event at a place, none where there is no transformation. Each is a look.
    pub fn outs_at(&self, place: usize, looks: &mut u64) -> &[usize]
        ensures outs { result.now ≡ outs_at self.now (slice_get self.now place) }
        ensures counted { looks.new ≡ more_looks (outputs_at (slice_get self.now place)) looks.old }
        ensures each { LooksAtEach (outputs_at (slice_get self.now place)) looks.old looks.new }
    {
        let outs = self.kept_outs(place);
        count_looks(looks, outs.len());
        outs
    }

    /// The numbers that are kept of the outputs of the event at a place.
    fn kept_outs(&self, place: usize) -> &[usize]
        ensures { result.now ≡ outs_at self.now (slice_get self.now place) }
    {
        match self.index.members_at(place) {
            Some(members) => members.outs.as_slice(),
            None => &[],
        }
    }

    /// The places of the transformations that have an id, ascending; none where there is no id.
    pub fn parts_of(&self, id: Option<&PlainText>) -> &[usize]
        ensures { result.now ≡ places_where (λ e.
            same_id (make_id e.body) (option_map (λ t. t.now) id.entry)) self.now }
    {
        places_of_id(&self.index.parts, id)
    }

    /// How an event stands among these. Does not allocate.
    pub fn standing(&self, event: &Event) -> Standing
        ensures { result ≡ standing_among self.now event.now }
    {
        let places = self.index.ids.alike(event.id());
        if !self.is_named_at(places, event) {
            Standing::Fresh
        } else if self.is_among(places, event) {
            Standing::Known
        } else {
            Standing::Taken
        }
    }

    /// Whether an event with the same eventID stands at one of the places.
    fn is_named_at(&self, places: &[usize], event: &Event) -> bool
        ensures { result ≡ list_any (λ k. at_place (λ e. same_id e.id event.now.id)
            (slice_get self.now k)) places.now }
    {
        places.iter().any(|place| self.has_id_at(*place, event))
    }

    /// Whether an event with the same eventID stands at a place.
    fn has_id_at(&self, place: usize, event: &Event) -> bool
        ensures { result ≡ at_place (λ e. same_id e.id event.now.id) (slice_get self.now place) }
    {
        match self.get(place) {
            Some(own) => are_same_id(own.id(), event.id()),
            None => false,
        }
    }

    /// Whether an equal event stands at one of the places.
    fn is_among(&self, places: &[usize], event: &Event) -> bool
        ensures { result ≡ list_any (λ k. at_place (λ e. same_content e event.now)
            (slice_get self.now k)) places.now }
    {
        places.iter().any(|place| self.is_at(*place, event))
    }

    /// Whether an equal event stands at a place.
    fn is_at(&self, place: usize, event: &Event) -> bool
        ensures { result ≡ at_place (λ e. same_content e event.now) (slice_get self.now place) }
    {
        match self.get(place) {
            Some(own) => *own == *event,
            None => false,
        }
    }

    /// Whether an event names the item, which has a number then. Does not allocate.
    pub fn mentions(&self, item: &Epc) -> bool
        ensures { result ≡ list_any (names_item item.now) self.now }
    {
        self.number_of(item).is_some()
    }

    /// An equal book, with the same keys.
    pub fn copy(&self, alloc: Global) -> Result<Book, AllocError>
        ensures { IfOk result (λ b. b ≡ self.now) }
    {
        let mut copy = Book::new(alloc, self.index.items.keys());
        for event in &self.events {
            copy.push(event.copy(alloc)?)?;
        }
        Ok(copy)
    }
}

/// Whether both are eventIDs, and the same.
fn are_same_id(one: Option<&PlainText>, other: Option<&PlainText>) -> bool
    ensures { result ≡ same_id (option_map (λ t. t.now) one.entry)
        (option_map (λ t. t.now) other.entry) }
{
    match (one, other) {
        (Some(one), Some(other)) => *one == *other,
        _ => false,
    }
}
