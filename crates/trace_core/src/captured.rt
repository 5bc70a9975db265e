//! The events that a site has captured, and what they relate.
ghost use Rattle.std.specs.Prelude.{◌≡◌, ◌↔◌, ◌<◌, ◌++◌, ◌∷◌, ℕ, List, [], Ok, IfOk, IfErr, OnOk, OnErr, IsTrue, Any, AllPairs, Contains, length, take, slice_get, option_map};
ghost use Rattle.trace_core.specs.declared.pairs.Pair.{Pair};
ghost use Rattle.event_json.specs.Events.{Content};
ghost use Rattle.trace_core.specs.Adding.{standing_among, with_fresh, adding, FaultOf};
ghost use Rattle.trace_core.specs.Groups.{first_of};
ghost use Rattle.trace_core.specs.Numbers.{numbered};
ghost use Rattle.trace_core.specs.Pairs.{IsRelated, IsSentTo, IsShipped, IsStrictlyAscending};
ghost use Rattle.trace_core.specs.Places.{IsPartAt};
ghost use Rattle.trace_core.specs.Sendings.{AreNewlySent};
ghost use Rattle.trace_core.specs.Spreads.{items_of};

use crate::adding::{AddFault, Added, Standing, add_if_fresh, append_fresh};
use crate::books::Book;
use crate::gathering::gather_at_sites;
use crate::groups::first_part;
use crate::ordered_keys::keys_in_order;
use crate::pairs::Pair;
use crate::seen::Seen;
use crate::sendings::Sending;
use crate::targets::unseen_targets;
use epc_core::Epc;
use event_json::{Event, PlainText, Sequence, SiteNo};
use std::alloc::{AllocError, Global};
use std::collections::BTreeSet;
use std::hash::RandomState;
use std::marker::Model;

/// The events that a site has captured, in the order in which they came.
#[derive(Debug)]
pub struct Captured {
    me: SiteNo,
    book: Book,
}

// It is written out, so that a caller does not prove again how events and their index are dropped.
impl Drop for Captured {
    fn drop(self) {
        let Captured { me: _, book: _ } = self;
    }
}

impl Model for Captured {
    ghost use Rattle.trace_core.specs.Sites.{SiteEvents};

    ghost Value = { SiteEvents };

    ghost view = { λ c. record { me = c.me; events = c.book } };
}

impl Captured {
    /// A site without events, with the keys of the hash by which items and ids are looked up, drawn at random, so that
    /// nobody can choose texts that collide. Does not allocate.
    pub fn new(alloc: Global, keys: RandomState, me: SiteNo) -> Captured
        ensures { result ≡ record { me = me; events = [] } }
    {
        let book = Book::new(alloc, keys);
        Captured { me, book }
    }

    /// The site's own number.
    pub fn me(&self) -> SiteNo
        ensures { result ≡ self.now.me }
    {
        self.me
    }

    /// How many events were captured.
    pub fn len(&self) -> usize
        ensures { result ≡ length self.now.events }
    {
        self.book.len()
    }

    /// The event at a place, from 0, in the order in which they were captured.
    pub fn event(&self, place: usize) -> Option<&Event>
        ensures { option_map (λ e. e.now) result ≡ slice_get self.now.events place }
    {
        self.book.get(place)
    }

    /// Whether one of the captured events names the item. Does not allocate.
    pub fn mentions(&self, item: &Epc) -> bool
        ensures { IsTrue result ↔ Any (λ e. Contains (items_of e.body) item.now) self.now.events }
    {
        self.book.mentions(item)
    }

    /// How an event stands among the captured ones. Does not allocate.
    pub fn standing(&self, event: &Event) -> Standing
        ensures { result ≡ standing_among self.now.events event.now }
    {
        self.book.standing(event)
    }

    /// Adds one event if it is fresh, and returns how it stood.
    ///
    /// # Errors
    /// Out of memory. Nothing is changed then.
    pub fn add_event(&mut self, event: Event) -> Result<Standing, AllocError>
        ensures standing { IfOk result (λ standing.
            standing ≡ standing_among self.old.events event) }
        ensures ok { IfOk result (λ standing.
            self.new ≡ record self.old { events = with_fresh self.old.events event standing }) }
        ensures unchanged { OnErr result (self.new ≡ self.old) }
    {
        add_if_fresh(&mut self.book, event)
    }

    /// Adds an event at the end, whatever its eventID: for events that were captured before, and are
    /// read back from elsewhere.
    ///
    /// # Errors
    /// Out of memory. Nothing is changed then.
    pub fn restore_event(&mut self, event: Event) -> Result<(), AllocError>
        ensures ok { OnOk result (self.new
            ≡ record self.old { events = self.old.events ++ event ∷ [] }) }
        ensures unchanged { OnErr result (self.new ≡ self.old) }
    {
        self.book.push(event)
    }

    /// Takes back the last events, all but the first `kept`. Does not allocate.
    pub fn truncate(&mut self, kept: usize)
        ensures { self.new ≡ record self.old { events = take kept self.old.events } }
    {
        self.book.truncate(kept);
    }

    /// Adds the events of a document, whole or not at all. Each is judged by those that stand before
    /// it, earlier ones of the document among them: it is fresh, and kept, where it has no eventID or
    /// a new one; it is known, and changes nothing, where one with equal content stands (GS1 EPCIS
    /// 2.0, section 7.4: the eventID names one event).
    ///
    /// # Errors
    /// `IdTaken` at the first event whose eventID stands with other content, and `NoMemory`. Nothing
    /// is changed then.
    pub fn add(&mut self, events: Sequence<Event>) -> Result<Added, AddFault>
        // A document is captured whole, with its numbers of new and known events; or the place of the first event whose
        // eventID is taken is returned, and nothing changes.
        // Not covered: what adding one event leaves (`with_fresh`) has no law.
        ensures ok { IfOk result (λ added. adding self.old.events events
            ≡ Ok (record { events = self.new.events; fresh = added.fresh; known = added.known })) }
        ensures fault { IfErr result (λ fault. FaultOf (adding self.old.events events) fault) }
        ensures unchanged { OnErr result (self.new ≡ self.old) }
        ensures same_site { self.new.me ≡ self.old.me }
    {
        let before = self.book.len();
        match append_fresh(&mut self.book, events.into_vec()) {
            Ok(added) => Ok(added),
            Err(fault) => {
                self.book.truncate(before);
                Err(fault)
            }
        }
    }

    /// The pairs that an item at this site is related to, ascending and without repeats: the item at
    /// each other site that it was shipped to, and at this site each output of a transformation that
    /// took it in, or of one with the same transformationID (GS1 EPCIS 2.0, section 7.4).
    pub fn related(&self, item: &Epc) -> Result<Vec<Pair>, AllocError>
        // Not covered: the order of pairs (`pair_cmp`) stands by its own words.
        ensures ascending { IfOk result (λ pairs. IsStrictlyAscending pairs.items) }
        ensures exact { IfOk result (λ pairs. (p : Pair) → Contains pairs.items p
            ↔ IsRelated self.now item.now p) }
    {
        let alloc = self.book.alloc();
        let pair = Pair {
            site: self.me(),
            item: item.copy(alloc)?,
        };
        unseen_targets(alloc, &[self], &pair, &mut Seen::new(alloc))
    }

    /// The pairs at other sites that an item at this site is related to, ascending and without repeats:
    /// the item at each other site that it was shipped to.
    pub fn shipped(&self, item: &Epc) -> Result<Vec<Pair>, AllocError>
        // Not covered: what it costs.
        ensures ascending { IfOk result (λ pairs. IsStrictlyAscending pairs.items) }
        ensures exact { IfOk result (λ pairs. (p : Pair)
            → Contains pairs.items p ↔ IsShipped self.now item.now p) }
    {
        let alloc = self.book.alloc();
        let mut shipped = BTreeSet::new(alloc);
        let sites = self.book.sites_of(item);
        gather_at_sites(alloc, self.me, item, sites, &mut shipped)?;
        keys_in_order(alloc, shipped)
    }

    /// Whether an item was sent to a site, by itself or with what it lies in. Does not allocate.
    pub fn sent_to(&self, item: &Epc, site: SiteNo) -> bool
        ensures { IsTrue result ↔ IsSentTo self.now.events item.now site }
    {
        self.book.sites_of(item).has(site)
    }

    /// The place that stands for the transformation of the event at a place: that of the first captured one with
    /// its transformationID, and its own where it has none. Does not allocate.
    pub fn first_part(&self, place: usize) -> Option<usize>
        ensures { result ≡ option_map (λ e. first_of self.now.events place e.body)
            (slice_get self.now.events place) }
    {
        let event = self.book.get(place)?;
        Some(first_part(&self.book, place, event.body()))
    }

    /// The places of the captured parts of a transformation: of the transformations that have this
    /// transformationID, ascending.
    pub fn parts_of(&self, id: &PlainText) -> Result<Vec<usize>, AllocError>
        ensures ascending { IfOk result (λ places. AllPairs (λ j k. j < k) places.items) }
        ensures exact { IfOk result (λ places. (k : ℕ) → Contains places.items k
            ↔ IsPartAt self.now.events id.now k) }
    {
        let alloc = self.book.alloc();
        copy_places(alloc, self.book.parts_of(Some(id)))
    }

    /// What the last event sent that wasn't sent before it, none where there is no event: the numbers of the items that
    /// it ships, or puts into what was sent somewhere, and of all that lies in them, each with a site.
    pub fn last_sent(&self) -> &[Sending]
        // Not covered: that an event costs what it newly sends; in which order, and that none is told twice.
        ensures new { (before : List Content) (e : Content) → self.now.events ≡ before ++ e ∷ []
            → AreNewlySent (numbered self.now.events) before e result.now }
        ensures none { self.now.events ≡ [] → result.now ≡ [] }
    {
        self.book.last_sent()
    }

    /// The item of a number, in the order in which items are first named.
    pub fn item(&self, number: usize) -> Option<&Epc>
        ensures { option_map (λ i. i.now) result ≡ slice_get (numbered self.now.events) number }
    {
        self.book.item(number)
    }

    /// The events, and the index of what they name.
    pub(crate) fn book(&self) -> &Book
        ensures { result.now ≡ self.now.events }
    {
        &self.book
    }

    /// What the site's memory is allocated from.
    pub(crate) fn alloc(&self) -> Global {
        self.book.alloc()
    }

    /// An equal site.
    pub fn copy(&self, alloc: Global) -> Result<Captured, AllocError>
        ensures { IfOk result (λ c. c ≡ self.now) }
    {
        Ok(Captured {
            me: self.me,
            book: self.book.copy(alloc)?,
        })
    }
}

/// The same places.
fn copy_places(alloc: Global, places: &[usize]) -> Result<Vec<usize>, AllocError>
    ensures { IfOk result (λ copies. copies.items ≡ places.now) }
{
    places.to_vec(alloc)
}
