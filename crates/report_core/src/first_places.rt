//! The first of those events that pass a test.
ghost use Rattle.std.specs.Prelude.{◌≡◌, ◌↔◌, ◌⊎◌, ◌≤◌, ℕ, Contains, IfOk, IsTrue, OnOk, Some};
ghost use Rattle.std.specs.Ordering.{nat_cmp};
ghost use Rattle.trace_core.specs.Pairs.{HaveOneId, make_id};
ghost use Rattle.trace_core.specs.PutIn.{filled};
ghost use Rattle.report_core.specs.TrailEvents.{AreOfOneMake, IsFirstOrNone, StandsAt};
ghost use Rattle.trace_core.specs.Searches.{IsFound};
ghost use Rattle.report_core.specs.FirstPlaces.{Goes, IsGroupAt, IsOfOne, IsOneOf};
ghost use Rattle.report_core.specs.Leaving.{LeavesFor};
ghost use Rattle.report_core.specs.Sources.{AddsTo, ByOne};
ghost use Rattle.report_core.specs.declared.makers.EventPlace.{EventPlace};

use crate::containers::filled;
use crate::destinations::Destination;
use crate::makers::EventPlace;
use crate::sources::id_of;
use epc_core::Epc;
use event_json::{Body, PlainText, SiteNo};
use std::alloc::{AllocError, Global};
use std::collections::BTreeSet;
use trace_core::Captured;

/// A test of the event at a place.
pub trait PlaceTest {
    /// What is tested.
    ghost holds: { Self → EventPlace → Type 0 };

    /// Whether it holds. Does not allocate.
    fn test(&self, place: EventPlace) -> bool
        ensures { IsTrue result ↔ holds self.now place };
}

/// The first place, at the site, of those at which the test holds. Looks at each place once.
pub fn first_where<T: PlaceTest>(test: &T, places: &[EventPlace]) -> Option<usize>
    ensures { IsFirstOrNone (IsOneOf (T.holds test.now) places.now) result }
{
    let mut first = None;
    for place in places {
        if test.test(*place) {
            first = Some(lower(first, place.event));
        }
    }
    first
}

/// The lower one of two places, the second one where there is no first.
fn lower(first: Option<usize>, place: usize) -> usize
    ensures most { result ≤ place }
    ensures before { (n : ℕ) → first ≡ Some n → result ≤ n }
    ensures one { (result ≡ place) ⊎ (first ≡ Some result) }
{
    match first {
        Some(before) => { if before < place { before } else { place } }
        None => place,
    }
}

/// Whether a shipment of the site at a place among all goes to another site.
#[derive(Drop)]
pub struct GoesTo<'a> {
    pub site: &'a Captured,
    pub number: usize,
    pub to: SiteNo,
}

impl PlaceTest for GoesTo<'_> {
    ghost use Rattle.std.specs.Prelude.{◌≡◌};
    ghost use Rattle.report_core.specs.TrailEvents.{StandsAt};
    ghost use Rattle.report_core.specs.FirstPlaces.{Goes};

    ghost holds = { λ t p. (t.number ≡ p.site) × StandsAt t.site.now.events (Goes t.to) p.event };

    fn test(&self, place: EventPlace) -> bool {
        self.number == place.site && goes_at(self.site, place.event, self.to)
    }
}

/// Whether the event at a place is a shipment to a site.
fn goes_at(site: &Captured, place: usize, to: SiteNo) -> bool
    ensures { IsTrue result ↔ StandsAt site.now.events (Goes to) place }
{
    match site.event(place) {
        Some(event) => goes(event.body(), to),
        None => false,
    }
}

/// Whether an event is a shipment to a site.
fn goes(body: &Body, to: SiteNo) -> bool
    ensures { IsTrue result ↔ Goes to body.now }
{
    match body {
        Body::Ship { sites, .. } => sites.as_slice().contains(&to),
        Body::Note { .. } | Body::Make { .. } | Body::Pack { .. } => false,
    }
}

/// Whether a shipment of the site at a place among all goes to a place outside the traced sites.
#[derive(Drop)]
pub struct GoesOut<'a> {
    pub site: &'a Captured,
    pub number: usize,
    pub destination: &'a Destination,
}

impl PlaceTest for GoesOut<'_> {
    ghost use Rattle.std.specs.Prelude.{◌≡◌};
    ghost use Rattle.report_core.specs.TrailEvents.{StandsAt};
    ghost use Rattle.report_core.specs.Leaving.{LeavesFor};

    ghost holds = { λ t p. (t.number ≡ p.site) × StandsAt t.site.now.events (LeavesFor t.destination.now) p.event };

    fn test(&self, place: EventPlace) -> bool {
        self.number == place.site && leaves_at(self.site, place.event, self.destination)
    }
}

/// Whether the event at a place is a shipment to a destination.
fn leaves_at(site: &Captured, place: usize, destination: &Destination) -> bool
    ensures { IsTrue result ↔ StandsAt site.now.events (LeavesFor destination.now) place }
{
    match site.event(place) {
        Some(event) => leaves_for(event.body(), destination),
        None => false,
    }
}

/// Whether an event is a shipment to a destination.
fn leaves_for(body: &Body, destination: &Destination) -> bool
    ensures { IsTrue result ↔ LeavesFor destination.now body.now }
{
    match body {
        Body::Ship { outside, .. } => names(outside.as_slice(), destination.text()),
        Body::Note { .. } | Body::Make { .. } | Body::Pack { .. } => false,
    }
}

/// Whether a text is one of some.
fn names(texts: &[PlainText], text: &PlainText) -> bool
    ensures { IsTrue result ↔ Contains texts.now text.now }
{
    texts.contains(text)
}

/// Whether an event of the site at a place among all puts something into an item.
#[derive(Drop)]
pub struct PutsInto<'a> {
    pub site: &'a Captured,
    pub number: usize,
    pub into: &'a Epc,
}

impl PlaceTest for PutsInto<'_> {
    ghost use Rattle.std.specs.Prelude.{◌≡◌, Some};
    ghost use Rattle.trace_core.specs.PutIn.{filled};
    ghost use Rattle.report_core.specs.TrailEvents.{StandsAt};

    ghost holds = { λ t p. (t.number ≡ p.site)
        × StandsAt t.site.now.events (λ b. filled b ≡ Some t.into.now) p.event };

    fn test(&self, place: EventPlace) -> bool {
        self.number == place.site && fills_at(self.site, place.event, self.into)
    }
}

/// Whether the event at a place puts something into an item.
fn fills_at(site: &Captured, place: usize, into: &Epc) -> bool
    ensures { IsTrue result ↔ StandsAt site.now.events (λ b. filled b ≡ Some into.now) place }
{
    match site.event(place) {
        Some(event) => fills(event.body(), into),
        None => false,
    }
}

/// Whether an event puts something into an item.
fn fills(body: &Body, into: &Epc) -> bool
    ensures { IsTrue result ↔ (filled body.now ≡ Some into.now) }
{
    match filled(body) {
        Some(item) => item == into,
        None => false,
    }
}

/// Whether it is this place.
#[derive(Drop)]
pub struct IsPlace {
    pub place: EventPlace,
}

impl PlaceTest for IsPlace {
    ghost use Rattle.std.specs.Prelude.{◌≡◌};

    ghost holds = { λ t p. (t.place.site ≡ p.site) × (t.place.event ≡ p.event) };

    fn test(&self, place: EventPlace) -> bool {
        self.place.site == place.site && self.place.event == place.event
    }
}

/// Whether an event of the site at a place among all is a part of the transformation of one of its events.
#[derive(Drop)]
pub struct JoinedWith<'a> {
    pub site: &'a Captured,
    pub number: usize,
    pub event: usize,
}

impl PlaceTest for JoinedWith<'_> {
    ghost use Rattle.std.specs.Prelude.{◌≡◌};
    ghost use Rattle.report_core.specs.TrailEvents.{AreOfOneMake};

    ghost holds = { λ t p. (t.number ≡ p.site) × AreOfOneMake t.site.now.events t.event p.event };

    fn test(&self, place: EventPlace) -> bool {
        self.number == place.site && are_of_one_make(self.site, self.event, place.event)
    }
}

/// Whether the events at two places are one, or parts of one transformation.
fn are_of_one_make(site: &Captured, one: usize, other: usize) -> bool
    ensures { IsTrue result ↔ AreOfOneMake site.now.events one other }
{
    one == other || have_one_id_at(site, one, other)
}

/// Whether the events at two places are transformations with one id.
fn have_one_id_at(site: &Captured, one: usize, other: usize) -> bool
    ensures { IsTrue result ↔ StandsAt site.now.events
        (λ b. StandsAt site.now.events (λ c. HaveOneId (make_id b) (make_id c)) other) one }
{
    let Some(event) = site.event(one) else {
        return false;
    };
    let Some(part) = site.event(other) else {
        return false;
    };
    have_one_id(event.body(), part.body())
}

/// Whether two events are transformations with one id.
fn have_one_id(one: &Body, other: &Body) -> bool
    ensures { IsTrue result ↔ HaveOneId (make_id one.now) (make_id other.now) }
{
    match id_of(one) {
        Some(id) => {
            match id_of(other) {
                Some(same) => id == same,
                None => false,
            }
        }
        None => false,
    }
}

/// Whether an event of the site at a place among all is a part of one of some transformations, which are told by the
/// places of their first parts.
#[derive(Drop)]
pub struct OfOne<'a> {
    pub site: &'a Captured,
    pub number: usize,
    pub firsts: &'a BTreeSet<usize>,
}

impl PlaceTest for OfOne<'_> {
    ghost use Rattle.std.specs.Prelude.{◌≡◌};
    ghost use Rattle.report_core.specs.FirstPlaces.{IsOfOne};

    ghost holds = { λ t p. (t.number ≡ p.site) × IsOfOne t.site.now.events t.firsts.now p.event };

    fn test(&self, place: EventPlace) -> bool {
        self.number == place.site && is_of_one(self.site, self.firsts, place.event)
    }
}

/// Whether the event at a place is a part of one of the transformations that have their first parts at these places.
fn is_of_one(site: &Captured, firsts: &BTreeSet<usize>, place: usize) -> bool
    ensures { IsTrue result ↔ IsOfOne site.now.events firsts.now place }
{
    match site.first_part(place) {
        Some(first) => firsts.contains(&first),
        None => false,
    }
}

/// The first parts of the transformations that those of the events at some places are parts of which are the site's.
pub fn firsts_of(
    alloc: Global,
    site: &Captured,
    number: usize,
    places: &[EventPlace],
) -> Result<BTreeSet<usize>, AllocError>
    ensures { IfOk result (λ firsts. (n : ℕ) → IsFound nat_cmp firsts n
        ↔ ByOne places.now (IsGroupAt site.now.events number) n) }
{
    let mut firsts = BTreeSet::new(alloc);
    for place in places {
        note_first(site, number, *place, &mut firsts)?;
    }
    Ok(firsts)
}

/// Notes the first part of the transformation of the event at a place, if it is one of the site.
fn note_first(
    site: &Captured,
    number: usize,
    place: EventPlace,
    firsts: &mut BTreeSet<usize>,
) -> Result<(), AllocError>
    ensures { OnOk result (AddsTo (IsFound nat_cmp firsts.old) (IsFound nat_cmp firsts.new)
        (IsGroupAt site.now.events number place)) }
{
    if place.site != number {
        return Ok(());
    }
    if let Some(first) = site.first_part(place.event) {
        firsts.insert(first)?;
    }
    Ok(())
}
