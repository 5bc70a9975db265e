//! Places outside the traced sites, and which events of a site ship there.
ghost use Rattle.std.specs.Prelude.{◌≡◌, IfOk, OnOk, Some, refl, nat_eq};
ghost use Rattle.std.specs.Cmp as Cmp;
ghost use Rattle.std.specs.Cmp.Lexicographic.{slice_cmp, pointwise, nat_list_cmp_total, nat_list_eq_equiv, texts_ties, texts_po};
ghost use Rattle.std.specs.Ordering.{nat_cmp};
ghost use Rattle.gap_core.specs.Adding.{AddsTo, ByOne};
ghost use Rattle.gap_core.specs.Shipments.{GoesOutside};
ghost use Rattle.gap_core.specs.Batches.{KeepsPlace, AreOutside, IsOutsideAt};

use crate::places::Places;
use event_json::{Body, PlainText};
use std::alloc::{AllocError, Global};
use std::cmp::Ordering;
use std::collections::BTreeMap;
use std::marker::Model;
use trace_core::Captured;

/// A place outside the traced sites, as a shipment names it. Contracts see it as its bytes, and it is ordered by them.
#[derive(Debug, Drop)]
pub struct Destination {
    text: PlainText,
}

impl Model for Destination {
    ghost use Rattle.std.specs.Prelude.{List, ℕ};

    ghost Value = { List ℕ };

    ghost view = { λ d. d.text };
}

impl Destination {
    /// The place of a text. Does not allocate.
    fn of(text: PlainText) -> Destination
        ensures { result ≡ text }
    {
        Destination { text }
    }

    /// The text that names it.
    pub fn as_str(&self) -> &str
        ensures { result.now ≡ self.now }
    {
        self.text.as_str()
    }

    /// An equal place.
    pub fn copy(&self, alloc: Global) -> Result<Destination, AllocError>
        ensures { IfOk result (λ d. d ≡ self.now) }
    {
        Ok(Destination {
            text: self.text.copy(alloc)?,
        })
    }
}

impl PartialEq for Destination {
    ghost eq = { pointwise nat_eq };

    ghost laws = { Cmp.partial_equiv_from_equiv nat_list_eq_equiv };

    fn eq(&self, other: &Destination) -> bool {
        self.text == other.text
    }
}

impl Eq for Destination {
    ghost laws = { nat_list_eq_equiv };
}

impl PartialOrd for Destination {
    ghost partial_cmp = { λ x y. Some (slice_cmp nat_cmp x y) };

    ghost laws = { texts_po };

    fn partial_cmp(&self, other: &Destination) -> Option<Ordering> {
        Some(self.cmp(other))
    }
}

impl Ord for Destination {
    ghost cmp = { slice_cmp nat_cmp };

    ghost total = { nat_list_cmp_total };

    ghost matches_partial_cmp = { λ x y. refl };

    ghost matches_eq = { texts_ties };

    fn cmp(&self, other: &Destination) -> Ordering {
        self.text.as_str().cmp(other.text.as_str())
    }
}

/// By place outside the traced sites the events of a site that ship there.
pub type Outside = BTreeMap<Destination, Places>;

/// By place outside the traced sites the events of a site that ship there.
pub fn outside_of(alloc: Global, site: &Captured) -> Result<Outside, AllocError>
    ensures { IfOk result (AreOutside site.now.events) }
{
    let mut outside = BTreeMap::new(alloc);
    for place in 0..site.len() {
        note_event(alloc, site, place, &mut outside)?;
    }
    Ok(outside)
}

/// Notes the event at a place under each place outside to which it ships.
fn note_event(
    alloc: Global,
    site: &Captured,
    place: usize,
    outside: &mut Outside,
) -> Result<(), AllocError>
    ensures { OnOk result (AddsTo (KeepsPlace outside.old) (KeepsPlace outside.new)
        (IsOutsideAt site.now.events place)) }
{
    match site.event(place) {
        Some(event) => note_body(alloc, event.body(), place, outside),
        None => Ok(()),
    }
}

/// Notes an event under each place outside to which it ships.
fn note_body(
    alloc: Global,
    body: &Body,
    place: usize,
    outside: &mut Outside,
) -> Result<(), AllocError>
    ensures { OnOk result (AddsTo (KeepsPlace outside.old) (KeepsPlace outside.new)
        (λ m. GoesOutside m.0 body.now × (place ≡ m.1))) }
{
    match body {
        Body::Ship { outside: texts, .. } => note_texts(alloc, texts.as_slice(), place, outside),
        Body::Note { .. } | Body::Make { .. } | Body::Pack { .. } => Ok(()),
    }
}

/// Notes an event under each of some places outside.
fn note_texts(
    alloc: Global,
    texts: &[PlainText],
    place: usize,
    outside: &mut Outside,
) -> Result<(), AllocError>
    ensures { OnOk result (AddsTo (KeepsPlace outside.old) (KeepsPlace outside.new)
        (ByOne texts.now (λ text m. (text ≡ m.0) × (place ≡ m.1)))) }
{
    for text in texts {
        note_text(alloc, text, place, outside)?;
    }
    Ok(())
}

/// Notes an event under the text of a place outside.
fn note_text(
    alloc: Global,
    text: &PlainText,
    place: usize,
    outside: &mut Outside,
) -> Result<(), AllocError>
    ensures { OnOk result (AddsTo (KeepsPlace outside.old) (KeepsPlace outside.new)
        (λ m. (text.now ≡ m.0) × (place ≡ m.1))) }
{
    let destination = Destination::of(text.copy(alloc)?);
    note(alloc, destination, place, outside)
}

/// Notes an event under a place outside.
fn note(
    alloc: Global,
    destination: Destination,
    place: usize,
    outside: &mut Outside,
) -> Result<(), AllocError>
    ensures { OnOk result (AddsTo (KeepsPlace outside.old) (KeepsPlace outside.new)
        (λ m. (destination ≡ m.0) × (place ≡ m.1))) }
{
    if let Some(places) = outside.get_mut(&destination) {
        return places.push(place);
    }
    let places = Places::one(alloc, place)?;
    outside.insert(destination, places)?;
    Ok(())
}
