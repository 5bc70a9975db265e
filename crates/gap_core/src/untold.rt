//! Shipments out of the traced sites that no recall's report tells.
ghost use Rattle.std.specs.Prelude.{◌≡◌, ◌↔◌, ◌<◌, IfOk, OnOk, IsTrue, Contains, length};
ghost use Rattle.std.specs.BTreeMap.{IsOrdered};
ghost use Rattle.std.specs.List.Sorted.{IsStrictlySortedBy};
ghost use Rattle.trace_core.specs.Chains.{sites_at};
ghost use Rattle.gap_core.specs.Adding.{AddsToList, ByOne, ByOneAt};
ghost use Rattle.gap_core.specs.Sources.{AreKnown, AreOwn, item_cmp};
ghost use Rattle.gap_core.specs.Untold.{IsUntoldAt, IsUntoldBy, IsUntoldIn, IsUntoldOf, IsUntoldPair, Tells, untold_cmp};
ghost use Rattle.gap_core.specs.declared.untold.UntoldShipment.{UntoldShipment};

use crate::item_lists::ItemList;
use crate::outside::{Destination, Outside, outside_of};
use crate::places::Places;
use crate::searches::{known_packings, own_packings};
use crate::site_gaps::sent_by;
use crate::sources::Sources;
use epc_core::Epc;
use event_json::SiteNo;
use std::alloc::{AllocError, Global};
use std::collections::{BTreeMap, BTreeSet};
use trace_core::{Captured, Pair, in_order};

/// An item that left the traced sites.
#[derive(Debug, Drop, PartialEq, Eq, PartialOrd, Ord)]
pub struct UntoldShipment {
    /// The site that shipped it.
    pub site: SiteNo,
    /// The item.
    pub item: Epc,
    /// Where it went.
    pub destination: Destination,
}

/// What a root reaches, and of which pairs the report of some recall tells.
#[derive(Debug, Drop)]
pub struct Reached {
    /// By all that is known of packings.
    pub(crate) wide: BTreeSet<Pair>,
    /// By the sites' own packings, and what else is told.
    pub(crate) told: BTreeSet<Pair>,
}

impl Reached {
    /// Notes that a pair is told.
    ///
    /// # Errors
    /// Out of memory.
    pub fn tell(&mut self, pair: Pair) -> Result<(), AllocError>
        ensures { OnOk result (Tells pair self.old self.new) }
    {
        self.told.insert(pair)?;
        Ok(())
    }
}

/// The shipments of what is reached to places outside, by all that is known of packings, unless the pair is told and
/// the site's own packings send the item there: by site, then by item, then by destination, each once.
///
/// # Errors
/// Out of memory.
pub fn untold_shipments(
    alloc: Global,
    sites: &[&Captured],
    reached: &Reached,
) -> Result<Vec<UntoldShipment>, AllocError>
    ensures ascending { IfOk result (λ found. IsStrictlySortedBy untold_cmp found.items) }
    ensures exact { IfOk result (λ found. (x : UntoldShipment) → Contains found.items x
        ↔ IsUntoldIn (sites_at sites.now) reached.now x) }
{
    let own = own_packings(alloc, sites)?;
    let known = known_packings(alloc, sites)?;
    let mut found = Vec::new(alloc);
    for at in 0..sites.len() {
        note_site(alloc, sites, &own, &known, at, reached, &mut found)?;
    }
    in_order(found)
}

/// Notes those of the site of a place, by what each site packed and by what is known at each.
fn note_site(
    alloc: Global,
    sites: &[&Captured],
    own: &BTreeMap<Epc, Sources>,
    known: &BTreeMap<Epc, Sources>,
    at: usize,
    reached: &Reached,
    found: &mut Vec<UntoldShipment>,
) -> Result<(), AllocError>
    requires own { AreOwn (sites_at sites.now) own.now }
    requires known { AreKnown (sites_at sites.now) known.now }
    requires at { at < length sites.now }
    ensures { OnOk result (AddsToList found.old.items found.new.items
        (IsUntoldAt (sites_at sites.now) reached.now at)) }
{
    let outside = outside_of(alloc, sites[at])?;
    note_places(alloc, sites, own, known, at, &outside, reached, found)?;
    Ok(())
}

/// Notes those to each of some places.
fn note_places(
    alloc: Global,
    sites: &[&Captured],
    own: &BTreeMap<Epc, Sources>,
    known: &BTreeMap<Epc, Sources>,
    at: usize,
    outside: &Outside,
    reached: &Reached,
    found: &mut Vec<UntoldShipment>,
) -> Result<(), AllocError>
    requires at { at < length sites.now }
    ensures ordered { OnOk result (IsOrdered item_cmp outside.now) }
    ensures added { OnOk result (AddsToList found.old.items found.new.items
        (ByOne outside.now.entries (IsUntoldBy (sites_at sites.now) own.now known.now reached.now at))) }
{
    for (text, places) in outside {
        note_place(alloc, sites, own, known, at, text, places, reached, found)?;
    }
    Ok(())
}

/// Notes those to a place, by the events that ship there.
fn note_place(
    alloc: Global,
    sites: &[&Captured],
    own: &BTreeMap<Epc, Sources>,
    known: &BTreeMap<Epc, Sources>,
    at: usize,
    text: &Destination,
    places: &Places,
    reached: &Reached,
    found: &mut Vec<UntoldShipment>,
) -> Result<(), AllocError>
    requires at { at < length sites.now }
    ensures { OnOk result (AddsToList found.old.items found.new.items
        (IsUntoldBy (sites_at sites.now) own.now known.now reached.now at (text.now, places.now))) }
{
    let told = sent_by(alloc, sites, own, at, places.as_slice())?;
    let sent = sent_by(alloc, sites, known, at, places.as_slice())?;
    note_items(alloc, sites[at].me(), text, &sent, &told, reached, found)
}

/// Notes those of some items that are sent.
fn note_items(
    alloc: Global,
    site: SiteNo,
    text: &Destination,
    sent: &ItemList,
    told: &ItemList,
    reached: &Reached,
    found: &mut Vec<UntoldShipment>,
) -> Result<(), AllocError>
    ensures { OnOk result (AddsToList found.old.items found.new.items
        (ByOne sent.now (IsUntoldOf site text.now told.now reached.now))) }
{
    for place in 0..sent.len() {
        note_at(alloc, site, text, sent, place, told, reached, found)?;
    }
    Ok(())
}

/// Notes that of the item at a place of a list.
fn note_at(
    alloc: Global,
    site: SiteNo,
    text: &Destination,
    sent: &ItemList,
    place: usize,
    told: &ItemList,
    reached: &Reached,
    found: &mut Vec<UntoldShipment>,
) -> Result<(), AllocError>
    ensures { OnOk result (AddsToList found.old.items found.new.items
        (ByOneAt sent.now (IsUntoldOf site text.now told.now reached.now) place)) }
{
    match sent.get(place) {
        Some(item) => note_item(alloc, site, text, item, told, reached, found),
        None => Ok(()),
    }
}

/// Notes that of an item, if it is reached, and not told and sent by the site's own packings.
fn note_item(
    alloc: Global,
    site: SiteNo,
    text: &Destination,
    item: &Epc,
    told: &ItemList,
    reached: &Reached,
    found: &mut Vec<UntoldShipment>,
) -> Result<(), AllocError>
    ensures { OnOk result (AddsToList found.old.items found.new.items
        (IsUntoldOf site text.now told.now reached.now item.now)) }
{
    let pair = Pair {
        site,
        item: item.copy(alloc)?,
    };
    if !is_untold(&pair, told, reached) {
        return Ok(());
    }
    found.push(UntoldShipment {
        site,
        item: pair.item,
        destination: text.copy(alloc)?,
    })?;
    Ok(())
}

/// Whether a pair is reached, and not told with its item sent by the site's own packings.
fn is_untold(pair: &Pair, told: &ItemList, reached: &Reached) -> bool
    ensures { IsTrue result ↔ IsUntoldPair told.now reached.now pair.now }
{
    reached.wide.contains(pair) && !(told.has(&pair.item) && reached.told.contains(pair))
}
