//! The packings by which a site closes its packed gaps, and those that tell it where items lie.
ghost use Rattle.std.specs.Prelude.{◌≡◌, ◌↔◌, ◌<◌, ◌++◌, ◌∷◌, [], ℕ, List, None, Some, IfOk, IfSome, IsTrue, OnOk, Contains, length};
ghost use Rattle.std.specs.List.{Any};
ghost use Rattle.std.specs.List.Sorted.{IsStrictlySortedBy};
ghost use Rattle.event_json.specs.declared.bodies.Action.TheVariants.{Add};
ghost use Rattle.event_json.specs.declared.bodies.Body.TheVariants.{Pack};
ghost use Rattle.trace_core.specs.Chains.{sites_at};
ghost use Rattle.trace_core.specs.PutIn.{filled};
ghost use Rattle.gap_core.specs.Adding.{AddsToList};
ghost use Rattle.gap_core.specs.GapPacks.{ClosesEdge, IsGapPack, IsItemPack, IsItemPackAt, IsPackAt, IsPackFrom, IsPackIn, IsPackOnce, IsWanted, gap_pack_cmp};
ghost use Rattle.gap_core.specs.Sources.{AreKnown, AreOwn};
ghost use Rattle.gap_core.specs.declared.packs.GapPack.{GapPack};

use crate::batches::is_own;
use crate::item_lists::ItemList;
use crate::pack_edges::{Edges, edges_of, has_edge, has_one};
use crate::searches::{known_packings, own_packings};
use crate::shipments::note_items;
use crate::site_gaps::note_site_gaps;
use crate::sources::{Source, Sources, sources_of};
use epc_core::Epc;
use event_json::{Action, Body, SiteNo};
use std::alloc::{AllocError, Global};
use std::collections::BTreeMap;
use trace_core::{Captured, in_order};

/// An event by which a site closes a packed gap, where it captures it, too: another site captured it, and put something
/// into a container that came from there.
#[derive(Debug, Drop, PartialEq, Eq, PartialOrd, Ord)]
pub struct GapPack {
    /// The site whose gap it closes.
    pub site: SiteNo,
    /// The site that captured it.
    pub by: SiteNo,
    /// Its place among the events of that site, from 0.
    pub place: usize,
    /// The container.
    pub container: Epc,
}

/// What packings are wanted for.
#[derive(Drop)]
pub enum Wanted {
    /// They put an item into a container in which it stands in a gap.
    Edges(Edges),
    /// They put one of these items into something.
    Items(ItemList),
}

impl Wanted {
    /// Whether it is wanted that one of some items lies in a container.
    fn has(&self, container: &Epc, items: &[Epc]) -> bool
        ensures { IsTrue result ↔ Any (λ i. IsWanted self.now container.now i) items.now }
    {
        match self {
            Wanted::Edges(edges) => has_edge(edges, container, items),
            Wanted::Items(list) => has_one(list, items),
        }
    }
}

/// All events by which sites close their packed gaps: by site, then by the site that captured them, then in the order
/// in which it did, each once. Where a site captures those of its own gaps, it has no packed gap left
/// ([`laws::captured_packs_close`](crate::laws::captured_packs_close)). Where two of the sites have one number, those
/// of both.
///
/// # Errors
/// Out of memory.
pub fn packs_to_capture(alloc: Global, sites: &[&Captured]) -> Result<Vec<GapPack>, AllocError>
    ensures ascending { IfOk result (λ packs. IsStrictlySortedBy gap_pack_cmp packs.items) }
    ensures exact { IfOk result (λ packs. (p : GapPack) → Contains packs.items p
        ↔ IsGapPack (sites_at sites.now) p) }
{
    let own = own_packings(alloc, sites)?;
    let known = known_packings(alloc, sites)?;
    let mut packs = Vec::new(alloc);
    for at in 0..sites.len() {
        note_packs(alloc, sites, &own, &known, at, &mut packs)?;
    }
    in_order(packs)
}

/// The events of other sites that tell the site of a number where one of some items lies: they put the item into a
/// container that came from there. By the site that captured them, then in the order in which it did, each once.
///
/// # Errors
/// Out of memory.
pub fn packs_of_items(
    alloc: Global,
    sites: &[&Captured],
    site: SiteNo,
    items: &[Epc],
) -> Result<Vec<GapPack>, AllocError>
    ensures ascending { IfOk result (λ packs. IsStrictlySortedBy gap_pack_cmp packs.items) }
    ensures exact { IfOk result (λ packs. (p : GapPack) → Contains packs.items p
        ↔ IsItemPack (sites_at sites.now) site items.now p) }
{
    let known = known_packings(alloc, sites)?;
    let mut packs = Vec::new(alloc);
    for at in 0..sites.len() {
        note_item_packs(alloc, sites, &known, site, items, at, &mut packs)?;
    }
    in_order(packs)
}

/// Notes those for the site of a place, if it has the number.
fn note_item_packs(
    alloc: Global,
    sites: &[&Captured],
    known: &BTreeMap<Epc, Sources>,
    site: SiteNo,
    items: &[Epc],
    at: usize,
    packs: &mut Vec<GapPack>,
) -> Result<(), AllocError>
    requires known { AreKnown (sites_at sites.now) known.now }
    requires at { at < length sites.now }
    ensures { OnOk result (AddsToList packs.old.items packs.new.items
        (IsItemPackAt (sites_at sites.now) site items.now at)) }
{
    if !is_own(sites[at], site) {
        return Ok(());
    }
    let mut list = ItemList::new(alloc, sites[at].hash_keys());
    note_items(alloc, items, &mut list)?;
    note_all(alloc, sites, known, &Wanted::Items(list), site, at, packs)
}

/// Notes the events that close the gaps of the site of a place.
fn note_packs(
    alloc: Global,
    sites: &[&Captured],
    own: &BTreeMap<Epc, Sources>,
    known: &BTreeMap<Epc, Sources>,
    at: usize,
    packs: &mut Vec<GapPack>,
) -> Result<(), AllocError>
    requires own { AreOwn (sites_at sites.now) own.now }
    requires known { AreKnown (sites_at sites.now) known.now }
    requires at { at < length sites.now }
    ensures { OnOk result (AddsToList packs.old.items packs.new.items
        (IsPackAt (sites_at sites.now) at)) }
{
    let mut gaps = Vec::new(alloc);
    note_site_gaps(alloc, sites, own, known, at, &mut gaps)?;
    let edges = edges_of(alloc, sites[at].hash_keys(), gaps.as_slice())?;
    note_all(
        alloc,
        sites,
        known,
        &Wanted::Edges(edges),
        sites[at].me(),
        at,
        packs,
    )
}

/// Notes the events of all sites that tell the site of a place what is wanted.
fn note_all(
    alloc: Global,
    sites: &[&Captured],
    known: &BTreeMap<Epc, Sources>,
    wanted: &Wanted,
    site: SiteNo,
    at: usize,
    packs: &mut Vec<GapPack>,
) -> Result<(), AllocError>
    ensures { OnOk result (AddsToList packs.old.items packs.new.items (λ p. (from : ℕ)
        × IsPackFrom (sites_at sites.now) known.now wanted.now site at from p)) }
{
    for from in 0..sites.len() {
        note_site(
            alloc,
            sites[from],
            known,
            wanted,
            site,
            Source { at, from },
            packs,
        )?;
    }
    Ok(())
}

/// Notes the events of a site that tell what is wanted.
fn note_site(
    alloc: Global,
    packer: &Captured,
    known: &BTreeMap<Epc, Sources>,
    wanted: &Wanted,
    site: SiteNo,
    source: Source,
    packs: &mut Vec<GapPack>,
) -> Result<(), AllocError>
    ensures { OnOk result (AddsToList packs.old.items packs.new.items
        (IsPackIn known.now wanted.now site source.at source.from packer.now)) }
{
    for place in 0..packer.len() {
        note_event(alloc, packer, known, wanted, site, source, place, packs)?;
    }
    Ok(())
}

/// Notes the event at a place, if it tells what is wanted.
fn note_event(
    alloc: Global,
    packer: &Captured,
    known: &BTreeMap<Epc, Sources>,
    wanted: &Wanted,
    site: SiteNo,
    source: Source,
    place: usize,
    packs: &mut Vec<GapPack>,
) -> Result<(), AllocError>
    ensures { OnOk result (AddsToList packs.old.items packs.new.items
        (IsPackOnce known.now wanted.now site source.at source.from packer.now place)) }
{
    let Some(event) = packer.event(place) else {
        return Ok(());
    };
    match closing(known, wanted, source, event.body()) {
        Some(container) => push_pack(alloc, site, packer.me(), place, container, packs),
        None => Ok(()),
    }
}

/// The container of which an event of a source tells what is wanted.
fn closing<'a>(
    known: &BTreeMap<Epc, Sources>,
    wanted: &Wanted,
    source: Source,
    body: &'a Body,
) -> Option<&'a Epc>
    ensures some { IfSome result (λ i. ClosesEdge known.now wanted.now source.at source.from body.now
        i.now) }
    ensures none { result ≡ None → (i : List ℕ)
        → ClosesEdge known.now wanted.now source.at source.from body.now i → ⊥ }
{
    let (container, items) = packed(body)?;
    if wanted.has(container, items) && sources_of(known, container).contains(&source) {
        Some(container)
    } else {
        None
    }
}

/// The container that an event fills, and what it puts into it.
fn packed(body: &Body) -> Option<(&Epc, &[Epc])>
    ensures some { IfSome result (λ p. body.now ≡ Pack Add (Some p.0.now) p.1.now) }
    ensures none { result ≡ None → filled body.now ≡ None }
{
    match body {
        Body::Pack {
            action: Action::Add,
            parent: Some(parent),
            children,
        } => Some((parent, children.as_slice())),
        _ => None,
    }
}

/// Adds an event.
fn push_pack(
    alloc: Global,
    site: SiteNo,
    by: SiteNo,
    place: usize,
    container: &Epc,
    packs: &mut Vec<GapPack>,
) -> Result<(), AllocError>
    ensures { OnOk result (packs.new.items ≡ packs.old.items ++ record {
      site = site;
      by = by;
      place = place;
      container = container.now;
    } ∷ []) }
{
    packs.push(GapPack {
        site,
        by,
        place,
        container: container.copy(alloc)?,
    })?;
    Ok(())
}
