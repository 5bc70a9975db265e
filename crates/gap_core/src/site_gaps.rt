//! The packed gaps of one site.
ghost use Rattle.std.specs.Prelude.{◌≡◌, ◌↔◌, ◌<◌, ◌++◌, ◌∷◌, ◌⊎◌, [], ℕ, List, Some, IfOk, OnOk, IsTrue, Contains, length, slice_get};
ghost use Rattle.trace_core.specs.Chains.{sites_at};
ghost use Rattle.gap_core.specs.Adding.{AddsToList};
ghost use Rattle.gap_core.specs.GapItems.{IsGapAt, IsGapBy, IsGapIn, IsGapOf, IsGapOfAt, IsSentBy};
ghost use Rattle.gap_core.specs.Sources.{AreKnown, AreOwn};

use crate::batches::batches_of;
use crate::gap_items::GapItem;
use crate::item_lists::ItemList;
use crate::packers::packers_of;
use crate::places::Places;
use crate::shipments::shipped_items;
use crate::sources::Sources;
use crate::walks::{note_children, note_inside, walk};
use epc_core::Epc;
use event_json::SiteNo;
use std::alloc::{AllocError, Global};
use std::collections::BTreeMap;
use trace_core::Captured;

/// Notes the items that stand in packed gaps at the site of a place, by what each site packed and by what is known
/// at each.
pub fn note_site_gaps(
    alloc: Global,
    sites: &[&Captured],
    own: &BTreeMap<Epc, Sources>,
    known: &BTreeMap<Epc, Sources>,
    at: usize,
    gaps: &mut Vec<GapItem>,
) -> Result<(), AllocError>
    requires own { AreOwn (sites_at sites.now) own.now }
    requires known { AreKnown (sites_at sites.now) known.now }
    requires at { at < length sites.now }
    ensures { OnOk result (AddsToList gaps.old.items gaps.new.items
        (IsGapAt (sites_at sites.now) at)) }
{
    let batches = batches_of(alloc, sites[at])?;
    for places in batches.as_slice() {
        note_batch_gaps(alloc, sites, own, known, at, places, gaps)?;
    }
    Ok(())
}

/// Notes the items that stand in gaps by the shipments at some places.
fn note_batch_gaps(
    alloc: Global,
    sites: &[&Captured],
    own: &BTreeMap<Epc, Sources>,
    known: &BTreeMap<Epc, Sources>,
    at: usize,
    places: &Places,
    gaps: &mut Vec<GapItem>,
) -> Result<(), AllocError>
    requires known { AreKnown (sites_at sites.now) known.now }
    requires at { at < length sites.now }
    ensures { OnOk result (AddsToList gaps.old.items gaps.new.items
        (IsGapBy (sites_at sites.now) own.now known.now at places.now)) }
{
    let told = sent_by(alloc, sites, own, at, places.as_slice())?;
    let sent = sent_by(alloc, sites, known, at, places.as_slice())?;
    note_gaps_of(alloc, sites, known, at, &sent, &told, gaps)
}

/// What the shipments at some places send: what they ship, and what lies in that by the packings whose sources are given.
pub fn sent_by(
    alloc: Global,
    sites: &[&Captured],
    index: &BTreeMap<Epc, Sources>,
    at: usize,
    places: &[usize],
) -> Result<ItemList, AllocError>
    requires { at < length sites.now }
    ensures { IfOk result (λ sent. (i : List ℕ) → Contains sent i
        ↔ IsSentBy (sites_at sites.now) index.now at places.now i) }
{
    let starts = shipped_items(alloc, sites[at], places)?;
    walk(alloc, sites, index, at, starts)
}

/// Notes the items that stand in gaps, of all containers that are sent.
fn note_gaps_of(
    alloc: Global,
    sites: &[&Captured],
    known: &BTreeMap<Epc, Sources>,
    at: usize,
    sent: &ItemList,
    told: &ItemList,
    gaps: &mut Vec<GapItem>,
) -> Result<(), AllocError>
    requires known { AreKnown (sites_at sites.now) known.now }
    requires at { at < length sites.now }
    ensures { OnOk result (AddsToList gaps.old.items gaps.new.items (λ g. Contains sent.now g.container
        × IsGapIn (sites_at sites.now) at told.now g.container g)) }
{
    for place in 0..sent.len() {
        note_gaps_at(alloc, sites, known, at, sent, place, told, gaps)?;
    }
    Ok(())
}

/// Notes the items that stand in gaps, of the container at a place of a list.
fn note_gaps_at(
    alloc: Global,
    sites: &[&Captured],
    known: &BTreeMap<Epc, Sources>,
    at: usize,
    sent: &ItemList,
    place: usize,
    told: &ItemList,
    gaps: &mut Vec<GapItem>,
) -> Result<(), AllocError>
    requires known { AreKnown (sites_at sites.now) known.now }
    requires at { at < length sites.now }
    ensures { OnOk result (AddsToList gaps.old.items gaps.new.items
        (IsGapOfAt (sites_at sites.now) at sent.now told.now place)) }
{
    match sent.get(place) {
        Some(container) => note_gaps_in(alloc, sites, known, at, container, told, gaps),
        None => Ok(()),
    }
}

/// Notes the items that are known to lie in a container, and of which the own packings tell neither that nor that they
/// are sent.
fn note_gaps_in(
    alloc: Global,
    sites: &[&Captured],
    known: &BTreeMap<Epc, Sources>,
    at: usize,
    container: &Epc,
    told: &ItemList,
    gaps: &mut Vec<GapItem>,
) -> Result<(), AllocError>
    requires known { AreKnown (sites_at sites.now) known.now }
    requires at { at < length sites.now }
    ensures { OnOk result (AddsToList gaps.old.items gaps.new.items
        (IsGapIn (sites_at sites.now) at told.now container.now)) }
{
    note_own_gaps(alloc, sites, known, at, sites[at], container, told, gaps)
}

/// Notes those of the site of a place.
fn note_own_gaps(
    alloc: Global,
    sites: &[&Captured],
    known: &BTreeMap<Epc, Sources>,
    at: usize,
    site: &Captured,
    container: &Epc,
    told: &ItemList,
    gaps: &mut Vec<GapItem>,
) -> Result<(), AllocError>
    requires known { AreKnown (sites_at sites.now) known.now }
    requires stands { slice_get (sites_at sites.now) at ≡ Some site.now }
    ensures { OnOk result (AddsToList gaps.old.items gaps.new.items
        (IsGapIn (sites_at sites.now) at told.now container.now)) }
{
    let packers = packers_of(alloc, sites, known, at, container)?;
    let mut children = ItemList::new(alloc, site.hash_keys());
    note_inside(alloc, sites, known, at, container, &mut children)?;
    let mut packed = ItemList::new(alloc, site.hash_keys());
    note_children(alloc, site, container, &mut packed)?;
    note_gaps(
        alloc,
        site.me(),
        container,
        told,
        &packed,
        &packers,
        &children,
        gaps,
    )
}

/// Notes those of some items that are neither told nor packed, by their packers.
fn note_gaps(
    alloc: Global,
    site: SiteNo,
    container: &Epc,
    told: &ItemList,
    packed: &ItemList,
    packers: &BTreeMap<Epc, SiteNo>,
    children: &ItemList,
    gaps: &mut Vec<GapItem>,
) -> Result<(), AllocError>
    ensures { OnOk result (AddsToList gaps.old.items gaps.new.items (λ g. Contains children.now g.child
        × IsGapOf site container.now told.now packed.now packers.now g.child g)) }
{
    for place in 0..children.len() {
        note_gap_at(
            alloc, site, container, told, packed, packers, children, place, gaps,
        )?;
    }
    Ok(())
}

/// Notes the item at a place of a list, if it is neither told nor packed, by its packer.
fn note_gap_at(
    alloc: Global,
    site: SiteNo,
    container: &Epc,
    told: &ItemList,
    packed: &ItemList,
    packers: &BTreeMap<Epc, SiteNo>,
    children: &ItemList,
    place: usize,
    gaps: &mut Vec<GapItem>,
) -> Result<(), AllocError>
    ensures { OnOk result (AddsToList gaps.old.items gaps.new.items (λ g. (i : List ℕ)
        × (slice_get children.now place ≡ Some i)
        × IsGapOf site container.now told.now packed.now packers.now i g)) }
{
    match children.get(place) {
        Some(child) => note_gap(alloc, site, container, told, packed, packers, child, gaps),
        None => Ok(()),
    }
}

/// Notes an item, if it is neither told nor packed, by its packer.
fn note_gap(
    alloc: Global,
    site: SiteNo,
    container: &Epc,
    told: &ItemList,
    packed: &ItemList,
    packers: &BTreeMap<Epc, SiteNo>,
    child: &Epc,
    gaps: &mut Vec<GapItem>,
) -> Result<(), AllocError>
    ensures { OnOk result (AddsToList gaps.old.items gaps.new.items
        (IsGapOf site container.now told.now packed.now packers.now child.now)) }
{
    if is_told(child, told, packed) {
        return Ok(());
    }
    match packers.get(child) {
        Some(by) => push_gap(alloc, site, container, *by, child, gaps),
        None => Ok(()),
    }
}

/// Whether an item is told or packed.
fn is_told(child: &Epc, told: &ItemList, packed: &ItemList) -> bool
    ensures { IsTrue result ↔ (Contains told.now child.now ⊎ Contains packed.now child.now) }
{
    told.has(child) || packed.has(child)
}

/// Adds an item that stands in a gap.
pub fn push_gap(
    alloc: Global,
    site: SiteNo,
    container: &Epc,
    by: SiteNo,
    child: &Epc,
    gaps: &mut Vec<GapItem>,
) -> Result<(), AllocError>
    ensures { OnOk result (gaps.new.items ≡ gaps.old.items ++ record {
      site = site;
      container = container.now;
      by = by;
      child = child.now;
    } ∷ []) }
{
    gaps.push(GapItem {
        site,
        container: container.copy(alloc)?,
        by,
        child: child.copy(alloc)?,
    })?;
    Ok(())
}
