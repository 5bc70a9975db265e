//! Containers that a site sent on, and into which another site put what isn't known there.
ghost use Rattle.std.specs.Prelude.{◌≡◌, ◌↔◌, ◌<◌, Some, IfOk, OnOk, IsTrue, Contains, length, slice_get};
ghost use Rattle.std.specs.List.Sorted.{IsStrictlySortedBy};
ghost use Rattle.trace_core.specs.Chains.{sites_at};
ghost use Rattle.gap_core.specs.Adding.{AddsToList, ByOne, ByOneAt};
ghost use Rattle.gap_core.specs.GapItems.{gap_item_cmp};
ghost use Rattle.gap_core.specs.Sources.{AreKnown, AreOwn};
ghost use Rattle.gap_core.specs.Unlinked.{AreUnlinkedLines, IsLinked, IsUnknownItem, IsUnlinkedAt, IsUnlinkedChild, IsUnlinkedFrom, IsUnlinkedIn};
ghost use Rattle.gap_core.specs.declared.gap_items.GapItem.{GapItem};

use crate::elsewhere::sent_elsewhere;
use crate::gap_items::GapItem;
use crate::item_lists::ItemList;
use crate::lines::{GapLine, lines_of};
use crate::searches::{known_packings, own_packings};
use crate::site_gaps::push_gap;
use crate::sources::{Source, Sources, sources_of};
use crate::walks::{note_children, note_inside};
use epc_core::Epc;
use event_json::SiteNo;
use std::alloc::{AllocError, Global};
use std::collections::BTreeMap;
use trace_core::{Captured, in_order};

/// Finds the containers that several sites sent on and into which other sites put items that aren't known there to
/// lie in them, as where the shipment in between was never captured: the container came from no site that packed the
/// item. No packed gap of the sending site tells that such an item lies there, and no recall follows it from there by
/// that packing. What the sending site packed itself is known there, and so is what came with the container, whoever
/// else captured that packing. `site` sent the container, `by` packed it, and `items` is how many such items `by` put
/// into it. Where two of the sites have one number, their lines are reported together: an item counts where one of
/// them sent the container and doesn't know of it, though the other may; and neither is told as a packer for the
/// other.
///
/// # Errors
/// Out of memory.
pub fn unlinked_containers(alloc: Global, sites: &[&Captured]) -> Result<Vec<GapLine>, AllocError>
    // All containers that a site sent to another site or to a place outside, by itself or in something that it is
    // known to lie in, and into which another site put items that aren't known at this one to lie in it; with how
    // many those are; in order, each once.
    ensures { IfOk result (λ lines. AreUnlinkedLines (sites_at sites.now) lines.items) }
{
    let items = unlinked_items(alloc, sites)?;
    lines_of(alloc, items.as_slice())
}

/// All that was so put into such containers, by site, then by container, then by who packed, then by item.
fn unlinked_items(alloc: Global, sites: &[&Captured]) -> Result<Vec<GapItem>, AllocError>
    ensures ascending { IfOk result (λ items. IsStrictlySortedBy gap_item_cmp items.items) }
    ensures exact { IfOk result (λ items. (g : GapItem) → Contains items.items g
        ↔ IsUnlinkedChild (sites_at sites.now) g) }
{
    let own = own_packings(alloc, sites)?;
    let known = known_packings(alloc, sites)?;
    let mut found = Vec::new(alloc);
    for at in 0..sites.len() {
        note_site(alloc, sites, &own, &known, at, &mut found)?;
    }
    in_order(found)
}

/// Notes those that the site of a place sent on.
fn note_site(
    alloc: Global,
    sites: &[&Captured],
    own: &BTreeMap<Epc, Sources>,
    known: &BTreeMap<Epc, Sources>,
    at: usize,
    found: &mut Vec<GapItem>,
) -> Result<(), AllocError>
    requires own { AreOwn (sites_at sites.now) own.now }
    requires known { AreKnown (sites_at sites.now) known.now }
    requires at { at < length sites.now }
    ensures { OnOk result (AddsToList found.old.items found.new.items
        (IsUnlinkedAt (sites_at sites.now) at)) }
{
    let sent = sent_elsewhere(alloc, sites, known, at)?;
    note_containers(alloc, sites, own, known, at, &sent, found)
}

/// Notes those of some containers at the site of a place.
fn note_containers(
    alloc: Global,
    sites: &[&Captured],
    own: &BTreeMap<Epc, Sources>,
    known: &BTreeMap<Epc, Sources>,
    at: usize,
    sent: &ItemList,
    found: &mut Vec<GapItem>,
) -> Result<(), AllocError>
    requires own { AreOwn (sites_at sites.now) own.now }
    requires known { AreKnown (sites_at sites.now) known.now }
    requires at { at < length sites.now }
    ensures { OnOk result (AddsToList found.old.items found.new.items
        (ByOne sent.now (IsUnlinkedIn (sites_at sites.now) at))) }
{
    for place in 0..sent.len() {
        note_container_at(alloc, sites, own, known, at, sent, place, found)?;
    }
    Ok(())
}

/// Notes those of the container at a place of a list.
fn note_container_at(
    alloc: Global,
    sites: &[&Captured],
    own: &BTreeMap<Epc, Sources>,
    known: &BTreeMap<Epc, Sources>,
    at: usize,
    sent: &ItemList,
    place: usize,
    found: &mut Vec<GapItem>,
) -> Result<(), AllocError>
    requires own { AreOwn (sites_at sites.now) own.now }
    requires known { AreKnown (sites_at sites.now) known.now }
    requires at { at < length sites.now }
    ensures { OnOk result (AddsToList found.old.items found.new.items
        (ByOneAt sent.now (IsUnlinkedIn (sites_at sites.now) at) place)) }
{
    match sent.get(place) {
        Some(container) => note_container(alloc, sites, own, known, at, container, found),
        None => Ok(()),
    }
}

/// Notes those of a container, by each site that packed it.
fn note_container(
    alloc: Global,
    sites: &[&Captured],
    own: &BTreeMap<Epc, Sources>,
    known: &BTreeMap<Epc, Sources>,
    at: usize,
    container: &Epc,
    found: &mut Vec<GapItem>,
) -> Result<(), AllocError>
    requires own { AreOwn (sites_at sites.now) own.now }
    requires known { AreKnown (sites_at sites.now) known.now }
    requires at { at < length sites.now }
    ensures { OnOk result (AddsToList found.old.items found.new.items
        (IsUnlinkedIn (sites_at sites.now) at container.now)) }
{
    for source in sources_of(own, container) {
        note_from(alloc, sites, known, at, container, source.from, found)?;
    }
    Ok(())
}

/// Notes what the site of a place put into a container.
fn note_from(
    alloc: Global,
    sites: &[&Captured],
    known: &BTreeMap<Epc, Sources>,
    at: usize,
    container: &Epc,
    from: usize,
    found: &mut Vec<GapItem>,
) -> Result<(), AllocError>
    requires known { AreKnown (sites_at sites.now) known.now }
    requires at { at < length sites.now }
    ensures { OnOk result (AddsToList found.old.items found.new.items
        (IsUnlinkedFrom (sites_at sites.now) at container.now from)) }
{
    if from < sites.len() {
        note_packer(
            alloc,
            sites,
            known,
            at,
            sites[at],
            container,
            from,
            sites[from],
            found,
        )
    } else {
        Ok(())
    }
}

/// Notes what a site put into a container, as far as it isn't known at another one, if the two aren't linked.
fn note_packer(
    alloc: Global,
    sites: &[&Captured],
    known: &BTreeMap<Epc, Sources>,
    at: usize,
    site: &Captured,
    container: &Epc,
    from: usize,
    packer: &Captured,
    found: &mut Vec<GapItem>,
) -> Result<(), AllocError>
    requires known { AreKnown (sites_at sites.now) known.now }
    requires at { slice_get (sites_at sites.now) at ≡ Some site.now }
    requires from { slice_get (sites_at sites.now) from ≡ Some packer.now }
    ensures { OnOk result (AddsToList found.old.items found.new.items
        (IsUnlinkedFrom (sites_at sites.now) at container.now from)) }
{
    if is_linked(site, packer, known, at, from, container) {
        return Ok(());
    }
    let mut children = ItemList::new(alloc, packer.hash_keys());
    note_children(alloc, packer, container, &mut children)?;
    let mut inside = ItemList::new(alloc, site.hash_keys());
    note_inside(alloc, sites, known, at, container, &mut inside)?;
    push_children(
        alloc,
        site.me(),
        container,
        packer.me(),
        &inside,
        &children,
        found,
    )
}

/// Whether a packer has a site's own number, or is known there as a source of a container.
fn is_linked(
    site: &Captured,
    packer: &Captured,
    known: &BTreeMap<Epc, Sources>,
    at: usize,
    from: usize,
    container: &Epc,
) -> bool
    ensures { IsTrue result ↔ IsLinked site.now packer.now known.now at from container.now }
{
    site.me() == packer.me() || sources_of(known, container).contains(&Source { at, from })
}

/// Adds an item for each of some children, but for those that are known inside.
fn push_children(
    alloc: Global,
    site: SiteNo,
    container: &Epc,
    by: SiteNo,
    inside: &ItemList,
    children: &ItemList,
    found: &mut Vec<GapItem>,
) -> Result<(), AllocError>
    ensures { OnOk result (AddsToList found.old.items found.new.items
        (ByOne children.now (IsUnknownItem site container.now by inside.now))) }
{
    for place in 0..children.len() {
        push_child_at(alloc, site, container, by, inside, children, place, found)?;
    }
    Ok(())
}

/// Adds an item for the child at a place of a list, unless it is known inside.
fn push_child_at(
    alloc: Global,
    site: SiteNo,
    container: &Epc,
    by: SiteNo,
    inside: &ItemList,
    children: &ItemList,
    place: usize,
    found: &mut Vec<GapItem>,
) -> Result<(), AllocError>
    ensures { OnOk result (AddsToList found.old.items found.new.items
        (ByOneAt children.now (IsUnknownItem site container.now by inside.now) place)) }
{
    match children.get(place) {
        Some(child) => push_child(alloc, site, container, by, inside, child, found),
        None => Ok(()),
    }
}

/// Adds an item for a child, unless it is known inside.
fn push_child(
    alloc: Global,
    site: SiteNo,
    container: &Epc,
    by: SiteNo,
    inside: &ItemList,
    child: &Epc,
    found: &mut Vec<GapItem>,
) -> Result<(), AllocError>
    ensures { OnOk result (AddsToList found.old.items found.new.items
        (IsUnknownItem site container.now by inside.now child.now)) }
{
    if inside.has(child) {
        return Ok(());
    }
    push_gap(alloc, site, container, by, child, found)
}
