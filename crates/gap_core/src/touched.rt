//! Packed gaps in which some of given pairs stand.
ghost use Rattle.std.specs.Prelude.{◌≡◌, ◌↔◌, ◌<◌, ℕ, List, IfOk, OnOk, IsTrue, Contains, length};
ghost use Rattle.std.specs.List.Sorted.{IsStrictlySortedBy};
ghost use Rattle.trace_core.specs.Chains.{sites_at};
ghost use Rattle.gap_core.specs.Adding.{AddsToList, ByOne, NotesThose};
ghost use Rattle.gap_core.specs.GapItems.{gap_item_cmp};
ghost use Rattle.gap_core.specs.Sources.{AreKnown};
ghost use Rattle.gap_core.specs.Touched.{AreTouchedLines, HaveCommon, IsCommonAt, IsItemAt, IsTouchedAt, IsTouchedBy, IsTouchedChild, IsTouchedOne, LiesAt};
ghost use Rattle.gap_core.specs.declared.gap_items.GapItem.{GapItem};

use crate::batches::is_own;
use crate::elsewhere::is_same;
use crate::gap_items::{GapItem, items_in_gaps};
use crate::item_lists::ItemList;
use crate::lines::{GapLine, lines_of};
use crate::searches::known_packings;
use crate::site_gaps::push_gap;
use crate::sources::Sources;
use crate::walks::walk;
use epc_core::Epc;
use event_json::SiteNo;
use std::alloc::{AllocError, Global};
use std::collections::BTreeMap;
use trace_core::{Captured, Pair, in_order};

/// Finds the packed gaps of several sites in which some of given pairs stand: of pairs that are missed
/// ([`missed_among`](crate::missed_among)), those by which they are. Where two of the sites have one number, their gaps
/// are reported together.
///
/// # Errors
/// Out of memory.
pub fn gap_lines_with(
    alloc: Global,
    sites: &[&Captured],
    missed: &[Pair],
) -> Result<Vec<GapLine>, AllocError>
    // The lines of all items in packed gaps in which one of the given pairs lies, by what is known at its site, or
    // which are one of them; in order, each once.
    ensures { IfOk result (λ lines. AreTouchedLines (sites_at sites.now) missed.now lines.items) }
{
    let items = touched_items(alloc, sites, missed)?;
    lines_of(alloc, items.as_slice())
}

/// All items in packed gaps in which some of given pairs stand, by site, then by container, then by who packed, then by
/// item.
fn touched_items(
    alloc: Global,
    sites: &[&Captured],
    missed: &[Pair],
) -> Result<Vec<GapItem>, AllocError>
    ensures ascending { IfOk result (λ items. IsStrictlySortedBy gap_item_cmp items.items) }
    ensures exact { IfOk result (λ items. (g : GapItem) → Contains items.items g
        ↔ IsTouchedChild (sites_at sites.now) missed.now g) }
{
    let gaps = items_in_gaps(alloc, sites)?;
    let known = known_packings(alloc, sites)?;
    let mut touched = Vec::new(alloc);
    for at in 0..sites.len() {
        note_site(
            alloc,
            sites,
            &known,
            at,
            missed,
            gaps.as_slice(),
            &mut touched,
        )?;
    }
    in_order(touched)
}

/// Notes those of some items in gaps that are of the site of a place.
fn note_site(
    alloc: Global,
    sites: &[&Captured],
    known: &BTreeMap<Epc, Sources>,
    at: usize,
    missed: &[Pair],
    gaps: &[GapItem],
    touched: &mut Vec<GapItem>,
) -> Result<(), AllocError>
    requires known { AreKnown (sites_at sites.now) known.now }
    requires at { at < length sites.now }
    ensures { OnOk result (AddsToList touched.old.items touched.new.items
        (IsTouchedAt (sites_at sites.now) missed.now gaps.now at)) }
{
    let wanted = items_at(alloc, sites[at], missed)?;
    if wanted.len() == 0 {
        return Ok(());
    }
    note_gaps(alloc, sites, known, at, &wanted, gaps, touched)
}

/// The items of those of some pairs that are of a site.
pub fn items_at(alloc: Global, site: &Captured, pairs: &[Pair]) -> Result<ItemList, AllocError>
    ensures { IfOk result (λ items. (i : List ℕ) → Contains items i
        ↔ Contains pairs.now (record { site = site.now.me; item = i })) }
{
    let mut items = ItemList::new(alloc, site.hash_keys());
    for pair in pairs {
        note_pair(alloc, site.me(), pair, &mut items)?;
    }
    Ok(items)
}

/// Notes the item of a pair, if it is of the site of a number.
fn note_pair(
    alloc: Global,
    site: SiteNo,
    pair: &Pair,
    items: &mut ItemList,
) -> Result<(), AllocError>
    ensures { OnOk result (NotesThose (IsItemAt site pair.now) items.old items.new) }
{
    if is_same(pair.site, site) {
        items.note(alloc, &pair.item)
    } else {
        Ok(())
    }
}

/// Notes those of some items in gaps that are of the site of a place, and in which one of some wanted items lies.
fn note_gaps(
    alloc: Global,
    sites: &[&Captured],
    known: &BTreeMap<Epc, Sources>,
    at: usize,
    wanted: &ItemList,
    gaps: &[GapItem],
    touched: &mut Vec<GapItem>,
) -> Result<(), AllocError>
    requires known { AreKnown (sites_at sites.now) known.now }
    requires at { at < length sites.now }
    ensures { OnOk result (AddsToList touched.old.items touched.new.items
        (ByOne gaps.now (IsTouchedOne (sites_at sites.now) at wanted.now))) }
{
    for gap in gaps {
        note_gap(alloc, sites, known, at, wanted, gap, touched)?;
    }
    Ok(())
}

/// Notes an item in a gap, if it is of the site of a place, and one of some wanted items lies in it.
fn note_gap(
    alloc: Global,
    sites: &[&Captured],
    known: &BTreeMap<Epc, Sources>,
    at: usize,
    wanted: &ItemList,
    gap: &GapItem,
    touched: &mut Vec<GapItem>,
) -> Result<(), AllocError>
    requires known { AreKnown (sites_at sites.now) known.now }
    requires at { at < length sites.now }
    ensures { OnOk result (AddsToList touched.old.items touched.new.items
        (IsTouchedOne (sites_at sites.now) at wanted.now gap.now)) }
{
    let is_so = is_touched(alloc, sites, known, at, wanted, gap)?;
    if !is_so {
        return Ok(());
    }
    push_gap(alloc, gap.site, &gap.container, gap.by, &gap.child, touched)
}

/// Whether an item in a gap is of the site of a place, and one of some wanted items lies in it.
fn is_touched(
    alloc: Global,
    sites: &[&Captured],
    known: &BTreeMap<Epc, Sources>,
    at: usize,
    wanted: &ItemList,
    gap: &GapItem,
) -> Result<bool, AllocError>
    requires known { AreKnown (sites_at sites.now) known.now }
    requires at { at < length sites.now }
    ensures { IfOk result (λ is_so. IsTrue is_so
        ↔ IsTouchedBy (sites_at sites.now) at wanted.now gap.now) }
{
    if !is_own(sites[at], gap.site) {
        return Ok(false);
    }
    let inside = inside_of(alloc, sites, known, at, &gap.child)?;
    Ok(have_common(&inside, wanted))
}

/// An item and what is known at the site of a place to lie in it.
fn inside_of(
    alloc: Global,
    sites: &[&Captured],
    known: &BTreeMap<Epc, Sources>,
    at: usize,
    item: &Epc,
) -> Result<ItemList, AllocError>
    requires known { AreKnown (sites_at sites.now) known.now }
    requires at { at < length sites.now }
    ensures { IfOk result (λ inside. (i : List ℕ) → Contains inside i
        ↔ LiesAt (sites_at sites.now) at item.now i) }
{
    let mut starts = ItemList::new(alloc, sites[at].hash_keys());
    starts.note(alloc, item)?;
    walk(alloc, sites, known, at, starts)
}

/// Whether some item is in two lists.
fn have_common(inside: &ItemList, wanted: &ItemList) -> bool
    ensures { IsTrue result ↔ HaveCommon inside.now wanted.now }
{
    for place in 0..inside.len() {
        if is_common_at(inside, wanted, place) {
            return true;
        }
    }
    false
}

/// Whether the item at a place of the one list is in the other.
fn is_common_at(inside: &ItemList, wanted: &ItemList, place: usize) -> bool
    ensures { IsTrue result ↔ IsCommonAt inside.now wanted.now place }
{
    match inside.get(place) {
        Some(item) => wanted.has(item),
        None => false,
    }
}
