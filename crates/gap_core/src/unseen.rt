//! Shipments of which the site that they went to tells nothing.
ghost use Rattle.std.specs.Prelude.{◌≡◌, ◌↔◌, ◌++◌, ◌∷◌, [], IfOk, OnOk, Contains};
ghost use Rattle.std.specs.List.Sorted.{IsStrictlySortedBy};
ghost use Rattle.trace_core.specs.Chains.{sites_at};
ghost use Rattle.gap_core.specs.Adding.{AddsToList, ByOne, ByOneAt};
ghost use Rattle.gap_core.specs.Unseen.{IsUnseen, IsUnseenBetween, IsUnseenOf, unseen_item_cmp};
ghost use Rattle.gap_core.specs.declared.unseen.UnseenItem.{UnseenItem};

use crate::item_lists::ItemList;
use crate::searches::starts_to;
use epc_core::Epc;
use event_json::SiteNo;
use std::alloc::{AllocError, Global};
use trace_core::{Captured, in_order};

/// An item that was shipped to a site of which no event names it.
#[derive(Debug, Drop, PartialEq, Eq, PartialOrd, Ord)]
pub struct UnseenItem {
    /// The site that it was shipped to.
    pub site: SiteNo,
    /// The item.
    pub item: Epc,
    /// The site that shipped it.
    pub from: SiteNo,
}

/// All items that sites shipped to others of which no event names them: by the site that they went to, then by item,
/// then by the site that shipped them, each once.
///
/// # Errors
/// Out of memory.
pub fn unseen_items(alloc: Global, sites: &[&Captured]) -> Result<Vec<UnseenItem>, AllocError>
    ensures ascending { IfOk result (λ items. IsStrictlySortedBy unseen_item_cmp items.items) }
    ensures exact { IfOk result (λ items. (u : UnseenItem) → Contains items.items u
        ↔ IsUnseen (sites_at sites.now) u) }
{
    let mut items = Vec::new(alloc);
    for from in sites {
        note_sender(alloc, from, sites, &mut items)?;
    }
    in_order(items)
}

/// Notes what a site shipped to others that they tell nothing of.
fn note_sender(
    alloc: Global,
    from: &Captured,
    sites: &[&Captured],
    items: &mut Vec<UnseenItem>,
) -> Result<(), AllocError>
    ensures { OnOk result (AddsToList items.old.items items.new.items
        (ByOne (sites_at sites.now) (IsUnseenBetween from.now))) }
{
    for to in sites {
        note_between(alloc, from, to, items)?;
    }
    Ok(())
}

/// Notes what a site shipped to another one that tells nothing of it.
fn note_between(
    alloc: Global,
    from: &Captured,
    to: &Captured,
    items: &mut Vec<UnseenItem>,
) -> Result<(), AllocError>
    ensures { OnOk result (AddsToList items.old.items items.new.items
        (IsUnseenBetween from.now to.now)) }
{
    if from.me() == to.me() {
        return Ok(());
    }
    let sent = starts_to(alloc, from, to)?;
    note_all(alloc, from.me(), to, &sent, items)
}

/// Notes those of some items that a site tells nothing of.
fn note_all(
    alloc: Global,
    from: SiteNo,
    to: &Captured,
    sent: &ItemList,
    items: &mut Vec<UnseenItem>,
) -> Result<(), AllocError>
    ensures { OnOk result (AddsToList items.old.items items.new.items
        (ByOne sent.now (IsUnseenOf from to.now))) }
{
    for place in 0..sent.len() {
        note_at(alloc, from, to, sent, place, items)?;
    }
    Ok(())
}

/// Notes the item at a place of a list, if a site tells nothing of it.
fn note_at(
    alloc: Global,
    from: SiteNo,
    to: &Captured,
    sent: &ItemList,
    place: usize,
    items: &mut Vec<UnseenItem>,
) -> Result<(), AllocError>
    ensures { OnOk result (AddsToList items.old.items items.new.items
        (ByOneAt sent.now (IsUnseenOf from to.now) place)) }
{
    match sent.get(place) {
        Some(item) => note_item(alloc, from, to, item, items),
        None => Ok(()),
    }
}

/// Notes an item, if a site tells nothing of it.
fn note_item(
    alloc: Global,
    from: SiteNo,
    to: &Captured,
    item: &Epc,
    items: &mut Vec<UnseenItem>,
) -> Result<(), AllocError>
    ensures { OnOk result (AddsToList items.old.items items.new.items
        (IsUnseenOf from to.now item.now)) }
{
    if to.mentions(item) {
        return Ok(());
    }
    push_item(alloc, to.me(), item, from, items)
}

/// Adds an item that went to a site, from another one.
fn push_item(
    alloc: Global,
    site: SiteNo,
    item: &Epc,
    from: SiteNo,
    items: &mut Vec<UnseenItem>,
) -> Result<(), AllocError>
    ensures { OnOk result (items.new.items ≡ items.old.items ++ record {
      site = site;
      item = item.now;
      from = from;
    } ∷ []) }
{
    items.push(UnseenItem {
        site,
        item: item.copy(alloc)?,
        from,
    })?;
    Ok(())
}
