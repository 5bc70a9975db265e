//! The items that a site knows.
ghost use Rattle.std.specs.Prelude.{◌≡◌, ◌↔◌, IfOk};
ghost use Rattle.std.specs.BTreeMap.{IsOrdered};
ghost use Rattle.site_core.specs.ItemSets.{item_cmp};
ghost use Rattle.query_core.specs.KnownItems.{AreKnownItems};
ghost use Rattle.query_core.specs.Counted.{counted_items, told_among};
ghost use Rattle.query_core.specs.Mentions.{counted, is_inside, kept, told};

use crate::mentions::{Mentions, keep_quarantined, mentions_in};
use epc_core::Epc;
use site_core::SiteState;
use std::alloc::{AllocError, Global};
use std::collections::BTreeMap;

/// An item that a site knows: events of the site name it, or it is quarantined there.
#[derive(Debug, Drop)]
pub struct KnownItem {
    pub item: Epc,
    /// How many of the captured events name it.
    pub events: u64,
}

/// The items that a site knows and in whose keys the text stands, in whatever place, by their keys, each with the
/// number of captured events that name it. The empty text stands in each key.
///
/// An item's key is `sgtin`, its GTIN-14 and its serial number, or `sscc` and its SSCC-18, or `uri` and its text, with
/// one space between the words. Looks at each event and at each quarantined item once.
///
/// # Errors
/// Out of memory.
pub fn known_items_with(
    alloc: Global,
    state: &SiteState,
    text: &str,
) -> Result<Vec<KnownItem>, AllocError>
    ensures { IfOk result (λ items. AreKnownItems state.now text.now items.items) }
{
    let mut counts = mentions_in(alloc, state.captured())?;
    keep_quarantined(alloc, &mut counts, state.quarantine())?;
    those_with(alloc, counts, text)
}

/// The items in whose keys the text stands.
fn those_with(
    alloc: Global,
    counts: BTreeMap<Epc, Mentions>,
    text: &str,
) -> Result<Vec<KnownItem>, AllocError>
    ensures told { IfOk result (λ items. items.items ≡ told text.now counts.entries) }
    ensures ordered { IfOk result (λ _. IsOrdered item_cmp counts) }
{
    let mut items = Vec::new(alloc);
    for (item, mentions) in counts {
        if has_inside(alloc, &item, text)? {
            items.push(KnownItem {
                item,
                events: mentions.events,
            })?;
        }
    }
    Ok(items)
}

/// Those of some items in whose keys the text stands, in their order, each with the number of events that the site
/// captured and that name it: 0 where it doesn't know the item.
///
/// # Errors
/// Out of memory.
pub fn counted_items(
    alloc: Global,
    state: &SiteState,
    items: Vec<Epc>,
    text: &str,
) -> Result<Vec<KnownItem>, AllocError>
    ensures { IfOk result (λ known. known.items
        ≡ counted_items state.now.captured.events text.now items.items) }
{
    let counts = mentions_in(alloc, state.captured())?;
    those_counted(alloc, &counts, items, text)
}

/// Those of the items in whose keys the text stands, by what was counted.
fn those_counted(
    alloc: Global,
    counts: &BTreeMap<Epc, Mentions>,
    items: Vec<Epc>,
    text: &str,
) -> Result<Vec<KnownItem>, AllocError>
    ensures { IfOk result (λ known. known.items
        ≡ told_among counts.now text.now items.items) }
{
    let mut known = Vec::new(alloc);
    for item in items {
        if has_inside(alloc, &item, text)? {
            let events = count_of(counts, &item);
            known.push(KnownItem { item, events })?;
        }
    }
    Ok(known)
}

/// How many events were counted that name an item.
fn count_of(counts: &BTreeMap<Epc, Mentions>, item: &Epc) -> u64
    ensures { result ≡ counted (kept counts.now item.now) }
{
    match counts.get(item) {
        Some(mentions) => mentions.events,
        None => 0,
    }
}

/// Whether the text stands in the item's key.
fn has_inside(alloc: Global, item: &Epc, text: &str) -> Result<bool, AllocError>
    ensures { IfOk result (λ inside. inside ≡ is_inside text.now item.now) }
{
    let key = item.key(alloc)?;
    Ok(key.as_str().contains(text))
}
