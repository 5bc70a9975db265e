//! How often the events of a site name each item.
ghost use Rattle.std.specs.Prelude.{◌≡◌, List, ℕ, [], ◌∷◌, IfOk, OnOk, IsTrue, Some, Contains, length};
ghost use Rattle.std.specs.BTreeMap.{Updates};
ghost use Rattle.frame_core.specs.Numbers.{Recall};
ghost use Rattle.trace_core.specs.Spreads.{items_of};
ghost use Rattle.site_core.specs.ItemSets as set;
ghost use Rattle.site_core.specs.ItemSets.{item_cmp};
ghost use Rattle.site_core.specs.Quarantines.{held};
ghost use Rattle.query_core.specs.Mentions.{kept, mentioned, AreCounted, Keeps, Mention};

use crate::sums::plus;
use epc_core::Epc;
use event_json::Body;
use site_core::{ItemSet, Quarantine};
use std::alloc::{AllocError, Global};
use std::collections::BTreeMap;
use trace_core::Captured;

/// How many events name an item, and the place of the last one that does.
#[derive(Debug, Drop)]
pub(crate) struct Mentions {
    pub(crate) events: u64,
    pub(crate) last: usize,
}

impl Mentions {
    /// Counts the event at a place, if it isn't the last one counted.
    fn add(&mut self, place: usize) -> Result<(), AllocError>
        ensures { OnOk result (self.new ≡ mentioned place (Some self.old)) }
    {
        if self.last != place {
            self.events = plus(self.events, 1)?;
            self.last = place;
        }
        Ok(())
    }
}

/// The items that the captured events name, each with how many do. Looks at each event once.
pub(crate) fn mentions_in(
    alloc: Global,
    captured: &Captured,
) -> Result<BTreeMap<Epc, Mentions>, AllocError>
    ensures { IfOk result (λ counts. AreCounted captured.now.events
        (length captured.now.events) counts) }
{
    let mut counts = BTreeMap::new(alloc);
    for place in 0..captured.len() {
        if let Some(event) = captured.event(place) {
            mention_all_of(alloc, &mut counts, event.body(), place)?;
        }
    }
    Ok(counts)
}

/// Counts the event at a place, with this body, for each item that it names.
fn mention_all_of(
    alloc: Global,
    counts: &mut BTreeMap<Epc, Mentions>,
    body: &Body,
    place: usize,
) -> Result<(), AllocError>
    ensures { OnOk result (Mention counts.old counts.new place (items_of body.now)) }
{
    match body {
        Body::Note { items } => mention_all(alloc, counts, items.as_slice(), place),
        Body::Ship { items, .. } => mention_all(alloc, counts, items.as_slice(), place),
        Body::Make { ins, outs, .. } => {
            mention_all(alloc, counts, ins.as_slice(), place)?;
            mention_all(alloc, counts, outs.as_slice(), place)
        }
        Body::Pack {
            parent,
            children,
            ..
        } => {
            if let Some(item) = parent {
                mention(alloc, counts, item, place)?;
            }
            mention_all(alloc, counts, children.as_slice(), place)
        }
    }
}

/// Counts the event at a place for each of these items.
fn mention_all(
    alloc: Global,
    counts: &mut BTreeMap<Epc, Mentions>,
    items: &[Epc],
    place: usize,
) -> Result<(), AllocError>
    ensures { OnOk result (Mention counts.old counts.new place items.now) }
{
    for item in items {
        mention(alloc, counts, item, place)?;
    }
    Ok(())
}

/// Counts the event at a place for an item.
fn mention(
    alloc: Global,
    counts: &mut BTreeMap<Epc, Mentions>,
    item: &Epc,
    place: usize,
) -> Result<(), AllocError>
    ensures { OnOk result (Updates item_cmp counts.old counts.new item.now
        (Some (mentioned place (kept counts.old item.now)))) }
{
    if let Some(mentions) = counts.get_mut(item) {
        return mentions.add(place);
    }
    let own = item.copy(alloc)?;
    let first = Mentions {
        events: 1,
        last: place,
    };
    counts.insert(own, first)?;
    Ok(())
}

/// Keeps the items that are quarantined, too, whether or not an event names them.
pub(crate) fn keep_quarantined(
    alloc: Global,
    counts: &mut BTreeMap<Epc, Mentions>,
    quarantine: &Quarantine,
) -> Result<(), AllocError>
    ensures { OnOk result (Keeps counts.old counts.new (λ i. (r : Recall)
        × IsTrue (held quarantine.now r i))) }
{
    for (_, items) in quarantine.by_recall() {
        keep_all(alloc, counts, items)?;
    }
    Ok(())
}

/// Keeps these items, too.
fn keep_all(
    alloc: Global,
    counts: &mut BTreeMap<Epc, Mentions>,
    items: &ItemSet,
) -> Result<(), AllocError>
    ensures { OnOk result (Keeps counts.old counts.new (λ i. Contains (set.items items.now) i)) }
{
    for item in items.items() {
        keep(alloc, counts, item)?;
    }
    Ok(())
}

/// Keeps an item, too.
fn keep(alloc: Global, counts: &mut BTreeMap<Epc, Mentions>, item: &Epc) -> Result<(), AllocError>
    ensures { OnOk result (Keeps counts.old counts.new (λ i. item.now ≡ i)) }
{
    if counts.contains_key(item) {
        return Ok(());
    }
    let own = item.copy(alloc)?;
    let none = Mentions { events: 0, last: 0 };
    counts.insert(own, none)?;
    Ok(())
}
