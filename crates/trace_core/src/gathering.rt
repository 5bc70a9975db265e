//! The pairs that one event more would relate an item to, gathered from the lists of the event.
ghost use Rattle.std.specs.Prelude.{◌≡◌, ◌==◌, ◌&&◌, ◌||◌, ◌∷◌, [], OnOk, length, option_map, slice_get, sum_by};
ghost use Rattle.trace_core.specs.declared.pairs.Pair.{Pair};
ghost use Rattle.trace_core.specs.Gathering.{is_in, made_by, sent_to, joined_by};
ghost use Rattle.trace_core.specs.Groups.{parts_of, outputs_at};
ghost use Rattle.trace_core.specs.Looks.{one_look, LooksAtMost};
ghost use Rattle.trace_core.specs.PairTests.{same_item, takes_in, gives_out, lists};
ghost use Rattle.trace_core.specs.Pairs.{make_id};
ghost use Rattle.trace_core.specs.Places.{at_place};
ghost use Rattle.trace_core.specs.SiteSets.{sites_in};
ghost use Rattle.trace_core.specs.Spreads.{output_count};

use crate::books::Book;
use crate::looks::count_look;
use crate::pairs::Pair;
use crate::site_sets::SiteSet;
use epc_core::Epc;
use event_json::{Body, PlainText, Sequence, SiteNo};
use std::alloc::{AllocError, Global};
use std::collections::BTreeSet;

/// Adds the outputs of the transformation that an event takes an item into: its own, and those of each Make that has
/// its id.
pub fn gather_made(
    alloc: Global,
    me: SiteNo,
    book: &Book,
    item: &Epc,
    body: &Body,
    pairs: &mut BTreeSet<Pair>,
) -> Result<(), AllocError>
    ensures { OnOk result ((p : Pair) → is_in pairs.new p
        ≡ (is_in pairs.old p || made_by me book.now item.now body.now p)) }
{
    let mut looks = 0;
    if takes_in(item, body) {
        gather_outputs(alloc, me, body, pairs, &mut looks)?;
        gather_joined(alloc, me, book, body, pairs, &mut looks)?;
    }
    Ok(())
}

/// Adds the item at each of the sites but the own one.
pub fn gather_at_sites(
    alloc: Global,
    me: SiteNo,
    item: &Epc,
    sites: SiteSet,
    pairs: &mut BTreeSet<Pair>,
) -> Result<(), AllocError>
    ensures { OnOk result ((p : Pair)
        → is_in pairs.new p ≡ (is_in pairs.old p || sent_to me item.now (sites_in sites) p)) }
{
    for number in 0..16 {
        if let Some(site) = sites.at(number) {
            gather_elsewhere(alloc, me, item, site, pairs)?;
        }
    }
    Ok(())
}

/// Adds the item at a site, unless it is the own one.
fn gather_elsewhere(
    alloc: Global,
    me: SiteNo,
    item: &Epc,
    site: SiteNo,
    pairs: &mut BTreeSet<Pair>,
) -> Result<(), AllocError>
    ensures { OnOk result ((p : Pair)
        → is_in pairs.new p ≡ (is_in pairs.old p || sent_to me item.now (site ∷ []) p)) }
{
    if site != me {
        pairs.insert(Pair {
            site,
            item: item.copy(alloc)?,
        })?;
    }
    Ok(())
}

/// Adds the outputs of each Make that has the id of this one. Each is a look.
pub fn gather_joined(
    alloc: Global,
    me: SiteNo,
    book: &Book,
    body: &Body,
    pairs: &mut BTreeSet<Pair>,
    looks: &mut u64,
) -> Result<(), AllocError>
    ensures looks { OnOk result (LooksAtMost (sum_by (λ k. outputs_at (slice_get book.now k))
        (parts_of book.now body.now)) looks.old looks.new) }
    ensures added { OnOk result ((p : Pair)
        → is_in pairs.new p ≡ (is_in pairs.old p ||
        (p.site == me && joined_by book.now body.now p.item))) }
{
    for place in book.parts_of(make_id(body)) {
        gather_outputs_at(alloc, me, book, *place, pairs, looks)?;
    }
    Ok(())
}

/// Adds the outputs of the Make at a place. Each is a look.
fn gather_outputs_at(
    alloc: Global,
    me: SiteNo,
    book: &Book,
    place: usize,
    pairs: &mut BTreeSet<Pair>,
    looks: &mut u64,
) -> Result<(), AllocError>
    ensures looks { OnOk result (LooksAtMost (outputs_at (slice_get book.now place)) looks.old
        looks.new) }
    ensures added { OnOk result ((p : Pair)
        → is_in pairs.new p ≡ (is_in pairs.old p ||
        (p.site == me && at_place (λ e. gives_out p.item e.body) (slice_get book.now place)))) }
{
    if let Some(event) = book.get(place) {
        gather_outputs(alloc, me, event.body(), pairs, looks)?;
    }
    Ok(())
}

/// Adds the outputs of a Make. Each is a look.
pub fn gather_outputs(
    alloc: Global,
    me: SiteNo,
    body: &Body,
    pairs: &mut BTreeSet<Pair>,
    looks: &mut u64,
) -> Result<(), AllocError>
    ensures looks { OnOk result (LooksAtMost (output_count body.now) looks.old looks.new) }
    ensures added { OnOk result ((p : Pair)
        → is_in pairs.new p ≡ (is_in pairs.old p || (p.site == me && gives_out p.item body.now))) }
{
    if let Body::Make { outs, .. } = body {
        gather_items(alloc, me, outs.as_slice(), pairs, looks)?;
    }
    Ok(())
}

/// Adds each of the items at a site. Each is a look.
fn gather_items(
    alloc: Global,
    me: SiteNo,
    items: &[Epc],
    pairs: &mut BTreeSet<Pair>,
    looks: &mut u64,
) -> Result<(), AllocError>
    ensures looks { OnOk result (LooksAtMost (length items.now) looks.old looks.new) }
    ensures added { OnOk result ((p : Pair)
        → is_in pairs.new p ≡ (is_in pairs.old p || (p.site == me && lists items.now p.item))) }
{
    for item in items {
        look_at_output(alloc, me, item, pairs, looks)?;
    }
    Ok(())
}

/// Looks at an output: adds it at a site.
fn look_at_output(
    alloc: Global,
    me: SiteNo,
    item: &Epc,
    pairs: &mut BTreeSet<Pair>,
    looks: &mut u64,
) -> Result<(), AllocError>
    ensures looks { looks.new ≡ one_look looks.old }
    ensures added { OnOk result ((p : Pair)
        → is_in pairs.new p ≡ (is_in pairs.old p || (p.site == me && same_item item.now p.item))) }
{
    count_look(looks);
    pairs.insert(Pair {
        site: me,
        item: item.copy(alloc)?,
    })?;
    Ok(())
}

/// Whether it is a Make of which the item is an input.
pub fn takes_in(item: &Epc, body: &Body) -> bool
    ensures { result ≡ takes_in item.now body.now }
{
    match body {
        Body::Make { ins, .. } => lists(ins, item),
        _ => false,
    }
}

/// The id of a Make, where it has one.
pub fn make_id(body: &Body) -> Option<&PlainText>
    ensures { option_map (λ t. t.now) result ≡ make_id body.now }
{
    match body {
        Body::Make { id, .. } => id.as_ref(),
        _ => None,
    }
}

/// Whether the item is one of a list.
fn lists(items: &Sequence<Epc>, item: &Epc) -> bool
    ensures { result ≡ lists items.now item.now }
{
    items.as_slice().contains(item)
}
