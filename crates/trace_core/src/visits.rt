//! What a search notes at one item: the sites that it was shipped to, and what is made of it.
ghost use Rattle.std.specs.Prelude.{◌≡◌, ℕ, List, true, Some, OnOk, slice_get, sum_by};
ghost use Rattle.std.specs.List.{flat_map};
ghost use Rattle.event_json.specs.Events.{Content};
ghost use Rattle.trace_core.specs.Groups.{IsGiven, SeesOnly, StaysSeen, HasSeenTakers, IsSeenAt, SeesAt, SeesTakers, outputs_at, group_outputs, LooksAtUnseen, made_at, IsSought};
ghost use Rattle.trace_core.specs.Looks.{one_look, LooksAtEach};
ghost use Rattle.trace_core.specs.Nodes.{NotesNodes, NotesSent, part_nodes, group_nodes, Stands, Gains};
ghost use Rattle.trace_core.specs.Numbers.{numbered};
ghost use Rattle.trace_core.specs.Pairs.{make_id};
ghost use Rattle.trace_core.specs.Sites.{SiteEvents};

use crate::books::Book;
use crate::captured::Captured;
use crate::gathering::make_id;
use crate::groups::first_part;
use crate::nodes::Nodes;
use crate::seen::Seen;
use event_json::{Body, SiteNo};
use std::alloc::AllocError;

/// Notes what the item of a number is related to at a site, at other sites where shipments are asked for, but
/// for what transformations gave that were seen before. The item is a look, and so is each output of a
/// transformation that is new.
pub fn visit_item(
    site: &Captured,
    number: usize,
    ships: bool,
    item: usize,
    seen: &mut Seen,
    nodes: &mut Nodes,
    looks: &mut u64,
) -> Result<(), AllocError>
    ensures gains { OnOk result ((sites : List SiteEvents) (i : List ℕ)
        → slice_get sites number ≡ Some site.now
        → slice_get (numbered site.now.events) item ≡ Some i
        → Gains (Stands sites) (λ groups q. IsGiven site.now number groups q) (λ q.
        IsSought ships site.now i q) seen.old seen.new nodes.old nodes.new) }
    ensures only { OnOk result (SeesOnly number seen.old seen.new) }
    ensures stays { OnOk result (StaysSeen seen.old seen.new) }
    ensures takers { OnOk result ((i : List ℕ) → slice_get (numbered site.now.events) item ≡ Some i
        → HasSeenTakers number site.now.events seen.new i) }
    ensures new { OnOk result ((i : List ℕ) → slice_get (numbered site.now.events) item ≡ Some i
        → SeesTakers number site.now.events seen.old seen.new i) }
    ensures looks { OnOk result (
        LooksAtUnseen number site.now.events seen.old seen.new (one_look looks.old) looks.new) }
{
    let book = site.book();
    note_sent(site.me(), book, number, ships, item, nodes)?;
    for place in book.takers_at(item, looks) {
        visit_make(site.me(), book, number, *place, seen, nodes, looks)?;
    }
    Ok(())
}

/// Notes an item at each other site that it was shipped to, where shipments are asked for.
fn note_sent(
    me: SiteNo,
    book: &Book,
    number: usize,
    ships: bool,
    item: usize,
    nodes: &mut Nodes,
) -> Result<(), AllocError>
    ensures { OnOk result ((i : List ℕ) → slice_get (numbered book.now) item ≡ Some i
        → NotesSent ships me book.now number item i nodes.old nodes.new) }
{
    if !ships {
        return Ok(());
    }
    nodes.note_destinations(me, number, item, book.item_count(), book.sites_at(item))
}

/// Notes the outputs of the transformation whose part stands at a place, unless it was seen before.
fn visit_make(
    me: SiteNo,
    book: &Book,
    number: usize,
    place: usize,
    seen: &mut Seen,
    nodes: &mut Nodes,
    looks: &mut u64,
) -> Result<(), AllocError>
    ensures gains { OnOk result ((sites : List SiteEvents)
        → slice_get sites number ≡ Some (record { me = me; events = book.now })
        → Gains (Stands sites) (λ groups q.
        IsGiven (record { me = me; events = book.now }) number groups q) (λ q.
        made_at me book.now place q ≡ true) seen.old seen.new nodes.old nodes.new) }
    ensures only { OnOk result (SeesOnly number seen.old seen.new) }
    ensures stays { OnOk result (StaysSeen seen.old seen.new) }
    ensures seen { OnOk result (IsSeenAt number book.now seen.new place) }
    ensures new { OnOk result (SeesAt number book.now seen.old seen.new place) }
    ensures looks { OnOk result (LooksAtUnseen number book.now seen.old seen.new looks.old
        looks.new) }
{
    if let Some(event) = book.get(place) {
        let first = first_part(book, place, event.body());
        if seen.see(number, first, book.len())? {
            note_group(me, book, number, place, event.body(), nodes, looks)?;
        }
    }
    Ok(())
}

/// Notes all outputs of the transformation at a place: of each part with its id, and its own where it has
/// none. Each is a look.
fn note_group(
    me: SiteNo,
    book: &Book,
    number: usize,
    place: usize,
    body: &Body,
    nodes: &mut Nodes,
    looks: &mut u64,
) -> Result<(), AllocError>
    ensures noted { OnOk result (NotesNodes nodes.old nodes.new
        (group_nodes me book.now number place body.now (make_id body.now))) }
    ensures looks { OnOk result ((e : Content) → slice_get book.now place ≡ Some e
        → e.body ≡ body.now → LooksAtEach (group_outputs book.now body.now (make_id body.now))
        looks.old looks.new) }
{
    match make_id(body) {
        Some(_) => note_parts(me, book, number, book.parts_of(make_id(body)), nodes, looks),
        None => {
            let outs = book.outs_at(place, looks);
            nodes.note_outputs(me, number, book.item_count(), outs)
        }
    }
}

/// Notes the outputs of the transformations at some places. Each is a look.
fn note_parts(
    me: SiteNo,
    book: &Book,
    number: usize,
    places: &[usize],
    nodes: &mut Nodes,
    looks: &mut u64,
) -> Result<(), AllocError>
    ensures noted { OnOk result (NotesNodes nodes.old nodes.new
        (flat_map (λ k. part_nodes me book.now number k) places.now)) }
    ensures looks { OnOk result (LooksAtEach
        (sum_by (λ k. outputs_at (slice_get book.now k)) places.now) looks.old looks.new) }
{
    for place in places {
        let outs = book.outs_at(*place, looks);
        nodes.note_outputs(me, number, book.item_count(), outs)?;
    }
    Ok(())
}
