//! The rows of the captured events and of their lists.
ghost use Rattle.std.specs.Prelude.{◌≡◌, ◌≤◌, ◌++◌, ◌∷◌, ◌+◌, [], drop, flat_map, map, length, option_map, pos, All, IfOk, IfSome, OnOk};
ghost use Rattle.std.specs.List.{enumerate_from};
ghost use Rattle.event_json.specs.Contents.{kind_of, id_of, number_of};
ghost use Rattle.site_rows.specs.RecordRows.{event_row, part_row, part_rows, body_rows, parts_of, pack_rows, packs_of, packed_row, packed_rows, children_of, name_of};
ghost use Rattle.site_rows.specs.EventTexts.{EachFrom, HasPlainIds, HasParts, HasParent, HasChildren};
ghost use Rattle.site_rows.specs.Texts.{IsItemText, IsPlainText, IsTextOrNone};

use crate::numbers::stored;
use crate::rows::{EventRow, PackRow, PackedRow, PartRow};
use crate::texts::Text;
use epc_core::Epc;
use event_json::{Action, Body, Event, PlainText, Sequence, SiteNo, Sites};
use std::alloc::{AllocError, Global};
use trace_core::Captured;

/// A second has as many nanoseconds.
const SECOND: i128 = 1_000_000_000;

/// The roles of the members of an event's lists.
pub(crate) const ITEM: u64 = 0;

pub(crate) const SITE: u64 = 1;

pub(crate) const OUTSIDE: u64 = 2;

pub(crate) const INPUT: u64 = 3;

pub(crate) const OUTPUT: u64 = 4;

/// The kind of an event by its number: 0 a Note, 1 a Ship, 2 a Make, 3 a Pack.
fn kind_of(body: &Body) -> i64
    ensures { result ≡ pos (kind_of body.now) }
{
    match body {
        Body::Note { .. } => 0,
        Body::Ship { .. } => 1,
        Body::Make { .. } => 2,
        Body::Pack { .. } => 3,
    }
}

/// A copy of a text, where there is one.
fn text_of(alloc: Global, text: Option<&PlainText>) -> Result<Option<Text>, AllocError>
    ensures value { IfOk result (λ copy. copy ≡ option_map (λ t. t.now) text.entry) }
    ensures plain { IsTextOrNone (option_map (λ t. t.now) text.entry) }
{
    match text {
        Some(text) => Ok(Some(Text::of_plain(alloc, text)?)),
        None => Ok(None),
    }
}

/// The transformationID of an event that makes items, where it has one.
fn make_id_of(alloc: Global, body: &Body) -> Result<Option<Text>, AllocError>
    ensures value { IfOk result (λ copy. copy ≡ id_of body.now) }
    ensures plain { IsTextOrNone (id_of body.now) }
{
    match body {
        Body::Make { id, .. } => text_of(alloc, id.as_ref()),
        Body::Note { .. } | Body::Ship { .. } | Body::Pack { .. } => Ok(None),
    }
}

/// The row of an event of this number.
fn event_row(alloc: Global, number: u64, event: &Event) -> Result<EventRow, AllocError>
    ensures row { IfOk result (λ row. row ≡ event_row (number, event.now)) }
    ensures ids { IfOk result (λ _. HasPlainIds event.now) }
{
    let instant = event.instant();
    Ok(EventRow {
        no: stored(number)?,
        id: text_of(alloc, event.id())?,
        seconds: instant.div_euclid(SECOND) as i64,
        nanos: instant.rem_euclid(SECOND) as i64,
        kind: kind_of(event.body()),
        make_id: make_id_of(alloc, event.body())?,
    })
}

/// The rows of the captured events from this place on, which counts from 0, by number.
pub fn event_rows(
    alloc: Global,
    captured: &Captured,
    from: usize,
) -> Result<Sequence<EventRow>, AllocError>
    ensures rows { IfOk result (λ rows.
        rows ≡ map event_row (enumerate_from (from + 1) (drop from captured.now.events))) }
    ensures ids { IfOk result (λ _. EachFrom HasPlainIds from captured.now.events) }
{
    let mut rows = Vec::new(alloc);
    for place in from..captured.len() {
        if let Some(event) = captured.event(place) {
            rows.push(event_row(alloc, place as u64 + 1, event)?)?;
        }
    }
    Ok(Sequence::from_vec(rows))
}

/// The row of a member of a list.
fn part_row(event: u64, role: u64, place: u64, text: Text) -> Result<PartRow, AllocError>
    ensures { IfOk result (λ row. row ≡ part_row event role (place, text)) }
{
    Ok(PartRow {
        event: stored(event)?,
        role: stored(role)?,
        place: stored(place)?,
        text,
    })
}

/// Adds a list of items.
fn push_items(
    alloc: Global,
    rows: &mut Vec<PartRow>,
    event: u64,
    role: u64,
    items: &[Epc],
) -> Result<(), AllocError>
    ensures rows { OnOk result (rows.new.items ≡ rows.old.items ++ part_rows event role items.now) }
    ensures items { OnOk result (All IsItemText items.now) }
{
    for (place, item) in items.iter().enumerate() {
        let key = Text::of_item(alloc, item)?;
        rows.push(part_row(event, role, place as u64, key)?)?;
    }
    Ok(())
}

/// The name of a site.
fn name_of(alloc: Global, sites: &Sites, site: SiteNo) -> Result<Text, AllocError>
    ensures { IfOk result (λ name. name ≡ name_of sites.now site) }
{
    match sites.name(site) {
        Some(name) => Text::of(alloc, name),
        None => Text::of(alloc, ""),
    }
}

/// Adds a list of sites, by their names.
fn push_sites(
    alloc: Global,
    rows: &mut Vec<PartRow>,
    event: u64,
    sites: &Sites,
    to: &[SiteNo],
) -> Result<(), AllocError>
    ensures { OnOk result (rows.new.items ≡ rows.old.items ++ part_rows event 1
        (map (name_of sites.now) to.now)) }
{
    for (place, site) in to.iter().enumerate() {
        let name = name_of(alloc, sites, *site)?;
        rows.push(part_row(event, SITE, place as u64, name)?)?;
    }
    Ok(())
}

/// Adds a list of destinations outside.
fn push_outside(
    alloc: Global,
    rows: &mut Vec<PartRow>,
    event: u64,
    outside: &[PlainText],
) -> Result<(), AllocError>
    ensures rows { OnOk result (rows.new.items ≡ rows.old.items ++ part_rows event 2 outside.now) }
    ensures plain { OnOk result (All IsPlainText outside.now) }
{
    for (place, text) in outside.iter().enumerate() {
        let text = Text::of_plain(alloc, text)?;
        rows.push(part_row(event, OUTSIDE, place as u64, text)?)?;
    }
    Ok(())
}

/// Adds the lists of an event of this number.
fn push_body(
    alloc: Global,
    rows: &mut Vec<PartRow>,
    event: u64,
    sites: &Sites,
    body: &Body,
) -> Result<(), AllocError>
    ensures rows { OnOk result (rows.new.items
        ≡ rows.old.items ++ body_rows sites.now event body.now) }
    ensures parts { OnOk result (HasParts body.now) }
{
    match body {
        Body::Note { items } => push_items(alloc, rows, event, ITEM, items.as_slice()),
        Body::Ship {
            items,
            sites: to,
            outside,
        } => {
            push_items(alloc, rows, event, ITEM, items.as_slice())?;
            push_sites(alloc, rows, event, sites, to.as_slice())?;
            push_outside(alloc, rows, event, outside.as_slice())
        }
        Body::Make { ins, outs, .. } => {
            push_items(alloc, rows, event, INPUT, ins.as_slice())?;
            push_items(alloc, rows, event, OUTPUT, outs.as_slice())
        }
        // Its children stand in a table of their own.
        Body::Pack { .. } => Ok(()),
    }
}

/// The rows of the lists of the captured events from this place on, which counts from 0, by event, role and place.
pub fn part_rows(
    alloc: Global,
    sites: &Sites,
    captured: &Captured,
    from: usize,
) -> Result<Sequence<PartRow>, AllocError>
    ensures rows { IfOk result (λ rows. rows ≡ flat_map (parts_of sites.now)
        (enumerate_from (from + 1) (drop from captured.now.events))) }
    ensures parts { IfOk result (λ _. EachFrom (λ e. HasParts e.body) from captured.now.events) }
{
    let mut rows = Vec::new(alloc);
    for place in from..captured.len() {
        if let Some(event) = captured.event(place) {
            push_body(alloc, &mut rows, place as u64 + 1, sites, event.body())?;
        }
    }
    Ok(Sequence::from_vec(rows))
}

/// An action by its number: 0 ADD, 1 OBSERVE, 2 DELETE.
fn number_of(action: Action) -> i64
    ensures { result ≡ pos (number_of action) }
{
    match action {
        Action::Add => 0,
        Action::Observe => 1,
        Action::Delete => 2,
    }
}

/// The key of an item, where there is one.
fn key_of(alloc: Global, item: &Option<Epc>) -> Result<Option<Text>, AllocError>
    ensures value { IfOk result (λ key. key ≡ item.now) }
    ensures item { IfSome item.now IsItemText }
{
    match item {
        Some(item) => Ok(Some(Text::of_item(alloc, item)?)),
        None => Ok(None),
    }
}

/// Adds the action and the parent of an event of this number, where it is a pack.
fn push_pack(
    alloc: Global,
    rows: &mut Vec<PackRow>,
    event: u64,
    body: &Body,
) -> Result<(), AllocError>
    ensures rows { OnOk result (rows.new.items ≡ rows.old.items ++ pack_rows event body.now) }
    ensures parent { OnOk result (HasParent body.now) }
{
    match body {
        Body::Pack { action, parent, .. } => {
            rows.push(PackRow {
                event: stored(event)?,
                action: number_of(*action),
                parent: key_of(alloc, parent)?,
            })?;
            Ok(())
        }
        Body::Note { .. } | Body::Ship { .. } | Body::Make { .. } => Ok(()),
    }
}

/// The rows of the actions and the parents of the captured packs from this place on, which counts from 0, by event.
pub fn pack_rows(
    alloc: Global,
    captured: &Captured,
    from: usize,
) -> Result<Sequence<PackRow>, AllocError>
    ensures rows { IfOk result (λ rows.
        rows ≡ flat_map packs_of (enumerate_from (from + 1) (drop from captured.now.events))) }
    ensures parents { IfOk result (λ _. EachFrom (λ e. HasParent e.body) from captured.now.events) }
{
    let mut rows = Vec::new(alloc);
    for place in from..captured.len() {
        if let Some(event) = captured.event(place) {
            push_pack(alloc, &mut rows, place as u64 + 1, event.body())?;
        }
    }
    Ok(Sequence::from_vec(rows))
}

/// The row of a child.
fn packed_row(event: u64, place: u64, text: Text) -> Result<PackedRow, AllocError>
    ensures { IfOk result (λ row. row ≡ packed_row event (place, text)) }
{
    Ok(PackedRow {
        event: stored(event)?,
        place: stored(place)?,
        text,
    })
}

/// Adds the children of an event.
fn push_children(
    alloc: Global,
    rows: &mut Vec<PackedRow>,
    event: u64,
    children: &[Epc],
) -> Result<(), AllocError>
    ensures rows { OnOk result (rows.new.items ≡ rows.old.items ++ map (packed_row event)
        (enumerate_from 0 children.now)) }
    ensures items { OnOk result (All IsItemText children.now) }
{
    for (place, item) in children.iter().enumerate() {
        let key = Text::of_item(alloc, item)?;
        rows.push(packed_row(event, place as u64, key)?)?;
    }
    Ok(())
}

/// Adds the children of an event of this number, where it is a pack.
fn push_packed(
    alloc: Global,
    rows: &mut Vec<PackedRow>,
    event: u64,
    body: &Body,
) -> Result<(), AllocError>
    ensures rows { OnOk result (rows.new.items ≡ rows.old.items ++ packed_rows event body.now) }
    ensures children { OnOk result (HasChildren body.now) }
{
    match body {
        Body::Pack { children, .. } => push_children(alloc, rows, event, children.as_slice()),
        Body::Note { .. } | Body::Ship { .. } | Body::Make { .. } => Ok(()),
    }
}

/// The rows of the children of the captured packs from this place on, which counts from 0, by event and place.
pub fn packed_rows(
    alloc: Global,
    captured: &Captured,
    from: usize,
) -> Result<Sequence<PackedRow>, AllocError>
    ensures rows { IfOk result (λ rows.
        rows ≡ flat_map children_of (enumerate_from (from + 1) (drop from captured.now.events))) }
    ensures children { IfOk result (λ _.
        EachFrom (λ e. HasChildren e.body) from captured.now.events) }
{
    let mut rows = Vec::new(alloc);
    for place in from..captured.len() {
        if let Some(event) = captured.event(place) {
            push_packed(alloc, &mut rows, place as u64 + 1, event.body())?;
        }
    }
    Ok(Sequence::from_vec(rows))
}
