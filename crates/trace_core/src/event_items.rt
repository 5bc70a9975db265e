//! The items of an event: how they get their numbers, and how the transformations that take them in are noted and
//! taken back.
ghost use Rattle.std.specs.Prelude.{◌≡◌, ◌++◌, [], List, IfOk, OnOk, OnErr, ℕ, length, option_map};
ghost use Rattle.trace_core.specs.Indexes.{KnowsItems, KnowsSomeItems, NotesItems, NotesSomeItems, KeepsItems, ForgetsPlace, ForgetsItems};
ghost use Rattle.trace_core.specs.Numbers.{names_of, numbers_of, outs_in, moved_in};
ghost use Rattle.trace_core.specs.PairTests.{lists};
ghost use Rattle.trace_core.specs.PutIn.{filled, parent_number};
ghost use Rattle.trace_core.specs.Spreads.{items_of, ins_in, parents};

use crate::items::Items;
use crate::numbers::Numbers;
use epc_core::Epc;
use event_json::{Action, Body};
use std::alloc::{AllocError, Global};

/// What is kept of the members of an event.
#[derive(Debug, Drop)]
pub struct Members {
    /// How many items were known before it.
    pub known: usize,
    /// The numbers of the outputs, if it is a transformation.
    pub outs: Numbers,
}

/// Notes that the transformation at a place takes items in. After an `Err` some of them are noted.
fn note_inputs(
    alloc: Global,
    known: &mut Items,
    items: &[Epc],
    place: usize,
) -> Result<(), AllocError>
    ensures ok { OnOk result (NotesItems known.old known.new place items.now items.now) }
    ensures err { OnErr result (NotesSomeItems known.old known.new place items.now) }
{
    for item in items {
        known.note(alloc, item, place)?;
    }
    Ok(())
}

/// Gives numbers to items. After an `Err` some of them have one.
fn know_items(alloc: Global, known: &mut Items, items: &[Epc]) -> Result<(), AllocError>
    ensures ok { OnOk result (KnowsItems known.old known.new items.now) }
    ensures err { OnErr result (KnowsSomeItems known.old known.new) }
{
    for item in items {
        known.know(alloc, item)?;
    }
    Ok(())
}

/// Gives numbers to items, and returns these in their order. After an `Err` some of the items have one.
fn know_numbers(alloc: Global, known: &mut Items, items: &[Epc]) -> Result<Numbers, AllocError>
    ensures ok { OnOk result (KnowsItems known.old known.new items.now) }
    ensures numbers { IfOk result (λ numbers. numbers ≡ numbers_of (names_of known.new) items.now) }
    ensures err { OnErr result (KnowsSomeItems known.old known.new) }
{
    let mut numbers = Numbers::new(alloc);
    numbers.reserve(items.len())?;
    for item in items {
        let number = known.know(alloc, item)?;
        numbers.push(number)?;
    }
    Ok(numbers)
}

/// Notes the inputs of the transformation at a place, and gives its outputs numbers, which are returned. After an
/// `Err` some of that is done.
fn note_made(
    alloc: Global,
    known: &mut Items,
    ins: &[Epc],
    outs: &[Epc],
    place: usize,
) -> Result<Numbers, AllocError>
    ensures ok { OnOk result (NotesItems known.old known.new place (ins.now ++ outs.now) ins.now) }
    ensures numbers { IfOk result (λ numbers. numbers ≡ numbers_of (names_of known.new) outs.now) }
    ensures err { OnErr result (NotesSomeItems known.old known.new place ins.now) }
{
    note_inputs(alloc, known, ins, place)?;
    know_numbers(alloc, known, outs)
}

/// Gives numbers to items that are only observed, and returns none. After an `Err` some of the items have one.
fn know_observed(alloc: Global, known: &mut Items, items: &[Epc]) -> Result<Numbers, AllocError>
    ensures ok { OnOk result (KnowsItems known.old known.new items.now) }
    ensures none { IfOk result (λ numbers. numbers ≡ []) }
    ensures err { OnErr result (KnowsSomeItems known.old known.new) }
{
    know_items(alloc, known, items)?;
    Ok(Numbers::new(alloc))
}

/// Gives a parent a number, where there is one. After an `Err` it has none that it didn't have.
fn know_parent(alloc: Global, known: &mut Items, parent: &Option<Epc>) -> Result<(), AllocError>
    ensures ok { OnOk result (KnowsItems known.old known.new (parents parent.now)) }
    ensures err { OnErr result (KnowsSomeItems known.old known.new) }
{
    if let Some(item) = parent {
        known.know(alloc, item)?;
    }
    Ok(())
}

/// Gives a parent, where there is one, and children numbers, and returns those of the children. After an `Err` some of
/// the items have one.
fn know_packed(
    alloc: Global,
    known: &mut Items,
    parent: &Option<Epc>,
    children: &[Epc],
) -> Result<Numbers, AllocError>
    ensures ok { OnOk result (KnowsItems known.old known.new (parents parent.now ++ children.now)) }
    ensures numbers { IfOk result (λ numbers.
        numbers ≡ numbers_of (names_of known.new) children.now) }
    ensures err { OnErr result (KnowsSomeItems known.old known.new) }
{
    know_parent(alloc, known, parent)?;
    know_numbers(alloc, known, children)
}

/// Gives the items of the event at a place numbers and notes its inputs. Returns the numbers of the items that it
/// ships, makes or names as children. After an `Err` some of that is done.
fn note_some_of(
    alloc: Global,
    known: &mut Items,
    body: &Body,
    place: usize,
) -> Result<Numbers, AllocError>
    ensures ok { OnOk result (NotesItems known.old known.new place (items_of body.now)
        (ins_in body.now)) }
    ensures numbers { IfOk result (λ numbers. numbers ≡ numbers_of (names_of known.new)
        (moved_in body.now)) }
    ensures err { OnErr result (NotesSomeItems known.old known.new place (ins_in body.now)) }
{
    match body {
        Body::Note { items } => know_observed(alloc, known, items.as_slice()),
        Body::Ship { items, .. } => know_numbers(alloc, known, items.as_slice()),
        Body::Make { ins, outs, .. } => {
            note_made(alloc, known, ins.as_slice(), outs.as_slice(), place)
        }
        Body::Pack {
            parent,
            children,
            ..
        } => know_packed(alloc, known, parent, children.as_slice()),
    }
}

/// Gives the items of the event at a place numbers and notes its inputs. Returns the numbers of the items that it
/// ships, makes or names as children. After an `Err` none is noted, and no item is new.
pub fn note_items_of(
    alloc: Global,
    known: &mut Items,
    body: &Body,
    place: usize,
) -> Result<Numbers, AllocError>
    ensures ok { OnOk result (NotesItems known.old known.new place (items_of body.now)
        (ins_in body.now)) }
    ensures numbers { IfOk result (λ numbers. numbers ≡ numbers_of (names_of known.new)
        (moved_in body.now)) }
    ensures err { OnErr result (KeepsItems known.old known.new place) }
{
    let before = known.len();
    match note_some_of(alloc, known, body, place) {
        Ok(numbers) => Ok(numbers),
        Err(_) => {
            forget_items_of(known, body, place, before);
            Err(AllocError)
        }
    }
}

/// The numbers that are kept of an event: those of the outputs of a transformation.
pub fn kept_numbers(alloc: Global, body: &Body, numbers: Numbers) -> Numbers
    ensures { (names : List (List ℕ)) → numbers ≡ numbers_of names (moved_in body.now)
        → result ≡ numbers_of names (outs_in body.now) }
{
    match body {
        Body::Make { .. } => numbers,
        _ => Numbers::new(alloc),
    }
}

/// The item that an event puts others into.
fn filled(body: &Body) -> Option<&Epc>
    ensures { option_map (λ i. i.now) result ≡ filled body.now }
{
    match body {
        Body::Pack {
            action: Action::Add,
            parent,
            ..
        } => parent.as_ref(),
        _ => None,
    }
}

/// The number of the item that an event puts others into.
pub fn parent_number(known: &Items, body: &Body) -> Option<usize>
    ensures { result ≡ parent_number (names_of known.now) body.now }
{
    match filled(body) {
        Some(parent) => known.number(parent),
        None => None,
    }
}

/// How many items an event ships, makes or names as children.
pub fn moved_count(body: &Body) -> usize
    ensures { result ≡ length (moved_in body.now) }
{
    match body {
        Body::Note { .. } => 0,
        Body::Ship { items, .. } => items.as_slice().len(),
        Body::Make { outs, .. } => outs.as_slice().len(),
        Body::Pack { children, .. } => children.as_slice().len(),
    }
}

/// Takes a place away from items. Does not allocate.
fn forget_items(known: &mut Items, items: &[Epc], place: usize)
    ensures { ForgetsPlace known.old known.new place (lists items.now) }
{
    for item in items {
        known.forget(item, place);
    }
}

/// Takes a place away from the inputs of the transformation there. Does not allocate.
fn forget_place(known: &mut Items, body: &Body, place: usize)
    ensures { ForgetsPlace known.old known.new place (lists (ins_in body.now)) }
{
    if let Body::Make { ins, .. } = body {
        forget_items(known, ins.as_slice(), place);
    }
}

/// Takes a place away from the inputs of the transformation there, and leaves those items alone that were known
/// before. Does not allocate.
pub fn forget_items_of(known: &mut Items, body: &Body, place: usize, before: usize)
    ensures { ForgetsItems known.old known.new place (lists (ins_in body.now)) before }
{
    forget_place(known, body, place);
    known.truncate(before);
}
