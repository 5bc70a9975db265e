//! The items of the numbers that a search has marked.
ghost use Rattle.std.specs.Prelude.{◌≡◌, ◌⊎◌, ◌↔◌, ℕ, List, Some, IfOk, OnOk, Contains, slice_get};
ghost use Rattle.trace_core.specs.Found.{HasNumber, items_at};
ghost use Rattle.trace_core.specs.Numbers.{numbered};

use crate::books::Book;
use crate::marks::Marks;
use epc_core::Epc;
use std::alloc::{AllocError, Global};
use std::collections::BTreeSet;

/// The items of these numbers. Where they are many of a book's, all its numbers are gone through, and the items
/// are sorted.
pub fn items_of_numbers<'a>(
    alloc: Global,
    book: &'a Book,
    numbers: &Marks,
) -> Result<Vec<&'a Epc>, AllocError>
    ensures { IfOk result (λ items. (i : List ℕ) → Contains (items_at items.items) i
        ↔ HasNumber book.now numbers.now i) }
{
    match numbers.few() {
        Some(few) => items_in_turn(alloc, book, few),
        None => items_in_order(alloc, book, numbers),
    }
}

/// The items whose numbers are marked, ascending.
fn items_in_order<'a>(
    alloc: Global,
    book: &'a Book,
    numbers: &Marks,
) -> Result<Vec<&'a Epc>, AllocError>
    ensures { IfOk result (λ items. (i : List ℕ) → Contains (items_at items.items) i
        ↔ HasNumber book.now numbers.now i) }
{
    let mut items = Vec::new(alloc);
    for number in 0..book.item_count() {
        push_if_marked(book, number, numbers, &mut items)?;
    }
    items.sort()?;
    Ok(items)
}

/// Adds the item of a number, if it is marked.
fn push_if_marked<'a>(
    book: &'a Book,
    number: usize,
    numbers: &Marks,
    items: &mut Vec<&'a Epc>,
) -> Result<(), AllocError>
    ensures { OnOk result ((i : List ℕ) → Contains (items_at items.new.items) i
        ↔ (Contains (items_at items.old.items) i
        ⊎ (Contains numbers.now number × (slice_get (numbered book.now) number ≡ Some i)))) }
{
    if numbers.has(number) {
        push_numbered(book, number, items)?;
    }
    Ok(())
}

/// The items of these numbers, in their order.
fn items_in_turn<'a>(
    alloc: Global,
    book: &'a Book,
    numbers: &BTreeSet<usize>,
) -> Result<Vec<&'a Epc>, AllocError>
    ensures { IfOk result (λ items. (i : List ℕ) → Contains (items_at items.items) i
        ↔ HasNumber book.now numbers.now.keys i) }
{
    let mut items = Vec::new(alloc);
    for number in numbers {
        push_numbered(book, *number, &mut items)?;
    }
    Ok(items)
}

/// Adds the item of a number, if there is one.
fn push_numbered<'a>(
    book: &'a Book,
    number: usize,
    items: &mut Vec<&'a Epc>,
) -> Result<(), AllocError>
    ensures { OnOk result ((i : List ℕ) → Contains (items_at items.new.items) i
        ↔ (Contains (items_at items.old.items) i
        ⊎ (slice_get (numbered book.now) number ≡ Some i))) }
{
    if let Some(item) = book.item(number) {
        items.push(item)?;
    }
    Ok(())
}
