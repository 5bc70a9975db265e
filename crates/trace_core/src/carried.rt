//! All that lies in items.
ghost use Rattle.std.specs.Prelude.{◌≡◌, ◌⊎◌, ◌↔◌, ℕ, List, Some, IfOk, OnOk, Contains, slice_get};
ghost use Rattle.trace_core.specs.Numbers.{numbered};
ghost use Rattle.trace_core.specs.Pairs.{Carries};
ghost use Rattle.trace_core.specs.Relations.{ReachedFrom};
ghost use Rattle.trace_core.specs.Sendings.{HasItemOf};
ghost use Rattle.trace_core.specs.Spreads.{AreAscendingItems};

use crate::books::Book;
use crate::captured::Captured;
use crate::ordered_keys::in_order;
use crate::sendings::Sending;
use epc_core::Epc;
use std::alloc::{AllocError, Global};

impl Captured {
    /// The given items, and all that was put into them, and into that, ascending and without repeats: what is carried
    /// with them, whatever the order of the events and what was taken out since.
    ///
    /// # Errors
    /// Out of memory.
    pub fn carried_with(&self, items: &[Epc]) -> Result<Vec<Epc>, AllocError>
        // Not covered: what it costs.
        ensures ascending { IfOk result (λ found. AreAscendingItems found.items) }
        ensures exact { IfOk result (λ found. (j : List ℕ)
            → Contains found.items j ↔ ReachedFrom (Carries self.now.events) items.now j) }
    {
        let alloc = self.alloc();
        let carried = self.book().carried_with(self.me(), items)?;
        let mut found = copies_of(alloc, items)?;
        push_items_of(alloc, self.book(), carried.as_slice(), &mut found)?;
        in_order(found)
    }
}

/// Copies of items.
fn copies_of(alloc: Global, items: &[Epc]) -> Result<Vec<Epc>, AllocError>
    ensures { IfOk result (λ copies. copies.items ≡ items.now) }
{
    let mut copies = Vec::new(alloc);
    copies.reserve(items.len())?;
    for item in items {
        copies.push(item.copy(alloc)?)?;
    }
    Ok(copies)
}

/// Adds the items of sendings.
fn push_items_of(
    alloc: Global,
    book: &Book,
    sendings: &[Sending],
    found: &mut Vec<Epc>,
) -> Result<(), AllocError>
    ensures { OnOk result ((i : List ℕ) → Contains found.new.items i
        ↔ (Contains found.old.items i ⊎ HasItemOf book.now sendings.now i)) }
{
    for sending in sendings {
        push_item(alloc, book, sending.item, found)?;
    }
    Ok(())
}

/// Adds the item of a number, if there is one.
fn push_item(
    alloc: Global,
    book: &Book,
    number: usize,
    found: &mut Vec<Epc>,
) -> Result<(), AllocError>
    ensures { OnOk result ((i : List ℕ) → Contains found.new.items i
        ↔ (Contains found.old.items i ⊎ (slice_get (numbered book.now) number ≡ Some i))) }
{
    if let Some(item) = book.item(number) {
        found.push(item.copy(alloc)?)?;
    }
    Ok(())
}
