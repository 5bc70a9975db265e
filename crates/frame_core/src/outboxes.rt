//! The outbox: messages that are numbered and not signalled yet.
ghost use Rattle.std.specs.Prelude.{◌≡◌, ℕ, List, ◌+◌, ◌<◌, ◌≤◌, ◌^◌, ◌↔◌, length, option_map, Err, [], ◌∷◌, IfOk, OnOk, OnErr, IfErr, IsFalse, IsTrue, Some};
ghost use Rattle.std.specs.Ordering.{nat_cmp};
ghost use Rattle.std.specs.FinMap as map;
ghost use Rattle.frame_core.specs.Numbers.{Recall};
ghost use Rattle.frame_core.specs.Rows.{row_of};
ghost use Rattle.frame_core.specs.declared.rows.Row.{Row as Told};
ghost use Rattle.frame_core.specs.Outboxes.{numbered, rows_of, has_rows, IsNextTo};
ghost use Rattle.frame_core.specs.Tables.{as_map, AreBelow};
ghost use Rattle.frame_core.specs.Unsignalled.{IsNextNumber};

use crate::counted_rows::CountedRows;
use crate::identifiers::RecallId;
use crate::rows::{Row, RowView};
use epc_core::Epc;
use event_json::SiteNo;
use std::alloc::{AllocError, Global};
use std::collections::BTreeMap;
use std::marker::Model;
use thiserror::Error;

/// The last number of a site's messages and recalls, 2^62.
pub const LAST_NUMBER: u64 = 4_611_686_018_427_387_904;

/// Why nothing was numbered.
#[derive(Debug, Drop, PartialEq, Eq, Error)]
pub enum NumberFault {
    /// Memory ran out.
    #[error("memory ran out")]
    NoMemory,
    /// Fewer numbers are left than are needed.
    #[error("the numbers are spent")]
    NumbersSpent,
}

impl From<AllocError> for NumberFault {
    ghost use Rattle.std.specs.Prelude.{◌≡◌};
    ghost use Rattle.frame_core.specs.declared.outboxes.NumberFault.TheVariants.{NoMemory};

    ghost from_gives = { λ _ fault. fault ≡ NoMemory };

    fn from(_: AllocError) -> NumberFault {
        NumberFault::NoMemory
    }
}

/// The messages that a site has numbered and that are not signalled yet, and the next number.
///
/// Messages are numbered one after another from 1 to [`LAST_NUMBER`], and no number comes twice.
#[derive(Debug, Drop)]
pub struct Outbox {
    rows: CountedRows,
    next: u64,
}

impl Model for Outbox {
    ghost use Rattle.frame_core.specs.Unsignalled.{Unsignalled, coded_unsignalled, IsNextNumber};

    ghost Value = { Unsignalled };

    ghost coded = { coded_unsignalled };

    ghost view = { λ o. record { rows = o.rows.rows; next = o.next } };

    ghost invariant = { λ o. IsNextNumber o.next };
}

impl Outbox {
    /// No messages. The next number is 1. Does not allocate.
    pub fn new(alloc: Global) -> Outbox
        ensures { result ≡ record { rows = map.empty; next = 1 } }
    {
        Outbox {
            rows: CountedRows::new(alloc),
            next: 1,
        }
    }

    /// The outbox of these rows, by number, with this next number.
    pub fn restore(alloc: Global, rows: BTreeMap<u64, Row>, next: u64) -> Result<Outbox, AllocError>
        requires in_range { IsNextNumber next }
        ensures { IfOk result (λ outbox. outbox ≡ record {
          rows = as_map nat_cmp rows;
          next = next;
        }) }
    {
        let rows = CountedRows::of(alloc, rows)?;
        Ok(Outbox { rows, next })
    }

    /// Numbers a message, and returns its number. A fault changes nothing.
    ///
    /// In a restored outbox a row may stand at the next number; it is written over.
    pub fn number(&mut self, dest: SiteNo, recall: RecallId, item: Epc) -> Result<u64, NumberFault>
        // A row is kept under the next number, which is never used again; or `NumbersSpent` is returned, exactly after
        // 2^62.
        ensures number { IfOk result (λ number. number ≡ self.old.next) }
        ensures rows { OnOk result (self.new.rows ≡ numbered self.old.rows self.old.next recall
            ((dest, item) ∷ [])) }
        ensures next { OnOk result (self.new.next ≡ self.old.next + 1) }
        ensures spent { (result ≡ Err NumberFault.NumbersSpent) ↔ (2 ^ 62 < self.old.next) }
        ensures err { OnErr result (self.new ≡ self.old) }
    {
        if self.next > LAST_NUMBER {
            return Err(NumberFault::NumbersSpent);
        }
        let number = self.next;
        self.rows.put(number, Row { dest, recall, item })?;
        self.next = number + 1;
        Ok(number)
    }

    /// Numbers a message of the recall to each of these destinations, in order from the next number on. A
    /// fault changes nothing: what was numbered is taken away again.
    pub fn number_all(
        &mut self,
        alloc: Global,
        recall: RecallId,
        out: &[(SiteNo, Epc)],
    ) -> Result<(), NumberFault>
        ensures rows { OnOk result (self.new.rows
            ≡ numbered self.old.rows self.old.next recall out.now) }
        ensures next { OnOk result (self.new.next ≡ self.old.next + length out.now) }
        // More rows are needed than numbers are left.
        ensures spent { (result ≡ Err NumberFault.NumbersSpent)
            ↔ (2 ^ 62 + 1 < self.old.next + length out.now) }
        ensures err { OnErr result (self.new ≡ self.old) }
    {
        if out.len() as u64 > self.numbers_left() {
            return Err(NumberFault::NumbersSpent);
        }
        self.rows.put_all(alloc, self.next, recall, out)?;
        self.next += out.len() as u64;
        Ok(())
    }

    /// Takes messages back that were numbered last: the rows of the numbers from this one on go, and it comes
    /// next again. Does not allocate.
    pub fn take_back(&mut self, first: u64)
        requires low { 1 ≤ first }
        requires no_higher { first ≤ self.old.next }
        // Where they were numbered from rows that stood below, it is what it was before.
        // Not covered: that it is one look, and what it costs.
        ensures rows { (rows : map.FinMap nat_cmp Told) (r : Recall) (out : List (ℕ × List ℕ))
            → AreBelow rows first → self.old.rows ≡ numbered rows first r out
            → self.old.next ≡ first + length out → self.new.rows ≡ rows }
        ensures next { self.new.next ≡ first }
    {
        self.rows.take_from(first, self.next);
        self.next = first;
    }

    /// Whether no row stands at the next number, nor past it, by the last row. Does not allocate.
    pub fn has_free_numbers(&self) -> bool
        ensures { IsTrue result ↔ AreBelow self.now.rows self.now.next }
    {
        self.rows.are_below(self.next)
    }

    /// How many numbers are left.
    pub fn numbers_left(&self) -> u64
        ensures { result + self.now.next ≡ 2 ^ 62 + 1 }
    {
        LAST_NUMBER + 1 - self.next
    }

    /// The row of a number. Does not allocate.
    pub fn row(&self, number: u64) -> Option<RowView<'_>>
        ensures { option_map row_of result ≡ map.get self.now.rows number }
    {
        match self.rows.get(number) {
            Some(row) => Some(row.view()),
            None => None,
        }
    }

    /// The number of the first row for a destination, from a number on, looked up. Does not allocate.
    pub fn first_to(&self, dest: SiteNo, from: u64) -> Option<u64>
        ensures { IsNextTo self.now.rows dest from result }
    {
        self.rows.first_to(dest, from)
    }

    /// Removes the row of a number, and returns whether it was there. Does not allocate.
    pub fn clear(&mut self, number: u64) -> bool
        ensures found { result ≡ map.contains_key self.old.rows number }
        ensures rows { self.new.rows ≡ map.remove self.old.rows number }
        ensures next { self.new.next ≡ self.old.next }
        ensures kept { IsFalse result → self.new ≡ self.old }
    {
        self.rows.take(number).is_some()
    }

    /// How many messages of a recall are unsignalled. Does not allocate.
    pub fn rows_of(&self, recall: RecallId) -> u64
        // Not covered: that it is one look-up.
        ensures { result ≡ rows_of self.now.rows recall }
    {
        self.rows.count(recall)
    }

    /// Whether a message of a recall is unsignalled. Does not allocate.
    pub fn has_rows(&self, recall: RecallId) -> bool
        ensures { result ≡ has_rows self.now.rows recall }
    {
        self.rows.count(recall) > 0
    }

    /// Whether another message of the recall is unsignalled than this one, which is of it. Does not allocate.
    pub fn has_rows_beside(&self, number: u64, recall: RecallId) -> bool
        requires of_recall { (row : Told) × (map.get self.now.rows number ≡ Some row)
            × (row.recall ≡ recall) }
        ensures { result ≡ has_rows (map.remove self.now.rows number) recall }
    {
        self.rows.count(recall) > 1
    }

    /// The number that the next message gets, or [`LAST_NUMBER`] + 1 where the numbers are spent.
    pub fn next_number(&self) -> u64
        ensures next { result ≡ self.now.next }
        ensures in_range { IsNextNumber result }
    {
        // The invariant keeps it from 1 to 2^62 + 1.
        self.next
    }

    /// The rows by number.
    pub fn rows(&self) -> &BTreeMap<u64, Row>
        ensures rows { as_map nat_cmp result.now ≡ self.now.rows }
        ensures entries { result.now.entries ≡ map.entries self.now.rows }
    {
        let rows = self.rows.by_number();
        // Brings into scope that the numbers ascend.
        let _length = rows.len();
        rows
    }

    /// An equal outbox.
    pub fn copy(&self, alloc: Global) -> Result<Outbox, AllocError>
        ensures { IfOk result (λ outbox. outbox ≡ self.now) }
    {
        let rows = self.rows.copy(alloc)?;
        Ok(Outbox {
            rows,
            next: self.next,
        })
    }
}
