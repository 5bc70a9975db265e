//! Rows by number, with each recall's count of them and the place of each beside, so that a deficit and the next row
//! for a site are looked up.
ghost use Rattle.std.specs.Prelude.{◌≡◌, ◌⊎◌, ◌+◌, ◌-◌, ◌<◌, ◌≤◌, ◌^◌, ◌↔◌, length, option_map, IfOk, OnOk, OnErr, IfSome, IsSome, IsTrue, None};
ghost use Rattle.std.specs.Ordering.{nat_cmp};
ghost use Rattle.std.specs.FinMap as finite;
ghost use Rattle.frame_core.specs.Counts.{count_in, KeepsCounts, IsRaised, IsLowered, CanUndo, undone, without_rows};
ghost use Rattle.frame_core.specs.Identifiers.{recall_cmp};
ghost use Rattle.frame_core.specs.Outboxes.{rows_of, row_for, numbered, IsNextTo};
ghost use Rattle.frame_core.specs.Tables.{as_map, set_back, AreBelow};

use crate::identifiers::RecallId;
use crate::places::{Place, Places};
use crate::rows::Row;
use crate::tables;
use epc_core::Epc;
use event_json::SiteNo;
use std::alloc::{AllocError, Global};
use std::collections::BTreeMap;
use std::marker::Model;

/// Rows by number, how many rows each recall has, and which numbers are for which destination.
///
/// A recall that ever had a row keeps its count, 0 too, so that to put a row back does not allocate.
#[derive(Debug, Drop)]
pub(crate) struct CountedRows {
    rows: BTreeMap<u64, Row>,
    counts: BTreeMap<RecallId, u64>,
    places: Places,
}

impl Model for CountedRows {
    ghost use Rattle.std.specs.Ordering.{nat_cmp};
    ghost use Rattle.frame_core.specs.Counts.{Counted, coded_counted, AreCounted};
    ghost use Rattle.frame_core.specs.Identifiers.{recall_cmp};
    ghost use Rattle.frame_core.specs.Places.{AreListedIn};
    ghost use Rattle.frame_core.specs.Tables.{as_map};

    ghost Value = { Counted };

    ghost coded = { coded_counted };

    ghost view = { λ c. record {
      rows = as_map nat_cmp c.rows;
      counts = as_map recall_cmp c.counts;
    } };

    ghost invariant = { λ c. AreCounted (as_map nat_cmp c.rows) (as_map recall_cmp c.counts)
        × AreListedIn (as_map nat_cmp c.rows) c.places };
}

impl CountedRows {
    /// No rows. Does not allocate.
    pub(crate) fn new(alloc: Global) -> CountedRows
        ensures { result.rows ≡ finite.empty }
    {
        CountedRows {
            rows: BTreeMap::new(alloc),
            counts: BTreeMap::new(alloc),
            places: Places::new(alloc),
        }
    }

    /// These rows.
    pub(crate) fn of(alloc: Global, rows: BTreeMap<u64, Row>) -> Result<CountedRows, AllocError>
        ensures { IfOk result (λ c. c.rows ≡ as_map nat_cmp rows) }
    {
        let mut counts = BTreeMap::new(alloc);
        for (_, row) in &rows {
            raise(&mut counts, row.recall)?;
        }
        let places = Places::of(alloc, &rows);
        Ok(CountedRows {
            rows,
            counts,
            places,
        })
    }

    /// Puts a row under a number, and returns the one that stood there. Only a number without a row or a
    /// recall without a count allocates. An `Err` changes nothing.
    pub(crate) fn put(&mut self, number: u64, row: Row) -> Result<Option<Row>, AllocError>
        ensures old { IfOk result (λ old. old ≡ finite.get self.old.rows number) }
        ensures ok { OnOk result (self.new.rows ≡ finite.insert self.old.rows number row) }
        ensures err { OnErr result (self.new.rows ≡ self.old.rows) }
        ensures only_new { OnErr result ((finite.get self.old.rows number ≡ None)
            ⊎ (finite.get self.old.counts row.recall ≡ None)) }
        ensures counts { KeepsCounts self.old.counts self.new.counts }
        // The recall of a row that is written over has a count.
        ensures written_over { IfOk result (λ old.
            IfSome old (λ before. IsSome (finite.get self.new.counts before.recall))) }
    {
        let recall = row.recall;
        let dest = row.dest;
        // The length bounds the counts.
        let _length = self.rows.len();
        raise(&mut self.counts, recall)?;
        let before = match tables::put(&mut self.rows, number, row) {
            Ok(before) => before,
            Err(_) => {
                lower(&mut self.counts, recall);
                return Err(AllocError);
            }
        };
        if let Some(old) = &before {
            lower(&mut self.counts, old.recall);
            self.places.unlist(Place {
                dest: old.dest,
                number,
            });
        }
        self.places.list(Place { dest, number });
        Ok(before)
    }

    /// Removes the row of a number, and returns it. Does not allocate.
    pub(crate) fn take(&mut self, number: u64) -> Option<Row>
        ensures value { result ≡ finite.get self.old.rows number }
        ensures rows { self.new.rows ≡ finite.remove self.old.rows number }
        ensures counts { KeepsCounts self.old.counts self.new.counts }
    {
        let before = tables::take(&mut self.rows, number);
        if let Some(row) = &before {
            lower(&mut self.counts, row.recall);
            self.places.unlist(Place {
                dest: row.dest,
                number,
            });
        }
        before
    }

    /// Sets a number back to the row that it had before one was put there, or removes it where it had
    /// none. Does not allocate.
    pub(crate) fn undo(&mut self, number: u64, before: Option<Row>)
        requires stands { IsSome (finite.get self.old.rows number) }
        requires counted { IfSome before (λ row. IsSome (finite.get self.old.counts row.recall)) }
        ensures rows { self.new.rows ≡ set_back self.old.rows number before }
        ensures counts { KeepsCounts self.old.counts self.new.counts }
    {
        match before {
            None => {
                self.take(number);
            }
            Some(row) => {
                // The number has a row and the recall a count, so that this can't fail.
                let _ = self.put(number, row);
            }
        }
    }

    /// Puts a row of the recall for each of these destinations under the numbers from the first on, in
    /// order. An `Err` changes nothing: what was put is taken away again.
    pub(crate) fn put_all(
        &mut self,
        alloc: Global,
        first: u64,
        recall: RecallId,
        out: &[(SiteNo, Epc)],
    ) -> Result<(), AllocError>
        requires { first + length out.now < 2 ^ 64 }
        ensures ok { OnOk result (self.new.rows ≡ numbered self.old.rows first recall out.now) }
        ensures err { OnErr result (self.new.rows ≡ self.old.rows) }
    {
        let mut replaced = Vec::with_capacity(alloc, out.len())?;
        for (dest, item) in out {
            let number = first + replaced.len() as u64;
            match self.put_copy(alloc, number, *dest, recall, item) {
                Ok(before) => replaced.push_reserved(before),
                Err(_) => {
                    self.undo_all(first, replaced);
                    return Err(AllocError);
                }
            }
        }
        Ok(())
    }

    /// Puts a row with a copy of an item under a number, and returns the one that stood there. An `Err`
    /// changes nothing.
    fn put_copy(
        &mut self,
        alloc: Global,
        number: u64,
        dest: SiteNo,
        recall: RecallId,
        item: &Epc,
    ) -> Result<Option<Row>, AllocError>
        ensures old { IfOk result (λ old. old ≡ finite.get self.old.rows number) }
        ensures ok { OnOk result (self.new.rows ≡ finite.insert self.old.rows number
            (row_for recall (dest, item.now))) }
        ensures err { OnErr result (self.new.rows ≡ self.old.rows) }
        ensures counts { KeepsCounts self.old.counts self.new.counts }
        ensures written_over { IfOk result (λ old.
            IfSome old (λ before. IsSome (finite.get self.new.counts before.recall))) }
    {
        let item = item.copy(alloc)?;
        self.put(number, Row { dest, recall, item })
    }

    /// Sets the numbers from the first on back to the rows that they had, the last one first. Does not
    /// allocate.
    fn undo_all(&mut self, first: u64, mut replaced: Vec<Option<Row>>)
        requires in_range { first + length replaced.items < 2 ^ 64 }
        requires can { CanUndo self.old first replaced.items }
        ensures { self.new.rows ≡ undone self.old.rows first replaced.items }
    {
        while let Some(before) = replaced.pop() {
            self.undo(first + replaced.len() as u64, before);
        }
    }

    /// Removes the rows of the numbers from the first on to the one before the next. Does not allocate.
    pub(crate) fn take_from(&mut self, first: u64, next: u64)
        requires { first ≤ next }
        ensures { self.new.rows ≡ without_rows self.old.rows first (next - first) }
    {
        for number in first..next {
            self.take(number);
        }
    }

    /// Whether each row's number is below this one. Does not allocate.
    pub(crate) fn are_below(&self, number: u64) -> bool
        ensures { IsTrue result ↔ AreBelow self.now.rows number }
    {
        tables::are_below(&self.rows, number)
    }

    /// How many rows are of a recall. Does not allocate.
    pub(crate) fn count(&self, recall: RecallId) -> u64
        ensures { result ≡ rows_of self.now.rows recall }
    {
        count_of(&self.counts, recall)
    }

    /// The row of a number. Does not allocate.
    pub(crate) fn get(&self, number: u64) -> Option<&Row>
        ensures { option_map (λ row. row.now) result ≡ finite.get self.now.rows number }
    {
        tables::get(&self.rows, number)
    }

    /// The number of the first row for a destination, from a number on. Does not allocate.
    pub(crate) fn first_to(&self, dest: SiteNo, from: u64) -> Option<u64>
        ensures { IsNextTo self.now.rows dest from result }
    {
        self.places.first(&self.rows, dest, from)
    }

    /// The rows by number.
    pub(crate) fn by_number(&self) -> &BTreeMap<u64, Row>
        ensures { as_map nat_cmp result.now ≡ self.now.rows }
    {
        &self.rows
    }

    /// Equal rows.
    pub(crate) fn copy(&self, alloc: Global) -> Result<CountedRows, AllocError>
        ensures { IfOk result (λ c. c.rows ≡ self.now.rows) }
    {
        let rows = tables::copy(alloc, &self.rows)?;
        CountedRows::of(alloc, rows)
    }
}

/// The count of a recall.
fn count_of(counts: &BTreeMap<RecallId, u64>, recall: RecallId) -> u64
    ensures { result ≡ count_in (as_map recall_cmp counts.now) recall }
{
    tables::get(counts, recall).copied().unwrap_or(0)
}

/// Raises the count of a recall by one. Only a recall without a count allocates.
fn raise(counts: &mut BTreeMap<RecallId, u64>, recall: RecallId) -> Result<(), AllocError>
    requires { count_in (as_map recall_cmp counts.old) recall < 2 ^ 63 }
    ensures ok { OnOk result (IsRaised (as_map recall_cmp counts.old) recall
        (as_map recall_cmp counts.new)) }
    ensures err { OnErr result (as_map recall_cmp counts.new ≡ as_map recall_cmp counts.old) }
    ensures only_new { OnErr result (finite.get (as_map recall_cmp counts.old) recall ≡ None) }
    ensures kept { KeepsCounts (as_map recall_cmp counts.old) (as_map recall_cmp counts.new) }
{
    let count = count_of(counts, recall);
    tables::put(counts, recall, count + 1)?;
    Ok(())
}

/// Lowers the count of a recall by one. Does not allocate.
fn lower(counts: &mut BTreeMap<RecallId, u64>, recall: RecallId)
    requires { 0 < count_in (as_map recall_cmp counts.old) recall }
    ensures lowered { IsLowered (as_map recall_cmp counts.old) recall
        (as_map recall_cmp counts.new) }
    ensures kept { KeepsCounts (as_map recall_cmp counts.old) (as_map recall_cmp counts.new) }
{
    let count = count_of(counts, recall);
    // The recall has a count, so that this can't fail.
    let _ = tables::put(counts, recall, count - 1);
}
