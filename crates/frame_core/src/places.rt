//! The numbers of rows by destination, so that the next row for a site is looked up.
ghost use Rattle.std.specs.Prelude.{◌≡◌, ℕ, ◌≤◌, IfSome, None, Some};
ghost use Rattle.std.specs.FinMap as finite;
ghost use Rattle.std.specs.Ordering.{nat_cmp};
ghost use Rattle.frame_core.specs.Outboxes.{IsNextTo};
ghost use Rattle.frame_core.specs.Places.{AreListed, AreListedIn, place_cmp};
ghost use Rattle.frame_core.specs.Tables.{as_map};
ghost use Rattle.frame_core.specs.declared.rows.Row.{Row as Told};

use crate::rows::Row;
use crate::tables;
use crate::tables::Key;
use event_json::SiteNo;
use std::alloc::Global;
use std::collections::BTreeMap;

/// A destination and the number of a row for it. Ordered by destination, then number.
#[derive(Clone, Copy, Debug, PartialEq, Eq, PartialOrd, Ord)]
pub(crate) struct Place {
    pub(crate) dest: SiteNo,
    pub(crate) number: u64,
}

impl Key for Place {
    ghost use Rattle.frame_core.specs.Places.{place_exact};

    ghost exact = { place_exact };
}

/// The place of each row.
///
/// No answer depends on it, so that it never fails: where there is no memory for one more place, all are given up, and
/// rows are gone through from then on.
#[derive(Debug, Drop)]
pub(crate) struct Places {
    listed: Option<BTreeMap<Place, ()>>,
}

impl Places {
    /// No places. Does not allocate.
    pub(crate) fn new(alloc: Global) -> Places
        ensures { AreListedIn finite.empty result }
    {
        Places {
            listed: Some(BTreeMap::new(alloc)),
        }
    }

    /// The places of these rows.
    pub(crate) fn of(alloc: Global, rows: &BTreeMap<u64, Row>) -> Places
        ensures { AreListedIn (as_map nat_cmp rows.now) result }
    {
        let mut places = Places::new(alloc);
        for (number, row) in rows {
            places.list(Place {
                dest: row.dest,
                number: *number,
            });
        }
        places
    }

    /// Lists the place of a row that is put under a number that has none.
    pub(crate) fn list(&mut self, place: Place)
        ensures { (rows : finite.FinMap nat_cmp Told) (row : Told) → AreListedIn rows self.old
            → finite.get rows place.number ≡ None → row.dest ≡ place.dest
            → AreListedIn (finite.insert rows place.number row) self.new }
    {
        if let Some(listed) = &mut self.listed {
            if tables::put(listed, place, ()).is_err() {
                self.listed = None;
            }
        }
    }

    /// Takes the place of a row away that is removed. Does not allocate.
    pub(crate) fn unlist(&mut self, place: Place)
        ensures { (rows : finite.FinMap nat_cmp Told) (row : Told) → AreListedIn rows self.old
            → finite.get rows place.number ≡ Some row → row.dest ≡ place.dest
            → AreListedIn (finite.remove rows place.number) self.new }
    {
        if let Some(listed) = &mut self.listed {
            tables::take(listed, place);
        }
    }

    /// The number of the first of these rows for a destination, from a number on. Does not allocate.
    pub(crate) fn first(&self, rows: &BTreeMap<u64, Row>, dest: SiteNo, from: u64) -> Option<u64>
        requires { AreListedIn (as_map nat_cmp rows.now) self.now }
        ensures { IsNextTo (as_map nat_cmp rows.now) dest from result }
    {
        match &self.listed {
            Some(listed) => first_listed(listed, dest, from),
            None => first_of(rows, dest, from),
        }
    }
}

/// The number of the first place of a destination, from a number on.
fn first_listed(listed: &BTreeMap<Place, ()>, dest: SiteNo, from: u64) -> Option<u64>
    ensures { (rows : finite.FinMap nat_cmp Told) → AreListed rows (as_map place_cmp listed.now)
        → IsNextTo rows dest from result }
{
    let start = Place { dest, number: from };
    match listed.range(start..).next() {
        None => None,
        Some((place, _)) => {
            if place.dest == dest {
                Some(place.number)
            } else {
                None
            }
        }
    }
}

/// The number of the first row for a destination, from a number on, where all are gone through.
fn first_of(rows: &BTreeMap<u64, Row>, dest: SiteNo, from: u64) -> Option<u64>
    ensures { IsNextTo (as_map nat_cmp rows.now) dest from result }
{
    for (number, row) in rows.range(from..) {
        if row.dest == dest {
            return Some(*number);
        }
    }
    None
}
