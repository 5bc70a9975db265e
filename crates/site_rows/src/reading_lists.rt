//! The lists of events, read back from their rows in turn.
ghost use Rattle.std.specs.Prelude.{◌≡◌, ◌≤◌, ◌↔◌, length, slice_get, IfOk, IsTrue};
ghost use Rattle.site_rows.specs.BadRows.{Tells};
ghost use Rattle.site_rows.specs.PartsInTurn.{IsListBy, IsMemberBy};

use crate::reading_numbers::natural;
use crate::reading_texts::{item_of_key, plain_text_of};
use crate::rows::{PackedRow, PartRow};
use crate::texts::Text;
use epc_core::Epc;
use event_json::{PlainText, Sequence, SiteNo, Sites};
use std::alloc::{AllocError, Global};

/// A member of a list of an event.
pub(crate) trait Member: Drop + Sized {
    ghost use Rattle.std.specs.Prelude.{◌≡◌, List, ℕ, IfOk};
    ghost use Rattle.event_json.specs.Sites.{Site};
    ghost use Rattle.site_rows.specs.BadRows.{Tells};
    ghost use Rattle.site_rows.specs.PartsInTurn.{IsWritten};

    /// Whether it is one, at a list of sites.
    ghost is: { List Site → Self → Type 0 };

    /// The text that stands for it.
    ghost written: { List Site → Self → List ℕ };

    /// The member that a text stands for, where there is one.
    fn read(alloc: Global, sites: &Sites, text: &Text) -> Result<Option<Self>, AllocError>
        ensures { IfOk result (λ member. Tells member
            (IsWritten (is sites.now) (written sites.now) text.now)) };
}

impl Member for Epc {
    ghost use Rattle.site_rows.specs.Texts.{IsItemText};

    ghost is = { λ _ item. IsItemText item };

    ghost written = { λ _ item. item };

    fn read(alloc: Global, _sites: &Sites, text: &Text) -> Result<Option<Epc>, AllocError> {
        item_of_key(alloc, text)
    }
}

impl Member for PlainText {
    ghost use Rattle.site_rows.specs.Texts.{IsPlainText};

    ghost is = { λ _ text. IsPlainText text };

    ghost written = { λ _ text. text };

    fn read(alloc: Global, _sites: &Sites, text: &Text) -> Result<Option<PlainText>, AllocError> {
        plain_text_of(alloc, text)
    }
}

impl Member for SiteNo {
    ghost use Rattle.std.specs.Prelude.{◌<◌, length};
    ghost use Rattle.site_rows.specs.RecordRows.{name_of};

    ghost is = { λ sites site. site < length sites };

    ghost written = { name_of };

    fn read(_alloc: Global, sites: &Sites, text: &Text) -> Result<Option<SiteNo>, AllocError> {
        // The length shows the proof that these are sites, whose names are UTF-8.
        let _count = sites.len();
        match text.as_str() {
            Some(name) => Ok(sites.find(name)),
            None => Ok(None),
        }
    }
}

/// A list of an event: which event's and which one, and how many members it may have.
#[derive(Clone, Copy, Debug)]
pub(crate) struct ListKey {
    /// The number of the event.
    pub(crate) event: u64,
    /// The role of the members.
    pub(crate) role: u64,
    /// The most members.
    pub(crate) most: u64,
}

/// A row of a member of a list.
pub(crate) trait ListRow {
    ghost use Rattle.std.specs.Prelude.{◌≡◌, ◌↔◌, List, ℕ, IsTrue};

    /// The row of an event and a role, at a place, with a text.
    ghost row_of: { ℕ → ℕ → ℕ × List ℕ → Self };

    /// Its text.
    ghost text_of: { Self → List ℕ };

    /// It is that with which the row is made.
    ghost tells: { (event role : ℕ) (p : ℕ × List ℕ) → text_of (row_of event role p) ≡ p.1 };

    /// Whether it is that of a place of a list.
    fn is_at(&self, list: ListKey, place: u64) -> bool
        ensures { IsTrue result ↔ (self.now ≡ row_of list.event list.role
            (place, text_of self.now)) };

    /// Its text.
    fn text(&self) -> &Text
        ensures { result.now ≡ text_of self.now };
}

impl ListRow for PartRow {
    ghost use Rattle.std.specs.Prelude.{refl};
    ghost use Rattle.site_rows.specs.RecordRows.{part_row};

    ghost row_of = { part_row };

    ghost text_of = { λ row. row.text };

    ghost tells = { λ _ _ _. refl };

    fn is_at(&self, list: ListKey, place: u64) -> bool {
        natural(self.event) == Some(list.event)
            && natural(self.role) == Some(list.role)
            && natural(self.place) == Some(place)
    }

    fn text(&self) -> &Text {
        &self.text
    }
}

impl ListRow for PackedRow {
    ghost use Rattle.std.specs.Prelude.{refl};
    ghost use Rattle.site_rows.specs.RecordRows.{packed_row};

    ghost row_of = { λ event _. packed_row event };

    ghost text_of = { λ row. row.text };

    ghost tells = { λ _ _ _. refl };

    fn is_at(&self, list: ListKey, place: u64) -> bool {
        natural(self.event) == Some(list.event) && natural(self.place) == Some(place)
    }

    fn text(&self) -> &Text {
        &self.text
    }
}

/// The members of a list from the row at a place on, as many as there are; the place is left behind them.
pub(crate) fn list_at<M: Member, R: ListRow>(
    alloc: Global,
    sites: &Sites,
    rows: &[R],
    at: &mut usize,
    list: ListKey,
) -> Result<Sequence<M>, AllocError>
    requires within { at.old ≤ length rows.now }
    ensures { IfOk result (λ members. IsListBy (R.row_of list.event list.role) (M.is sites.now)
        (M.written sites.now) list.most rows.now at.old at.new members) }
{
    let mut members = Vec::new(alloc);
    for place in 0..list.most {
        match member_at(alloc, sites, rows, *at, list, place)? {
            Some(member) => {
                members.push(member)?;
                *at += 1;
            }
            None => return Ok(trimmed(members)),
        }
    }
    Ok(trimmed(members))
}

/// The members as a list that has no room for more.
fn trimmed<M: Member>(members: Vec<M>) -> Sequence<M>
    ensures { result ≡ members.items }
{
    let mut members = members;
    members.shrink_to_fit();
    Sequence::from_vec(members)
}

/// The member whose row stands at a place, where it is that of this place of the list.
fn member_at<M: Member, R: ListRow>(
    alloc: Global,
    sites: &Sites,
    rows: &[R],
    at: usize,
    list: ListKey,
    place: u64,
) -> Result<Option<M>, AllocError>
    ensures { IfOk result (λ member. Tells member (IsMemberBy (R.row_of list.event list.role)
        (M.is sites.now) (M.written sites.now) place (slice_get rows.now at))) }
{
    let Some(row) = rows.get(at) else {
        return Ok(None);
    };
    if !row.is_at(list, place) {
        return Ok(None);
    }
    M::read(alloc, sites, row.text())
}
