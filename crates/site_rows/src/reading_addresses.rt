//! The rows of the addresses, tested.
ghost use Rattle.std.specs.Prelude.{◌≡◌, ◌≤◌, ◌↔◌, ◌⊎◌, ◌+◌, pos, ◌-ℤ◌, ℕ, Some, take, slice_get, IfErr, IsTrue, IsSome, OnOk};
ghost use Rattle.std.specs.declared.cmp.Ordering.TheVariants.{Less};
ghost use Rattle.event_json.specs.declared.limits.TheConstants.{MAX_SITES};
ghost use Rattle.site_rows.specs.BadAddresses.{IsAddress, IsAddressFault, IsAddressTable, IsPlace, Stands};
ghost use Rattle.site_rows.specs.BadRows.{IsSiteNumber};
ghost use Rattle.site_rows.specs.Texts.{text_cmp};

use crate::reading_entries::TableFault;
use crate::reading_numbers::site_of;
use crate::reading_texts::is_plain_text;
use crate::rows::AddressRow;
use event_json::MAX_ADDRESSES;
use std::cmp::Ordering;

/// The most addresses of a site.
const ADDRESSES: i64 = MAX_ADDRESSES as i64;

/// Tests that the rows are those of addresses of so many sites. Does not allocate.
///
/// # Errors
/// The first row that is no address's: its text isn't plain and UTF-8 or doesn't come after the text before it, its
/// site isn't one of these, its place is not 0 to 15, an earlier row is of the same place, or no row is of the place
/// before it.
pub(crate) fn check_addresses(sites: u64, rows: &[AddressRow]) -> Result<(), TableFault>
    requires few { sites ≤ MAX_SITES }
    ensures good { OnOk result (IsAddressTable sites rows.now) }
    ensures bad { IfErr result (λ fault. IsAddressFault sites rows.now fault) }
{
    for (place, row) in rows.iter().enumerate() {
        if !is_address(sites, rows, place, row) {
            return Err(TableFault::BadRow(place as u64 + 1));
        }
    }
    Ok(())
}

/// Whether the row at a place is one of an address.
fn is_address(sites: u64, rows: &[AddressRow], place: usize, row: &AddressRow) -> bool
    requires few { sites ≤ MAX_SITES }
    requires there { slice_get rows.now place ≡ Some row.now }
    ensures { IsTrue result ↔ IsAddress sites rows.now place row.now }
{
    if !is_plain_text(&row.text) || !is_place(row.place) {
        return false;
    }
    let Some(_site) = site_of(sites, row.site) else {
        return false;
    };
    if stands(&rows[..place], row.site, row.place) || !has_place_before(rows, row) {
        return false;
    }
    follows(rows, place, row)
}

/// Whether the place of a row is the first one, or a row is of the place before it.
fn has_place_before(rows: &[AddressRow], row: &AddressRow) -> bool
    requires placed { (p : ℕ) × IsPlace row.now.place p }
    ensures { IsTrue result ↔ ((row.now.place ≡ pos 0)
        ⊎ Stands rows.now row.now.site (row.now.place -ℤ pos 1)) }
{
    row.place == 0 || stands(rows, row.site, row.place - 1)
}

/// Whether a number is that of a place.
fn is_place(place: i64) -> bool
    ensures place { IsTrue result ↔ ((p : ℕ) × IsPlace place p) }
{
    place >= 0 && place < ADDRESSES
}

/// Whether some row is of a place at a site.
fn stands(rows: &[AddressRow], site: i64, place: i64) -> bool
    ensures { IsTrue result ↔ Stands rows.now site place }
{
    rows.iter()
        .any(|row| row.site == site && row.place == place)
}

/// Whether the text of a row comes after that of the row before it.
fn follows(rows: &[AddressRow], place: usize, row: &AddressRow) -> bool
    ensures { IsTrue result ↔ ((j : ℕ) (before : _) → j + 1 ≡ place
        → slice_get rows.now j ≡ Some before → text_cmp before.text row.now.text ≡ Less) }
{
    if place == 0 {
        return true;
    }
    match rows.get(place - 1) {
        Some(before) => before.text.cmp(&row.text) == Ordering::Less,
        None => true,
    }
}
