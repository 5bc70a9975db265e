//! The rows of the site itself and of the names of all sites, read back.
ghost use Rattle.std.specs.Prelude.{◌≡◌, ◌↔◌, ◌∷◌, [], pos, Any, IfOk, IfErr, IsTrue, map};
ghost use Rattle.std.specs.List.{enumerate_from};
ghost use Rattle.site_rows.specs.Appending.{IsNamed};
ghost use Rattle.site_rows.specs.BadRows.{Tells, IsFaultOf, IsStore, IsStoreTable, IsSiteTable};
ghost use Rattle.site_rows.specs.RecordRows.{site_row};

use crate::reading_entries::TableFault;
use crate::reading_numbers::{natural, next_number_of, site_of};
use crate::rows::{SiteRow, StoreRow};
use crate::tables::Version;
use event_json::{MAX_SITES, SiteNo, Sites, SitesFault};
use std::alloc::{AllocError, Global};

/// The most sites.
const SITES: u64 = MAX_SITES as u64;

/// What the row of the site itself says.
#[derive(Clone, Copy, Debug, PartialEq, Eq)]
pub struct StoreNumbers {
    /// The site's own number.
    pub me: SiteNo,
    /// The number that its next message gets.
    pub next_message: u64,
    /// The number that its next recall gets.
    pub next_recall: u64,
}

/// What the one row of the site itself says, under a version of the tables.
///
/// # Errors
/// The row, where it is bad or missing, and a second row.
pub(crate) fn store_of(
    version: Version,
    sites: &[SiteRow],
    rows: &[StoreRow],
) -> Result<StoreNumbers, TableFault>
    ensures read { IfOk result (λ numbers. IsStore version sites.now rows.now numbers) }
    ensures bad { IfErr result (λ fault.
        IsFaultOf (IsStoreTable version sites.now) rows.now fault) }
{
    let Some(row) = rows.first() else {
        return Err(TableFault::BadRow(1));
    };
    let Some(numbers) = store_numbers(version, sites, row) else {
        return Err(TableFault::BadRow(1));
    };
    if rows.len() > 1 {
        return Err(TableFault::BadRow(2));
    }
    Ok(numbers)
}

/// What a row of the site itself says.
fn store_numbers(version: Version, sites: &[SiteRow], row: &StoreRow) -> Option<StoreNumbers>
    ensures { Tells result (IsStore version sites.now (row.now ∷ [])) }
{
    if row.version != version.number() || !is_listed(sites, row.me) {
        return None;
    }
    let me = site_of(SITES, row.me);
    let next_message = next_number_of(row.next_message);
    let next_recall = next_number_of(row.next_recall);
    match (me, next_message, next_recall) {
        (Some(me), Some(next_message), Some(next_recall)) => Some(StoreNumbers {
            me,
            next_message,
            next_recall,
        }),
        _ => None,
    }
}

/// Whether a site has the number.
fn is_listed(sites: &[SiteRow], number: i64) -> bool
    ensures { IsTrue result ↔ Any (λ s. s.no ≡ number) sites.now }
{
    sites.iter().any(|site| site.no == number)
}

/// The sites of the rows, by number, without addresses.
///
/// # Errors
/// The first row whose number isn't the next one, from 0 to 15, or whose name is no site's name or an earlier
/// site's; and out of memory.
pub(crate) fn names_of(alloc: Global, rows: &[SiteRow]) -> Result<Sites, TableFault>
    ensures read { IfOk result (λ names. rows.now ≡ map site_row (enumerate_from 0 names)) }
    ensures bad { IfErr result (λ fault. IsFaultOf IsSiteTable rows.now fault) }
{
    let mut names = Sites::new(alloc);
    for (place, row) in rows.iter().enumerate() {
        // Their length shows the proof that the names are those of sites.
        let _count = names.len();
        if !add_name(&mut names, row)? {
            return Err(TableFault::BadRow(place as u64 + 1));
        }
    }
    Ok(names)
}

/// Adds the site of a row, and returns whether it is one that comes next.
fn add_name(names: &mut Sites, row: &SiteRow) -> Result<bool, AllocError>
    ensures { IfOk result (λ added. IsNamed names.old row.now names.new added) }
{
    match natural(row.no) {
        Some(number) if number == names.len() => {}
        _ => return Ok(false),
    }
    let Some(name) = row.name.as_str() else {
        return Ok(false);
    };
    match names.add(name, &[]) {
        Ok(_) => Ok(true),
        Err(SitesFault::NoMemory) => Err(AllocError),
        Err(_) => Ok(false),
    }
}
