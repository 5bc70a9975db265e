//! The sites with their addresses, read back.
ghost use Rattle.std.specs.Prelude.{All, ◌≡◌, ◌≤◌, ◌↔◌, ◌++◌, ◌∷◌, [], List, ℕ, length, map, option_map, pos, IfOk, IfErr, IsTrue, OnOk, None};
ghost use Rattle.std.specs.FinMap.{entries};
ghost use Rattle.event_json.specs.Sites.{AreSites, Site, sites_fault};
ghost use Rattle.site_rows.specs.AddressesInTurn.{AreTextsOf, HaveAddresses, IsRowAt};
ghost use Rattle.site_rows.specs.BadAddresses.{IsAddressFault, IsAddressTable};
ghost use Rattle.site_rows.specs.BadRows.{Tells};
ghost use Rattle.site_rows.specs.Laws.{HasTexts};
ghost use Rattle.site_rows.specs.RecordRows.{address_row, addresses_of};

use crate::address_rows::name_at;
use crate::reading_addresses::check_addresses;
use crate::reading_entries::TableFault;
use crate::reading_numbers::natural;
use crate::rows::AddressRow;
use event_json::{MAX_ADDRESSES, Sites, SitesFault};
use std::alloc::{AllocError, Global};

/// The most addresses of a site.
const ADDRESSES: u64 = MAX_ADDRESSES as u64;

/// The sites of these names, with the addresses of the rows.
///
/// # Errors
/// The first row that is no address's, and out of memory.
pub(crate) fn addressed(
    alloc: Global,
    names: &Sites,
    rows: &[AddressRow],
) -> Result<Sites, TableFault>
    ensures names { IfOk result (λ sites. map (λ s. s.name) sites ≡ map (λ s. s.name) names.now) }
    ensures addresses { IfOk result (λ sites.
        rows.now ≡ map address_row (entries (addresses_of sites))) }
    ensures in_order { IfOk result AreSites }
    ensures texts { IfOk result (λ sites. All HasTexts sites) }
    ensures bad { IfErr result (λ fault. IsAddressFault (length names.now) rows.now fault) }
{
    check_addresses(names.len(), rows)?;
    let sites = with_addresses(alloc, names, rows)?;
    Ok(sites)
}

/// The sites of these names, each with the addresses that rows give for it.
fn with_addresses(alloc: Global, names: &Sites, rows: &[AddressRow]) -> Result<Sites, AllocError>
    requires table { IsAddressTable (length names.now) rows.now }
    ensures names { IfOk result (λ sites. map (λ s. s.name) sites ≡ map (λ s. s.name) names.now) }
    ensures addresses { IfOk result (λ sites. HaveAddresses rows.now sites) }
    ensures in_order { IfOk result (λ sites. AreSites sites) }
{
    let mut sites = Sites::new(alloc);
    for number in 0..names.len() {
        if let Some(name) = name_at(names, number) {
            add_site(alloc, rows, number, name, &mut sites)?;
        }
    }
    // The length shows the proof that these are sites.
    let _length = sites.len();
    Ok(sites)
}

/// Adds a site of this number and name, with the addresses that rows give for it.
fn add_site(
    alloc: Global,
    rows: &[AddressRow],
    number: u64,
    name: &str,
    sites: &mut Sites,
) -> Result<(), AllocError>
    requires table { (sites : ℕ) × IsAddressTable sites rows.now }
    requires free { (texts : List (List ℕ)) → AreTextsOf rows.now number texts
        → sites_fault sites.old name.now texts ≡ None }
    ensures { OnOk result ((texts : List (List ℕ)) × AreTextsOf rows.now number texts
        × (sites.new ≡ sites.old ++ record { name = name.now; addresses = texts } ∷ [])) }
{
    let texts = texts_of(alloc, rows, number)?;
    match sites.add(name, texts.as_slice()) {
        Ok(_) => Ok(()),
        Err(fault) => {
            // Good rows name no site that can't be added.
            prove!(matches!(&fault, SitesFault::NoMemory));
            Err(AllocError)
        }
    }
}

/// The addresses that rows give for a site, by place.
fn texts_of<'a>(
    alloc: Global,
    rows: &'a [AddressRow],
    number: u64,
) -> Result<Vec<&'a str>, AllocError>
    requires table { (sites : ℕ) × IsAddressTable sites rows.now }
    ensures { IfOk result (λ texts. AreTextsOf rows.now number (map (λ t. t.now) texts.items)) }
{
    let mut texts = Vec::new(alloc);
    for place in 0..ADDRESSES {
        match row_at(rows, number, place) {
            Some(row) => match row.text.as_str() {
                Some(text) => texts.push(text)?,
                // A good row's text is UTF-8.
                None => unreachable!(),
            },
            None => return Ok(texts),
        }
    }
    Ok(texts)
}

/// The row of a place of a site.
fn row_at(rows: &[AddressRow], number: u64, place: u64) -> Option<&AddressRow>
    ensures { Tells (option_map (λ r. r.now) result) (IsRowAt rows.now number place) }
{
    for row in rows {
        if is_at(row, number, place) {
            return Some(row);
        }
    }
    None
}

/// Whether a row is that of a place of a site.
fn is_at(row: &AddressRow, number: u64, place: u64) -> bool
    ensures { IsTrue result ↔ ((row.now.site ≡ pos number) × (row.now.place ≡ pos place)) }
{
    natural(row.site) == Some(number) && natural(row.place) == Some(place)
}
