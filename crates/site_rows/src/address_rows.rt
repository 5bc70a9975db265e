//! The rows of the sites and of their addresses.
ghost use Rattle.std.specs.Prelude.{◌≡◌, ◌≤◌, fold, map, option_map, option_and_then, slice_get, pos, Some, All, IfOk, OnOk};
ghost use Rattle.std.specs.FinMap as finite;
ghost use Rattle.std.specs.List.{enumerate_from};
ghost use Rattle.frame_core.specs.Tables.{as_map};
ghost use Rattle.event_json.specs.Sites.{Site};
ghost use Rattle.site_rows.specs.RecordRows.{site_row, address_row, addresses_at, addresses_of, with_address};
ghost use Rattle.site_rows.specs.Laws.{HasTexts};
ghost use Rattle.site_rows.specs.Texts.{text_cmp};

use crate::numbers::stored;
use crate::rows::{AddressRow, SiteRow};
use crate::texts::Text;
use event_json::{MAX_ADDRESSES, Sequence, SiteNo, Sites};
use std::alloc::{AllocError, Global};
use std::collections::BTreeMap;

/// Where a text is an address.
#[derive(Clone, Copy, Debug)]
pub struct Address {
    /// The number of the site.
    pub site: u64,
    /// The place among the site's addresses, from 0.
    pub place: u64,
}

/// The most addresses of a site.
pub(crate) const ADDRESSES: u64 = MAX_ADDRESSES as u64;

/// The name of the site of a number.
pub(crate) fn name_at(sites: &Sites, number: u64) -> Option<&str>
    ensures { option_map (λ t. t.now) result ≡ option_map (λ s. s.name)
        (slice_get sites.now number) }
{
    // There are at most 16 sites.
    let _few = sites.len();
    match SiteNo::of(number) {
        Some(site) => sites.name(site),
        None => None,
    }
}

/// The address at a place, from 0, of the site of a number.
pub(crate) fn address_at(sites: &Sites, number: u64, place: u64) -> Option<&str>
    ensures { option_map (λ t. t.now) result ≡ option_and_then (λ s. slice_get s.addresses place)
        (slice_get sites.now number) }
{
    let _few = sites.len();
    match SiteNo::of(number) {
        Some(site) => sites.address(site, place),
        None => None,
    }
}

/// The row of a site of this number and name.
fn site_row(alloc: Global, number: u64, name: &str) -> Result<SiteRow, AllocError>
    ensures { IfOk result (λ row. row ≡ record { no = pos number; name = name.now }) }
{
    Ok(SiteRow {
        no: stored(number)?,
        name: Text::of(alloc, name)?,
    })
}

/// The rows of the sites, by number.
pub fn rows_of_sites(alloc: Global, sites: &Sites) -> Result<Sequence<SiteRow>, AllocError>
    ensures { IfOk result (λ rows. rows ≡ map site_row (enumerate_from 0 sites.now)) }
{
    let mut rows = Vec::new(alloc);
    for number in 0..sites.len() {
        if let Some(name) = name_at(sites, number) {
            rows.push(site_row(alloc, number, name)?)?;
        }
    }
    Ok(Sequence::from_vec(rows))
}

/// Adds an address.
fn put_address(
    addresses: &mut BTreeMap<Text, Address>,
    text: Text,
    address: Address,
) -> Result<Option<Address>, AllocError>
    ensures { OnOk result (as_map text_cmp addresses.new
        ≡ finite.insert (as_map text_cmp addresses.old) text address) }
{
    match addresses.insert(text, address) {
        Ok(old) => Ok(old),
        Err(_) => Err(AllocError),
    }
}

/// Adds the addresses of a site.
fn put_addresses(
    alloc: Global,
    sites: &Sites,
    number: u64,
    addresses: &mut BTreeMap<Text, Address>,
) -> Result<(), AllocError>
    ensures added { (site : Site) → slice_get sites.now number ≡ Some site
        → OnOk result (as_map text_cmp addresses.new
        ≡ fold with_address (as_map text_cmp addresses.old) (addresses_at (number, site))) }
    ensures texts { (site : Site) → slice_get sites.now number ≡ Some site
        → OnOk result (HasTexts site) }
{
    let _few = sites.len();
    for place in 0..ADDRESSES {
        if let Some(text) = address_at(sites, number, place) {
            let address = Address {
                site: number,
                place,
            };
            put_address(addresses, Text::of(alloc, text)?, address)?;
        }
    }
    Ok(())
}

/// The addresses of all sites.
fn addresses_of(alloc: Global, sites: &Sites) -> Result<BTreeMap<Text, Address>, AllocError>
    ensures all { IfOk result (λ addresses. as_map text_cmp addresses ≡ addresses_of sites.now) }
    ensures texts { IfOk result (λ _. All HasTexts sites.now) }
{
    let mut addresses = BTreeMap::new(alloc);
    for number in 0..sites.len() {
        put_addresses(alloc, sites, number, &mut addresses)?;
    }
    Ok(addresses)
}

/// The rows of the addresses of a map, in its order.
fn listed(alloc: Global, addresses: &BTreeMap<Text, Address>) -> Result<Vec<AddressRow>, AllocError>
    ensures { IfOk result (λ rows. rows.items ≡ map address_row addresses.now.entries) }
{
    let mut rows = Vec::new(alloc);
    for (text, address) in addresses {
        rows.push(AddressRow {
            text: text.copy(alloc)?,
            site: stored(address.site)?,
            place: stored(address.place)?,
        })?;
    }
    Ok(rows)
}

/// The rows of the addresses, by text.
pub fn address_rows(alloc: Global, sites: &Sites) -> Result<Sequence<AddressRow>, AllocError>
    ensures rows { IfOk result (λ rows.
        rows ≡ map address_row (finite.entries (addresses_of sites.now))) }
    ensures texts { IfOk result (λ _. All HasTexts sites.now) }
{
    let addresses = addresses_of(alloc, sites)?;
    // Brings into scope that the texts ascend.
    let _length = addresses.len();
    Ok(Sequence::from_vec(listed(alloc, &addresses)?))
}
