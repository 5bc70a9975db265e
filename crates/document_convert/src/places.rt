//! The place of a text in a list of sites.

ghost use Rattle.std.specs.Prelude.{◌≡◌, ◌++◌, [], IfOk, OnOk, map, option_map, slice_get, string_bytes};
ghost use Rattle.std.specs.List.{cons_option, find};
ghost use Rattle.std.specs.Option.{option_and_then};
ghost use Rattle.event_json.specs.Sites.{AreSites};
ghost use Rattle.document_convert.specs.Places.{are_same, first_addresses, is_address, is_of_several, name_one_gln, only_member, place_of};

use document_lint::location_of;
use event_json::{MAX_ADDRESSES, SiteNo, Sites};
use item_spellings::are_one_place;
use std::alloc::{AllocError, Global};

/// How an address is the same as a text.
#[derive(Clone, Copy, Debug)]
enum Sameness {
    /// They are one text.
    Text,
    /// They are two spellings of one place with its extension.
    Place,
    /// They name one GLN.
    Gln,
}

/// Whether two texts name one GLN.
fn name_one_gln(alloc: Global, text: &str, address: &str) -> Result<bool, AllocError>
    ensures { IfOk result (λ same. same ≡ name_one_gln text.now address.now) }
{
    let Some(gln) = location_of(alloc, text)? else {
        return Ok(false);
    };
    match location_of(alloc, address)? {
        Some(named) => Ok(gln.as_slice() == named.as_slice()),
        None => Ok(false),
    }
}

/// Whether an address is the same as a text.
fn are_same(alloc: Global, by: Sameness, text: &str, address: &str) -> Result<bool, AllocError>
    ensures { IfOk result (λ same. same ≡ are_same by text.now address.now) }
{
    match by {
        Sameness::Text => Ok(text == address),
        Sameness::Place => Ok(are_one_place(text, address)),
        Sameness::Gln => name_one_gln(alloc, text, address),
    }
}

/// The first address of a site that is the same as a text.
fn first_address<'s>(
    alloc: Global,
    sites: &'s Sites,
    site: SiteNo,
    by: Sameness,
    text: &str,
) -> Result<Option<&'s str>, AllocError>
    requires { AreSites sites.now }
    ensures { IfOk result (λ found. option_map (λ t. t.now) found
        ≡ option_and_then (λ s. find (are_same by text.now) s.addresses)
        (slice_get sites.now site)) }
{
    for place in 0..MAX_ADDRESSES as u64 {
        let Some(address) = sites.address(site, place) else {
            return Ok(None);
        };
        if are_same(alloc, by, text, address)? {
            return Ok(Some(address));
        }
    }
    Ok(None)
}

/// Adds the first address of a site that is the same as a text.
fn push_first<'s>(
    alloc: Global,
    found: &mut Vec<&'s str>,
    sites: &'s Sites,
    site: SiteNo,
    by: Sameness,
    text: &str,
) -> Result<(), AllocError>
    requires { AreSites sites.now }
    ensures { OnOk result (map (λ t. t.now) found.new.items ≡ map (λ t. t.now) found.old.items
        ++ cons_option (option_and_then (λ s. find (are_same by text.now) s.addresses)
        (slice_get sites.now site)) []) }
{
    if let Some(address) = first_address(alloc, sites, site, by, text)? {
        found.push(address)?;
    }
    Ok(())
}

/// Of each site that has such an address the first one.
fn first_addresses<'s>(
    alloc: Global,
    sites: &'s Sites,
    by: Sameness,
    text: &str,
) -> Result<Vec<&'s str>, AllocError>
    ensures { IfOk result (λ found. map (λ t. t.now) found.items
        ≡ first_addresses (are_same by text.now) sites.now) }
{
    let mut found = Vec::new(alloc);
    for number in 0..sites.len() {
        let Some(site) = SiteNo::of(number) else {
            unreachable!()
        };
        push_first(alloc, &mut found, sites, site, by, text)?;
    }
    Ok(found)
}

/// Whether a text is an address of a listed site.
fn is_address(alloc: Global, sites: &Sites, text: &str) -> Result<bool, AllocError>
    ensures { IfOk result (λ is. is ≡ is_address sites.now text.now) }
{
    let found = first_addresses(alloc, sites, Sameness::Text, text)?;
    let found = found.as_slice();
    Ok(!found.is_empty())
}

/// A copy of the member of a list that has only one.
fn only_member(alloc: Global, list: &[&str]) -> Result<Option<String>, AllocError>
    ensures { IfOk result
        (λ only. option_map string_bytes only ≡ only_member (map (λ t. t.now) list.now)) }
{
    if list.len() == 1 {
        Ok(Some(String::from_str(alloc, list[0])?))
    } else {
        Ok(None)
    }
}

/// The first address of the one site that has such an address.
fn only_address(
    alloc: Global,
    sites: &Sites,
    by: Sameness,
    text: &str,
) -> Result<Option<String>, AllocError>
    ensures { IfOk result (λ only. option_map string_bytes only
        ≡ only_member (first_addresses (are_same by text.now) sites.now)) }
{
    let found = first_addresses(alloc, sites, by, text)?;
    only_member(alloc, found.as_slice())
}

/// The address by which the place of a text is listed: the text itself, where it is one; else the first address of the
/// one site that has the same place with its extension, in another spelling; else the first address of the one site
/// that has the same GLN.
#[tactic(auto, unfolding(crate::specs::Places::place_of))]
pub(crate) fn place_of(
    alloc: Global,
    sites: &Sites,
    text: &str,
) -> Result<Option<String>, AllocError>
    ensures { IfOk result
        (λ place. option_map string_bytes place ≡ place_of sites.now text.now) }
{
    if is_address(alloc, sites, text)? {
        return Ok(Some(String::from_str(alloc, text)?));
    }
    match only_address(alloc, sites, Sameness::Place, text)? {
        Some(address) => Ok(Some(address)),
        None => only_address(alloc, sites, Sameness::Gln, text),
    }
}

/// Whether a text has no such address, since it names the GLN of several listed sites.
#[tactic(auto, unfolding(crate::specs::Places::is_of_several))]
pub(crate) fn is_of_several(alloc: Global, sites: &Sites, text: &str) -> Result<bool, AllocError>
    ensures { IfOk result (λ several. several ≡ is_of_several sites.now text.now) }
{
    if place_of(alloc, sites, text)?.is_some() {
        return Ok(false);
    }
    let found = first_addresses(alloc, sites, Sameness::Gln, text)?;
    Ok(found.len() > 1)
}
