//! Events that happened at another traced site than the one that is to capture them.

ghost use Rattle.std.specs.Prelude.{◌≡◌, ◌++◌, OnOk, length, option_map};
ghost use Rattle.serde_json.specs.View.{view};
ghost use Rattle.event_json.specs.declared.limits.TheConstants.{MAX_ADDRESSES};
ghost use Rattle.document_lint.specs.OtherPlaces.{has_address, is_address, is_other, is_other_below, other_place, other_places, place_name, place_text, placed};

use crate::event_lists::member_named;
use crate::findings::{Listing, PlaceMember, What};
use epc_core::is_plain;
use event_json::{MAX_ADDRESSES, PlainText, SiteNo, Sites};
use serde_json::Value;
use std::alloc::{AllocError, Global};

impl PlaceMember {
    /// The member by its name.
    pub fn name(self) -> &'static str
        ensures { result.now ≡ place_name self }
    {
        match self {
            PlaceMember::ReadPoint => "readPoint",
            PlaceMember::BizLocation => "bizLocation",
        }
    }
}

/// Adds the places of other sites that an event names.
pub(crate) fn push_other_places(
    alloc: Global,
    found: &mut Vec<What>,
    listing: &Listing<'_>,
    value: &Value,
) -> Result<(), AllocError>
    ensures { OnOk result (found.new.items
        ≡ found.old.items ++ other_places listing.now.sites.now listing.now.here (view value.now)) }
{
    push_other_place(
        alloc,
        found,
        listing,
        PlaceMember::ReadPoint,
        place_text(value, PlaceMember::ReadPoint),
    )?;
    push_other_place(
        alloc,
        found,
        listing,
        PlaceMember::BizLocation,
        place_text(value, PlaceMember::BizLocation),
    )
}

/// The text by which an event names the place of a member.
fn place_text(value: &Value, member: PlaceMember) -> Option<&str>
    ensures { option_map (λ t. t.now) result ≡ place_text member (view value.now) }
{
    let place = member_named(value, member.name())?;
    member_named(place, "id")?.as_str()
}

/// Adds the place that an event names in a member, where it is one of another site.
fn push_other_place(
    alloc: Global,
    found: &mut Vec<What>,
    listing: &Listing<'_>,
    member: PlaceMember,
    text: Option<&str>,
) -> Result<(), AllocError>
    ensures { OnOk result (found.new.items
        ≡ found.old.items ++ other_place listing.now.sites.now listing.now.here member
        (option_map (λ t. t.now) text.entry)) }
{
    let Some(text) = text else {
        return Ok(());
    };
    if is_other(listing, text) {
        push_placed(alloc, found, member, text)
    } else {
        Ok(())
    }
}

/// Adds a place of another site, by its address.
fn push_placed(
    alloc: Global,
    found: &mut Vec<What>,
    member: PlaceMember,
    text: &str,
) -> Result<(), AllocError>
    ensures { OnOk result (found.new.items ≡ found.old.items ++ placed member text.now) }
{
    if !is_plain(text) {
        return Ok(());
    }
    let Some(address) = PlainText::read(alloc, text)? else {
        unreachable!()
    };
    found.push(What::OtherPlace { member, address })?;
    Ok(())
}

/// Whether a text is an address of another site than this one, where that is known.
fn is_other(listing: &Listing<'_>, text: &str) -> bool
    ensures { result ≡ is_other listing.now.sites.now listing.now.here text.now }
{
    match &listing.here {
        Some(here) => is_of_other(listing.sites, *here, text),
        None => false,
    }
}

/// Whether a text is an address of another site than this one.
fn is_of_other(sites: &Sites, here: SiteNo, text: &str) -> bool
    ensures { result ≡ is_other_below sites.now here text.now (length sites.now) }
{
    let mut other = false;
    for number in 0..sites.len() {
        let Some(site) = SiteNo::of(number) else {
            unreachable!()
        };
        other = other || (number != here.number() && has_address(sites, site, text));
    }
    other
}

/// Whether a text is an address of a site.
fn has_address(sites: &Sites, site: SiteNo, text: &str) -> bool
    ensures { result ≡ has_address sites.now site text.now MAX_ADDRESSES }
{
    let mut has = false;
    for place in 0..MAX_ADDRESSES as u64 {
        has = has || is_address(sites.address(site, place), text);
    }
    has
}

/// Whether an address, if there is one, is this text.
fn is_address(address: Option<&str>, text: &str) -> bool
    ensures { result ≡ is_address text.now (option_map (λ t. t.now) address.entry) }
{
    match address {
        Some(address) => address == text,
        None => false,
    }
}
