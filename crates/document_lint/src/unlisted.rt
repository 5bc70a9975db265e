//! Destinations that are no address of a listed site: places outside, and other spellings of a listed place.

ghost use Rattle.std.specs.Prelude.{◌≡◌, ◌<◌, ◌++◌, IfOk, OnOk, false, filter, length, map, option_map, slice_get};
ghost use Rattle.std.specs.List.{flat_map};
ghost use Rattle.std.specs.Option.{option_map_or};
ghost use Rattle.event_json.specs.Sites.{AreSites};
ghost use Rattle.event_json.specs.Untraced.{outside_of};
ghost use Rattle.document_lint.specs.Locations.{has_location, or_outside, sites_meant, spelling, unlisted};

use crate::findings::What;
use crate::locations::{is_named, location_of};
use event_json::{Body, MAX_ADDRESSES, PlainText, SiteNo, Sites};
use std::alloc::{AllocError, Global};

/// Adds each destination of an event that is no address of a listed site.
pub(crate) fn push_unlisted(
    alloc: Global,
    found: &mut Vec<What>,
    sites: &Sites,
    body: &Body,
) -> Result<(), AllocError>
    ensures { OnOk result (found.new.items
        ≡ found.old.items ++ flat_map (unlisted sites.now) (outside_of body.now)) }
{
    match body {
        Body::Ship {
            items: _,
            sites: _,
            outside,
        } => push_places(alloc, found, sites, outside.as_slice()),
        Body::Note { items: _ } => Ok(()),
        Body::Make {
            id: _,
            ins: _,
            outs: _,
        } => Ok(()),
        Body::Pack {
            action: _,
            parent: _,
            children: _,
        } => Ok(()),
    }
}

/// Adds each of these places.
fn push_places(
    alloc: Global,
    found: &mut Vec<What>,
    sites: &Sites,
    places: &[PlainText],
) -> Result<(), AllocError>
    ensures { OnOk result (found.new.items
        ≡ found.old.items ++ flat_map (unlisted sites.now) places.now) }
{
    for place in places {
        push_place(alloc, found, sites, place)?;
    }
    Ok(())
}

/// Adds the sites that are at the location of a place, or that it is one outside.
fn push_place(
    alloc: Global,
    found: &mut Vec<What>,
    sites: &Sites,
    place: &PlainText,
) -> Result<(), AllocError>
    ensures { OnOk result (found.new.items ≡ found.old.items ++ unlisted sites.now place.now) }
{
    let spellings = spellings_of(alloc, sites, place)?;
    let mut told = or_outside(alloc, spellings, place)?;
    found.append(&mut told)?;
    Ok(())
}

/// These, or where there are none that a place is one outside.
fn or_outside(
    alloc: Global,
    spellings: Vec<What>,
    place: &PlainText,
) -> Result<Vec<What>, AllocError>
    ensures { IfOk result (λ v. v.items ≡ or_outside place.now spellings.items) }
{
    let mut told = spellings;
    if told.is_empty() {
        told.push(What::Outside(place.copy(alloc)?))?;
    }
    Ok(told)
}

/// The sites that are at the location of a place.
fn spellings_of(alloc: Global, sites: &Sites, place: &PlainText) -> Result<Vec<What>, AllocError>
    ensures { IfOk result (λ v. v.items
        ≡ map (spelling place.now) (sites_meant sites.now place.now)) }
{
    match location_of(alloc, place.as_str())? {
        Some(location) => spellings_at(alloc, sites, place, location.as_slice()),
        None => Ok(Vec::new(alloc)),
    }
}

/// The sites that are at this location, of which a place may be another spelling.
fn spellings_at(
    alloc: Global,
    sites: &Sites,
    place: &PlainText,
    location: &[u8],
) -> Result<Vec<What>, AllocError>
    ensures { IfOk result (λ v. v.items
        ≡ map (spelling place.now) (filter (has_location location.now) sites.now)) }
{
    let mut spellings = Vec::new(alloc);
    for number in 0..sites.len() {
        let Some(site) = SiteNo::of(number) else {
            unreachable!()
        };
        if has_location(alloc, sites, site, location)? {
            spellings.push(spelling(alloc, sites, site, place)?)?;
        }
    }
    Ok(spellings)
}

/// That a place may be another spelling of an address of this site.
fn spelling(
    alloc: Global,
    sites: &Sites,
    site: SiteNo,
    place: &PlainText,
) -> Result<What, AllocError>
    requires listed { site < length sites.now }
    requires in_order { AreSites sites.now }
    ensures { IfOk result (λ what.
        Some what ≡ option_map (spelling place.now) (slice_get sites.now site)) }
{
    let Some(name) = sites.name(site) else {
        unreachable!()
    };
    let Some(site) = PlainText::read(alloc, name)? else {
        unreachable!()
    };
    Ok(What::OtherSpelling {
        site,
        address: place.copy(alloc)?,
    })
}

/// Whether one of the addresses of a site names this location.
fn has_location(
    alloc: Global,
    sites: &Sites,
    site: SiteNo,
    location: &[u8],
) -> Result<bool, AllocError>
    requires { AreSites sites.now }
    ensures { IfOk result (λ has.
        has ≡ option_map_or (has_location location.now) (slice_get sites.now site) false) }
{
    for place in 0..MAX_ADDRESSES as u64 {
        let Some(address) = sites.address(site, place) else {
            return Ok(false);
        };
        if is_named(alloc, location, address)? {
            return Ok(true);
        }
    }
    Ok(false)
}
