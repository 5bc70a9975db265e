//! Who packed what is known to lie in a container.
ghost use Rattle.std.specs.Prelude.{◌≡◌, ◌≤◌, ◌↔◌, ℕ, List, Some, IfOk, OnOk, IsTrue, slice_get};
ghost use Rattle.trace_core.specs.Chains.{sites_at};
ghost use Rattle.trace_core.specs.Numbers.{numbered};
ghost use Rattle.trace_core.specs.Pairs.{Carries};
ghost use Rattle.gap_core.specs.Adding.{AddsTo};
ghost use Rattle.gap_core.specs.Packers.{IsFrom, IsFromOne, IsFromPlace, IsFromSource};

use crate::sources::{Source, Sources, sources_of};
use epc_core::Epc;
use event_json::SiteNo;
use std::alloc::{AllocError, Global};
use std::collections::BTreeMap;
use trace_core::Captured;

/// What is known at the site of a place to lie in a container, each item with the least number of a site that packed it
/// and from which the container came.
pub fn packers_of(
    alloc: Global,
    sites: &[&Captured],
    index: &BTreeMap<Epc, Sources>,
    at: usize,
    container: &Epc,
) -> Result<BTreeMap<Epc, SiteNo>, AllocError>
    ensures { IfOk result (λ packers. (m : List ℕ × ℕ) → IsFrom packers m
        ↔ IsFromOne (sites_at sites.now) index.now at container.now m) }
{
    let mut packers = BTreeMap::new(alloc);
    for source in sources_of(index, container) {
        note_source(alloc, sites, at, *source, container, &mut packers)?;
    }
    Ok(packers)
}

/// Notes the site of a source, if that is known at the site of a place, as the packer of what it packed into a
/// container.
fn note_source(
    alloc: Global,
    sites: &[&Captured],
    at: usize,
    source: Source,
    container: &Epc,
    packers: &mut BTreeMap<Epc, SiteNo>,
) -> Result<(), AllocError>
    ensures { OnOk result (AddsTo (IsFrom packers.old) (IsFrom packers.new)
        (IsFromSource (sites_at sites.now) at container.now source)) }
{
    if source.at == at {
        note_place(alloc, sites, source.from, container, packers)
    } else {
        Ok(())
    }
}

/// Notes the site of a place as the packer of what it packed into a container.
fn note_place(
    alloc: Global,
    sites: &[&Captured],
    from: usize,
    container: &Epc,
    packers: &mut BTreeMap<Epc, SiteNo>,
) -> Result<(), AllocError>
    ensures { OnOk result (AddsTo (IsFrom packers.old) (IsFrom packers.new)
        (IsFromPlace (sites_at sites.now) container.now from)) }
{
    if from < sites.len() {
        note_site(alloc, sites[from], container, packers)
    } else {
        Ok(())
    }
}

/// Notes a site as the packer of what it packed into a container.
fn note_site(
    alloc: Global,
    site: &Captured,
    container: &Epc,
    packers: &mut BTreeMap<Epc, SiteNo>,
) -> Result<(), AllocError>
    ensures { OnOk result (AddsTo (IsFrom packers.old) (IsFrom packers.new)
        (λ m. Carries site.now.events container.now m.0 × (site.now.me ≤ m.1))) }
{
    for number in site.children_of(container) {
        note_number(alloc, site, *number, packers)?;
    }
    Ok(())
}

/// Notes a site as the packer of the item that has a number there.
fn note_number(
    alloc: Global,
    site: &Captured,
    number: usize,
    packers: &mut BTreeMap<Epc, SiteNo>,
) -> Result<(), AllocError>
    ensures { OnOk result (AddsTo (IsFrom packers.old) (IsFrom packers.new)
        (λ m. (slice_get (numbered site.now.events) number ≡ Some m.0) × (site.now.me ≤ m.1))) }
{
    match site.item(number) {
        Some(child) => note_least(alloc, child, site.me(), packers),
        None => Ok(()),
    }
}

/// Notes a packer of an item, unless one with no greater number is noted.
fn note_least(
    alloc: Global,
    child: &Epc,
    by: SiteNo,
    packers: &mut BTreeMap<Epc, SiteNo>,
) -> Result<(), AllocError>
    ensures { OnOk result (AddsTo (IsFrom packers.old) (IsFrom packers.new)
        (λ m. (child.now ≡ m.0) × (by ≤ m.1))) }
{
    if has_lower(child, by, packers) {
        return Ok(());
    }
    packers.insert(child.copy(alloc)?, by)?;
    Ok(())
}

/// Whether a packer of an item with no greater number is noted.
fn has_lower(child: &Epc, by: SiteNo, packers: &BTreeMap<Epc, SiteNo>) -> bool
    ensures { IsTrue result ↔ IsFrom packers.now (child.now, by) }
{
    match packers.get(child) {
        Some(known) => known.number() <= by.number(),
        None => false,
    }
}
