//! The events that tell of the lines of gaps.
ghost use Rattle.std.specs.Prelude.{◌≡◌, ◌↔◌, ◌++◌, ◌∷◌, [], IfOk, OnOk, Contains};
ghost use Rattle.std.specs.BTreeMap.{get};
ghost use Rattle.std.specs.List.{AllZip};
ghost use Rattle.trace_core.specs.declared.pairs.Pair.{Pair};
ghost use Rattle.trace_core.specs.Chains.{sites_at};
ghost use Rattle.trace_core.specs.Pairs.{pair_cmp};
ghost use Rattle.gap_core.specs.Adding.{AddsToList, ByOne};
ghost use Rattle.gap_core.specs.LineEvents.{AreEventsOf, IsIndexed, IsPairOf, pair_of};
ghost use Rattle.gap_core.specs.Sources.{AreKnown};
ghost use Rattle.gap_core.specs.declared.lines.GapLine.{GapLine};
ghost use Rattle.gap_core.specs.declared.event_places.Kind.TheVariants.{FirstPacking, LastShipment};

use crate::event_places::{Kind, pair_at, place_of, places_of};
use crate::lines::GapLine;
use crate::searches::known_packings;
use crate::sources::Sources;
use epc_core::Epc;
use event_json::SiteNo;
use std::alloc::{AllocError, Global};
use std::collections::BTreeMap;
use trace_core::{Captured, Pair};

/// The places of the events that tell of a line, from 0 among those of their sites.
#[derive(Clone, Copy, Debug, PartialEq, Eq)]
pub struct GapEvents {
    /// The first by which the packer put something into the container.
    pub packed: Option<usize>,
    /// The last by which the line's site shipped the container to another site or to a place outside, by itself or in
    /// something that it is known to lie in.
    pub shipped: Option<usize>,
}

/// For each of some lines the events that tell of it, in the order of the lines. Where two of the sites have one
/// number, the first of them is looked at.
///
/// # Errors
/// Out of memory.
pub fn gap_events(
    alloc: Global,
    sites: &[&Captured],
    lines: &[GapLine],
) -> Result<Vec<GapEvents>, AllocError>
    // The first event by which the packer of a line put something into its container, and the last by which the line's
    // site shipped that to another site or to a place outside, by itself or in something that it is known to lie in;
    // none where there is none.
    ensures { IfOk result (λ events. AllZip (AreEventsOf (sites_at sites.now)) lines.now events.items) }
{
    let known = known_packings(alloc, sites)?;
    let packed = index_of(alloc, sites, &known, Kind::FirstPacking, lines)?;
    let shipped = index_of(alloc, sites, &known, Kind::LastShipment, lines)?;
    let mut events = Vec::new(alloc);
    for line in lines {
        push_events(alloc, line, &packed, &shipped, &mut events)?;
    }
    Ok(events)
}

/// Adds the events of a line, as they are kept.
fn push_events(
    alloc: Global,
    line: &GapLine,
    packed: &BTreeMap<Pair, usize>,
    shipped: &BTreeMap<Pair, usize>,
    events: &mut Vec<GapEvents>,
) -> Result<(), AllocError>
    ensures { OnOk result (events.new.items ≡ events.old.items ++ record {
      packed = get pair_cmp packed.now (pair_of FirstPacking line.now);
      shipped = get pair_cmp shipped.now (pair_of LastShipment line.now);
    } ∷ []) }
{
    let packing = pair_at(alloc, line.by, &line.container)?;
    let shipment = pair_at(alloc, line.site, &line.container)?;
    events.push(GapEvents {
        packed: place_of(packed, &packing),
        shipped: place_of(shipped, &shipment),
    })?;
    Ok(())
}

/// For the container of each line the place of its event.
fn index_of(
    alloc: Global,
    sites: &[&Captured],
    known: &BTreeMap<Epc, Sources>,
    kind: Kind,
    lines: &[GapLine],
) -> Result<BTreeMap<Pair, usize>, AllocError>
    requires known { AreKnown (sites_at sites.now) known.now }
    ensures { IfOk result (λ index. (line : GapLine) → Contains lines.now line
        → IsIndexed kind (sites_at sites.now) index (pair_of kind line)) }
{
    let pairs = pairs_of(alloc, kind, lines)?;
    places_of(alloc, sites, known, kind, pairs.as_slice())
}

/// The containers of some lines, at the sites that pack or ship them.
fn pairs_of(alloc: Global, kind: Kind, lines: &[GapLine]) -> Result<Vec<Pair>, AllocError>
    ensures { IfOk result (λ pairs. (p : Pair) → Contains pairs.items p
        ↔ ByOne lines.now (IsPairOf kind) p) }
{
    let mut pairs = Vec::new(alloc);
    for line in lines {
        push_pair(alloc, kind, line, &mut pairs)?;
    }
    Ok(pairs)
}

/// Adds the container of a line, at the site that packs or ships it.
fn push_pair(
    alloc: Global,
    kind: Kind,
    line: &GapLine,
    pairs: &mut Vec<Pair>,
) -> Result<(), AllocError>
    ensures { OnOk result (AddsToList pairs.old.items pairs.new.items (IsPairOf kind line.now)) }
{
    let pair = pair_at(alloc, site_in(kind, line), &line.container)?;
    pairs.push(pair)?;
    Ok(())
}

/// The site that packs or ships the container of a line.
fn site_in(kind: Kind, line: &GapLine) -> SiteNo
    ensures { record { site = result; item = line.now.container } ≡ pair_of kind line.now }
{
    match kind {
        Kind::FirstPacking => line.by,
        Kind::LastShipment => line.site,
    }
}
