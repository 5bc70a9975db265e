//! The trace of an item together with what lies in it.
ghost use Rattle.std.specs.Prelude.{IfErr, IfOk};
ghost use Rattle.trace_core.specs.AllFound.{AreAllFound};
ghost use Rattle.trace_core.specs.Chains.{sites_at};
ghost use Rattle.site_recovery.specs.Checking.{records_at, world_at};
ghost use Rattle.site_recovery.specs.FittingAt.{AreAllSites};
ghost use Rattle.report_core.specs.Traces.{IsContentsTrace, IsKnownAt, LeadsOn, TellsTraceFault};

use crate::faults::TraceFault;
use crate::outside::shipped_from;
use crate::sources::push_items;
use crate::traces::Trace;
use crate::tracing::is_known_at;
use epc_core::Epc;
use event_json::{Sequence, SiteNo};
use site_core::SiteState;
use site_recovery::captured;
use std::alloc::{AllocError, Global};
use trace_core::{Adjacency, Captured, FoundTrails, Pair, Seen, trails_from, unseen_targets};

/// The related pairs of several sites, and from a root also the items at its site that lie in it.
#[derive(Drop)]
struct WithContents<'a> {
    sites: &'a [&'a Captured],
    root: &'a Pair,
    inside: &'a [Epc],
}

impl Adjacency for WithContents<'_> {
    ghost use Rattle.trace_core.specs.Chains.{sites_at};
    ghost use Rattle.trace_core.specs.Groups.{IsGivenBy};
    ghost use Rattle.report_core.specs.Traces.{LeadsOn};

    ghost relates = { λ c. LeadsOn (sites_at c.sites.now) c.root.now c.inside.now };

    ghost gives = { λ c. IsGivenBy (sites_at c.sites.now) };

    fn none_seen(&self, alloc: Global) -> Seen {
        Seen::new(alloc)
    }

    fn unseen_targets(
        &self,
        alloc: Global,
        pair: &Pair,
        seen: &mut Seen,
    ) -> Result<Vec<Pair>, AllocError> {
        let mut found = unseen_targets(alloc, self.sites, pair, seen)?;
        if pair == self.root {
            push_items(alloc, self.root.site, self.inside, &mut found)?;
        }
        Ok(found)
    }
}

/// Traces an item at a site and the items that lie in it as one: all that the item or one of these, at the site,
/// reaches through what all sites captured, by the records of all sites in the order of their numbers. What lies in
/// the item is given, in any order; no event is asked for it, and it may be named more than once. A trail from the
/// item to what it reaches through one of these has that one behind the item. One search finds the pairs and their
/// trails.
///
/// # Errors
/// As `trace`, of the item: whether the site knows the items that lie in it isn't asked.
pub fn trace_contents(
    alloc: Global,
    sites: &[&SiteState],
    site: SiteNo,
    item: &Epc,
    inside: &[Epc],
) -> Result<Trace, TraceFault>
    requires all { AreAllSites (records_at sites.now) }
    // The trace has the item at the site as its root. Of two pairs the one leads on to the other where it is related
    // to it, and from the root also where the other one is one of the items inside, at the site. The trace has just
    // the pairs to which chains of such steps lead from the root, in order, each once; for each such a chain without
    // repeats, such that no chain has fewer pairs; and each shipment of such a pair's item, or of what it lies in,
    // from its site out of the traced sites, in order, each once.
    ensures ok { IfOk result (IsContentsTrace (records_at sites.now) site item.now inside.now) }
    ensures known { IfOk result (λ _. IsKnownAt (world_at sites.now) site item.now) }
    ensures fault { IfErr result (TellsTraceFault (world_at sites.now) site item.now) }
{
    if !is_known_at(sites, site, item) {
        return Err(TraceFault::UnknownItem);
    }
    let root = Pair {
        site,
        item: item.copy(alloc)?,
    };
    let captured = captured(alloc, sites)?;
    let found = trails_with(alloc, captured.as_slice(), &root, inside)?;
    let outside = shipped_from(alloc, sites, found.pairs.as_slice())?;
    Ok(Trace {
        root,
        pairs: found.pairs,
        trails: found.trails,
        outside: Sequence::from_vec(outside),
    })
}

/// All that a root reaches by itself or through the items that lie in it, each with a shortest chain.
fn trails_with(
    alloc: Global,
    sites: &[&Captured],
    root: &Pair,
    inside: &[Epc],
) -> Result<FoundTrails, AllocError>
    ensures { IfOk result (AreAllFound (LeadsOn (sites_at sites.now) root.now inside.now) root.now) }
{
    let relation = WithContents {
        sites,
        root,
        inside,
    };
    trails_from(alloc, &relation, root)
}
