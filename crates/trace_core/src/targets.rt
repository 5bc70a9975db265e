//! What one pair is related to, for searches that take one pair at a time.
ghost use Rattle.std.specs.Prelude.{◌≡◌, ◌<◌, IfOk, OnOk, Some, length, slice_get};
ghost use Rattle.trace_core.specs.Chains.{Related, RelatesFrom, sites_at};
ghost use Rattle.trace_core.specs.Groups.{IsGiven, IsGivenBy, SeesOnly};
ghost use Rattle.trace_core.specs.Nodes.{Stands, Gains};
ghost use Rattle.trace_core.specs.Pairs.{IsStrictlyAscending};
ghost use Rattle.trace_core.specs.Searches.{AreUnseen};
ghost use Rattle.trace_core.specs.Sites.{SiteEvents};

use crate::batches::pairs_of;
use crate::captured::Captured;
use crate::nodes::Nodes;
use crate::ordered_keys::in_order;
use crate::pairs::Pair;
use crate::seen::Seen;
use crate::visits::visit_item;
use std::alloc::{AllocError, Global};

/// The pairs that a pair is related to, but for those that transformations gave which were seen before,
/// ascending.
pub fn unseen_targets(
    alloc: Global,
    sites: &[&Captured],
    pair: &Pair,
    seen: &mut Seen,
) -> Result<Vec<Pair>, AllocError>
    ensures ascending { IfOk result (λ targets. IsStrictlyAscending targets.items) }
    ensures unseen { IfOk result (λ targets.
        AreUnseen (Related (sites_at sites.now) pair.now) (IsGivenBy (sites_at sites.now))
        seen.old seen.new targets.items) }
{
    let mut nodes = Nodes::new(alloc);
    for number in 0..sites.len() {
        visit_pair(sites, number, pair, seen, &mut nodes)?;
    }
    let pairs = pairs_of(alloc, sites, &nodes)?;
    in_order(pairs)
}

/// Notes what a pair is related to by the events of one of the sites.
fn visit_pair(
    sites: &[&Captured],
    number: usize,
    pair: &Pair,
    seen: &mut Seen,
    nodes: &mut Nodes,
) -> Result<(), AllocError>
    requires { number < length sites.now }
    ensures gains { OnOk result ((s : SiteEvents) → slice_get (sites_at sites.now) number ≡ Some s
        → Gains (Stands (sites_at sites.now)) (IsGiven s number) (RelatesFrom s pair.now)
        seen.old seen.new nodes.old nodes.new) }
    ensures only { OnOk result (SeesOnly number seen.old seen.new) }
{
    let site = sites[number];
    let mut looks = 0;
    if site.me() == pair.site {
        if let Some(item) = site.book().number_of(&pair.item) {
            visit_item(site, number, true, item, seen, nodes, &mut looks)?;
        }
    }
    Ok(())
}
