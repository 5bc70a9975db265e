//! What chains of related pairs reach through several sites.
ghost use Rattle.std.specs.Prelude.{◌≡◌, ◌<◌, ◌≤◌, ◌⊎◌, ◌↔◌, Some, IfOk, OnOk, Contains, length, slice_get, option_map};
ghost use Rattle.trace_core.specs.declared.nodes.Node.{Node};
ghost use Rattle.trace_core.specs.declared.pairs.Pair.{Pair};
ghost use Rattle.trace_core.specs.Chains.{Related, RelatesFrom, sites_at};
ghost use Rattle.trace_core.specs.Groups.{IsGiven, SeesOnly};
ghost use Rattle.trace_core.specs.Nodes.{Stands, StandsForOne, Gains};
ghost use Rattle.trace_core.specs.Numbers.{number_in, numbered};
ghost use Rattle.trace_core.specs.Pairs.{IsStrictlyAscending};
ghost use Rattle.trace_core.specs.Relations.{ReachedFrom, Reaches};
ghost use Rattle.trace_core.specs.Sites.{SiteEvents};

use crate::batches::pairs_of;
use crate::captured::Captured;
use crate::nodes::{Node, Nodes};
use crate::ordered_keys::in_order;
use crate::pairs::Pair;
use crate::searches::{Relation, closure};
use crate::seen::Seen;
use crate::visits::visit_item;
use epc_core::Epc;
use std::alloc::{AllocError, Global};

/// The related pairs of several sites.
#[derive(Drop)]
struct RelatedPairs<'a> {
    sites: &'a [&'a Captured],
}

impl Relation for RelatedPairs<'_> {
    ghost use Rattle.std.specs.Prelude.{⊤};
    ghost use Rattle.trace_core.specs.Chains.{Related, sites_at};
    ghost use Rattle.trace_core.specs.Groups.{IsGivenBy};
    ghost use Rattle.trace_core.specs.Nodes.{Stands};

    ghost stands = { λ r. Stands (sites_at r.sites.now) };

    ghost relates = { λ r. Related (sites_at r.sites.now) };

    ghost gives = { λ r. IsGivenBy (sites_at r.sites.now) };

    ghost has_seen = { λ r seen p. ⊤ };

    // nothing is claimed of how many looks several sites take
    ghost bounds_looks = { λ r. ⊥ };

    ghost outputs = { λ r. 0 };

    ghost unseen = { λ r seen. 0 };

    fn none_seen(&self, alloc: Global) -> Seen {
        Seen::new(alloc)
    }

    fn visit(
        &self,
        node: &Node,
        seen: &mut Seen,
        nodes: &mut Nodes,
        looks: &mut u64,
    ) -> Result<(), AllocError> {
        for number in 0..self.sites.len() {
            visit_at(self.sites, number, node, seen, nodes, looks)?;
        }
        Ok(())
    }
}

/// Notes what a node is related to by the events of one of the sites.
fn visit_at(
    sites: &[&Captured],
    number: usize,
    node: &Node,
    seen: &mut Seen,
    nodes: &mut Nodes,
    looks: &mut u64,
) -> Result<(), AllocError>
    requires { number < length sites.now }
    ensures gains { OnOk result ((p : Pair) → Stands (sites_at sites.now) node.now p
        → (s : SiteEvents) → slice_get (sites_at sites.now) number ≡ Some s
        → Gains (Stands (sites_at sites.now)) (IsGiven s number) (RelatesFrom s p) seen.old seen.new
        nodes.old nodes.new) }
    ensures only { OnOk result (SeesOnly number seen.old seen.new) }
    ensures looks { OnOk result (looks.old ≤ looks.new) }
{
    let site = sites[number];
    if site.me() == node.at {
        if let Some(item) = number_at(sites, number, node) {
            visit_item(site, number, true, item, seen, nodes, looks)?;
        }
    }
    Ok(())
}

/// The number that a node's item has at one of the sites, if it is known there.
fn number_at(sites: &[&Captured], number: usize, node: &Node) -> Option<usize>
    requires { number < length sites.now }
    ensures { (p : Pair) → Stands (sites_at sites.now) node.now p → (s : SiteEvents)
        → slice_get (sites_at sites.now) number ≡ Some s
        → result ≡ number_in (numbered s.events) p.item }
{
    if node.site == number {
        Some(node.item)
    } else {
        sites[number].book().number_of(item_of(sites, node)?)
    }
}

/// A node's item.
fn item_of<'a>(sites: &[&'a Captured], node: &Node) -> Option<&'a Epc>
    ensures { (p : Pair) → Stands (sites_at sites.now) node.now p
        ↔ ((option_map (λ i. i.now) result ≡ Some p.item) × (p.site ≡ node.now.at)) }
{
    if node.site < sites.len() {
        sites[node.site].book().item(node.item)
    } else {
        None
    }
}

/// All that chains of related pairs reach from a pair, itself among them, ascending and without
/// repeats. Each step of a chain is a related pair of the site at which it begins, by the events of
/// any of the given sites that has that number. A pair at a site that isn't among them leads no
/// further.
pub fn reach(alloc: Global, sites: &[&Captured], root: &Pair) -> Result<Vec<Pair>, AllocError>
    // Not covered: what it costs.
    ensures ascending { IfOk result (λ pairs. IsStrictlyAscending pairs.items) }
    ensures reached { IfOk result (λ pairs. (p : Pair) → Contains pairs.items p
        ↔ Reaches (Related (sites_at sites.now)) root.now p) }
{
    reach_from(alloc, sites, std::slice::from_ref(root))
}

/// All that chains of related pairs reach from some pairs, these among them, as [`reach`] says it of one. One search
/// finds it for all of them.
///
/// # Errors
/// Out of memory.
pub fn reach_from(
    alloc: Global,
    sites: &[&Captured],
    roots: &[Pair],
) -> Result<Vec<Pair>, AllocError>
    ensures ascending { IfOk result (λ pairs. IsStrictlyAscending pairs.items) }
    ensures reached { IfOk result (λ pairs. (p : Pair) → Contains pairs.items p
        ↔ ReachedFrom (Related (sites_at sites.now)) roots.now p) }
{
    let mut looks = 0;
    let starts = nodes_of_all(alloc, sites, roots)?;
    let nodes = closure(alloc, &RelatedPairs { sites }, &starts, &mut looks)?;
    let mut pairs = pairs_of(alloc, sites, &nodes)?;
    push_roots(alloc, roots, &mut pairs)?;
    in_order(pairs)
}

/// The nodes that stand for one of some pairs.
fn nodes_of_all(alloc: Global, sites: &[&Captured], pairs: &[Pair]) -> Result<Vec<Node>, AllocError>
    ensures { IfOk result (λ nodes. (n : Node) → Contains nodes.items n
        ↔ StandsForOne (sites_at sites.now) pairs.now n) }
{
    let mut nodes = Vec::new(alloc);
    for pair in pairs {
        push_all(&nodes_of(alloc, sites, pair)?, &mut nodes)?;
    }
    Ok(nodes)
}

/// Adds nodes to others.
fn push_all(more: &[Node], nodes: &mut Vec<Node>) -> Result<(), AllocError>
    ensures { OnOk result ((n : Node) → Contains nodes.new.items n
        ↔ (Contains nodes.old.items n ⊎ Contains more.now n)) }
{
    for node in more {
        nodes.push(*node)?;
    }
    Ok(())
}

/// Adds copies of some pairs to others.
fn push_roots(alloc: Global, roots: &[Pair], pairs: &mut Vec<Pair>) -> Result<(), AllocError>
    ensures { OnOk result ((p : Pair) → Contains pairs.new.items p
        ↔ (Contains pairs.old.items p ⊎ Contains roots.now p)) }
{
    for root in roots {
        pairs.push(root.copy(alloc)?)?;
    }
    Ok(())
}

/// The nodes that stand for a pair: one for each site that knows its item.
fn nodes_of(alloc: Global, sites: &[&Captured], pair: &Pair) -> Result<Vec<Node>, AllocError>
    ensures { IfOk result (λ nodes. (n : Node) → Contains nodes.items n
        ↔ Stands (sites_at sites.now) n pair.now) }
{
    let mut nodes = Vec::new(alloc);
    for number in 0..sites.len() {
        if let Some(item) = sites[number].book().number_of(&pair.item) {
            nodes.push(Node {
                site: number,
                item,
                at: pair.site,
            })?;
        }
    }
    Ok(nodes)
}
