//! The nodes that a search has found: pairs, by the numbers of their items.
ghost use Rattle.std.specs.Prelude.{◌≡◌, ◌∷◌, ◌⊎◌, ◌↔◌, [], false, IfOk, OnOk, OnErr, Contains, length};
ghost use Rattle.trace_core.specs.declared.nodes.Node.{Node};
ghost use Rattle.trace_core.specs.Found.{IsInBatch};
ghost use Rattle.trace_core.specs.Nodes.{NotesNodes, destinations, made_nodes};
ghost use Rattle.trace_core.specs.SiteSets.{sites_in};

use crate::marks::Marks;
use crate::site_sets::SiteSet;
use event_json::SiteNo;
use std::alloc::{AllocError, Global};
use std::collections::BTreeMap;
use std::marker::Model;

/// A pair as a search keeps it: by the number that a site gave its item.
#[derive(Clone, Copy, Debug)]
pub struct Node {
    /// The place of that site among those that are searched.
    pub site: usize,
    /// The item's number there.
    pub item: usize,
    /// The site of the pair.
    pub at: SiteNo,
}

/// What nodes have in common whose items were numbered by one site, and whose pairs are at one site. They are
/// in the order of their pairs.
#[derive(Clone, Copy, Debug, PartialEq, Eq, PartialOrd, Ord)]
pub struct Batch {
    /// The site of the pairs.
    pub at: SiteNo,
    /// The place of the site that numbered their items, among those that are searched.
    pub site: usize,
}

/// The nodes that a search has found, in the order in which they were found, and marks of their numbers.
#[derive(Drop)]
pub struct Nodes {
    marks: BTreeMap<Batch, Marks>,
    list: Vec<Node>,
}

impl Model for Nodes {
    ghost use Rattle.std.specs.Prelude.{List, ◌↔◌, Contains};
    ghost use Rattle.trace_core.specs.declared.nodes.Node.{Node};
    ghost use Rattle.trace_core.specs.Found.{IsInBatch};

    ghost Value = { List Node };

    ghost view = { λ n. n.list.items };

    ghost invariant = { λ n. (m : Node) → IsInBatch n.marks m ↔ Contains n.list.items m };
}

impl Nodes {
    /// No nodes. Does not allocate.
    pub fn new(alloc: Global) -> Nodes
        ensures { result ≡ [] }
    {
        Nodes {
            marks: BTreeMap::new(alloc),
            list: Vec::new(alloc),
        }
    }

    /// How many nodes there are.
    pub fn len(&self) -> usize
        ensures { result ≡ length self.now }
    {
        self.list.len()
    }

    /// The nodes in the order in which they were found.
    pub fn as_slice(&self) -> &[Node]
        ensures { result.now ≡ self.now }
    {
        self.list.as_slice()
    }

    /// The numbers of the nodes' items, by batch.
    pub fn batches(&self) -> &BTreeMap<Batch, Marks>
        ensures { (n : Node) → IsInBatch result.now n ↔ Contains self.now n }
    {
        &self.marks
    }

    /// Notes a node as found, where the site that numbered its item has so many.
    pub fn note(
        &mut self,
        site: usize,
        item: usize,
        at: SiteNo,
        all: usize,
    ) -> Result<(), AllocError>
        ensures { OnOk result (NotesNodes self.old self.new (record {
          site = site;
          item = item;
          at = at;
        } ∷ [])) }
    {
        let alloc = *self.list.allocator();
        self.list.reserve(1)?;
        if mark_node(alloc, &mut self.marks, site, item, at, all)? {
            self.list.push_reserved(Node { site, item, at });
        }
        Ok(())
    }

    /// Notes nodes as found: those with which a search starts.
    pub fn note_all(&mut self, nodes: &[Node]) -> Result<(), AllocError>
        ensures { OnOk result (NotesNodes self.old self.new nodes.now) }
    {
        for node in nodes {
            self.note(node.site, node.item, node.at, usize::MAX)?;
        }
        Ok(())
    }

    /// Notes an item at each of the sites but the own one, where a site numbered so many.
    pub fn note_destinations(
        &mut self,
        me: SiteNo,
        site: usize,
        item: usize,
        all: usize,
        sites: SiteSet,
    ) -> Result<(), AllocError>
        ensures { OnOk result (NotesNodes self.old self.new
            (destinations me site item (sites_in sites))) }
    {
        if sites.is_empty() {
            return Ok(());
        }
        for number in 0..16 {
            if let Some(at) = sites.at(number) {
                self.note_elsewhere(me, site, item, all, at)?;
            }
        }
        Ok(())
    }

    /// Notes an item at a site that isn't the own one, where a site numbered so many.
    fn note_elsewhere(
        &mut self,
        me: SiteNo,
        site: usize,
        item: usize,
        all: usize,
        at: SiteNo,
    ) -> Result<(), AllocError>
        ensures { OnOk result (NotesNodes self.old self.new (destinations me site item (at ∷ []))) }
    {
        if at != me {
            self.note(site, item, at, all)?;
        }
        Ok(())
    }

    /// Notes each of the items at a site that numbered so many.
    pub fn note_outputs(
        &mut self,
        me: SiteNo,
        site: usize,
        all: usize,
        items: &[usize],
    ) -> Result<(), AllocError>
        ensures { OnOk result (NotesNodes self.old self.new (made_nodes me site items.now)) }
    {
        for item in items {
            self.note(site, *item, me, all)?;
        }
        Ok(())
    }
}

/// Marks a node, where the site that numbered its item has so many. Tells whether it is new. An `Err` changes
/// nothing.
fn mark_node(
    alloc: Global,
    marks: &mut BTreeMap<Batch, Marks>,
    site: usize,
    item: usize,
    at: SiteNo,
    all: usize,
) -> Result<bool, AllocError>
    ensures marked { OnOk result ((n : Node) → IsInBatch marks.new n
        ↔ (IsInBatch marks.old n ⊎ (record { site = site; item = item; at = at } ≡ n))) }
    ensures new { IfOk result (λ new. new ≡ false
        ↔ IsInBatch marks.old (record { site = site; item = item; at = at })) }
    ensures err { OnErr result ((n : Node) → IsInBatch marks.new n ↔ IsInBatch marks.old n) }
{
    let batch = Batch { at, site };
    if let Some(own) = marks.get_mut(&batch) {
        return own.mark(alloc, item, all);
    }
    let mut own = Marks::new(alloc);
    own.mark(alloc, item, all)?;
    marks.insert(batch, own)?;
    Ok(true)
}
