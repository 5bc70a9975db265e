//! What is made of items inside one site, and what one more event would add.
ghost use Rattle.std.specs.Prelude.{◌≡◌, ◌≤◌, ◌+◌, ◌-◌, ◌^◌, ◌⊎◌, ◌↔◌, ◌||◌, IfOk, OnOk, ℕ, List, None, Contains, length};
ghost use Rattle.trace_core.specs.declared.nodes.Node.{Node};
ghost use Rattle.trace_core.specs.declared.pairs.Pair.{Pair};
ghost use Rattle.trace_core.specs.Gathering.{is_in, added_by, joins};
ghost use Rattle.trace_core.specs.Nodes.{IsKnownNode};
ghost use Rattle.trace_core.specs.Numbers.{number_in, numbered};
ghost use Rattle.trace_core.specs.Pairs.{pair_cmp, IsStrictlyAscending};
ghost use Rattle.trace_core.specs.Searches.{IsFound};
ghost use Rattle.trace_core.specs.Spreads.{AreAscendingItems, IsSpread, AreLooks, IsNewlyMade};
ghost use Rattle.event_json.specs.Events.{Content};

use crate::batches::push_items;
use crate::books::Book;
use crate::captured::Captured;
use crate::gathering::{gather_made, gather_outputs, make_id};
use crate::looks::count_look;
use crate::nodes::{Node, Nodes};
use crate::ordered_keys::{in_order, keys_in_order};
use crate::pairs::Pair;
use crate::parts::is_input_of_part;
use crate::searches::{Relation, closure};
use crate::seen::Seen;
use crate::visits::visit_item;
use epc_core::Epc;
use event_json::{Body, Event, SiteNo};
use std::alloc::{AllocError, Global};
use std::collections::BTreeSet;

impl Captured {
    /// The given items, and all that chains of related pairs reach from them inside this site,
    /// ascending and without repeats.
    pub fn spread(&self, items: &[Epc]) -> Result<Vec<Epc>, AllocError>
        // Not covered: no law of its own: it is one sentence over related pairs.
        ensures ascending { IfOk result (λ found. AreAscendingItems found.items) }
        ensures exact { IfOk result (λ found. (j : List ℕ) → Contains found.items j
            ↔ IsSpread self.now items.now j) }
    {
        let (found, _) = self.spread_counted(items)?;
        Ok(found)
    }

    /// The spread of the given items, and how many looks it took. A look is one item taken from the
    /// work list, or one output member of a transformation that is looked at. Each item found is taken once,
    /// and each output member of what it goes into is looked at once. At 2^64 - 1 the count stays.
    pub fn spread_counted(&self, items: &[Epc]) -> Result<(Vec<Epc>, u64), AllocError>
        ensures ascending { IfOk result (λ counted. AreAscendingItems counted.0.items) }
        ensures exact { IfOk result (λ counted. (j : List ℕ) → Contains counted.0.items j
            ↔ IsSpread self.now items.now j) }
        // There is a look for each item found and for each output of the transformations that they go into, where the
        // count didn't end at 2^64 - 1; and at most one for each item given or known and for each output of a
        // transformation.
        // Not covered: a body that reads more than it counts, and counts the right number.
        ensures looks { IfOk result (λ counted.
            AreLooks self.now items.now counted.0.items counted.1) }
    {
        let alloc = self.alloc();
        let mut looks = 0;
        let starts = nodes_of(alloc, self, items)?;
        let nodes = closure(alloc, &SitePairs { site: self }, &starts, &mut looks)?;
        let mut found = unknown_items(alloc, self.book(), items, &mut looks)?;
        push_items(alloc, self.book(), &nodes, &mut found)?;
        let items = in_order(found)?;
        Ok((items, looks))
    }

    /// The pairs that adding an event would make of an item, and that aren't made of it yet, ascending and without
    /// repeats.
    pub fn new_made(&self, event: &Event, item: &Epc) -> Result<Vec<Pair>, AllocError>
        ensures ascending { IfOk result (λ pairs. IsStrictlyAscending pairs.items) }
        ensures exact { IfOk result (λ pairs. (p : Pair)
            → Contains pairs.items p ↔ IsNewlyMade self.now event.now item.now p) }
    {
        let alloc = self.alloc();
        let pairs = new_made(alloc, self, item, event.body())?;
        keys_in_order(alloc, pairs)
    }
}

/// The related pairs of one site that stay in it.
#[derive(Drop)]
struct SitePairs<'a> {
    site: &'a Captured,
}

impl Relation for SitePairs<'_> {
    ghost use Rattle.std.specs.Prelude.{⊤, ◌∷◌, [], false, sum_by};
    ghost use Rattle.trace_core.specs.Groups.{SeeksFrom, HasSeenFrom, unseen_outputs};
    ghost use Rattle.trace_core.specs.Nodes.{Stands};
    ghost use Rattle.trace_core.specs.Spreads.{output_count};

    ghost stands = { λ r. Stands (r.site.now ∷ []) };

    ghost relates = { λ r. SeeksFrom false r.site.now };

    ghost use Rattle.trace_core.specs.Groups.{IsGiven};

    ghost gives = { λ r. IsGiven r.site.now 0 };

    ghost has_seen = { λ r. HasSeenFrom r.site.now };

    ghost bounds_looks = { λ r. ⊤ };

    ghost outputs = { λ r. sum_by (λ e. output_count e.body) r.site.now.events };

    ghost unseen = { λ r seen. unseen_outputs 0 r.site.now.events seen };

    fn none_seen(&self, alloc: Global) -> Seen {
        Seen::new(alloc)
    }

    fn visit(
        &self,
        node: &Node,
        seen: &mut Seen,
        nodes: &mut Nodes,
        looks: &mut u64,
    ) -> Result<(), AllocError> {
        if node.at == self.site.me() {
            visit_item(self.site, 0, false, node.item, seen, nodes, looks)?;
        } else {
            count_look(looks);
        }
        Ok(())
    }
}

/// The nodes of those of the items that are known.
fn nodes_of(alloc: Global, site: &Captured, items: &[Epc]) -> Result<Vec<Node>, AllocError>
    ensures { IfOk result (λ nodes. (n : Node) → Contains nodes.items n
        ↔ IsKnownNode site.now items.now n) }
{
    let mut nodes = Vec::new(alloc);
    for item in items {
        if let Some(number) = site.book().number_of(item) {
            nodes.push(Node {
                site: 0,
                item: number,
                at: site.me(),
            })?;
        }
    }
    Ok(nodes)
}

/// Those of the items that no event names. Each is a look.
fn unknown_items(
    alloc: Global,
    book: &Book,
    items: &[Epc],
    looks: &mut u64,
) -> Result<Vec<Epc>, AllocError>
    ensures unknown { IfOk result (λ found. (i : List ℕ) → Contains found.items i
        ↔ (Contains items.now i × (number_in (numbered book.now) i ≡ None))) }
    ensures least { IfOk result (λ found. (looks.old + length found.items ≤ looks.new)
        ⊎ (2 ^ 64 - 1 ≤ looks.new)) }
    ensures most { looks.new ≤ looks.old + length items.now }
{
    let mut found = Vec::new(alloc);
    for item in items {
        if book.number_of(item).is_none() {
            count_look(looks);
            found.push(item.copy(alloc)?)?;
        }
    }
    Ok(found)
}

/// The pairs that one event more would make of an item, and that aren't made of it yet.
fn new_made(
    alloc: Global,
    site: &Captured,
    item: &Epc,
    body: &Body,
) -> Result<BTreeSet<Pair>, AllocError>
    ensures { IfOk result (λ pairs. (e : Content) → e.body ≡ body.now → (q : Pair)
        → IsFound pair_cmp pairs q ↔ IsNewlyMade site.now e item.now q) }
{
    let mut pairs = BTreeSet::new(alloc);
    gather_added(alloc, site.me(), site.book(), item, body, &mut pairs)?;
    if pairs.is_empty() {
        return Ok(pairs);
    }
    let before = site.related(item)?;
    for pair in &before {
        pairs.remove(pair);
    }
    Ok(pairs)
}

/// Adds the pairs that one event more would make of an item: what the event makes of it, and its outputs where one of
/// the events that are there takes the item into a transformation of its id.
fn gather_added(
    alloc: Global,
    me: SiteNo,
    book: &Book,
    item: &Epc,
    body: &Body,
    pairs: &mut BTreeSet<Pair>,
) -> Result<(), AllocError>
    ensures { OnOk result ((p : Pair) → is_in pairs.new p
        ≡ (is_in pairs.old p || added_by me book.now item.now body.now p)) }
{
    let mut looks = 0;
    gather_made(alloc, me, book, item, body, pairs)?;
    if joins(book, item, body) {
        gather_outputs(alloc, me, body, pairs, &mut looks)?;
    }
    Ok(())
}

/// Whether one of the events takes the item into a transformation that has this one's id.
fn joins(book: &Book, item: &Epc, body: &Body) -> bool
    ensures { result ≡ joins book.now item.now body.now }
{
    match make_id(body) {
        Some(id) => is_input_of_part(book, id, item),
        None => false,
    }
}
