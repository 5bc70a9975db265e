//! The search for all that chains of a relation reach.
ghost use Rattle.std.specs.Prelude.{◌≡◌, ◌≤◌, ◌+◌, ◌-◌, ◌^◌, ◌⊎◌, ℕ, Contains, ◌↔◌, IfOk, OnOk, length};
ghost use Rattle.std.specs.BTreeSet.{BTreeSet};
ghost use Rattle.trace_core.specs.declared.groups.Group.{Group};
ghost use Rattle.trace_core.specs.declared.nodes.Node.{Node};
ghost use Rattle.trace_core.specs.declared.pairs.Pair.{Pair};
ghost use Rattle.trace_core.specs.Nodes.{Had, AreOnce, Gains, ReachedFromNodes};
ghost use Rattle.trace_core.specs.Searches.{LooksAtAll};

use crate::nodes::{Node, Nodes};
use crate::seen::Seen;
use std::alloc::{AllocError, Global};

/// A relation of pairs, which a search keeps as nodes.
pub trait Relation {
    /// Which pair a node stands for.
    ghost stands: { Self → Node → Pair → Type 0 };

    /// Which pairs a pair is related to.
    ghost relates: { Self → Pair → Pair → Type 0 };

    /// Which pairs the transformations give that were seen.
    ghost gives: { Self → BTreeSet Group → Pair → Type 0 };

    /// Whether each transformation was seen that a pair goes into.
    ghost has_seen: { Self → BTreeSet Group → Pair → Type 0 };

    /// Whether the looks are told.
    ghost bounds_looks: { Self → Type 0 };

    /// How many outputs all transformations have.
    ghost outputs: { Self → ℕ };

    /// How many outputs the transformations have that weren't seen.
    ghost unseen: { Self → BTreeSet Group → ℕ };

    /// No transformation: it gives nothing. Does not allocate.
    fn none_seen(&self, alloc: Global) -> Seen
        ensures none { (q : Pair) → gives self.now result q → ⊥ }
        ensures outputs { bounds_looks self.now → unseen self.now result ≡ outputs self.now };

    /// Notes what a node is related to, but for what transformations gave that were seen before. Those that it
    /// goes into are seen then. The node is a look, and so is each output of one that wasn't seen.
    fn visit(
        &self,
        node: &Node,
        seen: &mut Seen,
        nodes: &mut Nodes,
        looks: &mut u64,
    ) -> Result<(), AllocError>
        ensures least { OnOk result (looks.old ≤ looks.new) }
        ensures most { OnOk result (bounds_looks self.now
            → looks.new + unseen self.now seen.new ≤ looks.old + 1 + unseen self.now seen.old) }
        ensures all { OnOk result (bounds_looks self.now
            → (looks.old + 1 + unseen self.now seen.old ≤ looks.new + unseen self.now seen.new)
            ⊎ (2 ^ 64 - 1 ≤ looks.new)) }
        ensures seen { OnOk result ((p : Pair) → stands self.now node.now p
            → has_seen self.now seen.new p) }
        ensures stays { OnOk result ((p : Pair) → has_seen self.now seen.old p
            → has_seen self.now seen.new p) }
        ensures visited { OnOk result ((p : Pair) → stands self.now node.now p
            → Gains (stands self.now) (gives self.now) (relates self.now p) seen.old seen.new
            nodes.old nodes.new) };
}

/// Nodes for all that chains of a relation reach from some pairs, these among them. Each node is visited
/// once, and each transformation through the first of its inputs that is visited. A node that is visited is a
/// look, and so is each output of a transformation that a node goes into.
pub fn closure<R: Relation>(
    alloc: Global,
    relation: &R,
    starts: &[Node],
    looks: &mut u64,
) -> Result<Nodes, AllocError>
    requires { (n : Node) → Contains starts.now n → (q : Pair) × R.stands relation.now n q }
    ensures once { IfOk result (λ nodes. AreOnce nodes) }
    ensures stand { IfOk result (λ nodes. (n : Node) → Contains nodes n → (q : Pair)
        × R.stands relation.now n q) }
    ensures reached { IfOk result (λ nodes. (q : Pair) → Had (R.stands relation.now) nodes q
        ↔ ReachedFromNodes (R.stands relation.now) (R.relates relation.now) starts.now q) }
    ensures most { IfOk result (λ nodes. R.bounds_looks relation.now
        → looks.new ≤ looks.old + length nodes + R.outputs relation.now) }
    ensures all { IfOk result (λ nodes. R.bounds_looks relation.now
        → LooksAtAll (λ seen n. (p : Pair) → R.stands relation.now n p
        → R.has_seen relation.now seen p) (R.outputs relation.now)
        (R.unseen relation.now) nodes looks.old looks.new) }
{
    let mut nodes = Nodes::new(alloc);
    let mut seen = relation.none_seen(alloc);
    nodes.note_all(starts)?;
    let mut place = 0;
    while place < nodes.len() {
        let node = nodes.as_slice()[place];
        relation.visit(&node, &mut seen, &mut nodes, looks)?;
        place += 1;
    }
    Ok(nodes)
}
