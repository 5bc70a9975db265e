//! Relations of pairs that a search follows from pair to pair.
ghost use Rattle.std.specs.Prelude.{IfOk};
ghost use Rattle.std.specs.BTreeSet.{BTreeSet};
ghost use Rattle.trace_core.specs.declared.groups.Group.{Group};
ghost use Rattle.trace_core.specs.declared.pairs.Pair.{Pair};
ghost use Rattle.trace_core.specs.Searches.{AreUnseen};

use crate::pairs::Pair;
use crate::seen::Seen;
use std::alloc::{AllocError, Global};

/// A relation of pairs, which a search follows from pair to pair.
pub trait Adjacency {
    /// Which pairs a pair is related to.
    ghost relates: { Self → Pair → Pair → Type 0 };

    /// Which pairs the transformations give that were seen.
    ghost gives: { Self → BTreeSet Group → Pair → Type 0 };

    /// No transformation: it gives nothing. Does not allocate.
    fn none_seen(&self, alloc: Global) -> Seen
        ensures { (q : Pair) → gives self.now result q → ⊥ };

    /// The pairs that a pair is related to, but for those that transformations gave which were seen before. Those
    /// that it goes through are seen then.
    fn unseen_targets(
        &self,
        alloc: Global,
        pair: &Pair,
        seen: &mut Seen,
    ) -> Result<Vec<Pair>, AllocError>
        ensures { IfOk result (λ targets. AreUnseen (relates self.now pair.now)
            (gives self.now) seen.old seen.new targets.items) };
}
