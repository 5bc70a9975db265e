//! What was put into an item.
ghost use Rattle.std.specs.Prelude.{◌≡◌, ◌↔◌, ℕ, List, Some, Contains, slice_get};
ghost use Rattle.trace_core.specs.Numbers.{numbered};
ghost use Rattle.trace_core.specs.Pairs.{Carries};

use crate::captured::Captured;
use epc_core::Epc;
use std::hash::RandomState;

impl Captured {
    /// The numbers of what the events put into an item, whatever was taken out since; none where no event names it.
    /// What was put in several times may come as often. Does not allocate.
    pub fn children_of(&self, parent: &Epc) -> &[usize]
        ensures { (n : ℕ) → Contains result.now n ↔ ((child : List ℕ)
            × (slice_get (numbered self.now.events) n ≡ Some child)
            × Carries self.now.events parent.now child) }
    {
        match self.book().number_of(parent) {
            Some(number) => self.book().children_at(number),
            None => &[],
        }
    }

    /// The keys of the hash by which items and ids are looked up, which were drawn at random.
    pub fn hash_keys(&self) -> RandomState {
        self.book().hash_keys()
    }
}
