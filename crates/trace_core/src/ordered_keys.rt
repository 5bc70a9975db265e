//! Keys in order and without repeats.
ghost use Rattle.std.specs.Prelude.{◌≡◌, ◌≤◌, ◌↔◌, IfOk, IsTrue, Contains, length};
ghost use Rattle.std.specs.declared.cmp.Ordering.TheVariants.{Equal};
ghost use Rattle.std.specs.List.Sorted.{IsStrictlySortedBy};

use std::alloc::{AllocError, Global};
use std::cmp::Ordering;
use std::collections::BTreeSet;

/// The keys of a set, ascending.
pub fn keys_in_order<K: Ord + Drop>(alloc: Global, set: BTreeSet<K>) -> Result<Vec<K>, AllocError>
    ensures keys { IfOk result (λ keys. keys.items ≡ set.keys) }
    ensures ascending { IfOk result (λ keys. IsStrictlySortedBy K.cmp keys.items) }
{
    set.into_iter().collect(alloc)
}

/// The keys, ascending and without repeats.
pub fn in_order<K: Ord + Drop>(keys: Vec<K>) -> Result<Vec<K>, AllocError>
    ensures ascending { IfOk result (λ ordered. IsStrictlySortedBy K.cmp ordered.items) }
    ensures same { IfOk result (λ ordered. ((a b : K) → K.cmp a b ≡ Equal → a ≡ b) → (k : K)
        → Contains ordered.items k ↔ Contains keys.items k) }
    ensures fewer { IfOk result (λ ordered. length ordered.items ≤ length keys.items) }
{
    let mut ordered = keys;
    if !is_ascending(&ordered) {
        ordered.sort()?;
        ordered.dedup();
    }
    Ok(ordered)
}

/// Whether each key is below the next.
fn is_ascending<K: Ord>(keys: &[K]) -> bool
    ensures { IsTrue result → IsStrictlySortedBy K.cmp keys.now }
{
    for place in 1..keys.len() {
        if keys[place - 1].cmp(&keys[place]) != Ordering::Less {
            return false;
        }
    }
    true
}
