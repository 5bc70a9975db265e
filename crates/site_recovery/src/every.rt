//! Tests of all entries of a map, all keys of a set and all elements of a slice.
ghost use Rattle.std.specs.Prelude.{◌↔◌, IfOk, IsTrue, Contains};

use frame_core::tables::Key;
use std::alloc::{AllocError, Global};
use std::collections::{BTreeMap, BTreeSet};

/// A test of one element. It may allocate.
pub(crate) trait Test<X> {
    /// The elements that pass.
    ghost holds: { Self → X → Type 0 };

    /// Whether the element passes.
    fn passes(&self, alloc: Global, element: &X) -> Result<bool, AllocError>
        ensures { IfOk result (λ passes. IsTrue passes ↔ holds self.now element.now) };
}

/// A test of one entry of a map. It may allocate.
pub(crate) trait EntryTest<K, V> {
    /// The entries that pass.
    ghost holds: { Self → K → V → Type 0 };

    /// Whether the entry passes.
    fn passes(&self, alloc: Global, key: &K, value: &V) -> Result<bool, AllocError>
        ensures { IfOk result (λ passes. IsTrue passes ↔ holds self.now key.now value.now) };
}

/// Whether each element of a slice passes.
pub(crate) fn each_element<X, T: Test<X>>(
    alloc: Global,
    elements: &[X],
    test: &T,
) -> Result<bool, AllocError>
    ensures { IfOk result (λ all. IsTrue all
        ↔ ((x : _) → Contains elements.now x → T.holds test.now x)) }
{
    for element in elements {
        if !test.passes(alloc, element)? {
            return Ok(false);
        }
    }
    Ok(true)
}

/// Whether each key of a set passes.
pub(crate) fn each_key<K: Ord, T: Test<K>>(
    alloc: Global,
    set: &BTreeSet<K>,
    test: &T,
) -> Result<bool, AllocError>
    ensures { IfOk result (λ all. IsTrue all
        ↔ ((k : _) → Contains set.now.keys k → T.holds test.now k)) }
{
    for key in set {
        if !test.passes(alloc, key)? {
            return Ok(false);
        }
    }
    Ok(true)
}

/// Whether each entry of a map passes.
pub(crate) fn each_entry<K: Key, V, T: EntryTest<K, V>>(
    alloc: Global,
    map: &BTreeMap<K, V>,
    test: &T,
) -> Result<bool, AllocError>
    ensures { IfOk result (λ all. IsTrue all
        ↔ ((k v : _) → Contains map.now.entries (k, v) → T.holds test.now k v)) }
{
    for (key, value) in map {
        if !test.passes(alloc, key, value)? {
            return Ok(false);
        }
    }
    Ok(true)
}
