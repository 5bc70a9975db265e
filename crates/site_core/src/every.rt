//! Tests of all entries of a map, which do not allocate.
ghost use Rattle.std.specs.Prelude.{◌↔◌, IsTrue, Contains};

use frame_core::tables::Key;
use std::collections::BTreeMap;

/// A test of one entry of a map.
pub(crate) trait EntryTest<K, V> {
    /// The entries that pass.
    ghost holds: { Self → K → V → Type 0 };

    /// Whether the entry passes.
    fn passes(&self, key: &K, value: &V) -> bool
        ensures { IsTrue result ↔ holds self.now key.now value.now };
}

/// Whether each entry of a map passes.
pub(crate) fn each_entry<K: Key, V, T: EntryTest<K, V>>(map: &BTreeMap<K, V>, test: &T) -> bool
    ensures { IsTrue result ↔ ((k v : _) → Contains map.now.entries (k, v) → T.holds test.now k v) }
{
    for (key, value) in map {
        if !test.passes(key, value) {
            return false;
        }
    }
    true
}
