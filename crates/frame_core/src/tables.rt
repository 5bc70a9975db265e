//! Maps of this repository: a `BTreeMap`, which contracts see as a finite map.
ghost use Rattle.std.specs.Prelude.{◌≡◌, ◌↔◌, option_map, IfOk, OnOk, OnErr, IfSome, IsSome, IsTrue, None};
ghost use Rattle.std.specs.Ordering.{nat_cmp};
ghost use Rattle.std.specs.FinMap as finite;
ghost use Rattle.frame_core.specs.Tables.{as_map, set_back, AreBelow};

use crate::identifiers::{MsgId, RecallId};
use crate::rows::Row;
use event_json::Copyable;
use std::alloc::{AllocError, Global};
use std::collections::BTreeMap;

/// A key of a map: only equal keys compare as equal.
pub trait Key: Ord + Copy + Drop {
    ghost use Rattle.std.specs.FinMap.{IsAntisymmetric};

    ghost exact: { IsAntisymmetric Self.cmp };
}

impl Key for u64 {
    ghost use Rattle.std.specs.FinMap.{nat_cmp-IsAntisymmetric};

    ghost exact = { nat_cmp-IsAntisymmetric };
}

impl Key for RecallId {
    ghost use Rattle.frame_core.specs.Orders.{recall_exact};

    ghost exact = { recall_exact };
}

impl Key for MsgId {
    ghost use Rattle.frame_core.specs.Orders.{message_exact};

    ghost exact = { message_exact };
}

impl Copyable for RecallId {
    fn copied(&self, _alloc: Global) -> Result<RecallId, AllocError> {
        Ok(*self)
    }
}

impl Copyable for MsgId {
    fn copied(&self, _alloc: Global) -> Result<MsgId, AllocError> {
        Ok(*self)
    }
}

impl Copyable for Row {
    fn copied(&self, alloc: Global) -> Result<Row, AllocError> {
        self.copy(alloc)
    }
}

/// The value of a key. Does not allocate.
pub fn get<K: Key, V>(map: &BTreeMap<K, V>, key: K) -> Option<&V>
    ensures { option_map (λ value. value.now) result ≡ finite.get (as_map K.cmp map.now) key }
{
    // Brings into scope that the keys ascend.
    let _length = map.len();
    map.get(&key)
}

/// Gives a key its value, and returns the one that it had. Only a new key allocates. An `Err` changes
/// nothing.
pub fn put<K: Key, V: Drop>(
    map: &mut BTreeMap<K, V>,
    key: K,
    value: V,
) -> Result<Option<V>, AllocError>
    ensures old { IfOk result (λ old. old ≡ finite.get (as_map K.cmp map.old) key) }
    ensures ok { OnOk result (as_map K.cmp map.new
        ≡ finite.insert (as_map K.cmp map.old) key value) }
    ensures entries { OnOk result (map.new.entries ≡ finite.put K.cmp key value map.old.entries) }
    ensures err { OnErr result (as_map K.cmp map.new ≡ as_map K.cmp map.old) }
    ensures only_new { OnErr result (finite.get (as_map K.cmp map.old) key ≡ None) }
{
    match map.insert(key, value) {
        Ok(old) => Ok(old),
        Err(_) => Err(AllocError),
    }
}

/// Removes a key, and returns the value that it had. Does not allocate.
pub fn take<K: Key, V: Drop>(map: &mut BTreeMap<K, V>, key: K) -> Option<V>
    ensures value { result ≡ finite.get (as_map K.cmp map.old) key }
    ensures left { as_map K.cmp map.new ≡ finite.remove (as_map K.cmp map.old) key }
{
    let _length = map.len();
    map.remove(&key)
}

/// Sets a key back to the value that it had before it was put, or removes it where it had none. Does not
/// allocate.
pub fn undo<K: Key, V: Drop>(map: &mut BTreeMap<K, V>, key: K, before: Option<V>)
    requires stands { IsSome (finite.get (as_map K.cmp map.old) key) }
    ensures { as_map K.cmp map.new ≡ set_back (as_map K.cmp map.old) key before }
{
    match before {
        None => {
            take(map, key);
        }
        Some(value) => {
            // The key stands, so that this can't fail.
            let _ = put(map, key, value);
        }
    }
}

/// Whether each key stands below a number, by the last one. Does not allocate.
pub fn are_below<V>(map: &BTreeMap<u64, V>, number: u64) -> bool
    ensures { IsTrue result ↔ AreBelow (as_map nat_cmp map.now) number }
{
    // Brings into scope that the keys ascend.
    let _length = map.len();
    match map.last_key_value() {
        Some((last, _)) => *last < number,
        None => true,
    }
}

/// An equal map.
pub fn copy<K: Key, V: Copyable>(
    alloc: Global,
    map: &BTreeMap<K, V>,
) -> Result<BTreeMap<K, V>, AllocError>
    ensures { IfOk result (λ copies. as_map K.cmp copies ≡ as_map K.cmp map.now) }
{
    let mut copies = BTreeMap::new(alloc);
    for (key, value) in map {
        put(&mut copies, *key, value.copied(alloc)?)?;
    }
    Ok(copies)
}
