//! A table whose rows are the entries of a map, read back.
ghost use Rattle.std.specs.Prelude.{◌≡◌, ◌≤◌, ◌↔◌, ◌++◌, ◌∷◌, [], T, IfOk, IfErr, IsTrue};
ghost use Rattle.std.specs.FinMap.{is_sorted};
ghost use Rattle.event_json.specs.declared.limits.TheConstants.{MAX_SITES};
ghost use Rattle.frame_core.specs.Tables.{as_map};
ghost use Rattle.site_rows.specs.BadRows.{AreOfMap, IsFaultOf, Match, StandForOne};
ghost use Rattle.site_rows.specs.Appending.{IsAppended};

use frame_core::tables::{Key, put};
use std::alloc::{AllocError, Global};
use std::cmp::Ordering;
use std::collections::BTreeMap;

/// Why a table isn't read.
#[derive(Clone, Copy, Debug, PartialEq, Eq)]
pub enum TableFault {
    /// Memory ran out.
    NoMemory,
    /// The row at this place, from 1, stands in no record's rows.
    BadRow(u64),
}

impl From<AllocError> for TableFault {
    ghost use Rattle.site_rows.specs.declared.reading_entries.TableFault.TheVariants.{NoMemory};

    ghost from_gives = { λ _ e. e ≡ NoMemory };

    fn from(_error: AllocError) -> TableFault {
        TableFault::NoMemory
    }
}

/// A row that stands for an entry of a map.
pub(crate) trait EntryRow<K: Key, V: Drop> {
    ghost use Rattle.std.specs.Prelude.{◌≡◌, ◌≤◌, ℕ, IfOk};
    ghost use Rattle.site_rows.specs.Appending.{IsAdded};

    /// The entry that a row stands for, where there are so many sites.
    ghost is: { ℕ → Self → K → V → Type 0 };

    /// Adds the entry of the row at the end, where it stands for one that comes there, and returns whether it does.
    fn add(
        &self,
        alloc: Global,
        sites: u64,
        entries: &mut BTreeMap<K, V>,
    ) -> Result<bool, AllocError>
        requires few { sites ≤ MAX_SITES }
        ensures { IfOk result (λ added. IsAdded K.cmp (is sites self.now) entries.old.entries
            entries.new.entries added) };
}

/// The map whose entries the rows are, by key.
///
/// # Errors
/// The first row that is no entry's, or that doesn't come after the row before it; and out of memory.
pub(crate) fn entries_of<K: Key, V: Drop, R: EntryRow<K, V>>(
    alloc: Global,
    sites: u64,
    rows: &[R],
) -> Result<BTreeMap<K, V>, TableFault>
    requires few { sites ≤ MAX_SITES }
    requires one { StandForOne (R.is sites) }
    ensures read { IfOk result (λ map. Match (R.is sites) rows.now map.entries) }
    ensures ascending { IfOk result (λ map. T (is_sorted K.cmp map.entries)) }
    ensures bad { IfErr result (λ fault. IsFaultOf (AreOfMap K.cmp (R.is sites)) rows.now fault) }
{
    let mut entries = BTreeMap::new(alloc);
    for (place, row) in rows.iter().enumerate() {
        if !row.add(alloc, sites, &mut entries)? {
            return Err(TableFault::BadRow(place as u64 + 1));
        }
    }
    Ok(entries)
}

/// Adds an entry at the end, where its key comes after all others, and returns whether it does.
pub(crate) fn append<K: Key, V: Drop>(
    entries: &mut BTreeMap<K, V>,
    key: K,
    value: V,
) -> Result<bool, AllocError>
    ensures { IfOk result (λ added. IsAppended K.cmp entries.old.entries
        (key, value) entries.new.entries added) }
{
    if !is_after(entries, key) {
        return Ok(false);
    }
    put(entries, key, value)?;
    Ok(true)
}

/// Whether a key comes after all keys of a map.
fn is_after<K: Key, V>(entries: &BTreeMap<K, V>, key: K) -> bool
    ensures { (v : V) → IsTrue result ↔ T (is_sorted K.cmp (entries.now.entries ++ (key, v) ∷ [])) }
{
    // Brings into scope that the keys ascend.
    let _length = entries.len();
    match entries.last_key_value() {
        Some((last, _)) => last.cmp(&key) == Ordering::Less,
        None => true,
    }
}
