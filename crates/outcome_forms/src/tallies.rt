//! How often things occur.

use std::alloc::{AllocError, Global};
use std::collections::BTreeMap;

/// How often each of some things stands among them, in the order in which each comes first.
pub(crate) fn tallies<K: Ord + Copy>(
    alloc: Global,
    things: &[K],
) -> Result<Vec<(K, u64)>, AllocError> {
    let mut counts = counts_of(alloc, things)?;
    let mut found = Vec::new(alloc);
    for thing in things {
        if let Some(count) = counts.remove(thing) {
            found.push((*thing, count))?;
        }
    }
    Ok(found)
}

/// How often each of some things stands among them.
fn counts_of<K: Ord + Copy>(alloc: Global, things: &[K]) -> Result<BTreeMap<K, u64>, AllocError> {
    let mut counts = BTreeMap::new(alloc);
    for thing in things {
        count(&mut counts, *thing)?;
    }
    Ok(counts)
}

/// Counts a thing.
fn count<K: Ord + Copy>(counts: &mut BTreeMap<K, u64>, thing: K) -> Result<(), AllocError> {
    if let Some(count) = counts.get_mut(&thing) {
        *count = count.saturating_add(1);
        return Ok(());
    }
    counts.insert(thing, 1)?;
    Ok(())
}
