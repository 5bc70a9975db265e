//! Numbers as a database keeps them.
ghost use Rattle.std.specs.Prelude.{◌≡◌, pos, IfOk};

use std::alloc::AllocError;

/// A number as a database keeps it. Numbers of sites, messages and recalls are at most 2^62 + 1, and no more events
/// than 2^63 fit any memory, so that a number past these counts as out of memory.
pub fn stored(number: u64) -> Result<i64, AllocError>
    ensures { IfOk result (λ n. n ≡ pos number) }
{
    match i64::try_from(number) {
        Ok(number) => Ok(number),
        Err(_) => Err(AllocError),
    }
}
