//! The count of rows written.
ghost use Rattle.std.specs.Prelude.{◌≡◌, ◌+◌, min};

/// Counts one row more. At 2^64 - 1 the count stays.
pub fn count_one(written: &mut u64)
    ensures { written.new ≡ min 18_446_744_073_709_551_615 (written.old + 1) }
{
    if *written < u64::MAX {
        *written += 1;
    }
}
