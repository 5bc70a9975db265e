//! The count of looks of a search.
ghost use Rattle.std.specs.Prelude.{◌≡◌};
ghost use Rattle.trace_core.specs.Looks.{one_look, more_looks, LooksAtEach};

/// Counts one look. At 2^64 - 1 the count stays.
pub fn count_look(looks: &mut u64)
    ensures { looks.new ≡ one_look looks.old }
{
    if *looks < u64::MAX {
        *looks += 1;
    }
}

/// Counts `more` looks. At 2^64 - 1 the count stays.
pub fn count_looks(looks: &mut u64, more: usize)
    ensures counted { looks.new ≡ more_looks more looks.old }
    ensures each { LooksAtEach more looks.old looks.new }
{
    *looks = looks.saturating_add(more as u64);
}
