//! Laws of the definitions, each of which a call ensures.
ghost use Rattle.std.specs.Prelude.{◌≡◌, ℕ, ◌+◌, ◌-◌, ◌≤◌, ◌<◌, ◌^◌};
ghost use Rattle.keeper_core.specs.Keeping.{Rises};

/// A count of failures that rises is greater than before, so that it never stays as it was or falls. Only the
/// greatest number of 64 bits stays, since there is none above it.
pub fn failures_rise()
    ensures more { (before now : ℕ) → now < 2 ^ 64 - 1 → Rises before now → before < now }
    ensures by_one { (before : ℕ) → Rises before (before + 1) }
    ensures greatest { Rises 18446744073709551615 18446744073709551615 }
    ensures stays { ¬ Rises 5 5 }
    ensures falls { ¬ Rises 5 4 }
{}
