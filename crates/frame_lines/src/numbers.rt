//! Reading the numbers of recalls and messages.
ghost use Rattle.std.specs.Prelude.{◌≡◌, ◌<◌, ◌^◌};
ghost use Rattle.std.specs.Fmt.{decimal};
ghost use Rattle.frame_lines.specs.Finding.{Finds};

/// The number below 2^64 that a text writes in decimal digits as numbers are written here, with no sign and with no
/// zero before other digits: so each number has one text.
pub(crate) fn number_of(text: &str) -> Option<u64>
    ensures { Finds (λ n. (n < 2 ^ 64) × (text.now ≡ decimal n)) result }
{
    // A number that is parsed may have a plus before it.
    if text.starts_with('+') {
        return None;
    }
    if text.len() > 1 && text.starts_with('0') {
        return None;
    }
    text.parse().ok()
}
