//! The first difference of two lists of pairs.
ghost use Rattle.std.specs.Prelude.{◌≡◌, option_map};
ghost use Rattle.report_core.specs.Differences.{difference};

use std::cmp::Ordering;
use trace_core::Pair;

/// The first pair at which two ascending lists of pairs differ: the least one that is in one of them and not in the
/// other, and whether it is the second that has it. None where they are one list.
pub(crate) fn first_difference<'a>(
    first: &'a [Pair],
    second: &'a [Pair],
) -> Option<(&'a Pair, bool)>
    ensures { option_map (λ d. (d.0.now, d.1)) result ≡ difference first.now second.now }
{
    let mut place = 0;
    while place < first.len() && place < second.len() {
        match first[place].cmp(&second[place]) {
            Ordering::Less => return Some((&first[place], false)),
            Ordering::Greater => return Some((&second[place], true)),
            Ordering::Equal => place += 1,
        }
    }
    if place < first.len() {
        return Some((&first[place], false));
    }
    if place < second.len() {
        return Some((&second[place], true));
    }
    None
}
