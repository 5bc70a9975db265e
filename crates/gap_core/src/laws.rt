//! Laws of gaps, each named by a function with an empty body whose contract is the law.

ghost use Rattle.gap_core.specs.Laws.{NothingMissedMissesNothing};
ghost use Rattle.gap_core.specs.PackLaws.{CapturedPacksClose};
ghost use Rattle.gap_core.specs.Unlinked.{UnlinkedNeverCame};

/// Where no pair that a root reaches is missed, nothing is missed by packing: its reach has all pairs that it has by what
/// is known of packings, and its items left for all places outside for which they are known to have left.
pub fn nothing_missed_misses_nothing()
    ensures { NothingMissedMissesNothing }
{}

/// Where a site captures the events by which it closes its packed gaps, it captures what is known there, and once it
/// has captured all of them none of its gaps is left.
pub fn captured_packs_close()
    ensures { CapturedPacksClose }
{}

/// An item that is unlinked in a container at a site wasn't put there by that site itself, and the container came
/// there from no site that put it there, over however many sites.
pub fn unlinked_never_came()
    ensures { UnlinkedNeverCame }
{}
