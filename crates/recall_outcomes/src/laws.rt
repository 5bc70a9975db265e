//! Laws of outcomes, each named by a function with an empty body whose contract is the law.

ghost use Rattle.recall_outcomes.specs.Laws.{RefusedInputsAreCounted, StatusesTellOutcomes};

/// Status 1 stands for a refusal alone, 4 for a discrepancy alone, and 5 for an open recall, a gap, something that a
/// recall misses and none holds, or a run that was withheld, where that was asked for; all else has status 0.
pub fn statuses_tell_outcomes()
    ensures { StatusesTellOutcomes }
{}

/// A refused input makes the status 1, and any other leaves it as it is.
pub fn refused_inputs_are_counted()
    ensures { RefusedInputsAreCounted }
{}
