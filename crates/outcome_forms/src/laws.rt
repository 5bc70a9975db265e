//! Laws of the JSON of outcomes and of texts that are shown, each named by a function with an empty body whose contract is the law.

ghost use Rattle.outcome_forms.specs.Shown.{PlainTextsStay, ShownTextsAreToldApart};
ghost use Rattle.outcome_forms.specs.Telling.{LinesTellValues, ValuesAreRead, ValuesTellKinds, ValuesTellOutcomes};

/// The same lines of JSON are those of the same values, where numbers have 64 bits.
pub fn lines_tell_values()
    ensures { LinesTellValues }
{}

/// What is printed of an outcome as JSON, read by serde_json, is its values, where numbers have 64 bits.
pub fn values_are_read()
    ensures { ValuesAreRead }
{}

/// A printed value shows which outcome it belongs to.
pub fn values_tell_kinds()
    ensures { ValuesTellKinds }
{}

/// Two outcomes of one kind whose values are the same have the same contents, where the sites that they name are
/// listed.
pub fn values_tell_outcomes()
    ensures { ValuesTellOutcomes }
{}

/// Two texts that are shown alike are one, where both are UTF-8.
pub fn shown_texts_are_told_apart()
    ensures { ShownTextsAreToldApart }
{}

/// A text without hidden characters and backslashes is shown as it is.
pub fn plain_texts_stay()
    ensures { PlainTextsStay }
{}
