//! Laws of rows and pictures, each named by a function with an empty body whose contract is the law.

ghost use Rattle.report_forms.specs.Laws.{FirstStepsAreInRows, FormulasAreGuarded, ItemsHaveNumbers, LastStepsAreInRows, OtherFieldsStay, TextsReadBack};

/// A trade item has its GTIN and its serial number, a logistic unit its SSCC, a lot its GTIN and its number, and any
/// other item none of them. The number of a lot is the one of which its text was made.
pub fn items_have_numbers()
    ensures { ItemsHaveNumbers }
{}

/// No guarded field begins as a formula does; one that did stands behind an apostrophe, and any other is as it was.
pub fn formulas_are_guarded()
    ensures { FormulasAreGuarded }
{}

/// A row tells the events of the step between its pair and the pair before it.
pub fn last_steps_are_in_rows()
    ensures { LastStepsAreInRows }
{}

/// In a trace back it tells those of the step between its pair and the pair behind it.
pub fn first_steps_are_in_rows()
    ensures { FirstStepsAreInRows }
{}

/// Where the events are told, a row has three fields behind the tenth that tell them, and its other fields are those
/// that it has without.
pub fn other_fields_stay()
    ensures { OtherFieldsStay }
{}

/// No quote inside a text of a picture ends it.
pub fn texts_read_back()
    ensures { TextsReadBack }
{}
