//! Laws of the words, each named by a function with an empty body whose contract is the law.

ghost use Rattle.recall_text.specs.Laws.{RefusedLinesAreOfTheText, RefusesAsScripts};

/// A `site` line of a list is refused with the words that a script prints of the same line, and leaves the same sites.
pub fn lists_refuse_as_scripts()
    ensures { RefusesAsScripts }
{}

/// Each line of a list that is refused is one of its text, and their numbers rise.
pub fn refused_lines_are_of_the_text()
    ensures { RefusedLinesAreOfTheText }
{}
