//! How an outcome is printed: as text, as JSON, as rows and as a picture.
//!
//! Of JSON it is proved that the lines are those of the values of the outcome, that they are read back as these, and
//! that no member of an outcome is lost in them; of rows, that they are read back; of a picture, that no text of others
//! becomes a part of its language; of a text of a stranger, that what is shown of it is one line of plain characters.
//! Other texts are plain code: tests on the program say what they are.
#![tactic(auto)]

mod account_json;
mod account_texts;
mod accounts;
mod advice;
mod beside;
mod fault_json;
mod fault_texts;
mod forms;
mod gap_json;
mod gap_texts;
mod input_sentences;
mod json_lines;
pub mod laws;
mod missed_json;
mod missed_notes;
mod missed_texts;
mod notes;
mod outcome_json;
mod outcome_texts;
mod outside_json;
mod query_json;
mod sentences;
mod shown_texts;
mod step_json;
mod tallies;
mod values;
mod writing;

pub use beside::{write_beside, write_fault, write_noted, write_sentences};
pub use fault_texts::{failure_line, fault_line};
pub use forms::Form;
pub use input_sentences::InputSentences;
pub use shown_texts::shown;
pub use writing::{write_input, write_outcome, write_totals};
