//! How a recall is written and read.
//!
//! Items, numbers, recalls, messages, pairs, refusals, what a step did and the names of sites as texts; the fields of a
//! line and what it asks for; lists of sites; and the writing of a text to a stream. Scripts and the commands on files
//! stand on it, so that both write and read the same words.
#![tactic(auto)]

pub mod answers;
mod faults;
mod fields;
pub mod gathering;
mod items;
pub mod laws;
pub mod line_ends;
pub mod lines;
pub mod numbers;
mod outcomes;
mod site_lists;
pub mod streams;
pub mod tasks;
pub mod telling;
pub mod texts;
mod writing;

pub use faults::ScriptFault;
pub use site_lists::{LineRefusal, RefusedLine, SiteList, read_sites};
pub use writing::write_text;
