//! Scripts: lines that a user writes to drive the tracer and a recall, and the answers to them.
//!
//! [`run_script`] reads a script in pieces and writes the answer to each line as the line is done.
#![tactic(auto)]

mod answers;
mod beginning;
mod delivering;
mod held_lines;
pub mod laws;
mod listing;
mod pumping;
mod running;
mod runs;
mod scripts;
mod sending;
mod sessions;
mod stopping;
mod tallies;
mod texts;
mod worlds;

pub use recall_text::ScriptFault;
pub use runs::run_script;
pub use tallies::Tally;
