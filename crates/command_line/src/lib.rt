//! What the words of a command line of `recall` ask for, and how it ends.
#![tactic(auto)]

mod arguments;
mod asked;
mod batch_commands;
mod command_lines;
mod commands;
mod convert_commands;
mod folder_tasks;
mod folder_words;
mod grammar;
mod helps;
pub mod laws;
mod limits;
mod lint_commands;
mod pack_commands;
mod plan_commands;
mod sinks;
mod statuses;

pub use commands::run_command;
pub use limits::LimitsDocuments;
pub use statuses::{BAD_COMMAND_LINE, FAULT};
