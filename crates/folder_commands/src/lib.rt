//! Commands that change the sites' files in a folder: making them, copying them, capturing documents, starting recalls,
//! and a run of all sites; and lints of documents and lists of sites, which change nothing.
//!
//! What a command comes to is an [`Output`](recall_outcomes::Output). What comes of several inputs or documents is told
//! one after another, to an [`InputSink`] or a [`LintSink`].
#![tactic(auto)]

mod batches;
mod copies;
mod inputs;
pub mod laws;
mod lints;
mod listed;
mod making;
mod missing;
mod notes;
mod places;
mod rounds;
mod runs;
mod steps;
mod untraced;
mod words;

pub use batches::{BatchCame, BatchOutput, InputSink, take_inputs, take_texts};
pub use copies::copy;
pub use inputs::{Doing, Given, InputNotes};
pub use lints::{LintCame, LintOutput, LintSink, lint_documents};
pub use listed::{SitesCame, listed_sites};
pub use making::init;
pub use runs::{RunTerms, run_sites};
pub use steps::{capture, start};
pub use words::{Batch, WordKind, task_of};
