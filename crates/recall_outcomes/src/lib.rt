//! What a command on the sites' files came to, as data: what was done, or why it was refused or failed, what is told
//! beside that, and the status of a program that ends so.
//!
//! How it is printed is the business of `outcome_forms`.
#![tactic(auto)]

mod batches;
mod causes;
mod faults;
pub mod laws;
mod notes;
mod outcomes;

pub use batches::{InputOutcome, Task, Totals};
pub use causes::{Cause, Failure};
pub use faults::Fault;
pub use notes::{
    AuditNotes, GapNotes, Knower, Knowers, MissedItems, Notes, RunNotes, Stop, StopCause,
    UntracedNotes,
};
pub use outcomes::{
    AuditedRecall, CommandRefusal, FoundGaps, MissedPair, MissedReach, Outcome, Output, PackedGap,
    SiteCoverage, StartedRecall, Ways,
};
