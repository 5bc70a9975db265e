//! A site kept in the tables of a file: a step stands once its rows are written, and what a stop left is opened again.
#![tactic(auto)]

mod beginning;
mod faults;
mod finding;
mod kept;
pub mod laws;
mod linking;
mod opening;
mod sites;
mod standing;
mod writing;

pub use opening::{OpenFault, Unfound, open_site};
pub use sites::{Link, StoredSite, Unmade};
pub use writing::{Unwritten, write_step};
