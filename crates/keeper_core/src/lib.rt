//! A keeper of one site's record, which may stop in the middle of a step and be opened again.
#![tactic(auto)]

mod faults;
mod keepers;
pub mod laws;
mod memory;

pub use faults::{Keep, KeepFault, Unopened};
pub use keepers::SiteKeeper;
pub use memory::MemoryKeeper;
