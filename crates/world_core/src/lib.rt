//! All sites of a supply chain and the frames that pass between them, over any keeper of a site's record.
//!
//! Whatever happens, in whatever order, each site stands as its answered steps, with each step that it stopped
//! in whole or absent.
#![tactic(auto)]

mod events;
mod faults;
mod forming;
pub mod laws;
mod recalls;
mod turns;
mod views;
mod worlds;

pub use events::{Answer, WorldEvent, WorldInput};
pub use faults::{NotAWorld, ViewFault, WorldFault};
pub use turns::addressee;
pub use worlds::World;
