//! Sites that run in threads of their own, and pass their frames over a wire.
//!
//! In a turn a site does a job, takes the frames that came for it, and posts what it has to send. A step is marked on
//! the wire only once its keeper answered it, so a frame that is posted rests on a record that is kept.
#![tactic(auto)]

mod asked;
mod counts;
mod desks;
mod following;
mod gates;
mod gather;
mod gathered;
mod jobs;
pub mod laws;
mod lists;
mod offers;
mod passing;
mod room;
mod rounds;
mod runs;
mod sites;
mod stamps;
mod starts;
mod turns;
mod worlds;

pub use asked::Asked;
pub use desks::{Desk, DeskFault, DeskOut};
pub use gates::{FreeGate, Gate, Pass};
pub use gather::GatherCause;
pub use gathered::{GatherFault, Gathered, Stranger};
pub use jobs::{Entry, Job, Receipt, Reply};
pub use lists::RunLog;
pub use sites::RunningSite;
pub use turns::{TurnCause, TurnFault, TurnReport};
pub use worlds::run_world;
