//! The diffusing computation of a recall at one site, after Dijkstra and Scholten, "Termination
//! detection for diffusing computations", Information Processing Letters 11 (1980).
//!
//! Contracts see a [`Diffusion`] as the record of its finite maps and next numbers.
#![tactic(auto)]

mod diffusions;
pub mod laws;
mod outcomes;
mod own_recalls;

pub use diffusions::Diffusion;
pub use outcomes::{Began, Received, Signalled};
pub use own_recalls::Own;
