//! Mailboxes between sites that run in threads of their own: between any two steps of any of them the records last
//! marked, with all frames sent, are consistent.
#![tactic(auto)]

mod calls;
pub mod laws;
mod mailing;
mod rules;
mod steps;
mod views;
mod ways;
mod wires;

pub use calls::Post;
pub use wires::{Seat, Wire};
