//! When the records of all sites are consistent, and that each event keeps them so.
#![tactic(auto)]

mod checking;
mod closing;
mod conditions;
mod every;
mod homeward;
mod justifying;
pub mod laws;
mod looks;
mod narrowing;
mod numbers;
mod pairs;
mod places;
mod reached_items;
mod reaching;
mod recalls;
mod telling;
mod told_items;
mod waiting;

pub use checking::{CheckFault, Misfit, check_world};
pub use places::are_all_sites;
pub use recalls::{captured, own_recall, quarantined};
