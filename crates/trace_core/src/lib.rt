//! What a site's captured events relate, and what is reached through the events of several sites.
//!
//! A pair of a site and an item is related to another where an item was shipped from site to site, by itself or with
//! what it lies in, or made into another item at a site. Reach of a pair is all that chains of related pairs find.
#![tactic(auto)]

mod adding;
mod adjacency;
mod batches;
mod beyond;
mod books;
mod captured;
mod carried;
mod chains;
mod contents;
mod event_ids;
mod event_items;
mod found_items;
mod gathering;
mod groups;
mod ids;
mod indexes;
mod items;
pub mod laws;
mod looks;
mod marks;
mod nodes;
mod numbers;
mod ordered_keys;
mod packed;
mod pairs;
mod parts;
mod places;
mod searches;
mod seen;
mod sendings;
mod site_sets;
mod spreads;
mod steps;
mod targets;
mod trail_trees;
mod trails;
mod visits;

pub use adding::{AddFault, Added, Standing};
pub use adjacency::Adjacency;
pub use captured::Captured;
pub use chains::{reach, reach_from};
pub use ordered_keys::{in_order, keys_in_order};
pub use pairs::Pair;
pub use seen::Seen;
pub use sendings::Sending;
pub use targets::unseen_targets;
pub use trail_trees::{AllTrails, Trail, Trails};
pub use trails::{FoundTrails, trail, trails_from, trails_out, trails_to};
