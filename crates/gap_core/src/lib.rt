//! What the packings of single sites miss.
//!
//! A site that ships a container on, which another site packed, has no event that tells what lies in it. The related
//! pairs of `trace_core` stop there. What was packed elsewhere is known where the container came from there, over
//! however many sites: the packing list travels with the goods. Where that tells more of a shipment than the site's own
//! packings do, there is a packed gap.
#![tactic(auto)]

mod batches;
mod elsewhere;
mod event_places;
mod gap_items;
mod inputs;
mod inside;
mod item_lists;
pub mod laws;
mod line_events;
mod lines;
mod missed;
mod missed_reach;
mod missed_steps;
mod misses;
mod outside;
mod pack_edges;
mod packers;
mod packs;
mod places;
mod searches;
mod shipments;
mod site_gaps;
mod sources;
mod touched;
mod unlinked;
mod unseen;
mod untold;
mod used;
mod walks;
mod wide_reach;

pub use gap_items::{GapItem, items_in_gaps};
pub use inside::items_inside;
pub use line_events::{GapEvents, gap_events};
pub use lines::{GapLine, Gaps, packed_gaps, used_gaps};
pub use missed::missed_pairs;
pub use missed_reach::missed_among;
pub use misses::{missed_of, reached_from};
pub use outside::Destination;
pub use packs::{GapPack, packs_of_items, packs_to_capture};
pub use searches::known_packings;
pub use sources::{Source, Sources, sources_of};
pub use touched::gap_lines_with;
pub use unlinked::unlinked_containers;
pub use unseen::{UnseenItem, unseen_items};
pub use untold::{Reached, UntoldShipment, untold_shipments};
