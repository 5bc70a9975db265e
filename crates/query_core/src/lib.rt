//! What the records of the sites tell somebody who asks: which items a site knows, how each recall stands, and which
//! messages of it wait, for whom, and which sites wait in vain. Nothing is begun or changed.
#![tactic(auto)]

mod known_items;
pub mod laws;
mod mentions;
mod recalls;
mod standings;
mod statuses;
mod stuck;
mod sums;
mod waiting;

pub use known_items::{KnownItem, counted_items, known_items_with};
pub use recalls::{
    QueryFault, RecallDetail, RecallStatus, SiteStanding, WaitingMessage, recall_detail,
    recall_statuses,
};
pub use stuck::{StuckRecall, stuck_recalls};
