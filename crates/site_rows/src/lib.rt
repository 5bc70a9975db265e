//! The rows of what a site keeps: what each table of its file holds.
#![tactic(auto)]

mod address_rows;
mod changed_rows;
mod changes;
mod event_rows;
pub mod laws;
mod numbers;
mod reading;
mod reading_addressed;
mod reading_addresses;
mod reading_bodies;
mod reading_captured;
mod reading_entries;
mod reading_events;
mod reading_held;
mod reading_lists;
mod reading_numbers;
mod reading_packs;
mod reading_recalls;
mod reading_sites;
mod reading_texts;
mod recall_rows;
mod rows;
mod step_changes;
mod tables;
mod texts;
mod writing;

pub use changes::{Numbers, RecallKey, RowChanges};
pub use reading::{BadRow, StateFault, state_of};
pub use rows::{
    AddressRow, EventRow, OutboxRow, PackRow, PackedRow, ParentRow, PartRow, QuarantineRow,
    RecallRow, Rows, SeenRow, SiteRow, StoreRow,
};
pub use step_changes::{changes_of, signal_changes_of};
pub use tables::{Table, Version};
pub use texts::Text;
pub use writing::rows_of;
