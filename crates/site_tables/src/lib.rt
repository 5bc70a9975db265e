//! The tables of a site in a database: made, read, and what a step changes written in one transaction.
#![tactic(auto)]

mod address_table;
mod all_declared;
mod all_reads;
mod all_tables;
mod beginning;
mod counting;
mod declarations;
mod event_table;
mod faults;
mod in_turn;
mod inserting;
mod known_checks;
mod known_parts;
mod known_tables;
pub mod laws;
mod migrating;
mod outbox_table;
mod pack_table;
mod packed_table;
mod parent_table;
mod part_table;
mod quarantine_table;
mod reads;
mod recall_table;
mod seen_table;
mod site_table;
mod step;
mod store_table;
mod stored;
mod table_row;
mod trying;

pub use all_reads::read_rows;
pub use beginning::create_site;
pub use faults::ReadFault;
pub use known_tables::version_of;
pub use migrating::migrate;
pub use step::store_changes;
pub use trying::{Left, settled, try_changes};
