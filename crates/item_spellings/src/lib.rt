//! Items as they are printed and scanned.
//!
//! An item is spelled by an EPC text, by the key that is printed of it, or by the GS1 element strings that a scanner
//! gives (GS1 General Specifications, section 7.8). Keys and EPC texts are `epc_core`'s; this crate reads element
//! strings, writes a lot as an item and tells its parts, and tells why a text spells no item.
#![tactic(auto)]

mod bytes;
mod elements;
mod faults;
mod forms;
mod keys;
pub mod laws;
mod lookups;
mod lot_parts;
mod lots;
mod places;
mod scans;
mod spellings;

pub use faults::{ScanFault, SpellingFault};
pub use keys::read_key;
pub use lot_parts::{is_lot, lot_number, lot_parts_of};
pub use lots::{lot_text, push_lot_number};
pub use places::are_one_place;
pub use scans::read_scan;
pub use spellings::{Spelled, Spelling, read_item};
