//! Documents as they are found, turned into those that are captured: this crate stands in front of `event_json`, works
//! over JSON values, and loses nothing.
#![tactic(auto)]

mod accounts;
mod asked;
mod converting;
mod declared_errors;
mod document_parts;
mod documents;
mod elements;
mod event_lists;
pub mod laws;
mod light_parts;
mod linked;
mod links;
mod lot_events;
mod lots;
mod lotted;
mod part_ids;
pub mod part_laws;
mod parted;
mod placed;
mod places;
mod quantities;
mod respelling;
mod texts;
mod thousands;
mod types;
mod unit_lots;
mod weights;

pub use accounts::Account;
pub use converting::{Conversion, Converted, Refused, convert};
pub use declared_errors::document_with_errors_kept;
pub use document_parts::in_parts;
pub use documents::{document_in, documents_in};
pub use linked::document_with_links;
pub use links::link_of;
pub use lots::lot_of;
pub use lotted::document_with_lots;
pub use placed::document_with_places;
