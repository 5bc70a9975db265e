//! Sites of a supply chain, and the events of an EPCIS document captured at one of them.
#![tactic(auto)]

mod bodies;
mod checks;
mod copies;
mod doc_faults;
mod documents;
mod event_building;
mod event_checks;
mod event_types;
mod events;
mod foreign_faults;
mod item_lists;
pub mod laws;
mod lent_texts;
mod limits;
mod members;
mod sequences;
mod site_checks;
mod site_entries;
mod site_lists;
mod site_numbers;
mod texts;
mod untraced;

pub use bodies::{Action, Body};
pub use copies::Copyable;
pub use doc_faults::{DocFault, DocFaultKind, DocField, ReadFault};
pub use documents::{Doc, read_document, read_value};
pub use events::Event;
pub use limits::{MAX_ADDRESSES, MAX_EVENTS, MAX_LIST_MEMBERS, MAX_NAME_BYTES, MAX_SITES};
pub use sequences::Sequence;
pub use site_lists::{Sites, SitesFault};
pub use site_numbers::SiteNo;
pub use texts::PlainText;
pub use untraced::{Untraced, read_untraced};
