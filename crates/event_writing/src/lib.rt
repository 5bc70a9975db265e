//! Events as EPCIS documents.
//!
//! A packing that one site captured is written as a document, so that another site captures it as its own, by the same
//! bytes for everyone. What is written is read as the same event.
#![tactic(auto)]

mod item_texts;
pub mod laws;
mod packings;
mod times;

pub use item_texts::item_text;
pub use packings::packing_document;
