//! GS1 items: an EPC text is read into the one item that it names.
//!
//! Two texts name one item exactly where their keys are equal, so contracts see an [`Epc`] as its
//! key's bytes.
#![tactic(auto)]

mod blocks;
mod item_texts;
mod items;
mod keys;
pub mod laws;
mod numbers;
mod plain_texts;
mod serials;
mod spellings;
mod texts;

pub use item_texts::ItemText;
pub use items::{Epc, EpcFault, EpcForm};
pub use plain_texts::is_plain;
pub use serials::Serial;
