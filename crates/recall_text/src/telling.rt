//! What a program that speaks of sites shares with a script: how recalls, steps and refusals are written, and how
//! items, numbers and recalls are read.

pub use crate::items::item_of;
pub use crate::numbers::{number_of, recall_of};
pub use crate::texts::{effects_text, ended_word, name_of, push_pair, recall_text, refusal_text};
