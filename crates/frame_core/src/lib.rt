//! Numbered recall messages of a site: their frames, the outbox of those that are not signalled yet,
//! and the messages of others that the site has ever handled.
//!
//! Contracts see the outbox and the seen messages as finite maps. They are kept in `BTreeMap`s, by the
//! calls of [`tables`], and borrowed as such.
#![tactic(auto)]

mod counted_rows;
mod frames;
mod identifiers;
pub mod laws;
mod outboxes;
mod places;
mod rows;
mod seen_messages;
pub mod tables;

pub use frames::{Frame, FrameView};
pub use identifiers::{MsgId, RecallId};
pub use outboxes::{LAST_NUMBER, NumberFault, Outbox};
pub use rows::{Row, RowView};
pub use seen_messages::{Noted, Seen};
