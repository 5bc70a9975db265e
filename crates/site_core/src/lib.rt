//! What a site keeps, what it may send, and what it captures and quarantines.
#![tactic(auto)]

mod capturing;
pub mod capturing_laws;
mod closing;
mod covering;
mod emitting;
mod every;
mod held_index;
mod holding;
mod inputs;
mod item_sets;
mod joined;
pub mod laws;
mod looks;
mod made_blocks;
mod naming;
mod outcomes;
mod plans;
mod quarantines;
mod restoring;
mod sent_blocks;
mod shipping;
mod shortcuts;
mod sources;
mod spreading;
mod states;
pub mod step_laws;
mod steps;
mod undoing;

pub use capturing::{CaptureFault, capture_all};
pub use closing::is_closed_set;
pub use emitting::emittable;
pub use inputs::SiteInput;
pub use item_sets::ItemSet;
pub use looks::look;
pub use naming::{FrameName, frame_named};
pub use outcomes::{Effects, Refusal};
pub use quarantines::Quarantine;
pub use shipping::shipments;
pub use spreading::is_known;
pub use states::SiteState;
pub use steps::{Stepped, step};
pub use undoing::StepUndo;
