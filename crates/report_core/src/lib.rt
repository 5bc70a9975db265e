//! The report of a recall, and the audit of its end: what is quarantined against what its root reaches. And the trace
//! of an item, whether or not it was recalled, alone or with what lies in it.
#![tactic(auto)]

mod audits;
mod back_trails;
mod containers;
mod contents;
mod destinations;
mod differences;
mod event_times;
mod faults;
mod first_places;
mod gathering;
mod item_places;
pub mod laws;
mod makers;
mod origins;
mod outside;
mod outside_events;
mod packing_events;
mod relating;
mod reports;
mod roots;
mod shown_trails;
mod sources;
mod traces;
mod tracing;
mod tracing_back;
mod trail_events;
mod wanted_steps;
mod with_events;

pub use audits::{Verdict, audit};
pub use back_trails::{BackTrail, BackTrails};
pub use contents::trace_contents;
pub use destinations::Destination;
pub use event_times::time_of;
pub use faults::{ReportFault, TraceFault};
pub use outside::OutsideShipment;
pub use outside_events::OutsideEvent;
pub use packing_events::PackingEvent;
pub use reports::{RecallReport, report};
pub use traces::{BackTrace, Trace};
pub use tracing::trace;
pub use tracing_back::trace_back;
pub use trail_events::{CapturedEvent, StepEvents};
pub use with_events::{ShownEvents, report_with_events, trace_back_with_events, trace_with_events};
