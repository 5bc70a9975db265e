//! What is wrong and what is strange in a document, before it is captured: every fault of an event that can't be read,
//! and what an event says that isn't traced or is probably not meant; and how that is printed.
#![tactic(auto)]

mod event_faults;
mod event_lists;
mod finding_json;
mod finding_texts;
mod findings;
pub mod laws;
mod linting;
mod list_checks;
mod locations;
mod lost_goods;
mod member_checks;
mod near_misses;
mod other_places;
mod splitting;
mod strange_events;
mod totals;
mod unlisted;

pub use findings::{Finding, Lint, Listing, PlaceMember, SkippedType, What};
pub use linting::lint_document;
pub use locations::location_of;
pub use splitting::{Split, split_document};
pub use totals::LintTotals;
