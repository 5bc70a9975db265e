//! What a folder of sites is asked: what its records say of recalls and items. Each question is a value, which
//! `site_folders` asks of the sites' files; nothing is begun or changed by it.
#![tactic(auto)]

mod asked;
mod audits;
mod beside;
mod contents;
mod contents_plans;
mod contents_traces;
mod coverage;
mod dry_starts;
mod each_site_plans;
mod gaps;
mod gaps_plans;
mod knowers;
pub mod laws;
mod lots;
mod missed;
mod missed_notes;
mod packs;
mod packs_plans;
mod plans;
mod reports;
mod site_items;
mod standings;
mod traces;
mod trail_events;

pub use audits::Audit;
pub use contents::ContentsOf;
pub use contents_plans::ContentsPlan;
pub use contents_traces::ContentsTraceOf;
pub use coverage::CoverageOf;
pub use dry_starts::DryStart;
pub use each_site_plans::EachSitePlan;
pub use gaps::GapsOf;
pub use gaps_plans::GapsPlan;
pub use knowers::KnowersOf;
pub use missed::MissedOf;
pub use packs::{PackDocument, PacksAnswer, PacksOf};
pub use packs_plans::PacksPlan;
pub use plans::{Planned, PlannedBatch, PlannedInput};
pub use reports::ReportOf;
pub use site_items::ItemsOf;
pub use standings::{StatusOf, Statuses};
pub use traces::TraceOf;
