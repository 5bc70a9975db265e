//! The folder of the sites' files: the files themselves behind the trait [`Files`], the folder's list of sites, opening
//! and closing the sites, and questions to the records that they keep.
#![tactic(auto)]

mod folders;
mod missing;
mod questions;
mod recalls;
mod refusals;

pub use folders::{
    Files, close_all, file_path, list_path, open_all, open_records, open_site, sites_of,
};
pub use missing::{count_inside, inside_notes, missed_from};
pub use questions::{Question, SiteQuestion, ask, ask_site};
pub use recalls::{begun, roots};
pub use refusals::{no_site, refusal, refusal_of, unspelled};
