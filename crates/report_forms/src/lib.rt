//! Reports and traces in parts, and in forms that other programs read: as rows of comma-separated fields (RFC 4180), and
//! as a picture for Graphviz.
#![tactic(auto)]

mod accounts;
mod csv_cells;
mod csv_tables;
mod dot_graphs;
mod evidence;
mod item_numbers;
pub mod laws;
mod pictures;
mod replaced;

pub use accounts::{Account, OutsidePart, Part, Title, Way};
pub use csv_tables::csv_table;
pub use dot_graphs::dot_graph;
