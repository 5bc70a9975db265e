//! In which form an outcome is printed.

/// In which form an outcome is printed.
#[derive(Clone, Copy, Debug, PartialEq, Eq)]
pub enum Form {
    /// Lines of words.
    Text,
    /// JSON, a value in each line.
    Json,
    /// Rows of comma-separated fields, of a report and of a trace; any other outcome as text.
    Csv,
    /// The same rows, in which a field that a spreadsheet might take for a formula stands behind an apostrophe.
    GuardedCsv,
    /// A picture for Graphviz, of a report and of a trace; any other outcome as text.
    Dot,
}
