//! The count of a script's lines and refusals.
/// What a script came to.
#[derive(Clone, Copy, Debug, PartialEq, Eq)]
pub struct Tally {
    /// The lines read, those without an answer among them.
    pub lines: u64,
    /// The refusals printed.
    pub refused: u64,
}
