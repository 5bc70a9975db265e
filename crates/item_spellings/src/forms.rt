//! The two forms in which element strings are written.

/// How element strings are written.
#[derive(Debug, Clone, Copy, PartialEq, Eq)]
pub(crate) enum Form {
    /// Each AI in brackets, as below a bar code.
    Bracketed,
    /// As a bar code carries them.
    Carried,
}
