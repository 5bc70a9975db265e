//! Why a line carries no frame.

/// Why a line carries no frame of a chain and a list of sites.
#[derive(Clone, Copy, Debug, PartialEq, Eq)]
pub enum LineFault {
    /// It is longer than [`MAX_LINE_BYTES`](crate::MAX_LINE_BYTES), or not the JSON of an object in UTF-8, or a
    /// member of a frame is missing, is no text, or names no site of the list, no number or no item.
    BadFrame,
    /// It says that it is of another chain.
    OtherChain,
    /// It tells a frame, and its sum is not that of the frame: it was changed, or is of another list of sites.
    BadSum,
}
