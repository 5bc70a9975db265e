//! Frames as lines of text.
//!
//! The sites of a chain may stand on several machines. What one site sends to another, a message of a recall or the
//! signal that answers one, then goes from machine to machine as a line of text, by ssh, in files or through a
//! broker, which may lose, repeat, reorder, cut or misroute it. A line is read as the frame that was written and as
//! no other; one that was cut, changed, or is of another chain or of another list of sites is told by its fault and
//! is no frame.
#![tactic(auto)]

mod chains;
mod faults;
mod identifiers;
pub mod laws;
mod members;
mod numbers;
mod reading;
mod sums;
mod writing;

pub use chains::ChainId;
pub use faults::LineFault;
pub use reading::{MAX_LINE_BYTES, read_line};
pub use writing::frame_line;
