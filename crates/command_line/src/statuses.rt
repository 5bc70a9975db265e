//! The statuses with which the program ends.

/// All was done.
pub(crate) const DONE: u8 = 0;

/// Something was refused.
pub(crate) const REFUSED: u8 = 1;

/// The command line is bad.
pub const BAD_COMMAND_LINE: u8 = 2;

/// A fault that isn't printed as `refused`, out of memory too.
pub const FAULT: u8 = 3;
