//! The bytes of a line whose end is still to come.

ghost use Rattle.std.specs.Prelude.{◌≡◌, ◌++◌, ◌+◌, ◌<◌, ◌≤◌, [], IfOk, IfErr, OnOk, OnErr, length};
ghost use Rattle.script_core.specs.Lines.{longest_line};
ghost use Rattle.script_core.specs.Holding.{FailsToGrow};

use recall_text::ScriptFault;
use std::alloc::{AllocError, Global};
use std::marker::Model;

/// The most bytes of a line before its LF.
const LONGEST_LINE: usize = 16_777_216;

/// The bytes of a line that are held in memory made at the start.
const ROOM: usize = 8_192;

/// The bytes of a line so far.
#[derive(Debug, Drop)]
pub(crate) struct HeldLine {
    bytes: Vec<u8>,
}

impl Model for HeldLine {
    ghost use Rattle.std.specs.Prelude.{◌≤◌, ℕ, List, length, vec_capacity};
    ghost use Rattle.script_core.specs.Lines.{longest_line, room};

    ghost Value = { List ℕ };

    ghost view = { λ h. h.bytes.items };

    ghost invariant = { λ h. (length h.bytes.items ≤ longest_line)
        × (room ≤ vec_capacity h.bytes) };
}

impl HeldLine {
    /// No bytes, and the room for those of a line of 8,192.
    pub(crate) fn new(alloc: Global) -> Result<HeldLine, AllocError>
        ensures { IfOk result (λ h. h ≡ []) }
    {
        Ok(HeldLine {
            bytes: Vec::with_capacity(alloc, ROOM)?,
        })
    }

    /// How many bytes there are.
    pub(crate) fn len(&self) -> usize
        ensures { result ≡ length self.now }
    {
        self.bytes.len()
    }

    /// The bytes.
    pub(crate) fn as_slice(&self) -> &[u8]
        ensures bytes { result.now ≡ self.now }
        ensures fits { length self.now ≤ longest_line }
    {
        self.bytes.as_slice()
    }

    /// Puts bytes behind. Memory is needed only for a line of over 8,192 bytes.
    pub(crate) fn grow(&mut self, bytes: &[u8]) -> Result<(), ScriptFault>
        ensures ok { OnOk result ((length self.new ≤ longest_line)
            × (self.new ≡ self.old ++ bytes.now)) }
        ensures err { IfErr result (λ e. FailsToGrow self.old bytes.now e) }
        ensures same { OnErr result (self.new ≡ self.old) }
    {
        if self.bytes.len().saturating_add(bytes.len()) > LONGEST_LINE {
            return Err(ScriptFault::LineTooLong);
        }
        self.bytes.extend_from_slice(bytes)?;
        Ok(())
    }

    /// Begins the next line.
    pub(crate) fn clear(&mut self)
        ensures { self.new ≡ [] }
    {
        self.bytes.clear();
    }
}
