//! Errors of readers and writers.

ghost use Rattle.std.specs.Prelude.{◌≡◌};
ghost use Rattle.recall_text.specs.Streams.{fault_of_kind};

use crate::faults::ScriptFault;
use std::io::ErrorKind;

/// The fault that an error of a reader or a writer is reported as, if any: a call that was
/// interrupted may be made again.
pub fn fault_of_kind(kind: ErrorKind, fault: ScriptFault) -> Result<(), ScriptFault>
    ensures { result ≡ fault_of_kind kind fault }
{
    match kind {
        ErrorKind::Interrupted => Ok(()),
        _ => Err(fault),
    }
}
