//! Why the reading or the writing of a text ended before its end.
use std::alloc::AllocError;
use thiserror::Error;

/// Why a script ended before its end. `run_script` of `script_core` says what each leaves.
#[derive(Clone, Copy, Debug, PartialEq, Eq, Error)]
pub enum ScriptFault {
    /// Memory ran out: at the start, while a line of over 8,192 bytes was held, or at a line whose
    /// answer or effect allocates.
    #[error("NoMemory")]
    NoMemory,
    /// The reader failed. An interrupted read is made again.
    #[error("Read")]
    Read,
    /// The writer failed, or took no byte or was interrupted 1,024 times in a row.
    #[error("Write")]
    Write,
    /// A line has more than 16,777,216 bytes before its LF.
    #[error("LineTooLong")]
    LineTooLong,
    /// The reader was asked 16,777,216 times and its end was not seen.
    #[error("TurnsSpent")]
    TurnsSpent,
}

impl From<AllocError> for ScriptFault {
    ghost use Rattle.std.specs.Prelude.{◌≡◌};
    ghost use Rattle.recall_text.specs.declared.faults.ScriptFault.TheVariants.{NoMemory};

    ghost from_gives = { λ _ e. e ≡ NoMemory };

    fn from(_: AllocError) -> ScriptFault {
        ScriptFault::NoMemory
    }
}
