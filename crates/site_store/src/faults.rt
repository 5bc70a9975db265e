//! What an error of the database is to a keeper.
ghost use Rattle.std.specs.Prelude.{◌≡◌};
ghost use Rattle.keeper_core.specs.Memory.{one_more};
ghost use Rattle.site_store.specs.Faults.{is_of_device, is_of_memory, lacks_memory};

use keeper_core::KeepFault;
use site_core::Effects;
use sqlite::{Error, ErrorCode};

/// Whether the device failed.
pub fn is_of_device(error: &Error) -> bool
    ensures { result ≡ is_of_device error.now }
{
    match error {
        Error::SqliteFailure(code) => matches!(
            code,
            ErrorCode::SystemIoFailure
                | ErrorCode::DiskFull
                | ErrorCode::DatabaseCorrupt
                | ErrorCode::Closed
                | ErrorCode::CannotOpen
                | ErrorCode::DatabaseBusy
        ),
        _ => false,
    }
}

/// Whether memory ran out.
pub fn is_of_memory(error: &Error) -> bool
    ensures { result ≡ is_of_memory error.now }
{
    matches!(error, Error::SqliteFailure(ErrorCode::OutOfMemory))
}

/// One failure more. At 2^64 - 1 the count stays.
pub fn one_more(failures: u64) -> u64
    ensures { result ≡ one_more failures }
{
    if failures == u64::MAX {
        failures
    } else {
        failures + 1
    }
}

/// Whether a step returned that memory ran out.
pub fn lacks_memory(answer: &Result<Effects, KeepFault>) -> bool
    ensures { result ≡ lacks_memory answer.now }
{
    matches!(answer, Err(KeepFault::NoMemory))
}
