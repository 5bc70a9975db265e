//! The rows of a step written, in one transaction.
ghost use Rattle.std.specs.Prelude.{◌≡◌, Err, IfOk, IfErr, OnOk};
ghost use Rattle.sqlite.specs.State.{HasCleanDisk};
ghost use Rattle.sqlite.specs.Held.{state};
ghost use Rattle.site_core.specs.Records.{Record};
ghost use Rattle.site_core.specs.declared.outcomes.Effects.{Effects as Told};
ghost use Rattle.site_rows.specs.StepRows.{AreChangesOf};
ghost use Rattle.site_tables.specs.HonestDisks.{OnHonestDisk};
ghost use Rattle.site_store.specs.StepWritten.{Keeps, KeepsWhereFailed, FailsToWrite, IsCounted, cause_of};

use crate::faults::is_of_memory;
use site_rows::RowChanges;
use site_tables::{Left, try_changes};
use sqlite::{Alter, Connection, Error, ErrorCode};
use std::alloc::{AllocError, Global};

/// Why the rows of a step weren't written.
#[derive(Clone, Copy, Debug, PartialEq, Eq)]
pub enum Unwritten {
    /// Memory ran out. The connection is open, with the rows of before.
    NoMemory,
    /// The database's error. The connection is perhaps shut, with the rows of before or those of after.
    Failed(Error),
}

/// Writes the rows that a step changes, in one transaction, and returns how many these are, at most 2^64 - 1. It says
/// so of every step whose changes they are.
///
/// # Errors
/// As [`Unwritten`] says; the database's store failed for a cause that shows, or it refused a statement. A crash leaves
/// the rows of the record before the step or of the one after it, and no others.
pub fn write_step<S: Alter>(
    alloc: Global,
    conn: &mut Connection<S>,
    changes: &RowChanges,
) -> Result<u64, Unwritten>
    // Once answered the tables hold exactly the rows of the record after the step, after out of memory those of the one
    // before; after any other error a crash leaves the one or the other and no third. It returns how many rows the
    // effects count.
    ensures done { (old new : Record) (told : Told) → AreChangesOf changes.now told old new
        → HasCleanDisk (state S.Store conn.new) → Keeps old (state S.Store conn.old)
        → OnOk result (Keeps new (state S.Store conn.new)) }
    ensures failed { (old new : Record) (told : Told) → AreChangesOf changes.now told old new
        → HasCleanDisk (state S.Store conn.new) → Keeps old (state S.Store conn.old)
        → IfErr result (KeepsWhereFailed old new (state S.Store conn.new)) }
    ensures cause { (old : Record) → HasCleanDisk (state S.Store conn.new)
        → Keeps old (state S.Store conn.old)
        → IfErr result (FailsToWrite (state S.Store conn.old) (state S.Store conn.new)) }
    ensures counted { (old new : Record) (told : Told) → AreChangesOf changes.now told old new
        → IfOk result (IsCounted old told new) }
    ensures clean { OnHonestDisk S.Store conn.new (HasCleanDisk (state S.Store conn.old)) }
{
    if !conn.is_autocommit() {
        let error = Error::SqliteFailure(ErrorCode::TransactionState);
        return Err(Unwritten::Failed(error));
    }
    let mut written: u64 = 0;
    match try_changes(alloc, conn, changes, &mut written) {
        Ok(()) => Ok(written),
        Err(Left::Kept(error)) => Err(cause_of(error)),
        Err(Left::Shut(error)) => Err(Unwritten::Failed(error)),
    }
}

/// The same of rows for which there was perhaps no memory.
pub fn write_found<S: Alter>(
    alloc: Global,
    conn: &mut Connection<S>,
    changes: Result<RowChanges, AllocError>,
) -> Result<u64, Unwritten>
    ensures done { (old new : Record) (told : Told)
        → IfOk changes (λ c. AreChangesOf c told old new) → HasCleanDisk (state S.Store conn.new)
        → Keeps old (state S.Store conn.old) → OnOk result (Keeps new (state S.Store conn.new)) }
    ensures failed { (old new : Record) (told : Told)
        → IfOk changes (λ c. AreChangesOf c told old new) → HasCleanDisk (state S.Store conn.new)
        → Keeps old (state S.Store conn.old)
        → IfErr result (KeepsWhereFailed old new (state S.Store conn.new)) }
    ensures cause { (old : Record) → HasCleanDisk (state S.Store conn.new)
        → Keeps old (state S.Store conn.old)
        → IfErr result (FailsToWrite (state S.Store conn.old) (state S.Store conn.new)) }
    ensures counted { (old new : Record) (told : Told)
        → IfOk changes (λ c. AreChangesOf c told old new) → IfOk result (IsCounted old told new) }
    ensures clean { OnHonestDisk S.Store conn.new (HasCleanDisk (state S.Store conn.old)) }
    ensures no_memory { IfErr changes (λ _. result ≡ Err Unwritten.NoMemory) }
{
    match changes {
        Ok(changes) => write_step(alloc, conn, &changes),
        Err(_) => Err(Unwritten::NoMemory),
    }
}

/// What an error is after which the connection is open, with the rows of before.
fn cause_of(error: Error) -> Unwritten
    ensures { result ≡ cause_of error }
{
    if is_of_memory(&error) {
        Unwritten::NoMemory
    } else {
        Unwritten::Failed(error)
    }
}
