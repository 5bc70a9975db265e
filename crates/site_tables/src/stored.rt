//! Rows that a query shows, as the code has them.
ghost use Rattle.std.specs.Prelude.{◌≡◌, ◌≢◌, ◌⊎◌, ◌++◌, ◌∷◌, [], map, IsTrue, IsFalse, IfOk, IfErr, OnOk};
ghost use Rattle.sqlite.specs.State.{IsUnchanged, Survives, Shown};
ghost use Rattle.sqlite.specs.Held.{state};
ghost use Rattle.sqlite.specs.Given.{IsPlain};
ghost use Rattle.sqlite.specs.Listing.{understood};
ghost use Rattle.site_tables.specs.HonestDisks.{OnHonestDisk};
ghost use Rattle.site_tables.specs.Reads.{FailsToList, IsBadRow};

use crate::faults::ReadFault;
use crate::table_row::TableRow;
use site_rows::Table;
use sqlite::{Alter, Connection, Error, ErrorCode, Row};
use std::alloc::{AllocError, Global};

/// Whether memory ran out.
fn is_of_memory(error: &Error) -> bool
    ensures is { IsTrue result → error.now ≡ Error.SqliteFailure ErrorCode.OutOfMemory }
    ensures other { IsFalse result → error.now ≢ Error.SqliteFailure ErrorCode.OutOfMemory }
{
    matches!(error, Error::SqliteFailure(ErrorCode::OutOfMemory))
}

/// The value of the row at a place, from 1, of a table.
fn row_of<T: TableRow>(row: &Row, table: Table, place: u64) -> Result<T, ReadFault>
    ensures ok { IfOk result (λ it. row.now ≡ T.TableRow.shown it) }
    ensures err { IfErr result (λ f. (f ≡ ReadFault.NoMemory)
        ⊎ ((f ≡ ReadFault.BadRow table place) × IsBadRow T.TableRow.shown row.now)) }
{
    match T::from_row(row) {
        Ok(it) => Ok(it),
        Err(error) => {
            if is_of_memory(&error) {
                Err(ReadFault::NoMemory)
            } else {
                Err(ReadFault::BadRow { table, row: place })
            }
        }
    }
}

/// Adds a value to a list.
fn add<T: Drop>(list: &mut Vec<T>, value: T) -> Result<(), AllocError>
    ensures { OnOk result (list.new.items ≡ list.old.items ++ value ∷ []) }
{
    list.push(value)?;
    Ok(())
}

/// The rows of a query of a table, read one at a time.
///
/// # Errors
/// As [`ReadFault`] says. Nothing is changed.
pub fn read_each<T: TableRow + Drop, S: Alter>(
    alloc: Global,
    conn: &mut Connection<S>,
    table: Table,
    sql: &str,
) -> Result<Vec<T>, ReadFault>
    requires { IsPlain (understood conn.old.schema sql.now) }
    ensures rows { OnHonestDisk S.Store conn.new (IfOk result (λ rows. (mid : _)
        × IsUnchanged (state S.Store conn.old) (state S.Store mid)
        × Shown sql.now [] (state S.Store mid) (state S.Store conn.new)
        (map T.TableRow.shown rows.items))) }
    ensures same { OnHonestDisk S.Store conn.new
        (OnOk result (IsUnchanged (state S.Store conn.old) (state S.Store conn.new))) }
    ensures cause { OnHonestDisk S.Store conn.new
        (IfErr result (FailsToList S.Store table sql.now T.TableRow.shown conn.old conn.new)) }
    ensures crash { Survives (state S.Store conn.old) (state S.Store conn.new) (λ _. ⊥) }
{
    let mut read = Vec::new(alloc);
    let mut rows = conn.query(sql, &[])?;
    'rows: for _ in 0..u64::MAX {
        let Some(row) = rows.next()? else {
            return Ok(read);
        };
        let place = read.len() as u64 + 1;
        add(&mut read, row_of::<T>(row, table, place)?)?;
    }
    Err(ReadFault::NoMemory)
}
