//! Rows that are inserted into their tables: eight by one text while there are as many, since a text costs the
//! database as much again as the row, and the others one by one.
ghost use Rattle.std.specs.Prelude.{◌≡◌, ◌+◌, ◌*◌, ◌/◌, length, map, min, take, OnOk};
ghost use Rattle.sqlite.specs.Held.{state};
ghost use Rattle.site_tables.specs.Inserting.{Inserts};
ghost use Rattle.site_tables.specs.TableRows.{Writes, adds};
ghost use Rattle.site_tables.specs.Tables.{declared};

use crate::counting::count_one;
use crate::table_row::TableRow;
use sqlite::types::ValueRef;
use sqlite::{Alter, Error, ErrorCode, Transaction};
use std::alloc::Global;

/// How many rows a text inserts that inserts several.
const TOGETHER: usize = 8;

/// Inserts the rows by a text for as many, and counts each as written.
fn insert_together<'a, T: TableRow, S: Alter>(
    tx: &mut Transaction<'_, S>,
    text: &str,
    rows: &'a [T],
    values: &mut Vec<ValueRef<'a>>,
    written: &mut u64,
) -> Result<(), Error>
    requires { Inserts (declared T.TableRow.named) T.TableRow.shown (length rows.now) text.now }
    ensures same_reference { tx.new.conn.ghost_name ≡ tx.old.conn.ghost_name }
    ensures wrote { Writes (declared T.TableRow.named) (adds (map T.TableRow.shown rows.now))
        (state S.Store tx.old.conn.now) (state S.Store tx.new.conn.now) result }
    ensures counted { OnOk result (written.new ≡ min 18_446_744_073_709_551_615
        (written.old + length rows.now)) }
{
    // The count fits its type.
    let _written = *written;
    values.clear();
    for row in rows {
        count_one(written);
        if row.push_values(values).is_err() {
            return Err(Error::SqliteFailure(ErrorCode::OutOfMemory));
        }
    }
    tx.execute(text, values.as_slice())?;
    Ok(())
}

/// Inserts the rows, but for the last ones that are fewer than eight, by a text for eight.
fn insert_eights<'a, T: TableRow, S: Alter>(
    tx: &mut Transaction<'_, S>,
    text: &str,
    rows: &'a [T],
    values: &mut Vec<ValueRef<'a>>,
    written: &mut u64,
) -> Result<(), Error>
    requires { Inserts (declared T.TableRow.named) T.TableRow.shown 8 text.now }
    ensures same_reference { tx.new.conn.ghost_name ≡ tx.old.conn.ghost_name }
    ensures wrote { Writes (declared T.TableRow.named)
        (adds (map T.TableRow.shown (take (length rows.now / 8 * 8) rows.now)))
        (state S.Store tx.old.conn.now) (state S.Store tx.new.conn.now) result }
    ensures counted { OnOk result (written.new ≡ min 18_446_744_073_709_551_615
        (written.old + length rows.now / 8 * 8)) }
{
    // The count fits its type.
    let _written = *written;
    for group in 0..rows.len() / TOGETHER {
        let from = group * TOGETHER;
        insert_together(tx, text, &rows[from..from + TOGETHER], values, written)?;
    }
    Ok(())
}

/// Inserts the rows into their table, in their order.
pub fn insert_each<T: TableRow, S: Alter>(
    alloc: Global,
    tx: &mut Transaction<'_, S>,
    rows: &[T],
    written: &mut u64,
) -> Result<(), Error>
    ensures same_reference { tx.new.conn.ghost_name ≡ tx.old.conn.ghost_name }
    ensures wrote { Writes (declared T.TableRow.named) (adds (map T.TableRow.shown rows.now))
        (state S.Store tx.old.conn.now) (state S.Store tx.new.conn.now) result }
    ensures counted { OnOk result (written.new ≡ min 18_446_744_073_709_551_615
        (written.old + length rows.now)) }
{
    // The count fits its type.
    let _written = *written;
    let mut values = Vec::new(alloc);
    let mut done = 0;
    if let Some(text) = T::insert_eight_text() {
        insert_eights(tx, text, rows, &mut values, written)?;
        done = rows.len() / TOGETHER * TOGETHER;
    }
    for at in done..rows.len() {
        insert_together(
            tx,
            T::insert_text(),
            &rows[at..at + 1],
            &mut values,
            written,
        )?;
    }
    Ok(())
}
