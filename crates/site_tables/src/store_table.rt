//! The table `store`: the site itself.
ghost use Rattle.std.specs.Prelude.{◌≡◌, ◌≢◌, ◌+◌, map, min, IfOk, IfErr};
ghost use Rattle.sqlite.specs.Held.{state};
ghost use Rattle.site_tables.specs.Reads.{IsBadRow};
ghost use Rattle.site_tables.specs.TableRows.{Writes};
ghost use Rattle.site_tables.specs.Tables.{store};
ghost use Rattle.site_tables.specs.Values.{store_values, sets_numbers, sets_version};

use crate::counting::count_one;
use crate::declarations::{Check, Column, Declaration};
use crate::table_row::TableRow;
use site_rows::{Numbers, StoreRow, Table};
use sqlite::types::ValueRef;
use sqlite::{Alter, Error, ErrorCode, Row, Transaction, params};
use std::alloc::AllocError;

/// The row of `store`.
fn store_row_of(row: &Row) -> Result<StoreRow, Error>
    ensures ok { IfOk result (λ it. row.now ≡ store_values it) }
    ensures err { IfErr result (λ e. e ≢ Error.SqliteFailure ErrorCode.OutOfMemory
        → IsBadRow store_values row.now) }
{
    if row.column_count() != 5 {
        return Err(Error::InvalidColumnIndex(row.column_count()));
    }
    let one: i64 = row.get(0)?;
    let version = row.get(1)?;
    let me = row.get(2)?;
    let next_message = row.get(3)?;
    let next_recall = row.get(4)?;
    if one != 1 {
        return Err(Error::InvalidColumnIndex(0));
    }
    Ok(StoreRow {
        version,
        me,
        next_message,
        next_recall,
    })
}

#[tactic(auto, using(crate::proofs::StoreTable::is_made, crate::proofs::StoreTable::selects, crate::proofs::StoreTable::inserts))]
impl TableRow for StoreRow {
    ghost use Rattle.site_rows.specs.declared.tables.Table.TheVariants as names;
    ghost use Rattle.site_tables.specs.Values.{store_values};

    ghost shown = { store_values };

    ghost named = { names.Store };

    fn table() -> Table {
        Table::Store
    }

    fn declaration() -> Declaration {
        Declaration {
            name: "store",
            tree: 0,
            columns: &[
                Column::Key("one"),
                Column::Number("version"),
                Column::Number("me"),
                Column::Number("next_message"),
                Column::Number("next_recall"),
            ],
            key: Some(0),
            primary: &[0],
            unique: &[],
            parent: None,
            check: Check::IsOne(0),
        }
    }

    fn create_text() -> &'static str {
        "CREATE TABLE store (one INTEGER PRIMARY KEY CHECK (one = 1), version INTEGER NOT NULL, me INTEGER NOT NULL, next_message INTEGER NOT NULL, next_recall INTEGER NOT NULL) STRICT"
    }

    fn select_text() -> &'static str {
        "SELECT one, version, me, next_message, next_recall FROM store ORDER BY one"
    }

    fn insert_text() -> &'static str {
        "INSERT INTO store (one, version, me, next_message, next_recall) VALUES (?1, ?2, ?3, ?4, ?5)"
    }

    fn insert_eight_text() -> Option<&'static str> {
        None
    }

    fn push_values<'a>(&'a self, values: &mut Vec<ValueRef<'a>>) -> Result<(), AllocError> {
        values.extend_from_slice(params![
            1i64,
            &self.version,
            &self.me,
            &self.next_message,
            &self.next_recall,
        ])
    }

    fn from_row(row: &Row) -> Result<StoreRow, Error> {
        store_row_of(row)
    }
}

/// Sets the next numbers in the row of `store`.
pub fn update_store<S: Alter>(
    tx: &mut Transaction<'_, S>,
    numbers: &Numbers,
    written: &mut u64,
) -> Result<usize, Error>
    ensures same_reference { tx.new.conn.ghost_name ≡ tx.old.conn.ghost_name }
    ensures wrote { Writes store (map (sets_numbers numbers.now)) (state S.Store tx.old.conn.now)
        (state S.Store tx.new.conn.now) result }
    ensures counted { written.new ≡ min 18_446_744_073_709_551_615 (written.old + 1) }
{
    count_one(written);
    tx.execute(
        "UPDATE store SET next_message = ?1, next_recall = ?2",
        params![&numbers.next_message, &numbers.next_recall,],
    )
}

/// Sets the version in the row of `store`.
pub fn set_version<S: Alter>(tx: &mut Transaction<'_, S>, version: i64) -> Result<usize, Error>
    ensures same_reference { tx.new.conn.ghost_name ≡ tx.old.conn.ghost_name }
    ensures wrote { Writes store (map (sets_version version)) (state S.Store tx.old.conn.now)
        (state S.Store tx.new.conn.now) result }
{
    tx.execute("UPDATE store SET version = ?1", params![&version])
}
