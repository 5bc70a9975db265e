//! The table `pack`: what was put into containers, or taken out of them.
ghost use Rattle.std.specs.Prelude.{◌≡◌, ◌≢◌, IfOk, IfErr};
ghost use Rattle.site_tables.specs.Reads.{IsBadRow};
ghost use Rattle.site_tables.specs.Values.{pack_values};

use crate::declarations::{Check, Column, Declaration, Parent};
use crate::table_row::{Maybe, TableRow, text_or_null_at};
use site_rows::{PackRow, Table};
use sqlite::types::ValueRef;
use sqlite::{Error, ErrorCode, Row, params};
use std::alloc::AllocError;

/// The row of `pack`.
fn pack_row_of(row: &Row) -> Result<PackRow, Error>
    ensures ok { IfOk result (λ it. row.now ≡ pack_values it) }
    ensures err { IfErr result (λ e. e ≢ Error.SqliteFailure ErrorCode.OutOfMemory
        → IsBadRow pack_values row.now) }
{
    if row.column_count() != 3 {
        return Err(Error::InvalidColumnIndex(row.column_count()));
    }
    let event = row.get(0)?;
    let action = row.get(1)?;
    let parent = text_or_null_at(row, 2)?;
    Ok(PackRow {
        event,
        action,
        parent,
    })
}

#[tactic(auto, using(crate::proofs::PackTable::is_made, crate::proofs::PackTable::selects, crate::proofs::PackTable::inserts))]
impl TableRow for PackRow {
    ghost use Rattle.site_rows.specs.declared.tables.Table.TheVariants as names;
    ghost use Rattle.site_tables.specs.Values.{pack_values};

    ghost shown = { pack_values };

    ghost named = { names.Pack };

    fn table() -> Table {
        Table::Pack
    }

    fn declaration() -> Declaration {
        Declaration {
            name: "pack",
            tree: 16,
            columns: &[
                Column::Key("event"),
                Column::Number("action"),
                Column::MaybeText("parent"),
            ],
            key: Some(0),
            primary: &[0],
            unique: &[],
            parent: Some(Parent {
                place: 0,
                table: "event",
                column: "no",
            }),
            check: Check::Nothing,
        }
    }

    fn create_text() -> &'static str {
        "CREATE TABLE pack (event INTEGER PRIMARY KEY REFERENCES event(no), action INTEGER NOT NULL, parent TEXT) STRICT"
    }

    fn select_text() -> &'static str {
        "SELECT event, action, parent FROM pack ORDER BY event"
    }

    fn insert_text() -> &'static str {
        "INSERT INTO pack (event, action, parent) VALUES (?1, ?2, ?3)"
    }

    fn insert_eight_text() -> Option<&'static str> {
        None
    }

    fn push_values<'a>(&'a self, values: &mut Vec<ValueRef<'a>>) -> Result<(), AllocError> {
        values.extend_from_slice(params![&self.event, &self.action, Maybe(&self.parent)])
    }

    fn from_row(row: &Row) -> Result<PackRow, Error> {
        pack_row_of(row)
    }
}
