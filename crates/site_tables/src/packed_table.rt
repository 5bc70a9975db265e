//! The table `packed`: the items that were put into containers, or taken out of them.
ghost use Rattle.std.specs.Prelude.{◌≡◌, ◌≢◌, IfOk, IfErr};
ghost use Rattle.site_tables.specs.Reads.{IsBadRow};
ghost use Rattle.site_tables.specs.Values.{packed_values};

use crate::declarations::{Check, Column, Declaration, Parent};
use crate::table_row::{TableRow, TextOf, text_at};
use site_rows::{PackedRow, Table};
use sqlite::types::ValueRef;
use sqlite::{Error, ErrorCode, Row, params};
use std::alloc::AllocError;

/// The row of `packed`.
fn packed_row_of(row: &Row) -> Result<PackedRow, Error>
    ensures ok { IfOk result (λ it. row.now ≡ packed_values it) }
    ensures err { IfErr result (λ e. e ≢ Error.SqliteFailure ErrorCode.OutOfMemory
        → IsBadRow packed_values row.now) }
{
    if row.column_count() != 3 {
        return Err(Error::InvalidColumnIndex(row.column_count()));
    }
    let event = row.get(0)?;
    let place = row.get(1)?;
    let text = text_at(row, 2)?;
    Ok(PackedRow { event, place, text })
}

#[tactic(auto, using(crate::proofs::PackedTable::is_made, crate::proofs::PackedTable::selects, crate::proofs::PackedTable::inserts, crate::proofs::PackedTable::inserts_eight))]
impl TableRow for PackedRow {
    ghost use Rattle.site_rows.specs.declared.tables.Table.TheVariants as names;
    ghost use Rattle.site_tables.specs.Values.{packed_values};

    ghost shown = { packed_values };

    ghost named = { names.Packed };

    fn table() -> Table {
        Table::Packed
    }

    fn declaration() -> Declaration {
        Declaration {
            name: "packed",
            tree: 17,
            columns: &[
                Column::Number("event"),
                Column::Number("place"),
                Column::Text("text"),
            ],
            key: None,
            primary: &[1, 2],
            unique: &[1, 2],
            parent: Some(Parent {
                place: 1,
                table: "event",
                column: "no",
            }),
            check: Check::Nothing,
        }
    }

    fn create_text() -> &'static str {
        "CREATE TABLE packed (event INTEGER NOT NULL REFERENCES event(no), place INTEGER NOT NULL, text TEXT NOT NULL, PRIMARY KEY (event, place)) STRICT"
    }

    fn select_text() -> &'static str {
        "SELECT event, place, text FROM packed ORDER BY event, place"
    }

    fn insert_text() -> &'static str {
        "INSERT INTO packed (event, place, text) VALUES (?1, ?2, ?3)"
    }

    fn insert_eight_text() -> Option<&'static str> {
        Some(
            "INSERT INTO packed (event, place, text) VALUES (?1, ?2, ?3), (?4, ?5, ?6), (?7, ?8, ?9), (?10, ?11, ?12), (?13, ?14, ?15), (?16, ?17, ?18), (?19, ?20, ?21), (?22, ?23, ?24)",
        )
    }

    fn push_values<'a>(&'a self, values: &mut Vec<ValueRef<'a>>) -> Result<(), AllocError> {
        values.extend_from_slice(params![&self.event, &self.place, TextOf(&self.text),])
    }

    fn from_row(row: &Row) -> Result<PackedRow, Error> {
        packed_row_of(row)
    }
}
