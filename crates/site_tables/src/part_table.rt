//! The table `part`: the members of the lists of events.
ghost use Rattle.std.specs.Prelude.{◌≡◌, ◌≢◌, IfOk, IfErr};
ghost use Rattle.site_tables.specs.Reads.{IsBadRow};
ghost use Rattle.site_tables.specs.Values.{part_values};

use crate::declarations::{Check, Column, Declaration, Parent};
use crate::table_row::{TableRow, TextOf, text_at};
use site_rows::{PartRow, Table};
use sqlite::types::ValueRef;
use sqlite::{Error, ErrorCode, Row, params};
use std::alloc::AllocError;

/// The row of `part`.
fn part_row_of(row: &Row) -> Result<PartRow, Error>
    ensures ok { IfOk result (λ it. row.now ≡ part_values it) }
    ensures err { IfErr result (λ e. e ≢ Error.SqliteFailure ErrorCode.OutOfMemory
        → IsBadRow part_values row.now) }
{
    if row.column_count() != 4 {
        return Err(Error::InvalidColumnIndex(row.column_count()));
    }
    let event = row.get(0)?;
    let role = row.get(1)?;
    let place = row.get(2)?;
    let text = text_at(row, 3)?;
    Ok(PartRow {
        event,
        role,
        place,
        text,
    })
}

#[tactic(auto, using(crate::proofs::PartTable::is_made, crate::proofs::PartTable::selects, crate::proofs::PartTable::inserts, crate::proofs::PartTable::inserts_eight))]
impl TableRow for PartRow {
    ghost use Rattle.site_rows.specs.declared.tables.Table.TheVariants as names;
    ghost use Rattle.site_tables.specs.Values.{part_values};

    ghost shown = { part_values };

    ghost named = { names.Part };

    fn table() -> Table {
        Table::Part
    }

    fn declaration() -> Declaration {
        Declaration {
            name: "part",
            tree: 6,
            columns: &[
                Column::Number("event"),
                Column::Number("role"),
                Column::Number("place"),
                Column::Text("text"),
            ],
            key: None,
            primary: &[1, 2, 3],
            unique: &[1, 2, 3],
            parent: Some(Parent {
                place: 1,
                table: "event",
                column: "no",
            }),
            check: Check::Nothing,
        }
    }

    fn create_text() -> &'static str {
        "CREATE TABLE part (event INTEGER NOT NULL REFERENCES event(no), role INTEGER NOT NULL, place INTEGER NOT NULL, text TEXT NOT NULL, PRIMARY KEY (event, role, place)) STRICT"
    }

    fn select_text() -> &'static str {
        "SELECT event, role, place, text FROM part ORDER BY event, role, place"
    }

    fn insert_text() -> &'static str {
        "INSERT INTO part (event, role, place, text) VALUES (?1, ?2, ?3, ?4)"
    }

    fn insert_eight_text() -> Option<&'static str> {
        Some(
            "INSERT INTO part (event, role, place, text) VALUES (?1, ?2, ?3, ?4), (?5, ?6, ?7, ?8), (?9, ?10, ?11, ?12), (?13, ?14, ?15, ?16), (?17, ?18, ?19, ?20), (?21, ?22, ?23, ?24), (?25, ?26, ?27, ?28), (?29, ?30, ?31, ?32)",
        )
    }

    fn push_values<'a>(&'a self, values: &mut Vec<ValueRef<'a>>) -> Result<(), AllocError> {
        values.extend_from_slice(params![&self.event, &self.role, &self.place, TextOf(&self.text),])
    }

    fn from_row(row: &Row) -> Result<PartRow, Error> {
        part_row_of(row)
    }
}
