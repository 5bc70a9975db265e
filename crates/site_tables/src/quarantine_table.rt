//! The table `quarantine`: what is quarantined.
ghost use Rattle.std.specs.Prelude.{◌≡◌, ◌≢◌, IfOk, IfErr};
ghost use Rattle.site_tables.specs.Reads.{IsBadRow};
ghost use Rattle.site_tables.specs.Values.{quarantine_values};

use crate::declarations::{Check, Column, Declaration};
use crate::table_row::{TableRow, TextOf, text_at};
use site_rows::{QuarantineRow, Table};
use sqlite::types::ValueRef;
use sqlite::{Error, ErrorCode, Row, params};
use std::alloc::AllocError;

/// The row of `quarantine`.
fn quarantine_row_of(row: &Row) -> Result<QuarantineRow, Error>
    ensures ok { IfOk result (λ it. row.now ≡ quarantine_values it) }
    ensures err { IfErr result (λ e. e ≢ Error.SqliteFailure ErrorCode.OutOfMemory
        → IsBadRow quarantine_values row.now) }
{
    if row.column_count() != 3 {
        return Err(Error::InvalidColumnIndex(row.column_count()));
    }
    let recall_site = row.get(0)?;
    let recall_no = row.get(1)?;
    let item = text_at(row, 2)?;
    Ok(QuarantineRow {
        recall_site,
        recall_no,
        item,
    })
}

#[tactic(auto, using(crate::proofs::QuarantineTable::is_made, crate::proofs::QuarantineTable::selects, crate::proofs::QuarantineTable::inserts, crate::proofs::QuarantineTable::inserts_eight))]
impl TableRow for QuarantineRow {
    ghost use Rattle.site_rows.specs.declared.tables.Table.TheVariants as names;
    ghost use Rattle.site_tables.specs.Values.{quarantine_values};

    ghost shown = { quarantine_values };

    ghost named = { names.Quarantine };

    fn table() -> Table {
        Table::Quarantine
    }

    fn declaration() -> Declaration {
        Declaration {
            name: "quarantine",
            tree: 8,
            columns: &[
                Column::Number("recall_site"),
                Column::Number("recall_no"),
                Column::Text("item"),
            ],
            key: None,
            primary: &[1, 2, 3],
            unique: &[1, 2, 3],
            parent: None,
            check: Check::Nothing,
        }
    }

    fn create_text() -> &'static str {
        "CREATE TABLE quarantine (recall_site INTEGER NOT NULL, recall_no INTEGER NOT NULL, item TEXT NOT NULL, PRIMARY KEY (recall_site, recall_no, item)) STRICT"
    }

    fn select_text() -> &'static str {
        "SELECT recall_site, recall_no, item FROM quarantine ORDER BY recall_site, recall_no, item"
    }

    fn insert_text() -> &'static str {
        "INSERT INTO quarantine (recall_site, recall_no, item) VALUES (?1, ?2, ?3)"
    }

    fn insert_eight_text() -> Option<&'static str> {
        Some(
            "INSERT INTO quarantine (recall_site, recall_no, item) VALUES (?1, ?2, ?3), (?4, ?5, ?6), (?7, ?8, ?9), (?10, ?11, ?12), (?13, ?14, ?15), (?16, ?17, ?18), (?19, ?20, ?21), (?22, ?23, ?24)",
        )
    }

    fn push_values<'a>(&'a self, values: &mut Vec<ValueRef<'a>>) -> Result<(), AllocError> {
        values.extend_from_slice(params![&self.recall_site, &self.recall_no, TextOf(&self.item),])
    }

    fn from_row(row: &Row) -> Result<QuarantineRow, Error> {
        quarantine_row_of(row)
    }
}
