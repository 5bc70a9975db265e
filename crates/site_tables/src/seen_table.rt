//! The table `seen`: the messages that were handled.
ghost use Rattle.std.specs.Prelude.{◌≡◌, ◌≢◌, IfOk, IfErr};
ghost use Rattle.site_tables.specs.Reads.{IsBadRow};
ghost use Rattle.site_tables.specs.Values.{seen_values};

use crate::declarations::{Check, Column, Declaration};
use crate::table_row::TableRow;
use site_rows::{SeenRow, Table};
use sqlite::types::ValueRef;
use sqlite::{Error, ErrorCode, Row, params};
use std::alloc::AllocError;

/// The row of `seen`.
fn seen_row_of(row: &Row) -> Result<SeenRow, Error>
    ensures ok { IfOk result (λ it. row.now ≡ seen_values it) }
    ensures err { IfErr result (λ e. e ≢ Error.SqliteFailure ErrorCode.OutOfMemory
        → IsBadRow seen_values row.now) }
{
    if row.column_count() != 4 {
        return Err(Error::InvalidColumnIndex(row.column_count()));
    }
    let sender = row.get(0)?;
    let number = row.get(1)?;
    let recall_site = row.get(2)?;
    let recall_no = row.get(3)?;
    Ok(SeenRow {
        sender,
        number,
        recall_site,
        recall_no,
    })
}

#[tactic(auto, using(crate::proofs::SeenTable::is_made, crate::proofs::SeenTable::selects, crate::proofs::SeenTable::inserts))]
impl TableRow for SeenRow {
    ghost use Rattle.site_rows.specs.declared.tables.Table.TheVariants as names;
    ghost use Rattle.site_tables.specs.Values.{seen_values};

    ghost shown = { seen_values };

    ghost named = { names.Seen };

    fn table() -> Table {
        Table::Seen
    }

    fn declaration() -> Declaration {
        Declaration {
            name: "seen",
            tree: 11,
            columns: &[
                Column::Number("sender"),
                Column::Number("number"),
                Column::Number("recall_site"),
                Column::Number("recall_no"),
            ],
            key: None,
            primary: &[1, 2],
            unique: &[1, 2],
            parent: None,
            check: Check::Nothing,
        }
    }

    fn create_text() -> &'static str {
        "CREATE TABLE seen (sender INTEGER NOT NULL, number INTEGER NOT NULL, recall_site INTEGER NOT NULL, recall_no INTEGER NOT NULL, PRIMARY KEY (sender, number)) STRICT"
    }

    fn select_text() -> &'static str {
        "SELECT sender, number, recall_site, recall_no FROM seen ORDER BY sender, number"
    }

    fn insert_text() -> &'static str {
        "INSERT INTO seen (sender, number, recall_site, recall_no) VALUES (?1, ?2, ?3, ?4)"
    }

    fn insert_eight_text() -> Option<&'static str> {
        None
    }

    fn push_values<'a>(&'a self, values: &mut Vec<ValueRef<'a>>) -> Result<(), AllocError> {
        values.extend_from_slice(params![
            &self.sender,
            &self.number,
            &self.recall_site,
            &self.recall_no,
        ])
    }

    fn from_row(row: &Row) -> Result<SeenRow, Error> {
        seen_row_of(row)
    }
}
