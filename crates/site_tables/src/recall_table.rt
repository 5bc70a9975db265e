//! The table `recall`: the own recalls.
ghost use Rattle.std.specs.Prelude.{◌≡◌, ◌≢◌, IfOk, IfErr};
ghost use Rattle.site_tables.specs.Reads.{IsBadRow};
ghost use Rattle.site_tables.specs.Values.{recall_values};

use crate::counting::count_one;
use crate::declarations::{Check, Column, Declaration};
use crate::in_turn::TableChange;
use crate::table_row::{TableRow, TextOf, text_at};
use site_rows::{RecallRow, Table};
use sqlite::types::ValueRef;
use sqlite::{Alter, Error, ErrorCode, Row, Transaction, params};
use std::alloc::AllocError;

/// The row of `recall`.
fn recall_row_of(row: &Row) -> Result<RecallRow, Error>
    ensures ok { IfOk result (λ it. row.now ≡ recall_values it) }
    ensures err { IfErr result (λ e. e ≢ Error.SqliteFailure ErrorCode.OutOfMemory
        → IsBadRow recall_values row.now) }
{
    if row.column_count() != 3 {
        return Err(Error::InvalidColumnIndex(row.column_count()));
    }
    let number = row.get(0)?;
    let root = text_at(row, 1)?;
    let ended = row.get(2)?;
    Ok(RecallRow {
        number,
        root,
        ended,
    })
}

#[tactic(auto, using(crate::proofs::RecallTable::is_made, crate::proofs::RecallTable::selects, crate::proofs::RecallTable::inserts))]
impl TableRow for RecallRow {
    ghost use Rattle.site_rows.specs.declared.tables.Table.TheVariants as names;
    ghost use Rattle.site_tables.specs.Values.{recall_values};

    ghost shown = { recall_values };

    ghost named = { names.Recall };

    fn table() -> Table {
        Table::Recall
    }

    fn declaration() -> Declaration {
        Declaration {
            name: "recall",
            tree: 15,
            columns: &[
                Column::Key("number"),
                Column::Text("root"),
                Column::Number("ended"),
            ],
            key: Some(0),
            primary: &[0],
            unique: &[],
            parent: None,
            check: Check::IsZeroOrOne(3),
        }
    }

    fn create_text() -> &'static str {
        "CREATE TABLE recall (number INTEGER PRIMARY KEY, root TEXT NOT NULL, ended INTEGER NOT NULL CHECK (ended IN (0, 1))) STRICT"
    }

    fn select_text() -> &'static str {
        "SELECT number, root, ended FROM recall ORDER BY number"
    }

    fn insert_text() -> &'static str {
        "INSERT INTO recall (number, root, ended) VALUES (?1, ?2, ?3)"
    }

    fn insert_eight_text() -> Option<&'static str> {
        None
    }

    fn push_values<'a>(&'a self, values: &mut Vec<ValueRef<'a>>) -> Result<(), AllocError> {
        values.extend_from_slice(params![&self.number, TextOf(&self.root), &self.ended,])
    }

    fn from_row(row: &Row) -> Result<RecallRow, Error> {
        recall_row_of(row)
    }
}

/// Puts a row into `recall`, in place of the one of its number if there is one.
pub struct PutsRecall;

impl TableChange for PutsRecall {
    ghost use Rattle.site_rows.specs.declared.tables.Table.TheVariants as names;
    ghost use Rattle.site_tables.specs.Tables.{recall};
    ghost use Rattle.site_tables.specs.TableRows.{puts};
    ghost use Rattle.site_tables.specs.Values.{recall_values};

    type Element = RecallRow;

    ghost named = { names.Recall };

    ghost change = { λ row. puts recall (recall_values row) };

    fn write<S: Alter>(
        tx: &mut Transaction<'_, S>,
        row: &RecallRow,
        written: &mut u64,
    ) -> Result<usize, Error> {
        count_one(written);
        tx.execute(
            "INSERT INTO recall (number, root, ended) VALUES (?1, ?2, ?3) ON CONFLICT (number) DO UPDATE SET root = excluded.root, ended = excluded.ended",
            params![&row.number, TextOf(&row.root), &row.ended,],
        )
    }
}
