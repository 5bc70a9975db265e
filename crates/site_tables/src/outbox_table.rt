//! The table `outbox`: the messages that aren't signalled.
ghost use Rattle.std.specs.Prelude.{◌≡◌, ◌≢◌, IfOk, IfErr};
ghost use Rattle.site_tables.specs.Reads.{IsBadRow};
ghost use Rattle.site_tables.specs.Values.{outbox_values};

use crate::counting::count_one;
use crate::declarations::{Check, Column, Declaration};
use crate::in_turn::TableChange;
use crate::table_row::{TableRow, TextOf, text_at};
use site_rows::{OutboxRow, Table};
use sqlite::types::ValueRef;
use sqlite::{Alter, Error, ErrorCode, Row, Transaction, params};
use std::alloc::AllocError;

/// The row of `outbox`.
fn outbox_row_of(row: &Row) -> Result<OutboxRow, Error>
    ensures ok { IfOk result (λ it. row.now ≡ outbox_values it) }
    ensures err { IfErr result (λ e. e ≢ Error.SqliteFailure ErrorCode.OutOfMemory
        → IsBadRow outbox_values row.now) }
{
    if row.column_count() != 5 {
        return Err(Error::InvalidColumnIndex(row.column_count()));
    }
    let number = row.get(0)?;
    let dest = row.get(1)?;
    let recall_site = row.get(2)?;
    let recall_no = row.get(3)?;
    let item = text_at(row, 4)?;
    Ok(OutboxRow {
        number,
        dest,
        recall_site,
        recall_no,
        item,
    })
}

#[tactic(auto, using(crate::proofs::OutboxTable::is_made, crate::proofs::OutboxTable::selects, crate::proofs::OutboxTable::inserts))]
impl TableRow for OutboxRow {
    ghost use Rattle.site_rows.specs.declared.tables.Table.TheVariants as names;
    ghost use Rattle.site_tables.specs.Values.{outbox_values};

    ghost shown = { outbox_values };

    ghost named = { names.Outbox };

    fn table() -> Table {
        Table::Outbox
    }

    fn declaration() -> Declaration {
        Declaration {
            name: "outbox",
            tree: 10,
            columns: &[
                Column::Key("number"),
                Column::Number("dest"),
                Column::Number("recall_site"),
                Column::Number("recall_no"),
                Column::Text("item"),
            ],
            key: Some(0),
            primary: &[0],
            unique: &[],
            parent: None,
            check: Check::Nothing,
        }
    }

    fn create_text() -> &'static str {
        "CREATE TABLE outbox (number INTEGER PRIMARY KEY, dest INTEGER NOT NULL, recall_site INTEGER NOT NULL, recall_no INTEGER NOT NULL, item TEXT NOT NULL) STRICT"
    }

    fn select_text() -> &'static str {
        "SELECT number, dest, recall_site, recall_no, item FROM outbox ORDER BY number"
    }

    fn insert_text() -> &'static str {
        "INSERT INTO outbox (number, dest, recall_site, recall_no, item) VALUES (?1, ?2, ?3, ?4, ?5)"
    }

    fn insert_eight_text() -> Option<&'static str> {
        None
    }

    fn push_values<'a>(&'a self, values: &mut Vec<ValueRef<'a>>) -> Result<(), AllocError> {
        values.extend_from_slice(params![
            &self.number,
            &self.dest,
            &self.recall_site,
            &self.recall_no,
            TextOf(&self.item),
        ])
    }

    fn from_row(row: &Row) -> Result<OutboxRow, Error> {
        outbox_row_of(row)
    }
}

/// Puts a row into `outbox`, in place of the one of its number if there is one.
pub struct PutsOutbox;

impl TableChange for PutsOutbox {
    ghost use Rattle.site_rows.specs.declared.tables.Table.TheVariants as names;
    ghost use Rattle.site_tables.specs.Tables.{outbox};
    ghost use Rattle.site_tables.specs.TableRows.{puts};
    ghost use Rattle.site_tables.specs.Values.{outbox_values};

    type Element = OutboxRow;

    ghost named = { names.Outbox };

    ghost change = { λ row. puts outbox (outbox_values row) };

    fn write<S: Alter>(
        tx: &mut Transaction<'_, S>,
        row: &OutboxRow,
        written: &mut u64,
    ) -> Result<usize, Error> {
        count_one(written);
        tx.execute(
            "INSERT INTO outbox (number, dest, recall_site, recall_no, item) VALUES (?1, ?2, ?3, ?4, ?5) ON CONFLICT (number) DO UPDATE SET dest = excluded.dest, recall_site = excluded.recall_site, recall_no = excluded.recall_no, item = excluded.item",
            params![
                &row.number,
                &row.dest,
                &row.recall_site,
                &row.recall_no,
                TextOf(&row.item),
            ],
        )
    }
}

/// Takes the message of a number out of `outbox`.
pub struct DropsOutbox;

impl TableChange for DropsOutbox {
    ghost use Rattle.std.specs.Prelude.{[], ◌∷◌};
    ghost use Rattle.sqlite.specs.declared.types.Value.TheVariants.{Int};
    ghost use Rattle.site_rows.specs.declared.tables.Table.TheVariants as names;
    ghost use Rattle.site_tables.specs.Tables.{outbox};
    ghost use Rattle.site_tables.specs.TableRows.{without_key};

    type Element = i64;

    ghost named = { names.Outbox };

    ghost change = { λ number. without_key outbox (Int number ∷ []) };

    fn write<S: Alter>(
        tx: &mut Transaction<'_, S>,
        number: &i64,
        written: &mut u64,
    ) -> Result<usize, Error> {
        count_one(written);
        tx.execute("DELETE FROM outbox WHERE number = ?1", params![number])
    }
}
