//! The table `parent`: the messages that engaged the site.
ghost use Rattle.std.specs.Prelude.{◌≡◌, ◌≢◌, IfOk, IfErr};
ghost use Rattle.site_tables.specs.Reads.{IsBadRow};
ghost use Rattle.site_tables.specs.Values.{parent_values};

use crate::counting::count_one;
use crate::declarations::{Check, Column, Declaration};
use crate::in_turn::TableChange;
use crate::table_row::TableRow;
use site_rows::{ParentRow, RecallKey, Table};
use sqlite::types::ValueRef;
use sqlite::{Alter, Error, ErrorCode, Row, Transaction, params};
use std::alloc::AllocError;

/// The row of `parent`.
fn parent_row_of(row: &Row) -> Result<ParentRow, Error>
    ensures ok { IfOk result (λ it. row.now ≡ parent_values it) }
    ensures err { IfErr result (λ e. e ≢ Error.SqliteFailure ErrorCode.OutOfMemory
        → IsBadRow parent_values row.now) }
{
    if row.column_count() != 4 {
        return Err(Error::InvalidColumnIndex(row.column_count()));
    }
    let recall_site = row.get(0)?;
    let recall_no = row.get(1)?;
    let sender = row.get(2)?;
    let number = row.get(3)?;
    Ok(ParentRow {
        recall_site,
        recall_no,
        sender,
        number,
    })
}

#[tactic(auto, using(crate::proofs::ParentTable::is_made, crate::proofs::ParentTable::selects, crate::proofs::ParentTable::inserts))]
impl TableRow for ParentRow {
    ghost use Rattle.site_rows.specs.declared.tables.Table.TheVariants as names;
    ghost use Rattle.site_tables.specs.Values.{parent_values};

    ghost shown = { parent_values };

    ghost named = { names.Parent };

    fn table() -> Table {
        Table::Parent
    }

    fn declaration() -> Declaration {
        Declaration {
            name: "parent",
            tree: 13,
            columns: &[
                Column::Number("recall_site"),
                Column::Number("recall_no"),
                Column::Number("sender"),
                Column::Number("number"),
            ],
            key: None,
            primary: &[1, 2],
            unique: &[1, 2],
            parent: None,
            check: Check::Nothing,
        }
    }

    fn create_text() -> &'static str {
        "CREATE TABLE parent (recall_site INTEGER NOT NULL, recall_no INTEGER NOT NULL, sender INTEGER NOT NULL, number INTEGER NOT NULL, PRIMARY KEY (recall_site, recall_no)) STRICT"
    }

    fn select_text() -> &'static str {
        "SELECT recall_site, recall_no, sender, number FROM parent ORDER BY recall_site, recall_no"
    }

    fn insert_text() -> &'static str {
        "INSERT INTO parent (recall_site, recall_no, sender, number) VALUES (?1, ?2, ?3, ?4)"
    }

    fn insert_eight_text() -> Option<&'static str> {
        None
    }

    fn push_values<'a>(&'a self, values: &mut Vec<ValueRef<'a>>) -> Result<(), AllocError> {
        values.extend_from_slice(params![
            &self.recall_site,
            &self.recall_no,
            &self.sender,
            &self.number,
        ])
    }

    fn from_row(row: &Row) -> Result<ParentRow, Error> {
        parent_row_of(row)
    }
}

/// Takes the parent of a recall out of `parent`.
pub struct DropsParent;

impl TableChange for DropsParent {
    ghost use Rattle.site_rows.specs.declared.tables.Table.TheVariants as names;
    ghost use Rattle.site_tables.specs.Tables.{parent};
    ghost use Rattle.site_tables.specs.TableRows.{without_key};
    ghost use Rattle.site_tables.specs.Values.{recall_key};

    type Element = RecallKey;

    ghost named = { names.Parent };

    ghost change = { λ key. without_key parent (recall_key key) };

    fn write<S: Alter>(
        tx: &mut Transaction<'_, S>,
        key: &RecallKey,
        written: &mut u64,
    ) -> Result<usize, Error> {
        count_one(written);
        tx.execute(
            "DELETE FROM parent WHERE recall_site = ?1 AND recall_no = ?2",
            params![&key.site, &key.number],
        )
    }
}
