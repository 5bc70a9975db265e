//! The table `site`: all sites.
ghost use Rattle.std.specs.Prelude.{◌≡◌, ◌≢◌, IfOk, IfErr};
ghost use Rattle.site_tables.specs.Reads.{IsBadRow};
ghost use Rattle.site_tables.specs.Values.{site_values};

use crate::declarations::{Check, Column, Declaration};
use crate::table_row::{TableRow, TextOf, text_at};
use site_rows::{SiteRow, Table};
use sqlite::types::ValueRef;
use sqlite::{Error, ErrorCode, Row, params};
use std::alloc::AllocError;

/// The row of `site`.
fn site_row_of(row: &Row) -> Result<SiteRow, Error>
    ensures ok { IfOk result (λ it. row.now ≡ site_values it) }
    ensures err { IfErr result (λ e. e ≢ Error.SqliteFailure ErrorCode.OutOfMemory
        → IsBadRow site_values row.now) }
{
    if row.column_count() != 2 {
        return Err(Error::InvalidColumnIndex(row.column_count()));
    }
    let no = row.get(0)?;
    let name = text_at(row, 1)?;
    Ok(SiteRow { no, name })
}

#[tactic(auto, using(crate::proofs::SiteTable::is_made, crate::proofs::SiteTable::selects, crate::proofs::SiteTable::inserts))]
impl TableRow for SiteRow {
    ghost use Rattle.site_rows.specs.declared.tables.Table.TheVariants as names;
    ghost use Rattle.site_tables.specs.Values.{site_values};

    ghost shown = { site_values };

    ghost named = { names.Site };

    fn table() -> Table {
        Table::Site
    }

    fn declaration() -> Declaration {
        Declaration {
            name: "site",
            tree: 1,
            columns: &[Column::Key("no"), Column::Text("name")],
            key: Some(0),
            primary: &[0],
            unique: &[2],
            parent: None,
            check: Check::Nothing,
        }
    }

    fn create_text() -> &'static str {
        "CREATE TABLE site (no INTEGER PRIMARY KEY, name TEXT NOT NULL UNIQUE) STRICT"
    }

    fn select_text() -> &'static str {
        "SELECT no, name FROM site ORDER BY no"
    }

    fn insert_text() -> &'static str {
        "INSERT INTO site (no, name) VALUES (?1, ?2)"
    }

    fn insert_eight_text() -> Option<&'static str> {
        None
    }

    fn push_values<'a>(&'a self, values: &mut Vec<ValueRef<'a>>) -> Result<(), AllocError> {
        values.extend_from_slice(params![&self.no, TextOf(&self.name)])
    }

    fn from_row(row: &Row) -> Result<SiteRow, Error> {
        site_row_of(row)
    }
}
