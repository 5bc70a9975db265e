//! The table `address`: the addresses of the sites.
ghost use Rattle.std.specs.Prelude.{◌≡◌, ◌≢◌, IfOk, IfErr};
ghost use Rattle.site_tables.specs.Reads.{IsBadRow};
ghost use Rattle.site_tables.specs.Values.{address_values};

use crate::declarations::{Check, Column, Declaration, Parent};
use crate::table_row::{TableRow, TextOf, text_at};
use site_rows::{AddressRow, Table};
use sqlite::types::ValueRef;
use sqlite::{Error, ErrorCode, Row, params};
use std::alloc::AllocError;

/// The row of `address`.
fn address_row_of(row: &Row) -> Result<AddressRow, Error>
    ensures ok { IfOk result (λ it. row.now ≡ address_values it) }
    ensures err { IfErr result (λ e. e ≢ Error.SqliteFailure ErrorCode.OutOfMemory
        → IsBadRow address_values row.now) }
{
    if row.column_count() != 3 {
        return Err(Error::InvalidColumnIndex(row.column_count()));
    }
    let text = text_at(row, 0)?;
    let site = row.get(1)?;
    let place = row.get(2)?;
    Ok(AddressRow { text, site, place })
}

#[tactic(auto, using(crate::proofs::AddressTable::is_made, crate::proofs::AddressTable::selects, crate::proofs::AddressTable::inserts))]
impl TableRow for AddressRow {
    ghost use Rattle.site_rows.specs.declared.tables.Table.TheVariants as names;
    ghost use Rattle.site_tables.specs.Values.{address_values};

    ghost shown = { address_values };

    ghost named = { names.Address };

    fn table() -> Table {
        Table::Address
    }

    fn declaration() -> Declaration {
        Declaration {
            name: "address",
            tree: 3,
            columns: &[
                Column::Text("text"),
                Column::Number("site"),
                Column::Number("place"),
            ],
            key: None,
            primary: &[1],
            unique: &[1],
            parent: Some(Parent {
                place: 2,
                table: "site",
                column: "no",
            }),
            check: Check::Nothing,
        }
    }

    fn create_text() -> &'static str {
        "CREATE TABLE address (text TEXT PRIMARY KEY NOT NULL, site INTEGER NOT NULL REFERENCES site(no), place INTEGER NOT NULL) STRICT"
    }

    fn select_text() -> &'static str {
        "SELECT text, site, place FROM address ORDER BY text"
    }

    fn insert_text() -> &'static str {
        "INSERT INTO address (text, site, place) VALUES (?1, ?2, ?3)"
    }

    fn insert_eight_text() -> Option<&'static str> {
        None
    }

    fn push_values<'a>(&'a self, values: &mut Vec<ValueRef<'a>>) -> Result<(), AllocError> {
        values.extend_from_slice(params![TextOf(&self.text), &self.site, &self.place,])
    }

    fn from_row(row: &Row) -> Result<AddressRow, Error> {
        address_row_of(row)
    }
}
