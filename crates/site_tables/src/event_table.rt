//! The table `event`: the captured events.
ghost use Rattle.std.specs.Prelude.{◌≡◌, ◌≢◌, IfOk, IfErr};
ghost use Rattle.site_tables.specs.Reads.{IsBadRow};
ghost use Rattle.site_tables.specs.Values.{event_values};

use crate::declarations::{Check, Column, Declaration};
use crate::table_row::{Maybe, TableRow, text_or_null_at};
use site_rows::{EventRow, Table};
use sqlite::types::ValueRef;
use sqlite::{Error, ErrorCode, Row, params};
use std::alloc::AllocError;

/// The row of `event`.
fn event_row_of(row: &Row) -> Result<EventRow, Error>
    ensures ok { IfOk result (λ it. row.now ≡ event_values it) }
    ensures err { IfErr result (λ e. e ≢ Error.SqliteFailure ErrorCode.OutOfMemory
        → IsBadRow event_values row.now) }
{
    if row.column_count() != 6 {
        return Err(Error::InvalidColumnIndex(row.column_count()));
    }
    let no = row.get(0)?;
    let id = text_or_null_at(row, 1)?;
    let seconds = row.get(2)?;
    let nanos = row.get(3)?;
    let kind = row.get(4)?;
    let make_id = text_or_null_at(row, 5)?;
    Ok(EventRow {
        no,
        id,
        seconds,
        nanos,
        kind,
        make_id,
    })
}

#[tactic(auto, using(crate::proofs::EventTable::is_made, crate::proofs::EventTable::selects, crate::proofs::EventTable::inserts, crate::proofs::EventTable::inserts_eight))]
impl TableRow for EventRow {
    ghost use Rattle.site_rows.specs.declared.tables.Table.TheVariants as names;
    ghost use Rattle.site_tables.specs.Values.{event_values};

    ghost shown = { event_values };

    ghost named = { names.Event };

    fn table() -> Table {
        Table::Event
    }

    fn declaration() -> Declaration {
        Declaration {
            name: "event",
            tree: 5,
            columns: &[
                Column::Key("no"),
                Column::MaybeText("id"),
                Column::Number("seconds"),
                Column::Number("nanos"),
                Column::Number("kind"),
                Column::MaybeText("make_id"),
            ],
            key: Some(0),
            primary: &[0],
            unique: &[],
            parent: None,
            check: Check::Nothing,
        }
    }

    fn create_text() -> &'static str {
        "CREATE TABLE event (no INTEGER PRIMARY KEY, id TEXT, seconds INTEGER NOT NULL, nanos INTEGER NOT NULL, kind INTEGER NOT NULL, make_id TEXT) STRICT"
    }

    fn select_text() -> &'static str {
        "SELECT no, id, seconds, nanos, kind, make_id FROM event ORDER BY no"
    }

    fn insert_text() -> &'static str {
        "INSERT INTO event (no, id, seconds, nanos, kind, make_id) VALUES (?1, ?2, ?3, ?4, ?5, ?6)"
    }

    fn insert_eight_text() -> Option<&'static str> {
        Some(
            "INSERT INTO event (no, id, seconds, nanos, kind, make_id) VALUES (?1, ?2, ?3, ?4, ?5, ?6), (?7, ?8, ?9, ?10, ?11, ?12), (?13, ?14, ?15, ?16, ?17, ?18), (?19, ?20, ?21, ?22, ?23, ?24), (?25, ?26, ?27, ?28, ?29, ?30), (?31, ?32, ?33, ?34, ?35, ?36), (?37, ?38, ?39, ?40, ?41, ?42), (?43, ?44, ?45, ?46, ?47, ?48)",
        )
    }

    fn push_values<'a>(&'a self, values: &mut Vec<ValueRef<'a>>) -> Result<(), AllocError> {
        values.extend_from_slice(params![
            &self.no,
            Maybe(&self.id),
            &self.seconds,
            &self.nanos,
            &self.kind,
            Maybe(&self.make_id),
        ])
    }

    fn from_row(row: &Row) -> Result<EventRow, Error> {
        event_row_of(row)
    }
}
