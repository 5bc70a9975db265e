//! The rows of the tables: what each table is, by the type of its rows.
ghost use Rattle.std.specs.Prelude.{◌≡◌, ◌≢◌, ◌<◌, ◌++◌, List, ℕ, length, Option, IfOk, IfErr, IfSome, OnOk};
ghost use Rattle.sqlite.specs.declared.types.Value.TheVariants.{Text as SqlText};
ghost use Rattle.sqlite.specs.Values.{bound, or_null};
ghost use Rattle.sqlite_value.specs.Order.{column};
ghost use Rattle.site_tables.specs.Inserting.{Inserts};
ghost use Rattle.site_tables.specs.Known.{table_as};
ghost use Rattle.site_tables.specs.Made.{IsMade};
ghost use Rattle.site_tables.specs.Reads.{IsBadRow, Selects};
ghost use Rattle.site_rows.specs.declared.tables.Version.{Version};
ghost use Rattle.site_tables.specs.Tables.{Has, declared, earlier, made, schema_of};

use crate::declarations::Declaration;
use site_rows::{Table, Text};
use sqlite::types::{FromSql, FromSqlError, ToSql, ValueRef};
use sqlite::{Error, ErrorCode, Row};
use std::alloc::{AllocError, Global};

/// A row of a table, and the table: its declaration, its texts, and its rows out of the database and into it.
pub trait TableRow: Sized {
    ghost use Rattle.sqlite.specs.Order.{Row as SqlRow};
    ghost use Rattle.site_rows.specs.declared.tables.Table.{«Table» as SiteTable};

    // The row as a query shows it, and its table.
    ghost shown: { Self → SqlRow };

    ghost named: { SiteTable };

    /// Its table.
    fn table() -> Table
        ensures { result ≡ named };

    /// What the table is, as a test of a database asks for it.
    fn declaration() -> Declaration
        ensures { table_as result ≡ declared named };

    /// The text that makes the table, behind those that are made earlier.
    fn create_text() -> &'static str
        ensures { IsMade result.now (schema_of (earlier named made))
            (record (declared named) { tree = 0 }) };

    /// The text that shows the rows of the table by their keys, in a database of a version that has the table.
    fn select_text() -> &'static str
        ensures { (v : Version) → Has v named → Selects v (declared named) result.now };

    /// The text that inserts one row.
    fn insert_text() -> &'static str
        ensures { Inserts (declared named) shown 1 result.now };

    /// The text that inserts eight rows, for a table that is given many at once.
    fn insert_eight_text() -> Option<&'static str>
        ensures { IfSome result (λ text. Inserts (declared named) shown 8 text.now) };

    /// Puts the values of its columns behind the others, in order.
    fn push_values<'a>(&'a self, values: &mut Vec<ValueRef<'a>>) -> Result<(), AllocError>
        ensures { OnOk result (bound values.new.items ≡ bound values.old.items ++ shown self.now) };

    /// The value of a row.
    ///
    /// # Errors
    /// Where memory runs out, and where no value stands for the row.
    fn from_row(row: &Row) -> Result<Self, Error>
        ensures ok { IfOk result (λ it. row.now ≡ shown it) }
        ensures err { IfErr result (λ e. e ≢ Error.SqliteFailure ErrorCode.OutOfMemory
            → IsBadRow shown row.now) };
}

/// A text as a column has it: bytes, which need not be UTF-8.
#[derive(Drop)]
struct TextColumn(Text);

impl FromSql for TextColumn {
    ghost use Rattle.std.specs.Prelude.{◌≡◌, ℕ, List};
    ghost use Rattle.sqlite.specs.declared.types.Value.TheVariants as value;

    ghost reads_as = { λ v t. v ≡ value.Text t.0 };

    ghost is_readable = { λ v. (t : List ℕ) × (v ≡ value.Text t) };

    fn column_result(alloc: Global, value: ValueRef<'_>) -> Result<TextColumn, FromSqlError> {
        match value {
            ValueRef::Text(bytes) => Ok(TextColumn(Text::from_bytes(alloc, bytes)?)),
            _ => Err(FromSqlError::InvalidType),
        }
    }
}

/// The text in a column.
pub fn text_at(row: &Row, at: usize) -> Result<Text, Error>
    ensures ok { IfOk result (λ t. column row.now at ≡ SqlText t) }
    ensures err { at < length row.now → IfErr result (λ e.
        e ≢ Error.SqliteFailure ErrorCode.OutOfMemory → (t : List ℕ)
        → column row.now at ≢ SqlText t) }
{
    let column: TextColumn = row.get(at)?;
    Ok(column.0)
}

/// The text in a column, or None where it has NULL.
pub fn text_or_null_at(row: &Row, at: usize) -> Result<Option<Text>, Error>
    ensures ok { IfOk result (λ t. column row.now at ≡ or_null SqlText t) }
    ensures err { at < length row.now → IfErr result (λ e.
        e ≢ Error.SqliteFailure ErrorCode.OutOfMemory → (t : Option (List ℕ))
        → column row.now at ≢ or_null SqlText t) }
{
    let column: Option<TextColumn> = row.get(at)?;
    match column {
        Some(text) => Ok(Some(text.0)),
        None => Ok(None),
    }
}

/// A text, as a parameter.
#[derive(Clone, Copy)]
pub struct TextOf<'a>(pub &'a Text);

impl<'a> ToSql<'a> for TextOf<'a> {
    ghost use Rattle.sqlite.specs.declared.types.Value.TheVariants as value;

    ghost to_sql = { λ t. value.Text t.0.now };

    fn to_sql(self) -> ValueRef<'a> {
        ValueRef::Text(self.0.as_bytes())
    }
}

/// A text that may be missing, as a parameter.
#[derive(Clone, Copy)]
pub struct Maybe<'a>(pub &'a Option<Text>);

impl<'a> ToSql<'a> for Maybe<'a> {
    ghost use Rattle.sqlite.specs.Values.{or_null};
    ghost use Rattle.sqlite.specs.declared.types.Value.TheVariants as value;

    ghost to_sql = { λ t. or_null value.Text t.0.now };

    fn to_sql(self) -> ValueRef<'a> {
        match self.0 {
            Some(text) => ValueRef::Text(text.as_bytes()),
            None => ValueRef::Null,
        }
    }
}
