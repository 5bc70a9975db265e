//! Whether the tables of a database are those of a site, so that no file of another program is read as one.
ghost use Rattle.std.specs.Prelude.{◌≡◌, ◌↔◌, map, IsTrue};
ghost use Rattle.site_tables.specs.Known.{table_as, index_as};
ghost use Rattle.site_rows.specs.BadRows.{Tells};
ghost use Rattle.site_tables.specs.Tables.{schema_under};

use crate::all_declared::{are_indexes, are_tables};
use crate::declarations::{self, Declaration};
use crate::known_checks::has_checks;
use crate::known_parts::{are_columns, has_unique, is_index, is_named, refers};
use site_rows::Version;
use sqlite_schema::schema::{Index, Schema, Table};

/// Whether the table is this one.
#[tactic(auto, using(crate::proofs::Declared::table_is, crate::proofs::Declared::parts_are))]
fn is_table(table: &Table, declaration: &Declaration) -> bool
    ensures { IsTrue result ↔ (table.now ≡ table_as declaration.now) }
{
    is_named(table, declaration)
        && are_columns(table.columns.as_slice(), declaration.columns)
        && has_unique(table, declaration.unique)
        && refers(table.references.as_slice(), &declaration.parent)
        && has_checks(&table.checks, declaration.check)
}

/// Whether the tables are these, in their order.
pub fn are_declared(tables: &[Table], declarations: &[Declaration]) -> bool
    ensures { IsTrue result ↔ (tables.now ≡ map table_as declarations.now) }
{
    if tables.len() != declarations.len() {
        return false;
    }
    for at in 0..tables.len() {
        if !is_table(&tables[at], &declarations[at]) {
            return false;
        }
    }
    true
}

/// Whether the indexes are these, in their order.
pub fn are_automatic(indexes: &[Index], declared: &[declarations::Index]) -> bool
    ensures { IsTrue result ↔ (indexes.now ≡ map index_as declared.now) }
{
    if indexes.len() != declared.len() {
        return false;
    }
    for at in 0..indexes.len() {
        if !is_index(&indexes[at], &declared[at]) {
            return false;
        }
    }
    true
}

/// Whether a database has the tables of a version and nothing else.
pub(crate) fn is_of(schema: &Schema, version: Version) -> bool
    ensures { IsTrue result ↔ (schema.now ≡ schema_under version) }
{
    are_tables(schema.tables.as_slice(), version)
        && are_indexes(schema.indexes.as_slice(), version)
        && schema.views.is_empty()
}

/// The version whose tables a database has and nothing else.
pub fn version_of(schema: &Schema) -> Option<Version>
    ensures { Tells result (λ v. schema.now ≡ schema_under v) }
{
    if is_of(schema, Version::Second) {
        Some(Version::Second)
    } else if is_of(schema, Version::First) {
        Some(Version::First)
    } else {
        None
    }
}
