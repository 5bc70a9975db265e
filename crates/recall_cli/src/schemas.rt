//! What the tables of a file have that a site's don't, or lack.

use crate::causes::name_of;
use recall_outcomes::Cause;
use site_rows::Table;
use site_tables::version_of;
use sqlite_schema::schema::Schema;
use std::alloc::Global;

/// A site's tables.
const TABLES: [Table; 12] = [
    Table::Store,
    Table::Site,
    Table::Address,
    Table::Event,
    Table::Part,
    Table::Pack,
    Table::Packed,
    Table::Quarantine,
    Table::Outbox,
    Table::Seen,
    Table::Parent,
    Table::Recall,
];

/// What the indexes that a declaration makes by itself begin with.
const AUTOMATIC: &[u8] = b"sqlite_autoindex_";

/// Why a database of these tables is no site's: what it has besides, what it lacks, or that its table `store` has no
/// row of their version.
pub(crate) fn cause_of(alloc: Global, schema: &Schema) -> Cause {
    if version_of(schema).is_some() {
        return Cause::NoStoreRow;
    }
    if let Some(name) = first_foreign(schema) {
        return foreign(alloc, name);
    }
    let is_first = !has_table(schema, "pack") && !has_table(schema, "packed");
    for table in TABLES {
        if is_first && matches!(table, Table::Pack | Table::Packed) {
            continue;
        }
        if !has_table(schema, name_of(table)) {
            return Cause::TableMissing(name_of(table));
        }
    }
    Cause::OtherTables
}

fn has_table(schema: &Schema, name: &str) -> bool {
    schema
        .tables
        .as_slice()
        .iter()
        .any(|table| table.name.as_slice() == name.as_bytes())
}

fn is_table_of_site(name: &[u8]) -> bool {
    TABLES
        .iter()
        .any(|table| name_of(*table).as_bytes() == name)
}

/// The first view or trigger, else the first table that a site's file hasn't, else the first such index.
fn first_foreign(schema: &Schema) -> Option<&[u8]> {
    for view in schema.views.as_slice() {
        if !is_table_of_site(view.name.as_slice()) {
            return Some(view.name.as_slice());
        }
    }
    for table in schema.tables.as_slice() {
        if !is_table_of_site(table.name.as_slice()) {
            return Some(table.name.as_slice());
        }
    }
    for index in schema.indexes.as_slice() {
        if !index.name.as_slice().starts_with(AUTOMATIC) {
            return Some(index.name.as_slice());
        }
    }
    None
}

/// An object of this name, where there is memory for it and the name is text.
fn foreign(alloc: Global, name: &[u8]) -> Cause {
    let Ok(bytes) = name.to_vec(alloc) else {
        return Cause::OtherTables;
    };
    match String::from_utf8(bytes) {
        Ok(name) => Cause::Foreign(name),
        Err(_) => Cause::OtherTables,
    }
}
