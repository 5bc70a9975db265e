//! The tables and the indexes of each version, and whether these are they.
ghost use Rattle.std.specs.Prelude.{◌≡◌, ◌↔◌, IsTrue};
ghost use Rattle.site_tables.specs.Tables.{schema_under};

use crate::declarations;
use crate::known_tables::{are_automatic, are_declared};
use crate::table_row::TableRow;
use site_rows::{
    AddressRow, EventRow, OutboxRow, PackRow, PackedRow, ParentRow, PartRow, QuarantineRow,
    RecallRow, SeenRow, SiteRow, StoreRow, Version,
};
use sqlite_schema::schema::{Index, Table};

/// Whether the tables are those of a version, in their order.
pub fn are_tables(tables: &[Table], version: Version) -> bool
    ensures { IsTrue result ↔ (tables.now ≡ (schema_under version).tables) }
{
    match version {
        Version::First => are_declared(
            tables,
            &[
                StoreRow::declaration(),
                SiteRow::declaration(),
                AddressRow::declaration(),
                EventRow::declaration(),
                PartRow::declaration(),
                QuarantineRow::declaration(),
                OutboxRow::declaration(),
                SeenRow::declaration(),
                ParentRow::declaration(),
                RecallRow::declaration(),
            ],
        ),
        Version::Second => are_declared(
            tables,
            &[
                StoreRow::declaration(),
                SiteRow::declaration(),
                AddressRow::declaration(),
                EventRow::declaration(),
                PartRow::declaration(),
                QuarantineRow::declaration(),
                OutboxRow::declaration(),
                SeenRow::declaration(),
                ParentRow::declaration(),
                RecallRow::declaration(),
                PackRow::declaration(),
                PackedRow::declaration(),
            ],
        ),
    }
}

/// Whether the indexes are those that the UNIQUEs of a version's tables make, and no others.
pub fn are_indexes(indexes: &[Index], version: Version) -> bool
    ensures { IsTrue result ↔ (indexes.now ≡ (schema_under version).indexes) }
{
    match version {
        Version::First => are_automatic(
            indexes,
            &[
                declarations::Index {
                    name: "sqlite_autoindex_site_1",
                    tree: 2,
                    table: 1,
                    columns: &[2],
                },
                declarations::Index {
                    name: "sqlite_autoindex_address_1",
                    tree: 4,
                    table: 3,
                    columns: &[1],
                },
                declarations::Index {
                    name: "sqlite_autoindex_part_1",
                    tree: 7,
                    table: 6,
                    columns: &[1, 2, 3],
                },
                declarations::Index {
                    name: "sqlite_autoindex_quarantine_1",
                    tree: 9,
                    table: 8,
                    columns: &[1, 2, 3],
                },
                declarations::Index {
                    name: "sqlite_autoindex_seen_1",
                    tree: 12,
                    table: 11,
                    columns: &[1, 2],
                },
                declarations::Index {
                    name: "sqlite_autoindex_parent_1",
                    tree: 14,
                    table: 13,
                    columns: &[1, 2],
                },
            ],
        ),
        Version::Second => are_automatic(
            indexes,
            &[
                declarations::Index {
                    name: "sqlite_autoindex_site_1",
                    tree: 2,
                    table: 1,
                    columns: &[2],
                },
                declarations::Index {
                    name: "sqlite_autoindex_address_1",
                    tree: 4,
                    table: 3,
                    columns: &[1],
                },
                declarations::Index {
                    name: "sqlite_autoindex_part_1",
                    tree: 7,
                    table: 6,
                    columns: &[1, 2, 3],
                },
                declarations::Index {
                    name: "sqlite_autoindex_quarantine_1",
                    tree: 9,
                    table: 8,
                    columns: &[1, 2, 3],
                },
                declarations::Index {
                    name: "sqlite_autoindex_seen_1",
                    tree: 12,
                    table: 11,
                    columns: &[1, 2],
                },
                declarations::Index {
                    name: "sqlite_autoindex_parent_1",
                    tree: 14,
                    table: 13,
                    columns: &[1, 2],
                },
                declarations::Index {
                    name: "sqlite_autoindex_packed_1",
                    tree: 18,
                    table: 17,
                    columns: &[1, 2],
                },
            ],
        ),
    }
}
