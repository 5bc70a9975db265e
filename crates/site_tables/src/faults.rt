//! Why the rows of a site couldn't be read.
use site_rows::Table;
use sqlite::Error;
use std::alloc::AllocError;
use thiserror::Error as IsError;

/// Why the rows of a site couldn't be read. Nothing is changed then.
#[derive(Clone, Copy, Debug, PartialEq, Eq, IsError)]
pub enum ReadFault {
    /// Memory ran out.
    #[error("memory ran out")]
    NoMemory,
    /// The tables of the database aren't those of a site.
    #[error("the tables are not those of a site")]
    OtherTables,
    /// A row that isn't one of its table's, at its place by key, from 1.
    #[error("bad row {row} of {table:?}")]
    BadRow {
        /// Its table.
        table: Table,
        /// Its place.
        row: u64,
    },
    /// The database's.
    #[error("{0}")]
    Database(Error),
}

impl From<Error> for ReadFault {
    ghost use Rattle.std.specs.Prelude.{◌≡◌};
    ghost use Rattle.site_tables.specs.declared.faults.ReadFault.TheVariants as reads;

    ghost from_gives = { λ error fault. fault ≡ reads.Database error };

    fn from(error: Error) -> ReadFault {
        ReadFault::Database(error)
    }
}

impl From<AllocError> for ReadFault {
    ghost use Rattle.std.specs.Prelude.{◌≡◌};
    ghost use Rattle.site_tables.specs.declared.faults.ReadFault.TheVariants as reads;

    ghost from_gives = { λ error fault. fault ≡ reads.NoMemory };

    fn from(_error: AllocError) -> ReadFault {
        ReadFault::NoMemory
    }
}
