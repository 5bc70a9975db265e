//! What is told of the databases in which the machine keeps sites, where they fail.

ghost use Rattle.recall_cli.specs.HostCalls.{WasClosed};

use crate::causes::{Trouble, cause_of_database, name_of};
use crate::{looks, schemas};
use keeper_core::KeepFault;
use recall_outcomes::{Cause, Fault};
use site_store::{OpenFault, StoredSite, Unfound};
use sqlite::{Connection, Error, ErrorCode, FileFrom, FileStore, Files, Wary};
use sqlite_disk::Tally;
use std::alloc::Global;

/// A file that is kept by a database. A write that was torn by a crash may have left any bytes, so each commit syncs
/// twice.
type KeptFile = FileFrom<Wary>;

/// A connection to a database in a file.
pub(crate) type FileConnection = Connection<FileStore<KeptFile>>;

/// A site kept in a file.
pub(crate) type FileSite = StoredSite<KeptFile>;

/// Closes the file of a site, and returns what its failed calls met. What was committed stands in the file or in its
/// log, also where this fails.
pub(crate) fn close(site: FileSite) -> Tally
    ensures { WasClosed site }
{
    match site.close() {
        Ok(files) => close_files(files),
        Err(files) => close_files(files),
    }
}

/// Closes a connection, and returns what the failed calls of its files met.
pub(crate) fn close_connection(conn: FileConnection) -> Tally {
    match conn.close_files() {
        Ok(files) => close_files(files),
        Err((_, store)) => close_files(store.close()),
    }
}

fn close_files(files: Files<KeptFile>) -> Tally {
    files.tally()
}

/// What a failure of the disk was, by what the failed calls of the files met.
fn cause_of(alloc: Global, tally: Tally) -> Option<Cause> {
    if tally.caught > 0 {
        Some(Cause::Damaged)
    } else if tally.refused > 0 {
        Some(Cause::NoSpace)
    } else {
        cause_of_database(alloc, &Error::SqliteFailure(ErrorCode::SystemIoFailure))
    }
}

/// Why a step closed a site: its device failed, which its keeper counts, and its calls met that; or the database
/// refused.
pub(crate) fn cause_of_step(alloc: Global, failures: u64, tally: Tally) -> Option<Cause> {
    if failures > 0 {
        cause_of(alloc, tally)
    } else {
        None
    }
}

/// Why a site wasn't made, and the failed calls of its files met that.
pub(crate) fn unmade(alloc: Global, fault: KeepFault, tally: Tally) -> Trouble {
    match fault {
        KeepFault::NoMemory => Trouble::bare(Fault::NoMemory),
        KeepFault::Device => Trouble::perhaps(Fault::Device, cause_of(alloc, tally)),
        KeepFault::Store | KeepFault::Closed | KeepFault::Refused(_) => {
            Trouble::bare(Fault::Store)
        }
    }
}

/// Why a file wasn't opened as a database.
pub(crate) fn unopened(rt: &HostRuntime, path: &str, error: &Error) -> Trouble {
    match error {
        Error::SqliteFailure(ErrorCode::OutOfMemory) => { Trouble::bare(Fault::NoMemory) }
        Error::SqliteFailure(ErrorCode::NotADatabase) => {
            Trouble::new(Fault::NotAStore, no_database(rt, path))
        }
        Error::SqliteFailure(ErrorCode::CannotOpen) => looks::hindrance(rt, path),
        Error::SqliteFailure(ErrorCode::DatabaseBusy) => {
            Trouble::new(Fault::Device, Cause::InUse)
        }
        Error::SqliteFailure(ErrorCode::DiskFull) => Trouble::new(Fault::Device, Cause::NoSpace),
        Error::SqliteFailure(ErrorCode::DatabaseCorrupt) => {
            Trouble::new(Fault::Device, Cause::Damaged)
        }
        Error::SqliteFailure(ErrorCode::SystemIoFailure) if looks::is_cut(rt, path) => {
            Trouble::new(Fault::Device, Cause::Damaged)
        }
        _ => Trouble::perhaps(Fault::Device, cause_of_database(rt.alloc(), error)),
    }
}

/// Why a file's contents were refused as a database.
fn no_database(rt: &HostRuntime, path: &str) -> Cause {
    if looks::begins_as_database(rt, path) {
        Cause::Unsound
    } else {
        Cause::NoDatabase
    }
}

/// Why a database wasn't opened as a site. Its connection is closed.
pub(crate) fn unfound(alloc: Global, left: Unfound<KeptFile>) -> Trouble {
    let Unfound { conn, fault } = left;
    let foreign = match &fault {
        OpenFault::NotAStore => Some(schemas::cause_of(alloc, conn.schema())),
        _ => None,
    };
    let tally = close_connection(conn);
    match fault {
        OpenFault::NotAStore => Trouble::perhaps(Fault::NotAStore, foreign),
        OpenFault::Version(version) => Trouble::new(Fault::Version, Cause::Version(version)),
        OpenFault::OtherSite(name) => Trouble::new(Fault::OtherSite, Cause::Site(name)),
        OpenFault::BadRow(bad) => Trouble::new(
            Fault::BadRow,
            Cause::Row {
                table: name_of(bad.table),
                row: bad.row,
            },
        ),
        OpenFault::Device => Trouble::perhaps(Fault::Device, cause_of(alloc, tally)),
        OpenFault::Store => Trouble::bare(Fault::Store),
        OpenFault::NoMemory => Trouble::bare(Fault::NoMemory),
    }
}
