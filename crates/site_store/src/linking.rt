//! A connection closed, and made again.
ghost use Rattle.std.specs.Prelude.{◌≡◌, true, None, IfOk, IfErr, IsTrue};
ghost use Rattle.sqlite.specs.Closing.{IsCopied};
ghost use Rattle.sqlite.specs.Files.{file_state};
ghost use Rattle.sqlite.specs.State.{HasCleanDisk};
ghost use Rattle.sqlite_wal.specs.Reads.{AreClean};
ghost use Rattle.site_store.specs.Faults.{is_of_device};
ghost use Rattle.site_store.specs.Closed.{IsShut};
ghost use Rattle.site_store.specs.Reopened.{AreBehind, AreLeftOf, FailsToConnect, IsMadeTo, IsOfDevice, IsReopened};
ghost use Rattle.site_store.specs.Sites.{StoresListed};

use crate::sites::Link;
use site_tables::settled;
use sqlite::{Connection, Error, ErrorCode, FileStore, Files, Options};
use sqlite_disk::Disk;
use std::alloc::Global;

/// The files behind a link. A connection is closed, whether it is open still or a failure shut it. What is in the log
/// stays there.
pub fn files_behind<D: Disk + Drop>(link: Link<D>) -> Files<D>
    ensures { AreBehind link result }
{
    match link {
        Link::Connected(conn) => conn.into_store().close(),
        Link::Unconnected(files) => files,
    }
}

/// Closes a connection: what isn't committed is rolled back, and the log is copied into the database file.
///
/// # Errors
/// The files, where the log couldn't be copied, whole or in part: the database says that a crash leaves nothing new.
pub fn close_copied<D: Disk + Drop>(conn: Connection<FileStore<D>>) -> Result<Files<D>, Files<D>>
    ensures copied { IfOk result (λ files. AreClean D.Disk files.log files.db
        → IsCopied conn files) }
    ensures shut { IfErr result (IsShut conn) }
{
    match conn.close_files() {
        Ok(files) => Ok(files),
        Err((_, store)) => Err(store.close()),
    }
}

/// Opens the files. Rows that its readers list are stored: a crash leaves these and no others.
///
/// # Errors
/// The files, with what prevented their opening. After a sync that failed they may not be opened.
fn open_files_again<D: Disk + Drop>(
    alloc: Global,
    files: Files<D>,
    options: Options,
) -> Result<Connection<FileStore<D>>, (Error, Files<D>)>
    ensures stores { IfOk result StoresListed }
    ensures unlimited { IfOk result (λ conn. conn.step_limit ≡ None) }
    ensures is_open { IfOk result (λ conn. HasCleanDisk (file_state conn)
        → IsTrue (file_state conn).is_open) }
    ensures made { IfOk result (IsMadeTo files) }
    ensures left { IfErr result (λ left. AreLeftOf D.Disk files left.1) }
    ensures failed { IfErr result (λ left. is_of_device left.0 ≡ true
        → FailsToConnect D.Disk files left.1) }
{
    if !files.may_be_used() {
        return Err((Error::SqliteFailure(ErrorCode::CannotOpen), files));
    }
    match Connection::open_files(alloc, files, options) {
        Ok(conn) => {
            settled(&conn);
            Ok(conn)
        }
        Err((error, left)) => Err((error, left.into_files())),
    }
}

/// Closes the connection, if there is one, also one that a failure shut, and opens its files again. Rows that its
/// readers list are stored: a crash leaves these and no others.
///
/// # Errors
/// The files, with what prevented their opening.
pub fn connect<D: Disk + Drop>(
    alloc: Global,
    link: Link<D>,
    options: Options,
) -> Result<Connection<FileStore<D>>, (Error, Files<D>)>
    ensures stores { IfOk result StoresListed }
    ensures unlimited { IfOk result (λ conn. conn.step_limit ≡ None) }
    ensures is_open { IfOk result (λ conn. HasCleanDisk (file_state conn)
        → IsTrue (file_state conn).is_open) }
    ensures again { IfOk result (λ conn. IsReopened link (Link.Connected conn)) }
    ensures left { IfErr result (λ left. IsReopened link (Link.Unconnected left.1)) }
    ensures failed { IfErr result (λ left. is_of_device left.0 ≡ true
        → IsOfDevice link (Link.Unconnected left.1)) }
{
    let files = files_behind(link);
    open_files_again(alloc, files, options)
}
