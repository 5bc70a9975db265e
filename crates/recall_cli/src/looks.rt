//! Looks at the files of a database that wasn't opened, for what the database's error doesn't tell.

use crate::causes::{Trouble, cause_of_database, cause_of_error};
use crate::whole_files::folder_of;
use recall_outcomes::{Cause, Fault};
use sqlite::{Error as DatabaseError, ErrorCode};
use std::fs::{self, File, OpenOptions, TryLockError};
use std::io::{self, ErrorKind, Read};
use std::os::unix::fs::MetadataExt;

/// What a database begins with.
const MAGIC: &[u8] = b"SQLite format 3\0";

/// Why a database couldn't be opened or made at a path, which may lead to it by links.
pub(crate) fn hindrance(rt: &HostRuntime, path: &str) -> Trouble {
    match found_hindrance(rt, path) {
        Ok(Some(trouble)) => trouble,
        Ok(None) => {
            let error = DatabaseError::SqliteFailure(ErrorCode::CannotOpen);
            Trouble::perhaps(Fault::Device, cause_of_database(rt.alloc(), &error))
        }
        Err(error) => Trouble::of_error(rt.alloc(), &error, Fault::Device),
    }
}

/// The first of the files beside which a database lies that can't be opened, where a look finds one.
fn found_hindrance(rt: &HostRuntime, path: &str) -> io::Result<Option<Trouble>> {
    let Ok(real) = fs::canonicalize(rt, path) else {
        return match at_file(rt, path, false)? {
            Some(trouble) => Ok(Some(trouble)),
            None => lack_of_system(rt, path),
        };
    };
    let real = real.as_str();
    if let Some(trouble) = at_file(rt, real, false)? {
        return Ok(Some(trouble));
    }
    let journal = format!(in rt.alloc(); "{real}-journal")?;
    if fs::exists(rt, journal.as_str())? {
        return Ok(Some(Trouble::new(Fault::Device, Cause::Journal)));
    }
    let log = format!(in rt.alloc(); "{real}-wal")?;
    if let Some(trouble) = at_file(rt, log.as_str(), true)? {
        return Ok(Some(trouble));
    }
    lack_of_system(rt, real)
}

/// What the file system under a database lacks without which none is kept there: a folder that can be synced, and
/// locks.
fn lack_of_system(rt: &HostRuntime, path: &str) -> io::Result<Option<Trouble>> {
    let folder = File::open(rt, folder_of(path))?;
    let lack = if folder.sync_all().is_err() {
        "its folder can't be synced"
    } else if let Err(TryLockError::Error(_)) = folder.try_lock() {
        "its file system has no locks"
    } else {
        return Ok(None);
    };
    let text = String::from_str(rt.alloc(), lack)?;
    Ok(Some(Trouble::new(Fault::Device, Cause::Other(text))))
}

/// What keeps a file from being opened or made.
fn at_file(rt: &HostRuntime, path: &str, of_log: bool) -> io::Result<Option<Trouble>> {
    match cause_at(rt, path)? {
        Some(cause) => Ok(Some(Trouble {
            fault: Fault::Device,
            cause: Some(cause),
            of_log,
        })),
        None => Ok(None),
    }
}

fn cause_at(rt: &HostRuntime, path: &str) -> io::Result<Option<Cause>> {
    match fs::symlink_metadata(rt, path) {
        Ok(found) if !found.is_file() => Ok(Some(Cause::NotAFile)),
        Ok(found) if found.nlink() != 1 => Ok(Some(Cause::HardLink)),
        Ok(_) => Ok(cause_of_opening(rt, path)),
        Err(error) if error.kind() == ErrorKind::NotFound => cause_of_making(rt, path),
        Err(error) => Ok(cause_of_error(rt.alloc(), &error)),
    }
}

/// What keeps a file that is there from being opened.
fn cause_of_opening(rt: &HostRuntime, path: &str) -> Option<Cause> {
    match OpenOptions::new().read(true).write(true).open(rt, path) {
        Ok(_) => None,
        Err(error) => cause_of_error(rt.alloc(), &error),
    }
}

/// What keeps a file from being made. One of another name is tried, so that no other program finds this one and writes
/// to it.
fn cause_of_making(rt: &HostRuntime, path: &str) -> io::Result<Option<Cause>> {
    let other = format!(in rt.alloc(); "{path}.new")?;
    match OpenOptions::new()
        .write(true)
        .create_new(true)
        .open(rt, other.as_str())
    {
        Ok(_) => {
            fs::remove_file(rt, other.as_str())?;
            Ok(None)
        }
        Err(error) => Ok(cause_of_error(rt.alloc(), &error)),
    }
}

/// The first bytes of a file.
fn head(rt: &HostRuntime, path: &str) -> io::Result<[u8; 32]> {
    let mut head = [0; 32];
    File::open(rt, path)?.read_exact(&mut head)?;
    Ok(head)
}

/// Whether a file begins as a database.
pub(crate) fn begins_as_database(rt: &HostRuntime, path: &str) -> bool {
    match head(rt, path) {
        Ok(head) => head.as_slice().starts_with(MAGIC),
        Err(_) => false,
    }
}

/// Whether a database's file is shorter than the pages that its head counts.
pub(crate) fn is_cut(rt: &HostRuntime, path: &str) -> bool {
    match (head(rt, path), fs::metadata(rt, path)) {
        (Ok(head), Ok(found)) => found.len() < counted_bytes(&head),
        _ => false,
    }
}

/// How many bytes the head of a database counts: its pages, at byte 28, of the size at byte 16, where 1 stands for
/// 65,536.
fn counted_bytes(head: &[u8; 32]) -> u64 {
    let size = match u16::from_be_bytes([head[16], head[17]]) {
        1 => 65_536,
        size => size as u64,
    };
    let pages = u32::from_be_bytes([head[28], head[29], head[30], head[31]]);
    size.saturating_mul(pages as u64)
}
