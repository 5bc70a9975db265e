//! Files that are read whole, up to a greatest length, and the file that is made whole.

use crate::causes::Trouble;
use crate::line_files::INPUT;
use recall_outcomes::{Cause, Fault};
use std::alloc::Global;
use std::fs::{self, File, TryLockError};
use std::io::{self, Error, ErrorKind, Read, Write};

/// How many bytes a document, or a line of a file of lines, has at most, whatever a command is told: 1 GiB.
pub(crate) const LONGEST: u64 = 1 << 30;

/// How many bytes a MiB is.
const MEBIBYTE: u64 = 1 << 20;

/// How many bytes a list of sites has at most.
const LONGEST_LIST: u64 = MEBIBYTE;

/// The error of a document, a line or a list of sites that is longer than so many bytes.
pub(crate) fn too_long(alloc: Global, most: u64) -> Error {
    let told = if most % MEBIBYTE == 0 {
        let count = most / MEBIBYTE;
        format!(in alloc; "longer than {count} MiB")
    } else {
        format!(in alloc; "longer than {most} bytes")
    };
    match told {
        Ok(told) => Error::new(ErrorKind::FileTooLarge, told.as_str()),
        Err(_) => Error::from(ErrorKind::OutOfMemory),
    }
}

/// A list of sites, which is a regular file or the standard input. Anything else might have no end.
pub(crate) fn read_list(runtime: &HostRuntime, path: &str) -> Result<Vec<u8>, Trouble> {
    let alloc = runtime.alloc();
    if path == INPUT {
        return told(alloc, read_at_most(alloc, runtime.stdin(), LONGEST_LIST));
    }
    match fs::metadata(runtime, path) {
        Ok(found) if !found.is_file() => Err(Trouble::new(Fault::Read, Cause::NotAFile)),
        Ok(_) => told(alloc, read_file(runtime, path, LONGEST_LIST)),
        Err(error) => Err(Trouble::of_error(alloc, &error, Fault::Read)),
    }
}

/// A document of at most so many bytes, which may also come from a pipe, and is read to its end.
pub(crate) fn read_document(
    runtime: &HostRuntime,
    path: &str,
    most: u64,
) -> Result<Vec<u8>, Trouble> {
    let alloc = runtime.alloc();
    if path == INPUT {
        return told(alloc, read_at_most(alloc, runtime.stdin(), most));
    }
    told(alloc, read_file(runtime, path, most))
}

fn told(alloc: Global, bytes: io::Result<Vec<u8>>) -> Result<Vec<u8>, Trouble> {
    match bytes {
        Ok(bytes) => Ok(bytes),
        Err(error) => Err(Trouble::of_error(alloc, &error, Fault::Read)),
    }
}

/// The bytes of a file. One that says that it is longer isn't read.
fn read_file(runtime: &HostRuntime, path: &str, most: u64) -> io::Result<Vec<u8>> {
    let alloc = runtime.alloc();
    let file = File::open(runtime, path)?;
    let found = file.metadata()?;
    if found.is_file() && found.len() > most {
        return Err(too_long(alloc, most));
    }
    read_at_most(alloc, file, most)
}

/// What is read to its end, of which no more than a byte too many is kept.
fn read_at_most<R: Read + Drop>(alloc: Global, source: R, most: u64) -> io::Result<Vec<u8>> {
    let mut bytes = Vec::new(alloc);
    source.take(most.saturating_add(1)).read_to_end(&mut bytes)?;
    if bytes.len() as u64 > most {
        return Err(too_long(alloc, most));
    }
    Ok(bytes)
}

/// The folder that a path leads into, which no other call of this holds: two programs that make one file at once would
/// write over what the other one is about to put in its place.
pub(crate) fn hold_folder(runtime: &HostRuntime, path: &str) -> io::Result<File> {
    let folder = File::open(runtime, folder_of(path))?;
    match folder.try_lock() {
        Ok(()) => Ok(folder),
        Err(TryLockError::WouldBlock) => Err(Error::from(ErrorKind::AlreadyExists)),
        Err(TryLockError::Error(error)) => Err(error),
    }
}

/// Makes a file of these bytes and syncs it. One that a crash left there is taken away first; another thing of that
/// name, as a link or a pipe, stays, and is refused.
pub(crate) fn write_beside(runtime: &HostRuntime, path: &str, bytes: &[u8]) -> Result<(), Trouble> {
    match fs::symlink_metadata(runtime, path) {
        Ok(found) if !found.is_file() => {
            return Err(Trouble::new(Fault::Write, Cause::NotAFile));
        }
        _ => {}
    }
    match write_anew(runtime, path, bytes) {
        Ok(()) => Ok(()),
        Err(error) => Err(Trouble::of_error(runtime.alloc(), &error, Fault::Write)),
    }
}

fn write_anew(runtime: &HostRuntime, path: &str, bytes: &[u8]) -> io::Result<()> {
    match fs::remove_file(runtime, path) {
        Ok(()) => {}
        Err(error) if error.kind() == ErrorKind::NotFound => {}
        Err(error) => return Err(error),
    }
    let mut file = File::create_new(runtime, path)?;
    file.write_all(bytes)?;
    file.sync_all()
}

/// Gives a file that was written and synced its name, in the place of none, and syncs its folder.
pub(crate) fn put_in_place(
    runtime: &HostRuntime,
    folder: &File,
    new_path: &str,
    path: &str,
) -> io::Result<()> {
    let linked = fs::hard_link(runtime, new_path, path);
    let removed = fs::remove_file(runtime, new_path);
    linked?;
    removed?;
    folder.sync_all()
}

/// The folder that a path leads into.
pub(crate) fn folder_of(path: &str) -> &str {
    match path.rsplit_once('/') {
        Some((folder, _)) if !folder.is_empty() => folder,
        Some(_) => "/",
        None => ".",
    }
}
