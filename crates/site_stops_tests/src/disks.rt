//! Files in memory that pass so many calls and then fail, and what the next process finds of them.
use crate::weak::Weak;
use sqlite::Files;
use sqlite_disk::{Crash, Disk, Memory};
use std::alloc::Global;

/// A file in memory that fails after so many calls.
pub type Frail = Weak<Memory>;

/// Where a disk fails.
#[derive(Clone, Copy)]
pub struct Blow {
    /// Which of the two files: 0 the log, 1 the database. Another number is none.
    pub file: u64,
    /// After so many of its calls.
    pub calls: u64,
    /// So many of the calls that follow fail.
    pub fails: u64,
}

/// A disk fails for good.
pub const FOR_GOOD: u64 = u64::MAX;

/// No disk fails.
pub const NONE: Blow = Blow {
    file: 2,
    calls: 0,
    fails: 0,
};

/// A file on the disk that fails or on another one.
fn on_disk(memory: Memory, blow: Blow, file: u64) -> Frail {
    let fails = if blow.file == file { blow.fails } else { 0 };
    Weak::new(memory, blow.calls, fails)
}

/// A log and a database.
fn both(log: Memory, db: Memory, blow: Blow) -> Files<Frail> {
    Files {
        log: on_disk(log, blow, 0),
        db: on_disk(db, blow, 1),
    }
}

/// Empty files.
pub fn empty(alloc: Global, blow: Blow) -> Files<Frail> {
    both(Memory::new(alloc), Memory::new(alloc), blow)
}

/// A file of the bytes of this one.
fn copy(alloc: Global, file: &Frail) -> Memory {
    let mut memory = Memory::new(alloc);
    let _ = memory.write_at(0, file.inner().bytes());
    let _ = memory.sync();
    memory
}

/// Files with the bytes of these, as if a process had written and synced them.
pub fn copies(alloc: Global, files: &Files<Frail>, blow: Blow) -> Files<Frail> {
    both(copy(alloc, &files.log), copy(alloc, &files.db), blow)
}

/// What the next process finds where this one ended: all that was written. It fails no more.
pub fn written(alloc: Global, files: &Files<Frail>) -> Files<Frail> {
    copies(alloc, files, NONE)
}

/// What the next process finds where the machine stopped: what was synced. It fails no more.
pub fn synced(alloc: Global, files: Files<Frail>) -> Files<Frail> {
    let mut files = files;
    files.log.crash();
    files.db.crash();
    copies(alloc, &files, NONE)
}

/// The synced database beside an empty log, which is all there is of a site that was closed.
pub fn without_log(alloc: Global, files: Files<Frail>) -> Files<Frail> {
    let mut files = files;
    files.db.crash();
    both(Memory::new(alloc), copy(alloc, &files.db), NONE)
}
