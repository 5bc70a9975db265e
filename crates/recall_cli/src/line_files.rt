//! Files that are read line by line.

use crate::whole_files::too_long;
use std::alloc::Global;
use std::fs::File;
use std::io::{self, BufRead, BufReader, Read, Stdin};

/// The path that stands for the standard input.
pub(crate) const INPUT: &str = "-";

/// A file whose lines are read one after another.
#[derive(Drop)]
pub(crate) struct LineFile {
    path: String,
    source: Source,
}

/// What lines are read from.
#[derive(Drop)]
enum Source {
    Input(BufReader<Stdin>),
    File(BufReader<File>),
}

impl LineFile {
    /// The file of this path, before its first line.
    pub(crate) fn open(runtime: &HostRuntime, path: &str) -> io::Result<LineFile> {
        let alloc = runtime.alloc();
        let source = if path == INPUT {
            Source::Input(BufReader::new(alloc, runtime.stdin())?)
        } else {
            Source::File(BufReader::new(alloc, File::open(runtime, path)?)?)
        };
        Ok(LineFile {
            path: String::from_str(alloc, path)?,
            source,
        })
    }

    /// Whether it is the file of this path.
    pub(crate) fn is_of(&self, path: &str) -> bool {
        self.path.as_str() == path
    }

    /// The next line, without its LF, or `None` at the end of the file. A line has at most so many bytes, as a document,
    /// its LF not counted.
    pub(crate) fn next_line(&mut self, alloc: Global, most: u64) -> io::Result<Option<Vec<u8>>> {
        let mut line = Vec::new(alloc);
        let with_end = most.saturating_add(1);
        let count = match &mut self.source {
            Source::Input(reader) => {
                reader.by_ref().take(with_end).read_until(b'\n', &mut line)?
            }
            Source::File(reader) => { reader.by_ref().take(with_end).read_until(b'\n', &mut line)? }
        };
        if count == 0 {
            return Ok(None);
        }
        if count as u64 == with_end && line.last() != Some(&b'\n') {
            return Err(too_long(alloc, most));
        }
        if line.last() == Some(&b'\n') {
            line.pop();
        }
        Ok(Some(line))
    }
}
