//! The files of the machine.

ghost use Rattle.std.specs.Prelude.{IfOk};
ghost use Rattle.site_store.specs.Leavings.{KeepsOwn};
ghost use Rattle.site_store.specs.Opened.{IsFound};
ghost use Rattle.site_store.specs.Sites.{IsKeptBy};
ghost use Rattle.recall_cli.specs.HostCalls.{WasOpened};

use crate::causes::{Trouble, failure_of};
use crate::line_files::LineFile;
use crate::stores::{
    FileConnection, FileSite, cause_of_step, close, close_connection, unfound, unmade, unopened,
};
use crate::whole_files;
use command_line::LimitsDocuments;
use keeper_core::SiteKeeper;
use outcome_forms::failure_line;
use recall_outcomes::{Cause, Failure, Fault};
use site_core::SiteState;
use site_folders::Files;
use site_store::StoredSite;
use sqlite::{Connection, Options, Wary};
use sqlite_disk::Tally;
use std::alloc::{AllocError, Global};
use std::collections::VecDeque;
use std::hash::{BuildHasher, RandomState};
use std::io::{self, Error};
use std::time::Duration;
use std::{fs, thread};

/// The files of the machine on which the program runs.
pub(crate) struct HostFiles<'a> {
    runtime: &'a HostRuntime,
    /// The keys of the hash by which sites number items.
    keys: RandomState,
    /// For how many seconds a site's file is waited for that is in use.
    seconds: u64,
    /// How many bytes a document, or a line of a file of lines, has at most.
    most: u64,
    /// Whether the command has read its list of sites, which it reads before any other file.
    has_list: bool,
    /// The file of which lines are read, until its end.
    lines: Option<LineFile>,
    /// The paths of the sites that are open, in the order in which they were opened, in which they are closed, too.
    opened: VecDeque<String>,
    /// The last file of which a call failed.
    failure: Option<Failure>,
    /// The files of sites whose devices failed and that were open again when they were closed, in that order.
    met: Vec<Failure>,
}

// It is written out, so that a caller does not prove again how each part is dropped.
impl Drop for HostFiles<'_> {
    fn drop(self) {
        let HostFiles {
            runtime: _,
            keys: _,
            seconds: _,
            most: _,
            has_list: _,
            lines: _,
            opened: _,
            failure: _,
            met: _,
        } = self;
    }
}

impl<'a> HostFiles<'a> {
    /// The files that a runtime gives, with the keys of the hash by which sites number items.
    pub(crate) fn new(runtime: &'a HostRuntime, keys: RandomState) -> HostFiles<'a> {
        HostFiles {
            runtime,
            keys,
            seconds: 0,
            most: whole_files::LONGEST,
            has_list: false,
            lines: None,
            opened: VecDeque::new(runtime.alloc()),
            failure: None,
            met: Vec::new(runtime.alloc()),
        }
    }

    /// Keeps the path of a file that a fault is about, and what is known of it.
    fn keep(&mut self, path: &str, of_log: bool, cause: Option<Cause>) {
        self.failure = failure_of(self.runtime.alloc(), path, of_log, cause).ok();
    }

    /// Keeps the path of a file of which a call failed, and returns the fault.
    fn note(&mut self, path: &str, trouble: Trouble) -> Fault {
        let (fault, cause, of_log) = trouble.parts();
        self.keep(path, of_log, cause);
        fault
    }

    /// Keeps what the failures of a site's file were that is open again, if there is memory for it.
    fn meet(&mut self, path: String, failures: u64, tally: Tally) {
        if failures == 0 {
            return;
        }
        let alloc = self.runtime.alloc();
        let cause = cause_of_step(alloc, failures, tally);
        if let Ok(failure) = failure_of(alloc, path.as_str(), false, cause) {
            let _ = self.met.push(failure);
        }
    }

    /// The bytes of a file, or of the standard input to its end. The first file that a command reads whole is its list
    /// of sites, and all others are documents.
    fn bytes(&mut self, path: &str) -> Result<Vec<u8>, Trouble> {
        if self.has_list {
            return whole_files::read_document(self.runtime, path, self.most);
        }
        self.has_list = true;
        whole_files::read_list(self.runtime, path)
    }

    /// Makes a file of these bytes, whole or not at all, where there is none: it is written under another name, which
    /// is `.new` behind its own, and synced; then it gets its name, and its folder is synced. After a crash the other
    /// name may be left over, which the next call takes away.
    fn make_whole(&mut self, path: &str, bytes: &[u8]) -> Result<(), Fault> {
        let alloc = self.runtime.alloc();
        let Ok(new_path) = format!(in alloc; "{path}.new") else {
            return Err(Fault::NoMemory);
        };
        let folder = match whole_files::hold_folder(self.runtime, path) {
            Ok(folder) => folder,
            Err(error) => return Err(self.note_unwritten(path, &error)),
        };
        if let Err(trouble) = whole_files::write_beside(self.runtime, new_path.as_str(), bytes) {
            return Err(self.note(new_path.as_str(), trouble));
        }
        match whole_files::put_in_place(self.runtime, &folder, new_path.as_str(), path) {
            Ok(()) => Ok(()),
            Err(error) => Err(self.note_unwritten(path, &error)),
        }
    }

    /// Keeps the path of a file that couldn't be written, and returns the fault.
    fn note_unwritten(&mut self, path: &str, error: &Error) -> Fault {
        self.note(
            path,
            Trouble::of_error(self.runtime.alloc(), error, Fault::Write),
        )
    }

    /// The next line of a file, which is opened where its lines aren't being read.
    fn next_line(&mut self, alloc: Global, path: &str) -> io::Result<Option<Vec<u8>>> {
        let mut file = match self.lines.take() {
            Some(file) if file.is_of(path) => file,
            _ => LineFile::open(self.runtime, path)?,
        };
        let line = file.next_line(alloc, self.most)?;
        if line.is_some() {
            self.lines = Some(file);
        }
        Ok(line)
    }

    /// Opens a database, and makes it where there is no file or an empty one. One that is in use is tried again, ten
    /// times a second, for as long as is waited for.
    fn connect(&self, path: &str) -> Result<FileConnection, Trouble>
        ensures { IfOk result (λ conn. IsFound conn) }
    {
        for _ in 0..self.seconds.saturating_mul(10) {
            match self.try_to_connect(path) {
                Ok(conn) => return Ok(conn),
                Err(trouble) => {
                    if !trouble.is_in_use() {
                        return Err(trouble);
                    }
                }
            }
            thread::sleep(self.runtime, Duration::from_millis(100));
        }
        self.try_to_connect(path)
    }

    /// Opens a database once, and makes it where there is no file or an empty one. Each page of a file that is made ends
    /// in a sum, which is kept from then on and tested whenever the file is opened; one that was made without goes on so.
    fn try_to_connect(&self, path: &str) -> Result<FileConnection, Trouble>
        ensures { IfOk result (λ conn. IsFound conn) }
    {
        match Connection::open_from(self.runtime, path, true, Wary) {
            Ok(conn) => Ok(conn),
            Err((error, left)) => {
                if let Some(left) = left {
                    drop(left.into_files());
                }
                Err(unopened(self.runtime, path, &error))
            }
        }
    }

    /// The options with which a database is opened again, with a seed drawn at random.
    fn options(&self) -> Result<Options, Trouble> {
        match RandomState::new(self.runtime) {
            Ok(state) => Ok(Options::new(state.hash_one(&0u8))),
            Err(error) => Err(Trouble::of_error(self.runtime.alloc(), &error, Fault::Device)),
        }
    }

    /// Whether there is a file.
    fn finds(&self, path: &str) -> Result<bool, Trouble> {
        match fs::exists(self.runtime, path) {
            Ok(exists) => Ok(exists),
            Err(error) => Err(Trouble::of_error(self.runtime.alloc(), &error, Fault::Read)),
        }
    }

    /// Makes the file of a site.
    fn make(&self, alloc: Global, path: &str, state: SiteState) -> Result<FileSite, Trouble>
        ensures { IfOk result (λ site. IsKeptBy site state) }
    {
        let options = self.options()?;
        let conn = self.connect(path)?;
        match StoredSite::create(alloc, conn, options, state) {
            Ok(site) => Ok(site),
            Err(left) => Err(unmade(alloc, left.fault, close_connection(left.conn))),
        }
    }

    /// Opens the file of a site of this name, on which a crash leaves the record that is shown.
    fn open(&self, alloc: Global, path: &str, name: &str) -> Result<FileSite, Trouble>
        ensures own { IfOk result (λ site. KeepsOwn site) }
        ensures opened { IfOk result (λ site. WasOpened name.now site) }
    {
        // Connecting would make a file.
        if !self.finds(path)? {
            return Err(Trouble::new(Fault::Read, Cause::Missing));
        }
        let options = self.options()?;
        let conn = self.connect(path)?;
        match site_store::open_site(alloc, self.keys, conn, options, name) {
            Ok(site) => Ok(site),
            Err(left) => Err(unfound(alloc, left)),
        }
    }

    /// Opens the file of a site of this name, and keeps its path.
    fn keep_open(&mut self, alloc: Global, path: &str, name: &str) -> Result<FileSite, Trouble>
        ensures own { IfOk result (λ site. KeepsOwn site) }
        ensures opened { IfOk result (λ site. WasOpened name.now site) }
    {
        let Ok(kept) = String::from_str(alloc, path) else {
            return Err(Trouble::bare(Fault::NoMemory));
        };
        if self.opened.push_back(kept).is_err() {
            return Err(Trouble::bare(Fault::NoMemory));
        }
        match self.open(alloc, path, name) {
            Ok(site) => Ok(site),
            Err(trouble) => {
                self.opened.pop_back();
                Err(trouble)
            }
        }
    }
}

impl LimitsDocuments for HostFiles<'_> {
    ghost use Rattle.std.specs.Prelude.{⊤};

    ghost limits = { λ _ _ _. ⊤ };

    fn limit_to(&mut self, bytes: u64) {
        self.most = bytes;
    }

    fn limit_all_to(&mut self, bytes: u64) {
        self.most = bytes;
        self.has_list = true;
    }
}

impl Files<FileSite> for HostFiles<'_> {
    ghost use Rattle.std.specs.Prelude.{⊤};
    ghost use Rattle.recall_cli.specs.HostCalls.{Knows};

    // What stands behind a path no contract can say.
    ghost does = { λ _ call _. Knows call };

    ghost knows = { λ _ _ _. ⊤ };

    ghost waits = { λ _ _ _. ⊤ };

    fn wait_for(&mut self, seconds: u64) {
        self.seconds = seconds;
    }

    fn read(&mut self, _: Global, path: &str) -> Result<Vec<u8>, Fault> {
        match self.bytes(path) {
            Ok(bytes) => Ok(bytes),
            Err(trouble) => Err(self.note(path, trouble)),
        }
    }

    fn read_line(&mut self, alloc: Global, path: &str) -> Result<Option<Vec<u8>>, Fault> {
        match self.next_line(alloc, path) {
            Ok(line) => Ok(line),
            Err(error) => Err(self.note(
                path,
                Trouble::of_error(self.runtime.alloc(), &error, Fault::Read),
            )),
        }
    }

    fn exists(&mut self, path: &str) -> Result<bool, Fault> {
        match self.finds(path) {
            Ok(exists) => Ok(exists),
            Err(trouble) => Err(self.note(path, trouble)),
        }
    }

    fn create_site(&mut self, alloc: Global, path: &str, state: SiteState) -> Result<(), Fault> {
        match self.make(alloc, path, state) {
            Ok(site) => {
                close(site);
                Ok(())
            }
            Err(trouble) => Err(self.note(path, trouble)),
        }
    }

    fn open_site(&mut self, alloc: Global, path: &str, name: &str) -> Result<FileSite, Fault> {
        match self.keep_open(alloc, path, name) {
            Ok(site) => Ok(site),
            Err(trouble) => Err(self.note(path, trouble)),
        }
    }

    // A site that a step left closed is what the command's fault is about.
    fn close_site(&mut self, keeper: FileSite) {
        let path = self.opened.pop_front();
        let is_open = keeper.view().is_some();
        let failures = keeper.failures();
        let tally = close(keeper);
        let Some(path) = path else {
            return;
        };
        if is_open {
            self.meet(path, failures, tally);
        } else if self.failure.is_none() {
            let cause = cause_of_step(self.runtime.alloc(), failures, tally);
            self.keep(path.as_str(), false, cause);
        }
    }

    fn known_of(&self, alloc: Global, path: &str) -> Result<String, AllocError> {
        match self
            .met
            .iter()
            .find(|failure| failure.file.as_str() == path)
        {
            Some(failure) => failure_line(alloc, failure),
            None => Ok(String::new(alloc)),
        }
    }

    fn write_new(&mut self, path: &str, bytes: &[u8]) -> Result<(), Fault> {
        self.make_whole(path, bytes)
    }

    // The last file of which a call failed, where there was memory to keep what is known of it.
    fn failure(&self) -> Option<&Failure> {
        self.failure.as_ref()
    }

    fn blame(&mut self, path: &str) {
        self.keep(path, false, None);
    }
}
