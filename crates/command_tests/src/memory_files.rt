//! Files and sites in memory, over which the commands on files run.

use command_line::LimitsDocuments;
use keeper_core::{Keep, MemoryKeeper, SiteKeeper};
use recall_outcomes::{Failure, Fault};
use site_core::SiteState;
use site_folders::Files;
use std::alloc::{AllocError, Global};
use std::test::Fail;

/// An item x is made into y, which is shipped to B.
const MADE: &str =
    "{\"type\":\"EPCISDocument\",\"epcisBody\":{\"eventList\":[{\"type\":\"TransformationEvent\",\"eventTime\":\"2024-05-01T08:00:00Z\",\"eventTimeZoneOffset\":\"+00:00\",\"inputEPCList\":[\"x\"],\"outputEPCList\":[\"y\"]},{\"type\":\"ObjectEvent\",\"eventTime\":\"2024-05-01T08:00:00Z\",\"eventTimeZoneOffset\":\"+00:00\",\"action\":\"OBSERVE\",\"epcList\":[\"y\"],\"destinationList\":[{\"type\":\"location\",\"destination\":\"b\"},{\"type\":\"location\",\"destination\":\"z\"}]}]}}";

/// The site of a file, and its keeper while the file is closed.
#[derive(Drop)]
struct Kept {
    path: String,
    keeper: Option<MemoryKeeper>,
}

/// Files in memory.
#[derive(Drop)]
pub(crate) struct MemoryFiles {
    alloc: Global,
    texts: Vec<(String, Vec<u8>)>,
    /// How many lines of a text have been read.
    lines_read: usize,
    sites: Vec<Kept>,
}

impl MemoryFiles {
    fn text_at(&self, path: &str) -> Option<&Vec<u8>> {
        for (name, bytes) in &self.texts {
            if name.as_str() == path {
                return Some(bytes);
            }
        }
        None
    }

    fn site_at(&self, path: &str) -> Option<usize> {
        self.sites
            .iter()
            .position(|kept| kept.path.as_str() == path)
    }

    /// Makes the next step of the second site a failure of its device.
    pub(crate) fn arm_second(&mut self) {
        let Some(kept) = self.sites.get_mut(1) else {
            return;
        };
        if let Some(keeper) = &mut kept.keeper {
            keeper.arm(Keep::Old);
        }
    }
}

impl LimitsDocuments for MemoryFiles {
    ghost use Rattle.std.specs.Prelude.{⊤};

    ghost limits = { λ _ _ _. ⊤ };

    fn limit_to(&mut self, _: u64) {}

    fn limit_all_to(&mut self, _: u64) {}
}

impl Files<MemoryKeeper> for MemoryFiles {
    ghost use Rattle.std.specs.Prelude.{⊤};

    // The texts that the tests read say what the calls did.
    ghost does = { λ _ _ _. ⊤ };

    ghost waits = { λ _ _ _. ⊤ };

    ghost knows = { λ _ _ _. ⊤ };

    fn wait_for(&mut self, _: u64) {}

    fn read(&mut self, alloc: Global, path: &str) -> Result<Vec<u8>, Fault> {
        match self.text_at(path) {
            Some(bytes) => Ok(bytes.as_slice().to_vec(alloc)?),
            None => Err(Fault::Read),
        }
    }

    fn read_line(&mut self, alloc: Global, path: &str) -> Result<Option<Vec<u8>>, Fault> {
        let Some(bytes) = self.text_at(path) else {
            return Err(Fault::Read);
        };
        let mut lines = bytes.split(|byte| *byte == b'\n');
        match lines.nth(self.lines_read) {
            Some(line) => {
                let line = line.to_vec(alloc)?;
                self.lines_read += 1;
                Ok(Some(line))
            }
            None => {
                self.lines_read = 0;
                Ok(None)
            }
        }
    }

    fn exists(&mut self, path: &str) -> Result<bool, Fault> {
        Ok(self.text_at(path).is_some() || self.site_at(path).is_some())
    }

    fn create_site(&mut self, alloc: Global, path: &str, state: SiteState) -> Result<(), Fault> {
        let path = String::from_str(alloc, path)?;
        let keeper = Some(MemoryKeeper::new(state));
        Ok(self.sites.push(Kept { path, keeper })?)
    }

    fn open_site(&mut self, _: Global, path: &str, _: &str) -> Result<MemoryKeeper, Fault> {
        let Some(place) = self.site_at(path) else {
            return Err(Fault::NotAStore);
        };
        match self.sites.get_mut(place) {
            Some(kept) => kept.keeper.take().ok_or(Fault::Store),
            None => Err(Fault::Store),
        }
    }

    fn close_site(&mut self, keeper: MemoryKeeper) {
        let place = match keeper.view() {
            Some(state) => state.me().number() as usize,
            None => self.sites.len(),
        };
        if place < self.sites.len() {
            self.sites[place].keeper = Some(keeper);
        }
    }

    fn known_of(&self, alloc: Global, path: &str) -> Result<String, AllocError> {
        format!(in alloc; "known of {path}\n")
    }

    fn blame(&mut self, _: &str) {}

    fn failure(&self) -> Option<&Failure> {
        None
    }

    fn write_new(&mut self, path: &str, bytes: &[u8]) -> Result<(), Fault> {
        let path = String::from_str(self.alloc, path)?;
        let bytes = bytes.to_vec(self.alloc)?;
        Ok(self.texts.push((path, bytes))?)
    }
}

/// A list of two sites, one that is refused, documents of which one is none, and a list of items.
pub(crate) fn files(alloc: Global) -> Result<MemoryFiles, Fail> {
    let mut files = MemoryFiles {
        alloc,
        texts: Vec::new(alloc),
        lines_read: 0,
        sites: Vec::new(alloc),
    };
    files.write_new("list", b"# two sites\r\nsite A a\n\nsite B b".as_slice())?;
    files.write_new("bad", b"reach A x".as_slice())?;
    files.write_new("made", MADE.as_bytes())?;
    files.write_new("broken", b"{".as_slice())?;
    files.write_new("epcs", b"y \r\n\n\xff\n".as_slice())?;
    Ok(files)
}
