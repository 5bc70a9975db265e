//! A site in files in memory of which one growth may be refused: `tests/hostile.sh` refuses each one in turn. Where a file has
//! no memory for what is written the test fails for want of it: that is a failure of the disk, which the tests of stops try.
use crate::disks::NONE;
use crate::sites::{Keeping, Site, begun, files_of, opened};
use crate::steps::{Outcome, shown, takes};
use crate::stops::Ended::{self, Stopped, Unmade, Whole, Wrong};
use crate::stops::keeping;
use std::alloc::AllocError;
use std::test::Fail;

/// The site takes an input, if need be the second time.
fn takes_again(keeping: &Keeping, site: &mut Site, number: u64) -> Outcome {
    match takes(keeping.alloc, site, number) {
        Outcome::NoMemory => takes(keeping.alloc, site, number),
        outcome => outcome,
    }
}

/// The site takes its inputs: a document, a start, a message of B, and the signal that ends its own recall.
fn takes_all(keeping: &Keeping, site: &mut Site) -> Outcome {
    for number in 0..4 {
        let outcome = takes_again(keeping, site, number);
        if outcome != Outcome::Done {
            return outcome;
        }
    }
    Outcome::Done
}

/// The site is opened from what was written, if need be the second time. Whether it shows then what it showed before.
fn shows_again(keeping: &Keeping, site: Site) -> Ended {
    let before = shown(&site);
    match opened(keeping, files_of(site)) {
        Ok(site) => {
            if shown(&site) == before {
                Whole
            } else {
                Wrong("a site that was opened again shows another record")
            }
        }
        Err(Some(_)) => Stopped,
        Err(None) => Wrong("a site isn't opened, and no disk failed"),
    }
}

/// The site takes its inputs, and is opened again.
fn goes_on(keeping: &Keeping, site: Site) -> Ended {
    let mut site = site;
    match takes_all(keeping, &mut site) {
        Outcome::Done => shows_again(keeping, site),
        Outcome::Failed => Stopped,
        Outcome::NoMemory => Wrong("a step that is made again fails"),
        Outcome::Other => Wrong("another answer than out of memory"),
    }
}

/// The site is made, if need be the second time, and goes on.
fn made(keeping: &Keeping) -> Ended {
    match begun(keeping, NONE) {
        Ok(site) => goes_on(keeping, site),
        _ => match begun(keeping, NONE) {
            Ok(site) => goes_on(keeping, site),
            _ => Unmade,
        },
    }
}

#[test]
fn a_site_in_files_goes_on_where_growth_is_refused(rt: HostRuntime) -> Result<(), Fail> {
    let keeping = keeping(&rt, 1000)?;
    match made(&keeping) {
        Whole => Ok(()),
        Wrong(what) => Err(what.into()),
        _ => Err(AllocError.into()),
    }
}
