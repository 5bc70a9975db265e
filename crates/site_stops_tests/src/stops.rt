//! That a disk which fails at any call of a recall's steps leaves the record before the step or the one after it, from
//! which the recall ends; also at a site that goes on where its disk is well again.
use crate::disks::{Blow, FOR_GOOD, Frail, synced, written};
use crate::sites::{Keeping, Site, begun, files_of, opened};
use crate::steps::{
    Outcome, Sizes, Step, WITH_OPENINGS, WITH_STOPS, all_ended, goes_on, is_old_or_new, records,
    reopens, shown, steps_done,
};
use keeper_core::SiteKeeper;
use sqlite::Files;
use std::hash::RandomState;
use std::test::Fail;

/// How a run ended.
#[derive(Clone, Copy)]
pub enum Ended {
    /// The disk failed before there was a site.
    Unmade,
    /// A step or an opening failed, and all was as it should be.
    Stopped,
    /// A closing failed, and all was as it should be.
    Unclosed,
    /// A step failed in a sync, and the files aren't used any more.
    Spoilt,
    /// None failed.
    Whole,
    /// Something wasn't as it should be.
    Wrong(&'static str),
}

use Ended::{Spoilt, Stopped, Unclosed, Unmade, Whole, Wrong};

/// Steps, and what a site in memory has before each and after the last.
#[derive(Clone, Copy)]
struct Played<'a> {
    steps: &'a [Step],
    records: &'a [Sizes],
}

/// What is found in a site that is open, where so many steps were done.
fn look(keeping: &Keeping, site: &mut Site, played: &Played, done: usize) -> Ended {
    match shown(site) {
        Some(now) => {
            if !is_old_or_new(now, played.records, played.steps, done) {
                return Wrong("a third record");
            }
        }
        None => return Wrong("the site is closed"),
    }
    goes_on(keeping.alloc, site, played.steps, done);
    if all_ended(site) {
        Stopped
    } else {
        Wrong("a recall doesn't end")
    }
}

/// What is found in files.
fn look_in(keeping: &Keeping, files: Files<Frail>, played: &Played, done: usize) -> Ended {
    match opened(keeping, files) {
        Ok(mut site) => look(keeping, &mut site, played, done),
        _ => Wrong("what is left can't be opened"),
    }
}

/// What is found where the process ended, and where the machine stopped.
fn look_at(keeping: &Keeping, files: Files<Frail>, played: &Played, done: usize) -> Ended {
    match look_in(keeping, written(keeping.alloc, &files), played, done) {
        Stopped => look_in(keeping, synced(keeping.alloc, files), played, done),
        ended => ended,
    }
}

/// The site wasn't opened on a disk that is well again: right where its files aren't to be used, since a sync failed.
fn is_spoilt(files: &Files<Frail>) -> Ended {
    if files.may_be_used() {
        Wrong("the site isn't opened on a disk that is well again")
    } else {
        Spoilt
    }
}

/// The site is opened again in which a step failed.
fn after_failure(keeping: &Keeping, site: Site, fails: u64, played: &Played, done: usize) -> Ended {
    let (mut site, outcome) = reopens(site);
    if site.failures() == 0 {
        return Wrong("a failure isn't counted");
    }
    match (outcome, fails) {
        (Outcome::Failed, FOR_GOOD) => look_at(keeping, files_of(site), played, done),
        (_, FOR_GOOD) => Wrong("the site was opened on a disk that fails"),
        (Outcome::Done, _) => look(keeping, &mut site, played, done),
        _ => is_spoilt(&files_of(site)),
    }
}

/// The steps at a site, of whose disks one may fail.
fn play(keeping: &Keeping, site: Site, fails: u64, played: &Played) -> Ended {
    let (site, done, outcome) = steps_done(keeping.alloc, site, played.steps);
    match outcome {
        Outcome::Done => Whole,
        Outcome::Failed => after_failure(keeping, site, fails, played, done),
        _ => Wrong("another answer than a failure of the device"),
    }
}

/// A run in which a disk fails so.
fn run(keeping: &Keeping, blow: Blow, played: &Played) -> Ended {
    match begun(keeping, blow) {
        Ok(site) => play(keeping, site, blow.fails, played),
        Err(Some(_)) => Unmade,
        Err(None) => Wrong("the site isn't made, and no disk failed"),
    }
}

/// Of so many failing calls of a file, from the first call on until none fails: at how many the site went on.
fn each_stop(keeping: &Keeping, file: u64, fails: u64, played: &Played) -> Result<u64, Fail> {
    let mut gone_on: u64 = 0;
    for calls in 0..5_000 {
        match run(keeping, Blow { file, calls, fails }, played) {
            Stopped => gone_on = gone_on.saturating_add(1),
            Whole => return Ok(gone_on),
            Wrong(what) => return Err(what.into()),
            Unmade | Spoilt | Unclosed => {}
        }
    }
    Err("a step failed in each run".into())
}

/// How a site is kept whose log grows to so many frames.
pub fn keeping(rt: &HostRuntime, frames: usize) -> Result<Keeping, Fail> {
    Ok(Keeping {
        alloc: rt.alloc(),
        keys: RandomState::new(rt)?,
        frames,
    })
}

/// Whether a step failed at some call of a file.
fn stop(keeping: &Keeping, steps: &[Step], file: u64, fails: u64) -> Result<bool, Fail> {
    match records(keeping, steps) {
        Some(records) => {
            let played = Played {
                steps,
                records: &records,
            };
            Ok(each_stop(keeping, file, fails, &played)? > 0)
        }
        None => Err("out of memory".into()),
    }
}

/// Each step copies the log of the step before it into the database, and so writes both files.
#[test]
fn a_stop_leaves_the_old_or_the_new(rt: HostRuntime) -> Result<(), Fail> {
    let keeping = keeping(&rt, 1)?;
    assert!(rt; stop(&keeping, &WITH_OPENINGS, 0, FOR_GOOD)?);
    assert!(rt; stop(&keeping, &WITH_OPENINGS, 1, FOR_GOOD)?);
    Ok(())
}

/// A log of a thousand frames holds all of the recall.
#[test]
fn a_stop_in_a_long_log_leaves_the_old_or_the_new(rt: HostRuntime) -> Result<(), Fail> {
    assert!(rt; stop(&keeping(&rt, 1000)?, &WITH_OPENINGS, 0, FOR_GOOD)?);
    Ok(())
}

/// The site stops in a step whose record is to be kept.
#[test]
fn a_stop_that_keeps_its_step_leaves_the_old_or_the_new(rt: HostRuntime) -> Result<(), Fail> {
    let keeping = keeping(&rt, 1)?;
    assert!(rt; stop(&keeping, &WITH_STOPS, 0, FOR_GOOD)?);
    assert!(rt; stop(&keeping, &WITH_STOPS, 1, FOR_GOOD)?);
    Ok(())
}

/// One call fails, and the site is opened again on its disk.
#[test]
fn a_disk_that_is_well_again_is_gone_on_with(rt: HostRuntime) -> Result<(), Fail> {
    let keeping = keeping(&rt, 1)?;
    assert!(rt; stop(&keeping, &WITH_OPENINGS, 0, 1)?);
    assert!(rt; stop(&keeping, &WITH_OPENINGS, 1, 1)?);
    Ok(())
}
