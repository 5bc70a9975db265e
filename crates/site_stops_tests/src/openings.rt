//! That an opening which fails at any call of a disk, and a closing behind one, leave the record as it was: of files that
//! weren't closed, and of what a failed step left. Files of the first version are tried by `tests/calls.sh`.
use crate::disks::{Blow, FOR_GOOD, Frail, NONE, copies, synced, without_log, written};
use crate::sites::{Keeping, Site, begun, files_of, opened};
use crate::steps::{Sizes, WITH_OPENINGS, shown, steps_done};
use crate::stops::Ended::{self, Spoilt, Stopped, Unclosed, Unmade, Whole, Wrong};
use crate::stops::keeping;
use sqlite::Files;
use std::test::Fail;

/// Whether the site is in these files, and shows this.
fn shows(keeping: &Keeping, files: Files<Frail>, record: Sizes) -> bool {
    match opened(keeping, files) {
        Ok(site) => shown(&site) == Some(record),
        _ => false,
    }
}

/// Whether what a failure left shows this: all that was written, and what was synced.
fn is_kept(keeping: &Keeping, files: Files<Frail>, record: Sizes) -> bool {
    shows(keeping, written(keeping.alloc, &files), record)
        && shows(keeping, synced(keeping.alloc, files), record)
}

/// A site is closed. Then its database alone shows what the site showed, and where a disk failed both files do.
fn closes(keeping: &Keeping, site: Site, record: Sizes) -> Ended {
    let (is_right, ended) = match site.close() {
        Ok(files) => (
            shows(keeping, without_log(keeping.alloc, files), record),
            Whole,
        ),
        Err(files) => (is_kept(keeping, files, record), Unclosed),
    };
    if is_right {
        ended
    } else {
        Wrong("a closing changed the record, or a closed site needs its log")
    }
}

/// A site is opened and closed. Where a disk fails, what is left shows what the site showed.
fn opens_and_closes(keeping: &Keeping, files: Files<Frail>, record: Sizes) -> Ended {
    match opened(keeping, files) {
        Ok(site) => closes(keeping, site, record),
        Err(Some(files)) => {
            if is_kept(keeping, files, record) {
                Stopped
            } else {
                Wrong("an opening changed the record")
            }
        }
        Err(None) => Wrong("a site isn't opened, and no disk failed"),
    }
}

/// Whether a disk that fails at each call of one of these files, from the first one on until neither the opening nor
/// the closing fails, changes nothing, and openings and closings failed.
fn each_failure(keeping: &Keeping, files: &Files<Frail>, record: Sizes, file: u64) -> Ended {
    let mut openings: u64 = 0;
    let mut closings: u64 = 0;
    for calls in 0..5_000 {
        let blow = Blow {
            file,
            calls,
            fails: FOR_GOOD,
        };
        match opens_and_closes(keeping, copies(keeping.alloc, files, blow), record) {
            Stopped => openings = openings.saturating_add(1),
            Unclosed => closings = closings.saturating_add(1),
            Whole if openings > 0 && closings > 0 => return Whole,
            Wrong(what) => return Wrong(what),
            Whole | Unmade | Spoilt => return Wrong("no opening or no closing failed"),
        }
    }
    Wrong("each opening or closing failed")
}

/// Likewise, of each of both files, of which this is what the site shows that is opened from all that was written.
fn each_failure_of_both(keeping: &Keeping, files: &Files<Frail>) -> Ended {
    let record = match opened(keeping, written(keeping.alloc, files)) {
        Ok(site) => shown(&site),
        _ => None,
    };
    match record {
        Some(record) => match each_failure(keeping, files, record, 0) {
            Whole => each_failure(keeping, files, record, 1),
            ended => ended,
        },
        None => Wrong("a site isn't opened, and no disk failed"),
    }
}

/// What is left of a site after a recall, of whose disks one may fail; none where the disk failed before.
fn left(keeping: &Keeping, blow: Blow) -> (Option<Site>, usize) {
    match begun(keeping, blow) {
        Ok(site) => {
            let (site, done, _) = steps_done(keeping.alloc, site, &WITH_OPENINGS);
            (Some(site), done)
        }
        _ => (None, 0),
    }
}

/// Of files after a recall.
fn after_recall(keeping: &Keeping) -> Ended {
    match left(keeping, NONE) {
        (Some(site), _) => each_failure_of_both(keeping, &files_of(site)),
        (None, _) => Wrong("no disk failed, and there is no site"),
    }
}

/// Of what the last step of a recall left, for each call at which its log failed; and whether there was one.
fn after_failed_steps(keeping: &Keeping) -> Ended {
    let mut steps: u64 = 0;
    for calls in 0..5_000 {
        let blow = Blow {
            file: 0,
            calls,
            fails: FOR_GOOD,
        };
        let (site, done) = left(keeping, blow);
        if done == WITH_OPENINGS.len() {
            return if steps > 0 {
                Whole
            } else {
                Wrong("no last step failed")
            };
        }
        if done.saturating_add(1) == WITH_OPENINGS.len() {
            if let Some(site) = site {
                match each_failure_of_both(keeping, &files_of(site)) {
                    Whole => steps = steps.saturating_add(1),
                    ended => return ended,
                }
            }
        }
    }
    Wrong("a step failed in each run")
}

/// A failure where something wasn't as it should be.
fn is_whole(ended: Ended) -> Result<bool, Fail> {
    match ended {
        Whole => Ok(true),
        Wrong(what) => Err(what.into()),
        _ => Ok(false),
    }
}

#[test]
fn an_opening_or_closing_that_fails_changes_nothing(rt: HostRuntime) -> Result<(), Fail> {
    assert!(rt; is_whole(after_recall(&keeping(&rt, 1)?))?);
    assert!(rt; is_whole(after_recall(&keeping(&rt, 1000)?))?);
    Ok(())
}

#[test]
fn an_opening_of_what_a_failed_step_left_changes_nothing(rt: HostRuntime) -> Result<(), Fail> {
    assert!(rt; is_whole(after_failed_steps(&keeping(&rt, 1000)?))?);
    Ok(())
}
