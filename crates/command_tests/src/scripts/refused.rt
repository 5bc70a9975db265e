//! A script of which one growth may be refused: `tests/hostile.sh` refuses each one in turn.

use crate::scripts::faults::{Full, Pieces};
use script_core::{ScriptFault, Tally, run_script};
use std::alloc::{AllocError, Global};
use std::hash::RandomState;
use std::test::Fail;

/// x was shipped from A to B, A starts a recall of it, and B stops before the message comes.
const SCRIPT: &str =
    "site A a\nsite B b\ncapture A {\"type\":\"ObjectEvent\",\"eventTime\":\"2024-05-01T08:00:00Z\",\"eventTimeZoneOffset\":\"+00:00\",\"action\":\"OBSERVE\",\"epcList\":[\"x\"],\"destinationList\":[{\"destination\":\"b\"}]}\nreach A x\nrecall A x\nsend A 1\nstop B old\ndeliver 1\npump 2\nquarantine A#1\n";

/// What a script came to, and its answers.
#[derive(Drop)]
struct Run {
    outcome: Result<Tally, ScriptFault>,
    writer: Full,
}

/// Runs the script, with room for its answers.
fn run_of(alloc: Global, keys: RandomState) -> Result<Run, AllocError> {
    let written = Vec::with_capacity(alloc, 65_536)?;
    let mut writer = Full::of(written, usize::MAX, None);
    let mut reader = Pieces::of(SCRIPT.as_bytes(), 65_536);
    let outcome = run_script(alloc, keys, &mut reader, &mut writer);
    Ok(Run { outcome, writer })
}

/// Whether a run answered its lines as the other one, up to a line at which memory ran out.
fn is_beginning(run: &Run, other: &Run) -> bool {
    let is_whole = run.writer.written.is_empty() || run.writer.written.as_slice().ends_with(b"\n");
    run.outcome == Err(ScriptFault::NoMemory)
        && is_whole
        && other
            .writer
            .written
            .as_slice()
            .starts_with(run.writer.written.as_slice())
}

#[test]
fn a_script_ends_at_the_line_at_which_growth_is_refused(rt: HostRuntime) -> Result<(), Fail> {
    let keys = RandomState::new(&rt)?;
    let one = run_of(rt.alloc(), keys)?;
    let two = run_of(rt.alloc(), keys)?;
    let same = one.outcome == two.outcome && one.writer.written == two.writer.written;
    let lines = Ok(Tally {
        lines: 10,
        refused: 0,
    });
    assert!(rt; one.outcome == lines || two.outcome == lines);
    assert!(rt; same || is_beginning(&one, &two) || is_beginning(&two, &one));
    Ok(())
}
