//! Command lines over streams and files in memory.

use crate::memory_files::{MemoryFiles, files};
use command_line::run_command;
use site_threads::FreeGate;
use std::alloc::{AllocError, Global};
use std::hash::RandomState;
use std::sync::Wait;
use std::test::Fail;
use std::thread::Threads;
use std::time::Clock;

/// The words of a line, which are parted by blanks.
fn words_of(alloc: Global, line: &str) -> Result<Vec<String>, AllocError> {
    let mut all = Vec::new(alloc);
    for word in line.split(' ') {
        all.push(String::from_str(alloc, word)?)?;
    }
    Ok(all)
}

/// A command line with its status, and what its output and the error stream begin with. Where nothing stands there,
/// nothing is written.
type Row = (&'static str, u8, &'static str, &'static str);

fn begins(bytes: &[u8], text: &str) -> bool {
    bytes.starts_with(text.as_bytes()) && bytes.is_empty() == text.is_empty()
}

/// Whether a command line ends so, where its input is a line of a script.
fn ends<R: Threads + Wait + Clock + Sync>(
    rt: &R,
    alloc: Global,
    keys: RandomState,
    files: &mut MemoryFiles,
    row: &Row,
) -> bool {
    let (line, status, output, errors) = *row;
    let Ok(words) = words_of(alloc, line) else {
        return false;
    };
    let mut input = b"reach A x\n".as_slice();
    let mut written = Vec::new(alloc);
    let mut told = Vec::new(alloc);
    let ended = run_command(
        rt,
        alloc,
        keys,
        files,
        FreeGate,
        words.as_slice(),
        &mut input,
        &mut written,
        &mut told,
    );
    ended == status && begins(&written, output) && begins(&told, errors)
}

/// The place of the first row that ends otherwise, from 0.
fn first_other<R: Threads + Wait + Clock + Sync>(
    rt: &R,
    alloc: Global,
    keys: RandomState,
    files: &mut MemoryFiles,
    rows: &[Row],
) -> Option<usize> {
    for (place, row) in rows.iter().enumerate() {
        if !ends(rt, alloc, keys, files, row) {
            return Some(place);
        }
    }
    None
}

/// Each command before a recall is begun, in each form that it has, and faults and refusals.
const BEFORE: [Row; 28] = [
    ("recall sim", 1, "refused NoWorld\n", ""),
    ("recall sim --help", 0, "Runs a script", ""),
    ("recall -hx", 0, "Traces recalled", ""),
    ("recall bogus", 2, "", "error:"),
    (
        "recall audit d",
        3,
        "",
        "fault Read\na file is missing or wasn't read: look at its path\n",
    ),
    ("recall audit d --json", 3, "", "{\"fault\":\"Read\"}\n"),
    (
        "recall lint none made --json",
        3,
        "",
        "{\"fault\":\"Read\"}\n",
    ),
    (
        "recall init d bad",
        1,
        "refused BadLine\nrefused NoWorld\n",
        "the line is neither a `site` line",
    ),
    ("recall init d list", 0, "", ""),
    (
        "recall init d list --json",
        1,
        "{\"name\":\"A\",\"refused\":\"Exists\"}\n",
        "",
    ),
    ("recall copy d e", 0, "", ""),
    (
        "recall copy d e --json",
        1,
        "{\"name\":\"A\",\"refused\":\"Exists\"}\n",
        "",
    ),
    (
        "recall lint list made broken",
        1,
        "warn NoEventID event 1 made\n",
        "",
    ),
    (
        "recall capture d A broken --json",
        1,
        "{\"event\":0,\"field\":\"document\",\"kind\":\"Syntax\"",
        "",
    ),
    (
        "recall start d A --from epcs --json",
        1,
        "{\"refused\":\"UnknownItem\",\"source\":\"epcs:1\"}\n",
        "",
    ),
    (
        "recall capture d A made",
        0,
        "captured 2 known 0 skipped 0\n",
        "note: 1 destination is no traced site",
    ),
    (
        "recall capture d A made broken",
        1,
        "captured 2 known 0 skipped 0 made\n",
        "the document is no JSON in UTF-8",
    ),
    (
        "recall capture d A made --lines",
        0,
        "captured 2 known 0 skipped 0 made:1\n",
        "note: 1 destination",
    ),
    (
        "recall capture d A made --each",
        0,
        "captured 1 known 0 skipped 0 made event 1\n",
        "note: 1 destination",
    ),
    ("recall items d A y", 0, "item A uri y events 8\n", ""),
    ("recall trace d A x", 0, "trace forward A uri x\n", ""),
    (
        "recall trace d A y --back --events",
        0,
        "trace back A uri y\n",
        "",
    ),
    ("recall trace d A x --csv", 0, "recall,site,item,", ""),
    ("recall trace d A x --dot", 0, "digraph ", ""),
    (
        "recall trace d A z --json",
        1,
        "{\"refused\":\"UnknownItem\"}\n",
        "",
    ),
    (
        "recall trace d B x",
        1,
        "refused UnknownItem\n",
        "no event of this site names the item, and it isn't quarantined there",
    ),
    (
        "recall start d A (01)09521321000118(21)7 --scan",
        1,
        "refused BadScan CheckDigit\n",
        "the last digit of the GTIN (01)",
    ),
    (
        "recall start d A x --dry-run",
        0,
        "would recall new 2 messages 1\n",
        "note: nothing was begun",
    ),
];

/// Two recalls are begun, told of and run for a turn.
const BEGUN: [Row; 8] = [
    (
        "recall start d A x y",
        0,
        "recall A#1 new 2 messages 1 open x\nrecall A#2 new 1 messages 1 open y\n",
        "",
    ),
    ("recall audit d", 0, "open A#1\nopen A#2\n", ""),
    (
        "recall status d A#1 --exit-code",
        5,
        "A#1 open root uri x quarantined 2 waiting 1\n",
        "note: `recall run`",
    ),
    (
        "recall report d A#1",
        0,
        "recall A#1 root uri x open\n",
        "note: the recall is open",
    ),
    (
        "recall report d A#1 --json",
        0,
        "{\"ended\":false,",
        "{\"note\"",
    ),
    (
        "recall report d A#1 --csv",
        0,
        "recall,site,item,",
        "note: the recall is open",
    ),
    (
        "recall report d A#1 --dot",
        0,
        "digraph recall {\n",
        "note: the recall is open",
    ),
    (
        "recall run d --turns 1",
        0,
        "A#1 open\nA#2 open\n",
        "a further `recall run` goes on",
    ),
];

/// The device of a site fails once in a run.
const HINDERED: [Row; 1] = [(
    "recall run d",
    0,
    "A#1 ",
    "site B stopped once: Device\nknown of d/B.db\n",
)];

/// A run after which the recalls have ended.
const LAST: Row = ("recall run d", 0, "A#1 ended\nA#2 ended\n", "");

/// The recalls once they have ended.
const ENDED: [Row; 2] = [
    (
        "recall audit d",
        0,
        "equal A#1 pairs 3\nequal A#2 pairs 2\n",
        "",
    ),
    (
        "recall report d A#1 --events",
        0,
        "recall A#1 root uri x ended\n",
        "",
    ),
];

/// Whether the recalls end in runs of all sites, of at most twenty.
fn ends_in_runs<R: Threads + Wait + Clock + Sync>(
    rt: &R,
    alloc: Global,
    keys: RandomState,
    files: &mut MemoryFiles,
) -> bool {
    for _ in 0..20 {
        if ends(rt, alloc, keys, files, &LAST) {
            return true;
        }
    }
    false
}

#[test]
fn commands_run_over_files_in_memory(rt: HostRuntime) -> Result<(), Fail> {
    let keys = RandomState::new(&rt)?;
    let mut files = files(rt.alloc())?;
    assert!(rt; first_other(&rt, rt.alloc(), keys, &mut files, &BEFORE) == None);
    assert!(rt; first_other(&rt, rt.alloc(), keys, &mut files, &BEGUN) == None);
    files.arm_second();
    assert!(rt; first_other(&rt, rt.alloc(), keys, &mut files, &HINDERED) == None);
    assert!(rt; ends_in_runs(&rt, rt.alloc(), keys, &mut files));
    assert!(rt; first_other(&rt, rt.alloc(), keys, &mut files, &ENDED) == None);
    Ok(())
}
