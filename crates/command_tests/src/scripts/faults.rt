//! A reader and a writer that fail, give and take little or interrupt, and limits. One type of each serves all tests,
//! since a script is run anew for each pair of them.

use script_core::{ScriptFault, Tally, run_script};
use std::alloc::Global;
use std::hash::RandomState;
use std::io::{self, Error, ErrorKind, Read, Write};
use std::test::Fail;

const SCRIPT: &str = "site A a\nsite B b\nreach A x\nbogus\nreach B y\n";

const FIRST: &str = "pair A uri x\npairs 1\n";

const SECOND: &str = "pair A uri x\npairs 1\nrefused BadLine\n";

const ALL: &str = "pair A uri x\npairs 1\nrefused BadLine\npair B uri y\npairs 1\n";

/// What a script is answered that was read to its end.
const DONE: Result<Tally, ScriptFault> = Ok(Tally {
    lines: 5,
    refused: 1,
});

/// Which calls of a stream are interrupted.
#[derive(Clone, Copy, PartialEq, Eq)]
pub enum Halts {
    Never,
    EachOther,
    Always,
}

/// Whether the call of this number, from 1 on, is interrupted.
fn is_halted(halts: Halts, call: u64) -> bool {
    match halts {
        Halts::Never => false,
        Halts::EachOther => call % 2 == 1,
        Halts::Always => true,
    }
}

/// Gives the bytes of a text in pieces of one size, and fails after so many reads.
#[derive(Drop)]
pub struct Pieces<'a> {
    pub rest: &'a [u8],
    pub size: usize,
    pub reads_left: u64,
    pub halts: Halts,
    /// How often it was asked.
    pub asked: u64,
}

impl<'a> Pieces<'a> {
    /// A text in pieces of this size, with no failure.
    pub fn of(rest: &'a [u8], size: usize) -> Pieces<'a> {
        Pieces {
            rest,
            size,
            reads_left: u64::MAX,
            halts: Halts::Never,
            asked: 0,
        }
    }
}

impl Read for Pieces<'_> {
    fn read(&mut self, buffer: &mut [u8]) -> io::Result<usize> {
        self.asked = self.asked.wrapping_add(1);
        if is_halted(self.halts, self.asked) {
            return Err(Error::from(ErrorKind::Interrupted));
        }
        if self.reads_left == 0 {
            return Err(Error::from(ErrorKind::Other));
        }
        self.reads_left -= 1;
        let count = self.size.min(self.rest.len()).min(buffer.len());
        let (front, rest) = self.rest.split_at(count);
        let (into, _) = buffer.split_at_mut(count);
        into.copy_from_slice(front);
        self.rest = rest;
        Ok(count)
    }
}

/// Takes so many bytes, one at a write, and then does as it is told.
#[derive(Drop)]
pub struct Full {
    pub written: Vec<u8>,
    pub room: usize,
    pub then: Option<ErrorKind>,
    pub halts: Halts,
    calls: u64,
    /// How often it was asked once it had no room.
    asked: u64,
}

impl Full {
    /// One with such room, and with room for so much in memory.
    pub fn of(written: Vec<u8>, room: usize, then: Option<ErrorKind>) -> Full {
        Full {
            written,
            room,
            then,
            halts: Halts::Never,
            calls: 0,
            asked: 0,
        }
    }
}

impl Write for Full {
    fn write(&mut self, bytes: &[u8]) -> io::Result<usize> {
        self.calls = self.calls.wrapping_add(1);
        if is_halted(self.halts, self.calls) {
            return Err(Error::from(ErrorKind::Interrupted));
        }
        if self.room == 0 {
            self.asked = self.asked.wrapping_add(1);
            return match self.then {
                Some(kind) => Err(Error::from(kind)),
                None => Ok(0),
            };
        }
        let (front, _) = bytes.split_at(bytes.len().min(1));
        self.written.extend_from_slice(front)?;
        self.room -= front.len();
        Ok(front.len())
    }

    fn flush(&mut self) -> io::Result<()> {
        Ok(())
    }
}

/// Whether the script ends so over these streams, and leaves these answers.
fn ends(
    alloc: Global,
    keys: RandomState,
    reader: &mut Pieces,
    writer: &mut Full,
    outcome: Result<Tally, ScriptFault>,
    answers: &str,
) -> bool {
    run_script(alloc, keys, reader, writer) == outcome
        && writer.written.as_slice() == answers.as_bytes()
}

/// Whether the script ends so and leaves these answers, where it comes in such pieces and the read after so many fails.
fn ends_in_pieces(
    alloc: Global,
    keys: RandomState,
    size: usize,
    reads: u64,
    outcome: Result<Tally, ScriptFault>,
    answers: &str,
) -> bool {
    let mut reader = Pieces::of(SCRIPT.as_bytes(), size);
    reader.reads_left = reads;
    let mut writer = Full::of(Vec::new(alloc), usize::MAX, None);
    ends(alloc, keys, &mut reader, &mut writer, outcome, answers)
}

#[test]
fn a_script_may_come_in_any_pieces(rt: HostRuntime) -> Result<(), Fail> {
    let keys = RandomState::new(&rt)?;
    for size in 1..47 {
        assert!(rt; ends_in_pieces(rt.alloc(), keys, size, 100, DONE, ALL));
    }
    Ok(())
}

#[test]
fn a_failing_reader_leaves_the_answers_of_whole_lines(rt: HostRuntime) -> Result<(), Fail> {
    let keys = RandomState::new(&rt)?;
    for reads in 0..45 {
        let answers = match reads {
            0..28 => "",
            28..34 => FIRST,
            34..44 => SECOND,
            _ => ALL,
        };
        assert!(rt; ends_in_pieces(rt.alloc(), keys, 1, reads, Err(ScriptFault::Read), answers));
    }
    Ok(())
}

/// Whether the script ends so where the writer has such room, and leaves as much of its answers; and how often the
/// writer was asked after that is `asked`.
fn ends_in_room(
    alloc: Global,
    keys: RandomState,
    room: usize,
    then: Option<ErrorKind>,
    outcome: Result<Tally, ScriptFault>,
    asked: u64,
) -> bool {
    let mut reader = Pieces::of(SCRIPT.as_bytes(), 1_000);
    let mut writer = Full::of(Vec::new(alloc), room, then);
    let (front, _) = ALL.as_bytes().split_at(room.min(ALL.len()));
    run_script(alloc, keys, &mut reader, &mut writer) == outcome
        && writer.written.as_slice() == front
        && writer.asked == asked
}

#[test]
fn a_failing_writer_keeps_a_beginning_of_the_answers(rt: HostRuntime) -> Result<(), Fail> {
    let keys = RandomState::new(&rt)?;
    let other = Some(ErrorKind::Other);
    for room in 0..58 {
        assert!(rt; ends_in_room(rt.alloc(), keys, room, other, Err(ScriptFault::Write), 1));
    }
    assert!(rt; ends_in_room(rt.alloc(), keys, 58, other, DONE, 0));
    Ok(())
}

#[test]
fn a_writer_that_takes_nothing_is_asked_1024_times(rt: HostRuntime) -> Result<(), Fail> {
    let keys = RandomState::new(&rt)?;
    for then in [None, Some(ErrorKind::Interrupted)] {
        assert!(rt; ends_in_room(rt.alloc(), keys, 20, then, Err(ScriptFault::Write), 1_024));
    }
    Ok(())
}

/// Each other call is interrupted, and made again; a reader that interrupts each call is asked a limited number of
/// times.
#[test]
fn interrupted_reads_and_writes_are_made_again(rt: HostRuntime) -> Result<(), Fail> {
    let keys = RandomState::new(&rt)?;
    let mut reader = Pieces::of(SCRIPT.as_bytes(), 1);
    let mut writer = Full::of(Vec::new(rt.alloc()), usize::MAX, None);
    reader.halts = Halts::EachOther;
    writer.halts = Halts::EachOther;
    assert!(rt; ends(rt.alloc(), keys, &mut reader, &mut writer, DONE, ALL));
    let mut reader = Pieces::of(SCRIPT.as_bytes(), 1);
    let mut writer = Full::of(Vec::new(rt.alloc()), usize::MAX, None);
    reader.halts = Halts::Always;
    let spent = Err(ScriptFault::TurnsSpent);
    assert!(rt; ends(rt.alloc(), keys, &mut reader, &mut writer, spent, ""));
    assert!(rt; reader.asked == 16_777_216);
    Ok(())
}
