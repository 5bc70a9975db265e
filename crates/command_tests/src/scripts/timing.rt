//! When an answer is written.

use script_core::run_script;
use std::cell::Cell;
use std::hash::RandomState;
use std::io::{self, Read, Write};
use std::test::Fail;

/// A line of a script by its place, and how many bytes answer the lines before it; behind them comes the end.
fn line_at(place: usize) -> (&'static str, usize) {
    match place {
        0 => ("site A a\n", 0),
        1 => ("site B b\n", 0),
        2 => ("reach A x\n", 0),
        3 => ("bogus\n", 21),
        4 => ("reach B y\n", 37),
        _ => ("", 58),
    }
}

/// Gives a line at each read, and notes whether one was asked for before its time: while an answer to those before it
/// wasn't written.
#[derive(Drop)]
struct Waiting<'a> {
    place: usize,
    written: &'a Cell<usize>,
    early: bool,
}

impl Read for Waiting<'_> {
    fn read(&mut self, buffer: &mut [u8]) -> io::Result<usize> {
        let (line, due) = line_at(self.place);
        self.place = self.place.wrapping_add(1);
        if self.written.get() != due {
            self.early = true;
        }
        let count = line.len().min(buffer.len());
        let (front, _) = line.as_bytes().split_at(count);
        let (into, _) = buffer.split_at_mut(count);
        into.copy_from_slice(front);
        Ok(count)
    }
}

/// Counts what is written.
#[derive(Drop)]
struct Counting<'a> {
    written: &'a Cell<usize>,
}

impl Write for Counting<'_> {
    fn write(&mut self, bytes: &[u8]) -> io::Result<usize> {
        self.written
            .set(self.written.get().wrapping_add(bytes.len()));
        Ok(bytes.len())
    }

    fn flush(&mut self) -> io::Result<()> {
        Ok(())
    }
}

/// Whether each answer is written before the next line is read.
fn answers_in_time(rt: &HostRuntime) -> Result<bool, Fail> {
    let written = Cell::new(0);
    let mut reader = Waiting {
        place: 0,
        written: &written,
        early: false,
    };
    let mut writer = Counting { written: &written };
    let keys = RandomState::new(rt)?;
    run_script(rt.alloc(), keys, &mut reader, &mut writer)?;
    Ok(reader.place == 6 && !reader.early)
}

#[test]
fn each_answer_is_written_before_the_next_line_is_read(rt: HostRuntime) -> Result<(), Fail> {
    assert!(rt; answers_in_time(&rt)?);
    Ok(())
}
