//! `recall`: traces recalled products through a supply chain.
//!
//! The program gives its words and the standard streams to [`run_command`], and ends with the
//! status that it returns.
#![tactic(auto)]

mod causes;
mod host_files;
mod line_files;
mod looks;
mod progress;
mod schemas;
mod stores;
mod whole_files;

use command_line::{BAD_COMMAND_LINE, FAULT, run_command};
use host_files::HostFiles;
use progress::{Progress, TellingGate};
use std::env;
use std::hash::RandomState;
use std::io::{self, ErrorKind};
use std::process::ExitCode;

fn main(rt: HostRuntime) -> ExitCode {
    let alloc = rt.alloc();
    let words: Vec<String> = match words_of(&rt) {
        Ok(words) => words,
        Err(error) if error.kind() == ErrorKind::OutOfMemory => {
            let _ = rt.eprintln("fault NoMemory");
            return ExitCode::from(FAULT);
        }
        Err(_) => {
            let _ = rt.eprintln("error: a word of the command line is not text");
            return ExitCode::from(BAD_COMMAND_LINE);
        }
    };
    let Ok(keys) = RandomState::new(&rt) else {
        let _ = rt.eprintln("fault Device");
        return ExitCode::from(FAULT);
    };
    let mut files = HostFiles::new(&rt, keys);
    let progress = Progress::new(&rt);
    let status = run_command(
        &rt,
        alloc,
        keys,
        &mut files,
        TellingGate::new(&rt, &progress),
        words.as_slice(),
        &mut rt.stdin(),
        &mut rt.stdout(),
        &mut rt.stderr(),
    );
    ExitCode::from(status)
}

/// The words of the command line, the program's name first.
fn words_of(rt: &HostRuntime) -> io::Result<Vec<String>> {
    Ok(env::args(rt)?.collect(rt.alloc())?)
}
