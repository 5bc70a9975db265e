//! `recall sim` by itself: runs a script from standard input, over sites in memory.
//!
//! It stands on the script's crates alone, so it is built in a minute without a proof, for a first look.
#![tactic(auto)]

use script_core::run_script;
use std::hash::RandomState;
use std::process::ExitCode;

/// Ends as `recall sim` does: 0 done, 1 a line was refused, 3 a fault.
fn main(rt: HostRuntime) -> ExitCode {
    let Ok(keys) = RandomState::new(&rt) else {
        let _ = rt.eprintln("fault Device");
        return ExitCode::from(3);
    };
    match run_script(rt.alloc(), keys, &mut rt.stdin(), &mut rt.stdout()) {
        Ok(tally) if tally.refused == 0 => ExitCode::from(0),
        Ok(_) => ExitCode::from(1),
        Err(fault) => {
            let _ = eprintln!(rt; "fault {fault}");
            ExitCode::from(3)
        }
    }
}
