//! How a long run goes, reported on the error stream where that is a terminal.

use event_json::SiteNo;
use site_threads::{Gate, Pass};
use std::io::IsTerminal;
use std::sync::atomic::{AtomicU64, Ordering};
use std::time::Clock;

/// How long nothing is reported, in milliseconds.
const QUIET: u64 = 2000;

/// What the sites of a run have reported so far.
#[derive(Drop)]
pub(crate) struct Progress {
    /// How many turns were begun.
    turns: AtomicU64,
    /// How many messages wait for a signal, at all sites together.
    open: AtomicU64,
    /// When it was reported last, in milliseconds of the clock.
    told: AtomicU64,
}

impl Progress {
    /// Of a run that begins now.
    pub(crate) fn new(rt: &HostRuntime) -> Progress {
        Progress {
            turns: AtomicU64::new(0),
            open: AtomicU64::new(0),
            told: AtomicU64::new(millis(rt)),
        }
    }

    /// Whether it is to be reported again: for the first to ask after it was quiet for so long.
    fn is_due(&self, now: u64) -> bool {
        let told = self.told.load(Ordering::SeqCst);
        now.saturating_sub(told) >= QUIET
            && self
                .told
                .compare_exchange(told, now, Ordering::SeqCst, Ordering::SeqCst)
                .is_ok()
    }

    /// Tells a user how the run goes. Where the stream fails there is nobody left to report it to.
    fn tell(&self, rt: &HostRuntime) {
        let turns = self.turns.load(Ordering::SeqCst);
        let open = self.open.load(Ordering::SeqCst);
        let _ = eprintln!(rt; "turns {turns} messages {open} open");
    }
}

/// Lets every turn begin, and reports now and then how many were begun and how many messages are open.
#[derive(Clone, Copy)]
pub(crate) struct TellingGate<'a> {
    runtime: &'a HostRuntime,
    /// Where the error stream is a terminal.
    progress: Option<&'a Progress>,
    /// How many messages of this gate's site were open when it was reported last.
    open: u64,
}

impl<'a> TellingGate<'a> {
    /// A gate that reports where the error stream is a terminal.
    pub(crate) fn new(rt: &'a HostRuntime, progress: &'a Progress) -> TellingGate<'a> {
        TellingGate {
            runtime: rt,
            progress: if rt.stderr().is_terminal() {
                Some(progress)
            } else {
                None
            },
            open: 0,
        }
    }
}

impl Gate for TellingGate<'_> {
    ghost gives_up = { λ gate site turn. ⊥ };

    fn enter(&mut self, _site: SiteNo, _turn: u64) -> Pass {
        if let Some(progress) = self.progress {
            progress.turns.fetch_add(1, Ordering::SeqCst);
            if progress.is_due(millis(self.runtime)) {
                progress.tell(self.runtime);
            }
        }
        Pass::Go
    }

    fn tell_open(&mut self, _site: SiteNo, open: usize) {
        if let Some(progress) = self.progress {
            let open = open as u64;
            progress
                .open
                .fetch_add(open.wrapping_sub(self.open), Ordering::SeqCst);
            self.open = open;
        }
    }
}

/// The clock in milliseconds, 0 where it can't be read.
fn millis(rt: &HostRuntime) -> u64 {
    match rt.monotonic() {
        Ok(time) => time
            .as_secs()
            .saturating_mul(1000)
            .saturating_add(time.subsec_millis() as u64),
        Err(_) => 0,
    }
}
