//! What the sites of a run count together.

use std::sync::atomic::{AtomicBool, AtomicU64, Ordering};
use std::thread;
use std::time::{Clock, Duration};

/// How often a site looks, 100 microseconds apart, whether each site of its run has begun.
const LOOKS: u64 = 5_000;

/// What the sites of a run count together. Other threads change it at any time, so no contract speaks of it.
#[derive(Drop)]
pub struct RunCounts {
    /// How many sites the run has.
    sites: u64,
    /// How often a site began a slice of its turns.
    begun: AtomicU64,
    /// Whether sites share threads: one of them has seen that another didn't begin beside it.
    shared: AtomicBool,
    /// How many sites may have an open recall of their own, or begin one.
    open: AtomicU64,
}

impl RunCounts {
    /// The counts of a run of `sites` sites, before the first turn.
    pub fn new(sites: u64) -> RunCounts {
        RunCounts {
            sites,
            begun: AtomicU64::new(0),
            shared: AtomicBool::new(false),
            open: AtomicU64::new(sites),
        }
    }

    /// Begins a slice of a site's turns. Before the first one the site waits until each site of the run has begun, for
    /// a second at most: where one has not, it has no thread of its own, and sites share threads from then on.
    pub fn begin<R: Clock>(&self, rt: &R) {
        self.begun.fetch_add(1, Ordering::SeqCst);
        for _ in 0..LOOKS {
            if self.begun.load(Ordering::SeqCst) >= self.sites || self.are_shared() {
                return;
            }
            thread::sleep(rt, Duration::from_micros(100));
        }
        self.shared.store(true, Ordering::SeqCst);
    }

    /// Whether sites share threads.
    pub fn are_shared(&self) -> bool {
        self.shared.load(Ordering::SeqCst)
    }

    /// Takes a site off the open ones, once it is done.
    pub fn take_off(&self, done: bool, counted: &mut bool) {
        if done {
            *counted = false;
            self.open.fetch_sub(1, Ordering::SeqCst);
        }
    }

    /// Whether no site has an open recall of its own, or is to begin one.
    pub fn none_open(&self) -> bool {
        self.open.load(Ordering::SeqCst) == 0
    }
}
