//! Gates of four sites.
ghost use Rattle.std.specs.Prelude.{◌<◌, ⊤};

use event_json::SiteNo;
use site_threads::{Gate, Pass};
use std::alloc::Global;
use std::sync::atomic::{AtomicU64, Ordering};
use std::test::Fail;
use std::thread;

/// How often a site looks whether the others have come.
const LOOKS: u64 = 10_000_000;

/// Lets a turn begin once all sites have come to it.
#[derive(Drop)]
pub struct Lockstep<'a> {
    /// By site, the turn that it came to last.
    turns: &'a [AtomicU64],
}

/// Whether all sites have come to this turn.
fn all_came(turns: &[AtomicU64], turn: u64) -> bool {
    for last in turns {
        if last.load(Ordering::SeqCst) < turn {
            return false;
        }
    }
    true
}

impl Gate for Lockstep<'_> {
    // It gives up where the others don't come.
    ghost gives_up = { λ gate site turn. ⊤ };

    fn enter(&mut self, site: SiteNo, turn: u64) -> Pass {
        if let Some(mine) = self.turns.get(site.number() as usize) {
            mine.store(turn, Ordering::SeqCst);
        }
        for _ in 0..LOOKS {
            if all_came(self.turns, turn) {
                return Pass::Go;
            }
            thread::yield_now();
        }
        Pass::GiveUp
    }
}

/// A gate for each site, which keep them in step.
pub fn in_lockstep(alloc: Global, turns: &[AtomicU64]) -> Result<Vec<Lockstep<'_>>, Fail> {
    let gate = || Lockstep { turns };
    Ok(Vec::from_array(alloc, [gate(), gate(), gate(), gate()])?)
}

/// Lets so many turns begin.
#[derive(Drop)]
pub struct First {
    turns: u64,
}

impl Gate for First {
    ghost gives_up = { λ gate site turn. gate.turns < turn };

    fn enter(&mut self, _: SiteNo, turn: u64) -> Pass {
        if turn <= self.turns {
            Pass::Go
        } else {
            Pass::GiveUp
        }
    }
}

/// Gates that let each turn begin, but for B's at its fourth and D's at its second.
pub fn without_b_and_d(alloc: Global) -> Result<Vec<First>, Fail> {
    let first = |turns| First { turns };
    Ok(Vec::from_array(
        alloc,
        [first(u64::MAX), first(3), first(u64::MAX), first(1)],
    )?)
}
