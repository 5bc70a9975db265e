//! What lets a site into its next turn.
ghost use Rattle.std.specs.Prelude.{◌≡◌, ℕ};

use event_json::SiteNo;

/// What a gate returns.
#[derive(Clone, Copy)]
pub enum Pass {
    /// The turn may begin.
    Go,
    /// The site ends its run.
    GiveUp,
}

/// Lets a site into its turns, one after another.
pub trait Gate: Drop {
    /// What it means that the gate gives up, asked by a site of this number for this turn. A gate of which it can't be
    /// true never gives up.
    ghost gives_up: { Self → ℕ → ℕ → Type 0 };

    /// Asked before each turn, which is counted from 1. It may look at what other sites do, and so keep them in step,
    /// but it waits for nobody.
    fn enter(&mut self, site: SiteNo, turn: u64) -> Pass
        // Not covered: when a gate that may give up does.
        ensures { result ≡ Pass.GiveUp → gives_up self.old site turn };

    /// Told, before it is asked, how many messages of the site wait for a signal; not while its keeper is closed. A
    /// gate may show a user how a run goes.
    fn tell_open(&mut self, _site: SiteNo, _open: usize) {}
}

/// Lets every turn begin.
#[derive(Clone, Copy)]
pub struct FreeGate;

impl Gate for FreeGate {
    ghost gives_up = { λ gate site turn. ⊥ };

    fn enter(&mut self, _site: SiteNo, _turn: u64) -> Pass {
        Pass::Go
    }
}
