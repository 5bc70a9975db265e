//! Gates that let one site on at a time, in an order that was drawn before.
ghost use Rattle.std.specs.Prelude.{◌≡◌, ⊤, IfOk, length, vec_len};

use crate::seeded::chances::Chances;
use event_json::SiteNo;
use site_threads::{Gate, Pass};
use std::alloc::{AllocError, Global};
use std::sync::atomic::{AtomicU64, Ordering};
use std::thread;

/// How often a site looks whether its turn has come.
const LOOKS: u64 = 10_000_000;

/// Lets a site on when it is the next in an order, and the next one once this one comes to the gate again. After its
/// turns it gives up.
#[derive(Drop)]
pub struct InOrder<'a> {
    /// The sites, in the order in which they go on, each as often as it makes turns.
    order: &'a [u64],
    /// The place of the site in the order that goes on now.
    place: &'a AtomicU64,
    /// The turns that each site makes.
    turns: u64,
    /// Whether this site is the one that went on last.
    goes: bool,
}

impl Gate for InOrder<'_> {
    // It gives up after its turns, or where the others don't come.
    ghost gives_up = { λ gate site turn. ⊤ };

    fn enter(&mut self, site: SiteNo, turn: u64) -> Pass {
        if self.goes {
            self.goes = false;
            self.place.fetch_add(1, Ordering::SeqCst);
        }
        if turn > self.turns {
            return Pass::GiveUp;
        }
        for _ in 0..LOOKS {
            let place = self.place.load(Ordering::SeqCst) as usize;
            if self.order.get(place) == Some(&site.number()) {
                self.goes = true;
                return Pass::Go;
            }
            thread::yield_now();
        }
        Pass::GiveUp
    }
}

/// A gate for each of so many sites.
pub fn gates<'a>(
    alloc: Global,
    order: &'a [u64],
    place: &'a AtomicU64,
    count: u64,
    turns: u64,
) -> Result<Vec<InOrder<'a>>, AllocError> {
    let mut gates = Vec::new(alloc);
    for _ in 0..count {
        gates.push(InOrder {
            order,
            place,
            turns,
            goes: false,
        })?;
    }
    Ok(gates)
}

/// Each of so many sites as often as it makes turns, in a random order.
pub fn drawn(
    alloc: Global,
    count: u64,
    turns: u64,
    chances: &mut Chances,
) -> Result<Vec<u64>, AllocError> {
    let mut order = Vec::new(alloc);
    for _ in 0..turns {
        for site in 0..count {
            order.push(site)?;
        }
    }
    for place in 0..order.len() {
        exchange(&mut order, place, chances);
    }
    Ok(order)
}

/// Exchanges what stands at this place and at one up to it, drawn at random.
fn exchange(order: &mut Vec<u64>, place: usize, chances: &mut Chances) {
    if place < order.len() {
        let other = chances.below(place as u64 + 1) as usize;
        order.swap(place, other);
    }
}
