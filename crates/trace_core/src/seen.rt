//! The transformations that a search has come to.
ghost use Rattle.std.specs.Prelude.{◌≡◌, ◌<◌, ℕ, not, [], IfOk, OnOk, slice_get};
ghost use Rattle.std.specs.BTreeSet.{contains};
ghost use Rattle.std.specs.Vec.{vec_len};
ghost use Rattle.trace_core.specs.Groups.{group_cmp, Sees};
ghost use Rattle.trace_core.specs.Places.{or_none};

use crate::marks::Marks;
use std::alloc::{AllocError, Global};
use std::marker::Model;

/// The transformations that a search has seen: of each site the places of their first parts.
#[derive(Debug, Drop)]
pub struct Seen {
    sites: Vec<Marks>,
}

impl Model for Seen {
    ghost use Rattle.std.specs.BTreeSet.{BTreeSet};
    ghost use Rattle.trace_core.specs.declared.groups.Group.{Group};
    ghost use Rattle.trace_core.specs.Groups.{groups_from};

    ghost Value = { BTreeSet Group };

    ghost view = { λ s. record { keys = groups_from 0 s.sites.items } };
}

impl Seen {
    /// No transformations. Does not allocate.
    pub fn new(alloc: Global) -> Seen
        ensures { result.keys ≡ [] }
    {
        Seen {
            sites: Vec::new(alloc),
        }
    }

    /// Whether a transformation of a site was seen.
    pub fn has(&self, site: usize, first: usize) -> bool
        ensures { result ≡ contains group_cmp self.now (record { site = site; first = first }) }
    {
        if site < self.sites.len() {
            return self.sites[site].has(first);
        }
        false
    }

    /// Marks a transformation of a site with `all` events as seen, and returns whether it is new.
    pub fn see(&mut self, site: usize, first: usize, all: usize) -> Result<bool, AllocError>
        ensures seen { OnOk result (Sees self.old self.new (record {
          site = site;
          first = first;
        })) }
        ensures new { IfOk result (λ new. new
            ≡ not (contains group_cmp self.old (record { site = site; first = first }))) }
    {
        let alloc = *self.sites.allocator();
        make_room(alloc, &mut self.sites, site)?;
        self.sites[site].mark(alloc, first, all)
    }
}

/// Adds sites where nothing was seen, up to this one.
fn make_room(alloc: Global, sites: &mut Vec<Marks>, site: usize) -> Result<(), AllocError>
    ensures room { OnOk result (site < vec_len sites.new) }
    ensures same { OnOk result ((j : ℕ)
        → or_none (slice_get sites.new.items j) ≡ or_none (slice_get sites.old.items j)) }
{
    while sites.len() <= site {
        sites.push(Marks::new(alloc))?;
    }
    Ok(())
}
