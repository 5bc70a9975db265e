//! An item at a site, the pair that tracing speaks of.
ghost use Rattle.std.specs.Prelude.{◌≡◌, IfOk};

use epc_core::Epc;
use event_json::SiteNo;
use std::alloc::{AllocError, Global};

/// An item at a site. Pairs are ordered by site, then by item.
#[derive(Debug, Drop, PartialEq, Eq, PartialOrd, Ord)]
pub struct Pair {
    /// The site.
    pub site: SiteNo,
    /// The item.
    pub item: Epc,
}

impl Pair {
    /// An equal pair.
    pub fn copy(&self, alloc: Global) -> Result<Pair, AllocError>
        ensures { IfOk result (λ p. p ≡ self.now) }
    {
        Ok(Pair {
            site: self.site,
            item: self.item.copy(alloc)?,
        })
    }
}
