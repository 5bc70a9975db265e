//! A condition of the records, which is attributed to one site.
ghost use Rattle.std.specs.Prelude.{◌≡◌, ◌↔◌, ℕ, IfOk, IsTrue, length};
ghost use Rattle.site_recovery.specs.Checking.{records_at, world_at, IsLeastUnmet};
ghost use Rattle.site_recovery.specs.FittingAt.{AreAllSites};
ghost use Rattle.site_recovery.specs.Looks.{World};

use event_json::SiteNo;
use site_core::SiteState;
use std::alloc::{AllocError, Global};

/// A condition that holds or fails at each site of a world.
pub(crate) trait Condition {
    /// The sites at which it holds.
    ghost holds: { Self → World → ℕ → Type 0 };

    /// Whether it holds at the site, whose record is `state`.
    fn holds_at(
        &self,
        alloc: Global,
        sites: &[&SiteState],
        site: SiteNo,
        state: &SiteState,
    ) -> Result<bool, AllocError>
        requires all { AreAllSites (records_at sites.now) }
        requires here { state.now ≡ world_at sites.now site }
        ensures { IfOk result (λ here. IsTrue here ↔ holds self.now (world_at sites.now) site) };
}

/// Two conditions together.
#[derive(Drop)]
pub(crate) struct Both<A, B> {
    pub(crate) first: A,
    pub(crate) second: B,
}

impl<A: Condition, B: Condition> Condition for Both<A, B> {
    ghost holds = { λ c W s. A.holds c.first W s × B.holds c.second W s };

    fn holds_at(
        &self,
        alloc: Global,
        sites: &[&SiteState],
        site: SiteNo,
        state: &SiteState,
    ) -> Result<bool, AllocError> {
        Ok(
            self.first.holds_at(alloc, sites, site, state)?
                && self.second.holds_at(alloc, sites, site, state)?,
        )
    }
}

/// The least site at which a condition fails.
pub(crate) fn least_unmet<C: Condition>(
    alloc: Global,
    sites: &[&SiteState],
    condition: &C,
) -> Result<Option<SiteNo>, AllocError>
    requires all { AreAllSites (records_at sites.now) }
    ensures { IfOk result (λ site. IsLeastUnmet (length sites.now)
        (C.holds condition.now (world_at sites.now)) site) }
{
    for state in sites {
        let site = state.me();
        if !condition.holds_at(alloc, sites, site, state)? {
            return Ok(Some(site));
        }
    }
    Ok(None)
}
