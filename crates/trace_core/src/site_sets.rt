//! Sets of sites.
ghost use Rattle.std.specs.Prelude.{◌≡◌, ◌↔◌, ◌==◌, ◌&&◌, ◌||◌, ℕ, true, false, not, is_some, IfSome, IsTrue, Contains};
ghost use Rattle.trace_core.specs.SiteSets.{has_site};

use event_json::SiteNo;
use std::marker::Model;

/// A set of sites, with a bit for each of the 16.
#[derive(Clone, Copy, Debug)]
pub struct SiteSet {
    mask: u16,
}

impl Model for SiteSet {
    ghost Value = { ℕ };

    ghost view = { λ s. s.mask };

    ghost inverse = { λ n. record { mask = n } };
}

impl SiteSet {
    /// No site.
    pub fn new() -> SiteSet
        ensures { (t : ℕ) → has_site result t ≡ false }
    {
        SiteSet { mask: 0 }
    }

    /// The set of some sites.
    pub fn of(sites: &[SiteNo]) -> SiteSet
        ensures { (t : ℕ) → has_site result t ≡ true ↔ Contains sites.now t }
    {
        let mut set = SiteSet::new();
        for site in sites {
            set.insert(*site);
        }
        set
    }

    /// Whether no site is in the set.
    pub fn is_empty(self) -> bool
        ensures { IsTrue result → (t : ℕ) → has_site self t ≡ false }
    {
        self.mask == 0
    }

    /// Whether a site is in the set.
    pub fn has(self, site: SiteNo) -> bool
        ensures { result ≡ has_site self site }
    {
        (self.mask >> site.number()) & 1 == 1
    }

    /// The site of a number, if it is in the set.
    pub fn at(self, number: u64) -> Option<SiteNo>
        ensures some { is_some result ≡ has_site self number }
        ensures value { IfSome result (λ s. s ≡ number) }
    {
        match SiteNo::of(number) {
            Some(site) if self.has(site) => Some(site),
            _ => None,
        }
    }

    /// Adds a site.
    pub fn insert(&mut self, site: SiteNo)
        ensures { (t : ℕ) → has_site self.new t ≡ ((site == t) || has_site self.old t) }
    {
        self.mask |= 1 << site.number();
    }

    /// Takes a site away.
    pub fn remove(&mut self, site: SiteNo)
        ensures { (t : ℕ) → has_site self.new t ≡ (not (site == t) && has_site self.old t) }
    {
        self.mask &= !(1 << site.number());
    }
}
