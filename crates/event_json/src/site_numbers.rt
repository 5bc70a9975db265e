//! The number of a site.
ghost use Rattle.std.specs.Prelude.{◌≡◌, ℕ, ◌<◌, ◌↔◌, IsSome, IfSome};
ghost use Rattle.event_json.specs.declared.limits.TheConstants.{MAX_SITES};

use crate::limits::MAX_SITES;
use std::marker::Model;

/// The number of a site in its list of sites, 0 to 15.
#[derive(Clone, Copy, Debug, PartialEq, Eq, PartialOrd, Ord, Hash)]
pub struct SiteNo {
    number: u8,
}

impl Model for SiteNo {
    ghost use Rattle.std.specs.Prelude.{ℕ, ◌<◌};
    ghost use Rattle.event_json.specs.declared.limits.TheConstants.{MAX_SITES};

    ghost Value = { ℕ };

    ghost view = { λ s. s.number };

    ghost invariant = { λ s. s.number < MAX_SITES };

    ghost inverse = { λ n. record { number = n } };
}

impl SiteNo {
    /// The site of this number, `None` from 16 on.
    pub fn of(number: u64) -> Option<SiteNo>
        ensures some { IsSome result ↔ (number < MAX_SITES) }
        ensures value { IfSome result (λ s. s ≡ number) }
    {
        if number < MAX_SITES as u64 {
            Some(SiteNo {
                number: number as u8,
            })
        } else {
            None
        }
    }

    /// The number, 0 to 15.
    pub fn number(self) -> u64
        ensures value { result ≡ self }
        ensures small { result < MAX_SITES }
    {
        u64::from(self.number)
    }
}
