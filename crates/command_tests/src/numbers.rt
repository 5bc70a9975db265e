//! Numbers of sites, for tests.
ghost use Rattle.std.specs.Prelude.{◌<◌};

use event_json::SiteNo;

/// The site of a number, 0 for A.
pub fn site(number: u64) -> SiteNo
    requires { number < 16 }
{
    SiteNo::of(number).unwrap()
}
