//! Whether records are those of all sites, in order.
ghost use Rattle.std.specs.Prelude.{◌↔◌, IsTrue};
ghost use Rattle.site_recovery.specs.Checking.{records_at};
ghost use Rattle.site_recovery.specs.FittingAt.{AreAllSites, IsOneOf};

use site_core::SiteState;

/// Whether the record is that of the site at the place, of a list of so many sites.
fn is_one_of(count: u64, place: u64, state: &SiteState) -> bool
    ensures { IsTrue result ↔ IsOneOf count place state.now }
{
    state.me().number() == place && state.sites().len() == count
}

/// Whether these are the records of all sites, in the order of their numbers: each has the number of its
/// place, and a list of as many sites as there are records.
pub fn are_all_sites(sites: &[&SiteState]) -> bool
    ensures { IsTrue result ↔ AreAllSites (records_at sites.now) }
{
    for place in 0..sites.len() {
        if !is_one_of(sites.len() as u64, place as u64, sites[place]) {
            return false;
        }
    }
    true
}
