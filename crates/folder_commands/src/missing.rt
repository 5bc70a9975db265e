//! What open recalls miss: items that a site sent on with something that others packed. Once the recalls have come to the
//! site, a capture of these packings is blocked there, so it is told before.

ghost use Rattle.std.specs.Prelude.{List, IfOk};
ghost use Rattle.site_core.specs.Records.{Record};
ghost use Rattle.site_folders.specs.Keepers.{AreShown};
ghost use Rattle.site_recovery.specs.Checking.{records_at};
ghost use Rattle.site_recovery.specs.FittingAt.{AreAllSites};
ghost use Rattle.folder_commands.specs.Missing.{AreMissed};

use keeper_core::SiteKeeper;
use site_core::SiteState;
use site_folders::{missed_from, open_records, roots};
use std::alloc::{AllocError, Global};
use trace_core::Pair;

/// What open recalls miss, by the records that keepers show.
pub(crate) fn missed_before<K: SiteKeeper>(
    alloc: Global,
    keepers: &[K],
) -> Result<Vec<Pair>, AllocError>
    requires { (rs : List Record) × AreShown K.shown keepers.now rs × AreAllSites rs }
    ensures { IfOk result (λ missed. (rs : List Record) → AreShown K.shown keepers.now rs
        → AreMissed rs missed.items) }
{
    let records = open_records(alloc, keepers)?;
    missed_of(alloc, records.as_slice())
}

/// What open recalls miss, by these records.
fn missed_of(alloc: Global, records: &[&SiteState]) -> Result<Vec<Pair>, AllocError>
    requires { AreAllSites (records_at records.now) }
    ensures { IfOk result (λ missed. AreMissed (records_at records.now) missed.items) }
{
    let roots = roots(alloc, records, false)?;
    missed_from(alloc, records, roots.as_slice())
}
