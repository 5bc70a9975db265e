//! What a site's messages announce to another site.
ghost use Rattle.std.specs.Prelude.{◌≡◌, ◌⊎◌, ◌↔◌, ℕ, List, IfOk, OnOk, IsTrue};
ghost use Rattle.frame_core.specs.Numbers.{Recall};
ghost use Rattle.site_core.specs.Quarantines.{held};
ghost use Rattle.site_core.specs.Ways.{Tells};

use event_json::SiteNo;
use frame_core::Row;
use site_core::{Quarantine, SiteState};
use std::alloc::{AllocError, Global};

/// Adds the item of a row that goes to the site.
fn hold_row(alloc: Global, told: &mut Quarantine, row: &Row, dest: SiteNo) -> Result<(), AllocError>
    ensures { OnOk result ((r : Recall) (i : List ℕ) → IsTrue (held told.new r i)
        ↔ ((row.now ≡ record { dest = dest; recall = r; item = i }) ⊎ IsTrue (held told.old r i))) }
{
    if row.dest == dest {
        told.hold(row.recall, row.item.copy(alloc)?)?;
    }
    Ok(())
}

/// The items that unsignalled messages of the site announce to the other site, by recall.
pub(crate) fn told_to(
    alloc: Global,
    state: &SiteState,
    dest: SiteNo,
) -> Result<Quarantine, AllocError>
    ensures { IfOk result (λ told. (r : Recall) (i : List ℕ) → IsTrue (held told r i)
        ↔ Tells state.now dest r i) }
{
    let mut told = Quarantine::new(alloc);
    for (_, row) in state.outbox() {
        hold_row(alloc, &mut told, row, dest)?;
    }
    Ok(told)
}
