//! The items that a recall comes to hold at a site, and which items a site knows.
ghost use Rattle.std.specs.Prelude.{◌≡◌, ◌↔◌, ◌∷◌, [], ℕ, List, IfOk, IsTrue, Contains, filter, not};
ghost use Rattle.trace_core.specs.Spreads.{AreAscendingItems, IsSpread};
ghost use Rattle.site_core.specs.Quarantines.{held, with_items};
ghost use Rattle.site_core.specs.Shortcuts.{IsClosedInside, IsSpreadPast, TakeHeld};
ghost use Rattle.site_core.specs.Spreading.{AreNewlyHeld, IsKnownItem};

use crate::holding::is_held;
use crate::quarantines::Quarantine;
use epc_core::Epc;
use frame_core::RecallId;
use std::alloc::{AllocError, Global};
use std::collections::BTreeSet;
use trace_core::{Captured, Seen};

/// The items that the site's pairs lead to from the item inside the site, itself among them, ascending
/// and without repeats.
pub(crate) fn spread_of(
    alloc: Global,
    captured: &Captured,
    item: &Epc,
) -> Result<Vec<Epc>, AllocError>
    ensures ascending { IfOk result (λ items. AreAscendingItems items.items) }
    ensures exact { IfOk result (λ items. (j : List ℕ) → Contains items.items j
        ↔ IsSpread captured.now (item.now ∷ []) j) }
{
    let mut starts = Vec::new(alloc);
    starts.push(item.copy(alloc)?)?;
    captured.spread(&starts)
}

/// Those of the items that aren't quarantined under the recall yet.
pub(crate) fn not_held(
    alloc: Global,
    quarantine: &Quarantine,
    recall: RecallId,
    given: Vec<Epc>,
) -> Result<Vec<Epc>, AllocError>
    ensures { IfOk result (λ items. items.items
        ≡ filter (λ j. not (held quarantine.now recall j)) given.items) }
{
    let mut items = Vec::new(alloc);
    for found in given {
        if !quarantine.holds(recall, &found) {
            items.push(found)?;
        }
    }
    Ok(items)
}

/// The items that the site's pairs lead to from the item inside the site, itself among them, that aren't
/// quarantined under the recall yet, ascending and without repeats.
pub(crate) fn newly_held(
    alloc: Global,
    captured: &Captured,
    quarantine: &Quarantine,
    recall: RecallId,
    item: &Epc,
) -> Result<Vec<Epc>, AllocError>
    ensures { IfOk result (λ items. AreNewlyHeld captured.now quarantine.now recall item.now
        items.items) }
{
    let items = spread_of(alloc, captured, item)?;
    not_held(alloc, quarantine, recall, items)
}

/// The same where what is quarantined is closed inside the site: the search ends at items that are quarantined
/// under the recall, and leaves out transformations all of whose outputs are; those that it goes through are
/// seen afterwards.
pub(crate) fn newly_held_past(
    alloc: Global,
    captured: &Captured,
    quarantine: &Quarantine,
    recall: RecallId,
    item: &Epc,
    seen: &mut Seen,
) -> Result<Vec<Epc>, AllocError>
    requires closed { IsClosedInside captured.now quarantine.now }
    requires held { TakeHeld captured.now quarantine.now recall seen.old }
    ensures newly { IfOk result (λ items.
        AreNewlyHeld captured.now quarantine.now recall item.now items.items) }
    ensures seen { IfOk result (λ items.
        TakeHeld captured.now (with_items quarantine.now recall items.items) recall seen.new) }
{
    let found = spread_past(alloc, captured, quarantine, recall, item, seen)?;
    not_held(alloc, quarantine, recall, found)
}

/// The spread of an item past what is quarantined under the recall, and past the transformations that were
/// seen.
fn spread_past(
    alloc: Global,
    captured: &Captured,
    quarantine: &Quarantine,
    recall: RecallId,
    item: &Epc,
    seen: &mut Seen,
) -> Result<Vec<Epc>, AllocError>
    ensures ascending { IfOk result (λ found. AreAscendingItems found.items) }
    ensures past { IfOk result (λ found.
        IsSpreadPast captured.now quarantine.now recall item.now seen.old seen.new found.items) }
{
    match quarantine.under(recall) {
        Some(items) => captured.spread_beyond(item, items.items(), seen),
        None => captured.spread_beyond(item, &BTreeSet::new(alloc), seen),
    }
}

/// Whether one of the captured events names the item, or it is quarantined under some recall.
pub fn is_known(captured: &Captured, quarantine: &Quarantine, item: &Epc) -> bool
    ensures { IsTrue result ↔ IsKnownItem captured.now quarantine.now item.now }
{
    captured.mentions(item) || is_held(quarantine, item)
}
