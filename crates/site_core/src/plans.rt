//! What a step comes to, found at a borrowed record, and how it is done in place.
ghost use Rattle.std.specs.Prelude.{◌≡◌, ◌⊎◌, ◌<◌, ◌≤◌, ◌^◌, length, true, None, Err, IfOk, OnOk, OnErr};
ghost use Rattle.std.specs.FinMap as finite;
ghost use Rattle.scholten_core.specs.Changes.{began, begun, received};
ghost use Rattle.site_core.specs.Quarantines.{with_items};
ghost use Rattle.site_core.specs.Shipments.{AreShipments};
ghost use Rattle.site_core.specs.Shortcuts.{IsClosedInside, TakeHeld};
ghost use Rattle.site_core.specs.Spreading.{AreNewlyHeld};
ghost use Rattle.site_core.specs.Plans.{IsStartPlanned};
ghost use Rattle.site_core.specs.Steps.{HaveNumbers, AreTooMany, reply};

use crate::quarantines::Quarantine;
use crate::shipping::shipments;
use crate::spreading::{newly_held, newly_held_past, not_held, spread_of};
use epc_core::Epc;
use event_json::SiteNo;
use frame_core::{MsgId, NumberFault, RecallId};
use scholten_core::{Began, Diffusion, Received};
use std::alloc::{AllocError, Global};
use trace_core::{Captured, Seen};

/// What a recall adds to a site.
#[derive(Debug, Drop)]
pub struct Plan {
    /// The items that come under the recall, ascending.
    pub new: Vec<Epc>,
    /// The messages to number, in order, each by its destination and its item.
    pub out: Vec<(SiteNo, Epc)>,
}

/// What the start of a recall of an item adds: the spread of the item, and all its shipments.
pub fn plan_start(
    alloc: Global,
    captured: &Captured,
    quarantine: &Quarantine,
    recall: RecallId,
    root: &Epc,
) -> Result<Plan, AllocError>
    ensures { IfOk result (λ plan. IsStartPlanned captured.now quarantine.now recall root.now
        plan.new.items plan.out.items) }
{
    let spread = spread_of(alloc, captured, root)?;
    let out = shipments(alloc, captured, &spread)?;
    let new = not_held(alloc, quarantine, recall, spread)?;
    Ok(Plan { new, out })
}

/// What a message of a recall adds: what is new of the spread of its item, and the shipments of that. Where
/// what is quarantined is closed inside the site, the search stops at it, and the transformations that it goes
/// through are seen afterwards.
pub fn plan_message(
    alloc: Global,
    captured: &Captured,
    quarantine: &Quarantine,
    is_closed: bool,
    recall: RecallId,
    item: &Epc,
    seen: &mut Seen,
) -> Result<Plan, AllocError>
    requires closed { is_closed ≡ true → IsClosedInside captured.now quarantine.now }
    requires held { TakeHeld captured.now quarantine.now recall seen.old }
    ensures newly { IfOk result (λ plan.
        AreNewlyHeld captured.now quarantine.now recall item.now plan.new.items) }
    ensures shipped { IfOk result (λ plan.
        AreShipments captured.now plan.new.items plan.out.items) }
    ensures seen { IfOk result (λ plan.
        TakeHeld captured.now (with_items quarantine.now recall plan.new.items) recall seen.new) }
{
    let new = new_of_message(alloc, captured, quarantine, is_closed, recall, item, seen)?;
    let out = shipments(alloc, captured, &new)?;
    Ok(Plan { new, out })
}

/// What comes under the recall by a message, found in the cheaper way where it may be.
fn new_of_message(
    alloc: Global,
    captured: &Captured,
    quarantine: &Quarantine,
    is_closed: bool,
    recall: RecallId,
    item: &Epc,
    seen: &mut Seen,
) -> Result<Vec<Epc>, AllocError>
    requires closed { is_closed ≡ true → IsClosedInside captured.now quarantine.now }
    requires held { TakeHeld captured.now quarantine.now recall seen.old }
    ensures newly { IfOk result (λ items.
        AreNewlyHeld captured.now quarantine.now recall item.now items.items) }
    ensures seen { IfOk result (λ items.
        TakeHeld captured.now (with_items quarantine.now recall items.items) recall seen.new) }
{
    if is_closed {
        newly_held_past(alloc, captured, quarantine, recall, item, seen)
    } else {
        newly_held(alloc, captured, quarantine, recall, item)
    }
}

/// Begins the recall, whose number is the next one, as planned. A fault changes nothing.
pub fn begin_planned(
    quarantine: &mut Quarantine,
    diffusion: &mut Diffusion,
    recall: RecallId,
    root: Epc,
    plan: &Plan,
) -> Result<Began, NumberFault>
    ensures answer { IfOk result (λ answer. answer ≡ began diffusion.old plan.now.out.items) }
    ensures held { OnOk result (quarantine.new
        ≡ with_items quarantine.old recall plan.now.new.items) }
    ensures begun { OnOk result (diffusion.new ≡ begun diffusion.old root plan.now.out.items) }
    ensures enough { OnOk result ((diffusion.old.next_recall ≤ 2 ^ 62)
        × HaveNumbers diffusion.old plan.now.out.items) }
    ensures spent { result ≡ Err NumberFault.NumbersSpent → (2 ^ 62 < diffusion.old.next_recall)
        ⊎ AreTooMany diffusion.old plan.now.out.items }
    ensures unchanged { OnErr result ((quarantine.new ≡ quarantine.old)
        × (diffusion.new ≡ diffusion.old)) }
{
    let added = quarantine.hold_each(recall, &plan.new)?;
    match diffusion.begin(root, &plan.out) {
        Ok(began) => Ok(began),
        Err(fault) => {
            quarantine.release_all(recall, added);
            Err(fault)
        }
    }
}

/// Takes a message of a recall that wasn't seen, as planned, and returns whether its signal is owed. A fault
/// changes nothing.
pub fn receive_planned(
    quarantine: &mut Quarantine,
    diffusion: &mut Diffusion,
    message: MsgId,
    recall: RecallId,
    plan: &Plan,
) -> Result<bool, NumberFault>
    requires unseen { finite.get diffusion.old.seen message ≡ None }
    ensures answer { IfOk result (λ owed. received diffusion.old message recall plan.now.out.items
        ≡ (diffusion.new, reply (length plan.now.out.items) owed)) }
    ensures held { OnOk result (quarantine.new
        ≡ with_items quarantine.old recall plan.now.new.items) }
    ensures enough { OnOk result (HaveNumbers diffusion.old plan.now.out.items) }
    ensures spent { result ≡ Err NumberFault.NumbersSpent
        → AreTooMany diffusion.old plan.now.out.items }
    ensures unchanged { OnErr result ((quarantine.new ≡ quarantine.old)
        × (diffusion.new ≡ diffusion.old)) }
{
    let new = quarantine.hold_each(recall, &plan.new)?;
    match diffusion.receive(message, recall, &plan.out) {
        Ok(Received::Owe { .. }) => Ok(true),
        // It wasn't seen, so it is no repeat.
        Ok(Received::SignalNow { .. } | Received::Repeat) => Ok(false),
        Err(fault) => {
            quarantine.release_all(recall, new);
            Err(fault)
        }
    }
}
