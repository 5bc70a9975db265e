//! What capturing events makes of a site with a quarantine, and when an event is refused.
ghost use Rattle.std.specs.Prelude.{◌≡◌, ◌↔◌, true, length, take, IfOk, IfErr, OnErr, IsTrue};
ghost use Rattle.site_core.specs.Capturing.{IsCaptured, TellsRefusal};
ghost use Rattle.site_core.specs.Blocks.{IsMaking, Passes, Refuses};
ghost use Rattle.site_core.specs.Shortcuts.{IsClosedInside};
ghost use Rattle.trace_core.specs.Adding.{standing_among, with_fresh};
ghost use Rattle.trace_core.specs.declared.adding.Standing.TheVariants.{Fresh};

use crate::made_blocks::first_block;
use crate::quarantines::Quarantine;
use crate::sent_blocks::sent_block;
use epc_core::Epc;
use event_json::{Body, Event};
use frame_core::RecallId;
use std::alloc::Global;
use thiserror::Error;
use trace_core::{Added, Captured, Standing};

/// Why a document's events weren't captured. Nothing was changed then.
#[derive(Debug, Drop, PartialEq, Eq, Error)]
pub enum CaptureFault {
    /// Memory ran out.
    #[error("memory ran out")]
    NoMemory,
    /// The event has the eventID of an event with other content.
    #[error("the eventID of event {event} is taken")]
    IdTaken {
        /// The event's place in the list that was given, from 1.
        event: u64,
    },
    /// The event would lead out of the quarantine of a recall.
    #[error("event {event} would lead out of a quarantine")]
    Blocked {
        /// The least recall whose quarantine the event would lead out of from that item.
        recall: RecallId,
        /// The least item that the event would lead on from.
        item: Epc,
        /// The event's place in the list that was given, from 1.
        event: u64,
    },
}

/// Captures the events of a document, whole or not at all: the fresh ones are kept. The first event
/// decides whose eventID is taken, or, among fresh ones, that would lead from a quarantined item to a pair
/// that isn't at this site and quarantined under the same recall.
///
/// # Errors
/// `IdTaken`, `Blocked` and `NoMemory`. Nothing is changed then.
pub fn capture_all(
    alloc: Global,
    captured: &mut Captured,
    quarantine: &Quarantine,
    given: Vec<Event>,
) -> Result<Added, CaptureFault>
    ensures ok { IfOk result (λ added. IsCaptured captured.old quarantine.now given.items
        (record { events = captured.new.events; fresh = added.fresh; known = added.known })) }
    // A capture is refused exactly at the first event whose eventID is taken, or which is new and would lead from an
    // item that is quarantined here under some recall to a pair that isn't quarantined here under that recall.
    //
    // An event is blocked by the least item, and then by the least recall, from which it would lead out of a
    // quarantine.
    // Not covered: no law says "least": it stands in the definition alone.
    ensures fault { IfErr result (λ fault.
        TellsRefusal captured.old quarantine.now given.items fault) }
    ensures unchanged { OnErr result (captured.new ≡ captured.old) }
    ensures same_site { captured.new.me ≡ captured.old.me }
{
    capture_knowing(alloc, captured, quarantine, false, given)
}

/// The same, where it may be known that what is quarantined is closed inside the site: what is made there of a
/// quarantined item is quarantined under the same recall.
pub(crate) fn capture_knowing(
    alloc: Global,
    captured: &mut Captured,
    quarantine: &Quarantine,
    closed: bool,
    given: Vec<Event>,
) -> Result<Added, CaptureFault>
    requires closed { closed ≡ true → IsClosedInside captured.old quarantine.now }
    ensures ok { IfOk result (λ added. IsCaptured captured.old quarantine.now given.items
        (record { events = captured.new.events; fresh = added.fresh; known = added.known })) }
    ensures fault { IfErr result (λ fault.
        TellsRefusal captured.old quarantine.now given.items fault) }
    ensures unchanged { OnErr result (captured.new ≡ captured.old) }
    ensures same_site { captured.new.me ≡ captured.old.me }
{
    let before = captured.len();
    match capture_each(alloc, captured, quarantine, closed, given) {
        Ok(added) => Ok(added),
        Err(fault) => {
            captured.truncate(before);
            Err(fault)
        }
    }
}

/// Captures one event after another. After a fault some of them may be there.
fn capture_each(
    alloc: Global,
    captured: &mut Captured,
    quarantine: &Quarantine,
    closed: bool,
    given: Vec<Event>,
) -> Result<Added, CaptureFault>
    requires closed { closed ≡ true → IsClosedInside captured.old quarantine.now }
    ensures front { take (length captured.old.events) captured.new.events ≡ captured.old.events }
    ensures same_site { captured.new.me ≡ captured.old.me }
    ensures ok { IfOk result (λ added. IsCaptured captured.old quarantine.now given.items
        (record { events = captured.new.events; fresh = added.fresh; known = added.known })) }
    ensures fault { IfErr result (λ fault.
        TellsRefusal captured.old quarantine.now given.items fault) }
{
    let mut added = Added { fresh: 0, known: 0 };
    for event in given {
        let number = added.fresh + added.known + 1;
        match capture_event(alloc, captured, quarantine, closed, event, number)? {
            Standing::Fresh => added.fresh += 1,
            _ => added.known += 1,
        }
    }
    Ok(added)
}

/// Captures one event, whose number this is, and returns how it stood. Nothing is changed by a fault.
fn capture_event(
    alloc: Global,
    captured: &mut Captured,
    quarantine: &Quarantine,
    closed: bool,
    event: Event,
    number: u64,
) -> Result<Standing, CaptureFault>
    requires closed { closed ≡ true → IsClosedInside captured.old quarantine.now }
    ensures passed { IfOk result (λ standing. Passes captured.old quarantine.now event standing) }
    ensures ok { IfOk result (λ standing. captured.new
        ≡ record captured.old { events = with_fresh captured.old.events event standing }) }
    ensures refused { IfErr result (λ fault.
        Refuses captured.old quarantine.now event number fault) }
    ensures unchanged { OnErr result (captured.new ≡ captured.old) }
{
    match captured.standing(&event) {
        Standing::Known => Ok(Standing::Known),
        Standing::Taken => Err(CaptureFault::IdTaken { event: number }),
        Standing::Fresh => capture_fresh(alloc, captured, quarantine, closed, event, number),
    }
}

/// Captures one event that is fresh, unless it is blocked.
fn capture_fresh(
    alloc: Global,
    captured: &mut Captured,
    quarantine: &Quarantine,
    closed: bool,
    event: Event,
    number: u64,
) -> Result<Standing, CaptureFault>
    requires closed { closed ≡ true → IsClosedInside captured.old quarantine.now }
    requires fresh { standing_among captured.old.events event ≡ Fresh }
    ensures passed { IfOk result (λ standing. Passes captured.old quarantine.now event standing) }
    ensures ok { IfOk result (λ standing. captured.new
        ≡ record captured.old { events = with_fresh captured.old.events event standing }) }
    ensures refused { IfErr result (λ fault.
        Refuses captured.old quarantine.now event number fault) }
    ensures unchanged { OnErr result (captured.new ≡ captured.old) }
{
    if is_making(event.body()) {
        capture_made(alloc, captured, quarantine, closed, event, number)
    } else {
        capture_sent(alloc, captured, quarantine, event, number)
    }
}

/// Whether it is a transformation.
fn is_making(body: &Body) -> bool
    ensures { IsTrue result ↔ IsMaking body.now }
{
    matches!(body, Body::Make { .. })
}

/// Captures a transformation that is fresh, unless it is blocked, which is found before it is added.
fn capture_made(
    alloc: Global,
    captured: &mut Captured,
    quarantine: &Quarantine,
    closed: bool,
    event: Event,
    number: u64,
) -> Result<Standing, CaptureFault>
    requires closed { closed ≡ true → IsClosedInside captured.old quarantine.now }
    requires fresh { standing_among captured.old.events event ≡ Fresh }
    requires making { IsMaking event.body }
    ensures passed { IfOk result (λ standing. Passes captured.old quarantine.now event standing) }
    ensures ok { IfOk result (λ standing. captured.new
        ≡ record captured.old { events = with_fresh captured.old.events event standing }) }
    ensures refused { IfErr result (λ fault.
        Refuses captured.old quarantine.now event number fault) }
    ensures unchanged { OnErr result (captured.new ≡ captured.old) }
{
    match first_block(alloc, captured, quarantine, closed, &event) {
        Err(_) => Err(CaptureFault::NoMemory),
        Ok(Some((recall, item))) => Err(CaptureFault::Blocked {
            recall,
            item,
            event: number,
        }),
        Ok(None) => match captured.add_event(event) {
            Ok(standing) => Ok(standing),
            Err(_) => Err(CaptureFault::NoMemory),
        },
    }
}

/// Captures an event that is fresh and no transformation, unless it is blocked: it is added, what it newly sends is
/// looked through, and where that is quarantined it is taken back.
fn capture_sent(
    alloc: Global,
    captured: &mut Captured,
    quarantine: &Quarantine,
    event: Event,
    number: u64,
) -> Result<Standing, CaptureFault>
    requires fresh { standing_among captured.old.events event ≡ Fresh }
    requires sending { IsMaking event.body → ⊥ }
    ensures passed { IfOk result (λ standing. Passes captured.old quarantine.now event standing) }
    ensures ok { IfOk result (λ standing. captured.new
        ≡ record captured.old { events = with_fresh captured.old.events event standing }) }
    ensures refused { IfErr result (λ fault.
        Refuses captured.old quarantine.now event number fault) }
    ensures unchanged { OnErr result (captured.new ≡ captured.old) }
{
    let before = captured.len();
    match captured.add_event(event) {
        Err(_) => Err(CaptureFault::NoMemory),
        Ok(standing) => match sent_block(alloc, captured, quarantine) {
            Ok(None) => Ok(standing),
            Ok(Some((recall, item))) => {
                captured.truncate(before);
                Err(CaptureFault::Blocked {
                    recall,
                    item,
                    event: number,
                })
            }
            Err(_) => {
                captured.truncate(before);
                Err(CaptureFault::NoMemory)
            }
        },
    }
}
