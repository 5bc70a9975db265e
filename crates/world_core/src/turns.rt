//! One event at the keeper of its site.

ghost use Rattle.std.specs.Prelude.{◌≡◌, ◌<◌, ℕ, Option, Some, None, IfOk, IsSome, OnErr};
ghost use Rattle.std.specs.Prelude.{option_map, slice_get, vec_len};
ghost use Rattle.frame_core.specs.declared.frames.Frame.{Frame};
ghost use Rattle.site_core.specs.Emitting.{frame_at as emitted};
ghost use Rattle.site_core.specs.Naming.{frame_named};
ghost use Rattle.world_core.specs.Turns.{ReopensTo, Sends, Turns, TurnsAt};
ghost use Rattle.world_core.specs.Turns.{addressee, frame_at, input_at};
ghost use Rattle.world_core.specs.Keepers.{Become, ChangesAt, KeeperBecomes, sites_of};
ghost use Rattle.world_core.specs.Posting.{IsPlaceAt, IsPlaceOf};
ghost use Rattle.world_core.specs.Kinds.{KeeperReopens, KeeperTurns, KeepersTurn};
ghost use Rattle.world_core.specs.Answers.{answer_of, hindrance};
ghost use Rattle.world_core.specs.Restarting.{AreStored};

use crate::events::{Answer, WorldEvent, WorldInput};
use event_json::SiteNo;
use frame_core::Frame;
use keeper_core::{Keep, KeepFault, SiteKeeper};
use site_core::{Effects, FrameName, SiteInput, SiteState, emittable, frame_named};
use std::alloc::{AllocError, Global};

/// A step of a site.
pub fn step_at<K: SiteKeeper>(
    alloc: Global,
    keeper: &mut K,
    sent: &[Frame],
    site: SiteNo,
    input: WorldInput,
) -> Answer
    ensures world { KeeperBecomes K.shown K.may keeper.old keeper.new
        (λ old new. TurnsAt old sent.now (WorldEvent.Step site input) result new sent.now) }
    ensures stored { K.stored keeper.old → K.stored keeper.new }
    ensures kind { KeeperTurns K.applies K.stops K.reopens (K.shown keeper.old) keeper.old sent.now
        (WorldEvent.Step site input) result keeper.new sent.now }
{
    if keeper.view().is_none() {
        return Answer::Fault(KeepFault::Closed);
    }
    match input_for(alloc, sent, site, input) {
        Err(_) => Answer::NoMemory,
        Ok(None) => Answer::NoFrame,
        Ok(Some(input)) => answered(keeper.apply(input)),
    }
}

/// What the site is given, or None where there is no such frame for it.
fn input_for(
    alloc: Global,
    sent: &[Frame],
    site: SiteNo,
    input: WorldInput,
) -> Result<Option<SiteInput>, AllocError>
    ensures found { IfOk result (λ found. found ≡ input_at sent.now site input) }
    ensures memory { OnErr result (IsSome (input_at sent.now site input)) }
{
    match input {
        WorldInput::Capture(bytes) => Ok(Some(SiteInput::Capture(bytes))),
        WorldInput::Start(root) => Ok(Some(SiteInput::Start(root))),
        WorldInput::Deliver(place) => match sent_at(sent, place) {
            None => Ok(None),
            Some(frame) => {
                if addressee(frame) != site {
                    return Ok(None);
                }
                Ok(Some(SiteInput::Deliver(frame.copy(alloc)?)))
            }
        },
    }
}

/// The frame sent at a place, from 1.
pub fn sent_at(sent: &[Frame], place: u64) -> Option<&Frame>
    ensures { option_map (λ f. f.now) result ≡ frame_at sent.now place }
{
    if place == 0 || place > sent.len() as u64 {
        return None;
    }
    sent.get((place - 1) as usize)
}

/// The site that a frame is for: the one whose number a message carries, and the sender of the message that is
/// signalled.
pub fn addressee(frame: &Frame) -> SiteNo
    ensures { result ≡ addressee frame.now }
{
    match frame {
        Frame::Recall { dest, .. } => *dest,
        Frame::Signal { id, .. } => id.site,
    }
}

/// What the keeper's answer is reported as.
fn answered(applied: Result<Effects, KeepFault>) -> Answer
    ensures { result ≡ answer_of applied }
{
    match applied {
        Ok(effects) => Answer::Done(effects),
        Err(KeepFault::NoMemory) => Answer::NoMemory,
        Err(fault) => Answer::Fault(fault),
    }
}

/// A stop of a site within a step.
pub fn stop_at<K: SiteKeeper>(
    alloc: Global,
    keeper: &mut K,
    sent: &[Frame],
    site: SiteNo,
    input: WorldInput,
    keep: Keep,
) -> Answer
    ensures world { KeeperBecomes K.shown K.may keeper.old keeper.new
        (λ old new. TurnsAt old sent.now (WorldEvent.Stop site input keep) result new sent.now) }
    ensures stored { K.stored keeper.old → K.stored keeper.new }
    ensures kind { KeeperTurns K.applies K.stops K.reopens (K.shown keeper.old) keeper.old sent.now
        (WorldEvent.Stop site input keep) result keeper.new sent.now }
{
    if keeper.view().is_none() {
        return Answer::Fault(KeepFault::Closed);
    }
    match input_for(alloc, sent, site, input) {
        Err(_) => Answer::NoMemory,
        Ok(None) => Answer::NoFrame,
        Ok(Some(input)) => {
            if keeper.stop(input, keep).is_ok() {
                Answer::Stopped
            } else {
                Answer::NoMemory
            }
        }
    }
}

/// Sends a frame that the record of a site makes emittable.
pub fn send_from<K: SiteKeeper>(
    alloc: Global,
    keeper: &K,
    sent: &mut Vec<Frame>,
    site: SiteNo,
    place: u64,
) -> Answer
    ensures world { KeeperBecomes K.shown K.may keeper.now keeper.now
        (λ old new. TurnsAt old sent.old.items (WorldEvent.Send site place) result new
        sent.new.items) }
    ensures kind { KeeperTurns K.applies K.stops K.reopens (K.shown keeper.now) keeper.now
        sent.old.items (WorldEvent.Send site place) result keeper.now sent.new.items }
{
    match keeper.view() {
        None => Answer::Fault(KeepFault::Closed),
        Some(state) => send(copy_at(alloc, state, place), sent),
    }
}

/// Sends the frame of a name, where the record of a site makes it emittable.
pub fn send_named_from<K: SiteKeeper>(
    alloc: Global,
    keeper: &K,
    sent: &mut Vec<Frame>,
    site: SiteNo,
    name: FrameName,
) -> Answer
    ensures { (place : ℕ) × IsPlaceOf (K.shown keeper.now) name place
        × KeeperBecomes K.shown K.may keeper.now keeper.now
        (λ old new. TurnsAt old sent.old.items (WorldEvent.Send site place) result new
        sent.new.items)
        × KeeperTurns K.applies K.stops K.reopens (K.shown keeper.now) keeper.now sent.old.items
        (WorldEvent.Send site place) result keeper.now sent.new.items }
{
    match keeper.view() {
        None => Answer::Fault(KeepFault::Closed),
        Some(state) => send(copy_named(alloc, state, name), sent),
    }
}

/// A copy of the frame at a place that the record makes emittable.
fn copy_at(alloc: Global, state: &SiteState, place: u64) -> Result<Option<Frame>, AllocError>
    ensures copy { IfOk result (λ frame. frame ≡ emitted state.now.engagement place) }
    ensures memory { OnErr result (IsSome (emitted state.now.engagement place)) }
{
    match emittable(state, place) {
        None => Ok(None),
        Some(frame) => Ok(Some(frame.to_frame(alloc)?)),
    }
}

/// A copy of the frame of a name that the record makes emittable.
fn copy_named(
    alloc: Global,
    state: &SiteState,
    name: FrameName,
) -> Result<Option<Frame>, AllocError>
    ensures copy { IfOk result (λ frame. frame ≡ frame_named state.now.engagement name) }
    ensures memory { OnErr result (IsSome (frame_named state.now.engagement name)) }
{
    match frame_named(state, name) {
        None => Ok(None),
        Some(frame) => Ok(Some(frame.to_frame(alloc)?)),
    }
}

/// Adds a frame to those sent, where there is one and memory for its copy was found.
fn send(frame: Result<Option<Frame>, AllocError>, sent: &mut Vec<Frame>) -> Answer
    ensures { (wanted : Option Frame) → IfOk frame (λ f. f ≡ wanted) → OnErr frame (IsSome wanted)
        → Sends wanted sent.old.items result sent.new.items }
{
    match frame {
        Err(_) => Answer::NoMemory,
        Ok(None) => Answer::NoFrame,
        Ok(Some(frame)) => {
            if sent.push(frame).is_ok() {
                Answer::Sent(sent.len() as u64)
            } else {
                Answer::NoMemory
            }
        }
    }
}

/// Opens the keeper of a site, where it is closed.
pub fn reopen_at<K: SiteKeeper>(keepers: &mut Vec<K>, sent: &[Frame], site: SiteNo) -> Answer
    requires { site < vec_len keepers.old }
    ensures world { ChangesAt keepers.old.items site keepers.new.items (λ was now.
        KeeperBecomes K.shown K.may was now
        (λ old new. TurnsAt old sent.now (WorldEvent.Reopen site) result new sent.now)) }
    ensures stored { ChangesAt keepers.old.items site keepers.new.items (λ was now.
        K.stored was → K.stored now) }
    ensures kind { ChangesAt keepers.old.items site keepers.new.items (λ was now.
        KeeperTurns K.applies K.stops K.reopens (K.shown was) was sent.now (WorldEvent.Reopen site)
        result now sent.now) }
{
    let place = site.number() as usize;
    if keepers[place].view().is_some() {
        return Answer::NotClosed;
    }
    let (keeper, answer) = reopened(keepers.remove(place));
    // There is room where it stood.
    let _ = keepers.insert(place, keeper);
    answer
}

/// Opens a closed keeper.
fn reopened<K: SiteKeeper>(keeper: K) -> (K, Answer)
    requires { K.shown keeper ≡ None }
    ensures world { KeeperBecomes K.shown K.may keeper result.0
        (λ old new. ReopensTo old result.1 new) }
    ensures stored { K.stored keeper → K.stored result.0 }
    ensures kind { KeeperReopens K.reopens keeper result.1 result.0 }
{
    match keeper.reopen() {
        Ok(keeper) => (keeper, Answer::Reopened),
        Err(unopened) => (unopened.keeper, hindered(unopened.fault)),
    }
}

/// What kept a keeper from being opened.
fn hindered(fault: KeepFault) -> Answer
    ensures { result ≡ hindrance fault }
{
    match fault {
        KeepFault::NoMemory => Answer::NoMemory,
        fault => Answer::NotReopened(fault),
    }
}

/// One event.
pub fn take_turn<K: SiteKeeper>(
    alloc: Global,
    keepers: &mut Vec<K>,
    sent: &mut Vec<Frame>,
    event: WorldEvent,
) -> Answer
    ensures world { Become K.shown K.may (sites_of keepers.old.items sent.old.items)
        (sites_of keepers.new.items sent.new.items)
        (λ old new. Turns old event result new) }
    ensures stored { AreStored K.stored keepers.old.items → AreStored K.stored keepers.new.items }
    ensures kind { KeepersTurn K.shown K.applies K.stops K.reopens
        (sites_of keepers.old.items sent.old.items) event result
        (sites_of keepers.new.items sent.new.items) }
{
    let place = event.site().number() as usize;
    if place >= keepers.len() {
        return Answer::NoSite;
    }
    match event {
        WorldEvent::Step { site, input } => {
            let keeper = &mut keepers[place];
            step_at(alloc, keeper, sent, site, input)
        }
        WorldEvent::Stop { site, input, keep } => {
            let keeper = &mut keepers[place];
            stop_at(alloc, keeper, sent, site, input, keep)
        }
        WorldEvent::Send { site, place: from } => send_from(
            alloc,
            &keepers[place],
            sent,
            site,
            from,
        ),
        WorldEvent::Reopen { site } => reopen_at(keepers, sent, site),
    }
}

/// One event that sends the frame of a name.
pub fn post<K: SiteKeeper>(
    alloc: Global,
    keepers: &Vec<K>,
    sent: &mut Vec<Frame>,
    site: SiteNo,
    name: FrameName,
) -> Answer
    ensures { (place : ℕ) × IsPlaceAt K.shown keepers.now.items site name place
        × Become K.shown K.may (sites_of keepers.now.items sent.old.items)
        (sites_of keepers.now.items sent.new.items)
        (λ old new. Turns old (WorldEvent.Send site place) result new)
        × KeepersTurn K.shown K.applies K.stops K.reopens
        (sites_of keepers.now.items sent.old.items) (WorldEvent.Send site place) result
        (sites_of keepers.now.items sent.new.items) }
{
    match keeper_at(keepers, site) {
        None => Answer::NoSite,
        Some(keeper) => send_named_from(alloc, keeper, sent, site, name),
    }
}

/// The keeper of a site.
fn keeper_at<K>(keepers: &[K], site: SiteNo) -> Option<&K>
    ensures { option_map (λ k. k.now) result ≡ slice_get keepers.now site }
{
    keepers.get(site.number() as usize)
}
