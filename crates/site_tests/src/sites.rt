//! The sites A, B and C, with the addresses a, b and c, and what they are given.
//!
//! What a site is given is told in short, which holds no memory, so that little has to be dropped where a call fails.
ghost use Rattle.std.specs.Prelude.{◌<◌};
ghost use Rattle.frame_core.specs.Unsignalled.{IsNextNumber};

use epc_core::Epc;
use event_json::{Sequence, SiteNo, Sites};
use frame_core::{Frame, LAST_NUMBER, MsgId, RecallId, tables};
use scholten_core::Diffusion;
use site_core::{Quarantine, SiteInput, SiteState};
use std::alloc::Global;
use std::collections::BTreeMap;
use std::hash::RandomState;
use std::test::Fail;

/// The times of an event.
pub const TIMES: &str = "\"eventTime\":\"2024-05-01T08:00:00Z\",\"eventTimeZoneOffset\":\"+00:00\"";

/// One of the sites.
#[derive(Clone, Copy)]
pub enum At {
    A,
    B,
    C,
}

use At::{A, B, C};

/// What a site is given. Items and addresses are of one letter.
#[derive(Clone, Copy)]
pub enum Given {
    /// The document of one transformation, of the one item into the other.
    Made(char, char),
    /// The document of one shipment of an item to an address, with an eventID of both.
    Shipped(char, char),
    /// A recall of an item.
    Recalled(char),
    /// The message of a site with a number, for another site, which announces the item under the recall A#1.
    Told(At, u64, At, char),
    /// For the message of a site with a number the signal of another site.
    Signalled(At, u64, At),
}

use Given::{Made, Recalled, Shipped, Signalled, Told};

/// The place of a site.
fn place(at: At) -> u64
    ensures { result < 3 }
{
    match at {
        A => 0,
        B => 1,
        C => 2,
    }
}

/// The number of a site.
pub fn number(at: At) -> SiteNo {
    SiteNo::of(place(at)).unwrap()
}

/// The message of a site with a number.
pub fn message(at: At, number_of_it: u64) -> MsgId {
    MsgId {
        site: number(at),
        number: number_of_it,
    }
}

/// The recall A#1.
pub fn recall() -> RecallId {
    RecallId {
        site: number(A),
        number: 1,
    }
}

fn document(text: String) -> SiteInput {
    SiteInput::Capture(Sequence::from_vec(text.into_bytes()))
}

/// The item of a letter.
pub fn item(alloc: Global, letter: char) -> Result<Epc, Fail> {
    let text = format!(in alloc; "{letter}")?;
    Ok(Epc::read(alloc, text.as_str())?)
}

/// What a site is given, at length.
pub fn input(alloc: Global, given: Given) -> Result<SiteInput, Fail> {
    match given {
        Made(from, to) => Ok(document(format!(in alloc;
            "{{\"type\":\"TransformationEvent\",{TIMES},\"inputEPCList\":[\"{from}\"],\"outputEPCList\":[\"{to}\"]}}"
        )?)),
        Shipped(letter, to) => Ok(document(format!(in alloc;
            "{{\"type\":\"ObjectEvent\",{TIMES},\"eventID\":\"{letter}{to}\",\"action\":\"OBSERVE\",\"epcList\":[\"{letter}\"],\"destinationList\":[{{\"destination\":\"{to}\"}}]}}"
        )?)),
        Recalled(root) => Ok(SiteInput::Start(item(alloc, root)?)),
        Told(from, count, dest, letter) => Ok(SiteInput::Deliver(Frame::Recall {
            id: message(from, count),
            dest: number(dest),
            recall: recall(),
            item: item(alloc, letter)?,
        })),
        Signalled(from, count, by) => Ok(SiteInput::Deliver(Frame::Signal {
            id: message(from, count),
            by: number(by),
        })),
    }
}

/// A site that keeps nothing.
pub fn fresh(alloc: Global, keys: RandomState, me: At) -> Result<SiteState, Fail> {
    let mut sites = Sites::new(alloc);
    for (name, address) in [("A", "a"), ("B", "b"), ("C", "c")] {
        sites.add(name, &[address])?;
    }
    let me = number(me);
    if me.number() < sites.len() {
        Ok(SiteState::new(alloc, keys, sites, me))
    } else {
        Err("no such site".into())
    }
}

/// Gives a site this, which it is to take.
fn give(alloc: Global, state: &mut SiteState, given: Given) -> Result<(), Fail> {
    state.apply(&input(alloc, given)?)?;
    Ok(())
}

/// A site once it was given all this, one after another.
pub fn after(alloc: Global, keys: RandomState, me: At, all: &[Given]) -> Result<SiteState, Fail> {
    let mut state = fresh(alloc, keys, me)?;
    for given in all {
        give(alloc, &mut state, *given)?;
    }
    Ok(state)
}

/// A number that may come next: the first, where this is none.
fn next_number(next: u64) -> u64
    ensures { IsNextNumber result }
{
    if next == 0 || next > LAST_NUMBER + 1 {
        1
    } else {
        next
    }
}

/// What a site keeps of recalls without what was seen and parents, as the site of this number, where these numbers come
/// next.
fn sent_alone(
    alloc: Global,
    state: &SiteState,
    me: At,
    next: (u64, u64),
) -> Result<Diffusion, Fail> {
    let rows = tables::copy(alloc, state.outbox())?;
    let own = tables::copy(alloc, state.own_recalls())?;
    let (seen, parents) = (BTreeMap::new(alloc), BTreeMap::new(alloc));
    let (message, recall) = (next_number(next.0), next_number(next.1));
    Ok(Diffusion::restore(alloc, number(me), rows, seen, parents, own, message, recall)?)
}

/// A site of this number that captured what the one did, sent and began what the other did, and, if so, quarantined
/// what that did: it has seen no message, and has no parents, and no steps lead there. None where that makes no
/// record.
pub fn joined(
    alloc: Global,
    one: &SiteState,
    other: &SiteState,
    is_held: bool,
    me: At,
    next: (u64, u64),
) -> Result<Option<SiteState>, Fail> {
    let diffusion = sent_alone(alloc, other, me, next)?;
    let sites = one.sites().copy(alloc)?;
    let captured = one.captured().copy(alloc)?;
    let quarantine = if is_held {
        other.quarantine().copy(alloc)?
    } else {
        Quarantine::new(alloc)
    };
    Ok(SiteState::restore_if_sound(alloc, sites, captured, quarantine, diffusion))
}
