//! The steps of a recall at site A, and what its record has.
ghost use Rattle.std.specs.Prelude.{◌<◌};

use crate::sites::{Keeping, Site, fresh};
use epc_core::Epc;
use event_json::{Sequence, SiteNo};
use frame_core::{Frame, MsgId, RecallId};
use keeper_core::{Keep, KeepFault, SiteKeeper, Unopened};
use site_core::{SiteInput, SiteState};
use std::alloc::Global;

/// A transformation of x into y, and a shipment of y to site B with an eventID.
const DOCUMENT: &str = "{\"type\":\"EPCISDocument\",\"epcisBody\":{\"eventList\":[\
     {\"type\":\"TransformationEvent\",\"eventTime\":\"2024-05-01T08:00:00Z\",\
     \"eventTimeZoneOffset\":\"+00:00\",\"inputEPCList\":[\"x\"],\"outputEPCList\":[\"y\"]},\
     {\"type\":\"ObjectEvent\",\"eventTime\":\"2024-05-01T08:00:00Z\",\"eventTimeZoneOffset\":\"+00:00\",\
     \"eventID\":\"e\",\"action\":\"OBSERVE\",\"epcList\":[\"y\"],\
     \"destinationList\":[{\"destination\":\"b\"}]}]}}";

/// What happens.
#[derive(Clone, Copy)]
pub enum Step {
    /// The site takes the input of this number.
    Takes(u64),
    /// It stops as it takes it.
    Stops(u64, Keep),
    /// It is opened again.
    Opens,
}

use Step::{Opens, Stops, Takes};

/// A recall from the capture of its document to its end. A message of B comes twice. The site stops and is opened
/// again.
pub const WITH_OPENINGS: [Step; 9] = [
    Takes(0),
    Stops(1, Keep::Old),
    Opens,
    Takes(1),
    Takes(2),
    Stops(3, Keep::Old),
    Opens,
    Takes(2),
    Takes(3),
];

/// A recall in which the site stops in a step, whose record is to be kept, and is opened again.
pub const WITH_STOPS: [Step; 7] = [
    Stops(0, Keep::New),
    Opens,
    Takes(1),
    Stops(2, Keep::New),
    Opens,
    Takes(2),
    Takes(3),
];

/// The site of a number, 0 for A.
fn site(number: u64) -> SiteNo
    requires { number < 16 }
{
    SiteNo::of(number).unwrap()
}

/// What A takes: the document, a start, a message of B, and from 3 on the signals of B for its messages.
pub fn input(alloc: Global, number: u64) -> Option<SiteInput> {
    let (a, b) = (site(0), site(1));
    Some(match number {
        0 => SiteInput::Capture(Sequence::from_vec(DOCUMENT.as_bytes().to_vec(alloc).ok()?)),
        1 => SiteInput::Start(Epc::read(alloc, "x").ok()?),
        2 => SiteInput::Deliver(Frame::Recall {
            id: MsgId { site: b, number: 1 },
            dest: a,
            recall: RecallId { site: b, number: 1 },
            item: Epc::read(alloc, "x").ok()?,
        }),
        _ => SiteInput::Deliver(Frame::Signal {
            id: MsgId {
                site: a,
                number: number.saturating_sub(2),
            },
            by: b,
        }),
    })
}

/// How many events, messages, messages seen, parents and own recalls a record has, how many of these have ended, and
/// which numbers come next.
pub type Sizes = [u64; 8];

/// How many of its own recalls have ended.
fn ended(state: &SiteState) -> u64 {
    let mut count: u64 = 0;
    for (_, own) in state.own_recalls() {
        if own.ended {
            count = count.saturating_add(1);
        }
    }
    count
}

/// What a record has.
pub fn sizes(state: &SiteState) -> Sizes {
    [
        state.captured().len() as u64,
        state.outbox().len() as u64,
        state.seen().len() as u64,
        state.parents().len() as u64,
        state.own_recalls().len() as u64,
        ended(state),
        state.next_message(),
        state.next_recall(),
    ]
}

/// What the site shows; none where it is closed.
pub fn shown(site: &Site) -> Option<Sizes> {
    match site.view() {
        Some(state) => Some(sizes(state)),
        None => None,
    }
}

/// What became of a step.
#[derive(Clone, Copy, PartialEq, Eq)]
pub enum Outcome {
    /// It was done.
    Done,
    /// The device failed.
    Failed,
    /// Memory ran out.
    NoMemory,
    /// It was answered otherwise.
    Other,
}

/// What became of a step that wasn't done.
fn of(fault: &KeepFault) -> Outcome {
    match fault {
        KeepFault::Device => Outcome::Failed,
        KeepFault::NoMemory => Outcome::NoMemory,
        _ => Outcome::Other,
    }
}

/// The site takes an input.
pub fn takes(alloc: Global, site: &mut Site, number: u64) -> Outcome {
    let Some(input) = input(alloc, number) else {
        return Outcome::NoMemory;
    };
    match site.apply(input) {
        Ok(_) => Outcome::Done,
        Err(fault) => of(&fault),
    }
}

/// The site stops as it takes an input, of which nothing is reported.
fn stops(alloc: Global, site: &mut Site, number: u64, keep: Keep) -> Outcome {
    let Some(input) = input(alloc, number) else {
        return Outcome::NoMemory;
    };
    match site.stop(input, keep) {
        Ok(()) => Outcome::Done,
        Err(_) => Outcome::NoMemory,
    }
}

/// The site is opened again.
pub fn reopens(site: Site) -> (Site, Outcome) {
    match site.reopen() {
        Ok(site) => (site, Outcome::Done),
        Err(Unopened { keeper, fault }) => (keeper, of(&fault)),
    }
}

/// A step happens.
pub fn happens(alloc: Global, site: Site, step: Step) -> (Site, Outcome) {
    let mut site = site;
    match step {
        Takes(number) => {
            let outcome = takes(alloc, &mut site, number);
            (site, outcome)
        }
        Stops(number, keep) => {
            let outcome = stops(alloc, &mut site, number, keep);
            (site, outcome)
        }
        Opens => reopens(site),
    }
}

/// Makes the steps until one isn't done: how many were done, and what became of that one.
pub fn steps_done(alloc: Global, site: Site, steps: &[Step]) -> (Site, usize, Outcome) {
    let mut site = site;
    for (place, step) in steps.iter().enumerate() {
        let (next, outcome) = happens(alloc, site, *step);
        site = next;
        if outcome != Outcome::Done {
            return (site, place, outcome);
        }
    }
    (site, steps.len(), Outcome::Done)
}

/// A step at a site in memory, which is never closed. None where memory ran out.
pub fn changes(alloc: Global, state: &mut SiteState, step: Step) -> Option<()> {
    match step {
        Takes(number) | Stops(number, Keep::New) => {
            let _ = state.apply(&input(alloc, number)?).ok()?;
            Some(())
        }
        Stops(_, Keep::Old) | Opens => Some(()),
    }
}

/// What a site in memory has before each of these steps, and after the last one.
pub fn records(keeping: &Keeping, steps: &[Step]) -> Option<Vec<Sizes>> {
    let mut state = fresh(keeping)?;
    let mut records = Vec::new(keeping.alloc);
    for step in steps {
        records.push(sizes(&state)).ok()?;
        changes(keeping.alloc, &mut state, *step)?;
    }
    records.push(sizes(&state)).ok()?;
    Some(records)
}

/// The first step of which nothing is known, where so many were done: where an opening failed, the stop before it.
fn first_unknown(steps: &[Step], done: usize) -> usize {
    match steps.get(done) {
        Some(Opens) => done.saturating_sub(1),
        _ => done,
    }
}

/// Whether this is what the site had before the step that failed, where so many were done, or after it.
pub fn is_old_or_new(now: Sizes, records: &[Sizes], steps: &[Step], done: usize) -> bool {
    let first = first_unknown(steps, done);
    for (place, then) in records.iter().enumerate() {
        if first <= place && place <= done.saturating_add(1) && *then == now {
            return true;
        }
    }
    false
}

/// What had no answer happens again, and all behind it; then come B's message and its signals for three messages.
pub fn goes_on(alloc: Global, site: &mut Site, steps: &[Step], done: usize) {
    let first = first_unknown(steps, done);
    for (place, step) in steps.iter().enumerate() {
        if first <= place {
            if let Takes(number) | Stops(number, _) = step {
                let _ = takes(alloc, site, *number);
            }
        }
    }
    for number in 2..6 {
        let _ = takes(alloc, site, number);
    }
}

/// Whether the site has begun a recall, and each that it began has ended.
pub fn all_ended(site: &Site) -> bool {
    match site.view() {
        Some(state) => !state.own_recalls().is_empty()
            && ended(state) == state.own_recalls().len() as u64,
        None => false,
    }
}
