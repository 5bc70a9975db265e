//! What an audit tells of records that no run leads to, beside the worked recall of two sites.
//!
//! What a site went through is given in short, which holds no memory, and an answer is looked at by functions that
//! take none, so that little has to be dropped where a call fails.
use crate::numbers::site;
use epc_core::{Epc, EpcForm};
use event_json::{Sequence, SiteNo, Sites};
use frame_core::{Frame, MsgId, RecallId};
use report_core::{ReportFault, Verdict, audit};
use site_core::{SiteInput, SiteState};
use site_recovery::are_all_sites;
use std::alloc::Global;
use std::hash::RandomState;
use std::test::Fail;
use trace_core::Pair;

/// The times of an event.
const TIMES: &str = "\"eventTime\":\"2024-05-01T08:00:00Z\",\"eventTimeZoneOffset\":\"+00:00\"";

/// An input in short. Items and destinations are of one letter.
#[derive(Clone, Copy)]
enum Short {
    Made(char, char),
    Shipped(char, char),
    /// A recall of x.
    Start,
    /// The message A.1 to B, which notifies it of y under the recall A#1.
    Told,
    /// B's signal for that message.
    Signal,
}

/// The recall A#1.
fn recall() -> RecallId {
    RecallId {
        site: site(0),
        number: 1,
    }
}

/// The message A.1.
fn message() -> MsgId {
    MsgId {
        site: site(0),
        number: 1,
    }
}

fn document(text: String) -> SiteInput {
    SiteInput::Capture(Sequence::from_vec(text.into_bytes()))
}

fn input(alloc: Global, short: Short) -> Result<SiteInput, Fail> {
    match short {
        Short::Made(from, to) => Ok(document(format!(in alloc;
            "{{\"type\":\"TransformationEvent\",{TIMES},\"inputEPCList\":[\"{from}\"],\"outputEPCList\":[\"{to}\"]}}"
        )?)),
        Short::Shipped(item, to) => Ok(document(format!(in alloc;
            "{{\"type\":\"ObjectEvent\",{TIMES},\"action\":\"OBSERVE\",\"epcList\":[\"{item}\"],\"destinationList\":[{{\"destination\":\"{to}\"}}]}}"
        )?)),
        Short::Start => Ok(SiteInput::Start(Epc::read(alloc, "x")?)),
        Short::Told => Ok(SiteInput::Deliver(Frame::Recall {
            id: message(),
            dest: site(1),
            recall: recall(),
            item: Epc::read(alloc, "y")?,
        })),
        Short::Signal => Ok(SiteInput::Deliver(Frame::Signal {
            id: message(),
            by: site(1),
        })),
    }
}

/// The sites A and B, with the addresses a and b.
fn two_sites(alloc: Global) -> Result<Sites, Fail> {
    let mut sites = Sites::new(alloc);
    sites.add("A", &["a"])?;
    sites.add("B", &["b"])?;
    Ok(sites)
}

/// One of the sites, which keeps nothing.
fn fresh(alloc: Global, keys: RandomState, me: SiteNo) -> Result<SiteState, Fail> {
    let sites = two_sites(alloc)?;
    if me.number() < sites.len() as u64 {
        Ok(SiteState::new(alloc, keys, sites, me))
    } else {
        Err("no such site".into())
    }
}

fn goes_on(alloc: Global, state: &mut SiteState, short: Short) -> Result<(), Fail> {
    let input = input(alloc, short)?;
    state.apply(&input)?;
    Ok(())
}

/// The site after these inputs.
fn after(
    alloc: Global,
    keys: RandomState,
    me: SiteNo,
    inputs: &[Short],
) -> Result<SiteState, Fail> {
    let mut state = fresh(alloc, keys, me)?;
    for short in inputs {
        goes_on(alloc, &mut state, *short)?;
    }
    Ok(state)
}

/// What a recall of A#1 goes through at A: y is made of x and shipped to B, the recall begins and ends.
const WHOLE: [Short; 4] = [
    Short::Made('x', 'y'),
    Short::Shipped('y', 'b'),
    Short::Start,
    Short::Signal,
];

/// What an audit of A#1 returns where A and B went through this.
fn audited(
    alloc: Global,
    keys: RandomState,
    a: &[Short],
    b: &[Short],
) -> Result<Result<Verdict, ReportFault>, Fail> {
    let a = after(alloc, keys, site(0), a)?;
    let b = after(alloc, keys, site(1), b)?;
    if are_all_sites(&[&a, &b]) {
        Ok(audit(alloc, &[&a, &b], recall()))
    } else {
        Err("not all sites".into())
    }
}

/// Whether the item is the one of this text, of no GS1 key.
fn is_item(item: &Epc, text: &str) -> bool {
    match item.form() {
        EpcForm::Other(own) => own.as_str() == text,
        _ => false,
    }
}

/// Whether the pair is this item at this site.
fn is_pair(pair: &Pair, site: u64, text: &str) -> bool {
    pair.site.number() == site && is_item(&pair.item, text)
}

/// Whether y at B is missing, or too much.
fn differs_at_b(verdict: &Result<Verdict, ReportFault>, wanted: bool) -> bool {
    match verdict {
        Ok(Verdict::Differs { pair, missing }) => *missing == wanted && is_pair(pair, 1, "y"),
        _ => false,
    }
}

#[test]
fn an_audit_tells_what_differs(rt: HostRuntime) -> Result<(), Fail> {
    let keys = RandomState::new(&rt)?;
    let equal = audited(rt.alloc(), keys, &WHOLE, &[Short::Told])?;
    assert!(rt; equal == Ok(Verdict::Equal(3)));
    // B's record is from before the recall.
    let missing = audited(rt.alloc(), keys, &WHOLE, &[])?;
    assert!(rt; differs_at_b(&missing, true));
    // A's record has lost the shipment.
    let lost = [Short::Made('x', 'y'), Short::Start];
    let extra = audited(rt.alloc(), keys, &lost, &[Short::Told])?;
    assert!(rt; differs_at_b(&extra, false));
    let unknown = audited(rt.alloc(), keys, &[], &[])?;
    assert!(rt; unknown == Err(ReportFault::UnknownRecall));
    Ok(())
}

/// Whether x at B is missing.
fn x_is_missing_at_b(verdict: &Result<Verdict, ReportFault>) -> bool {
    match verdict {
        Ok(Verdict::Differs { pair, missing }) => *missing && is_pair(pair, 1, "x"),
        _ => false,
    }
}

#[test]
fn an_audit_names_the_least_pair_that_differs(rt: HostRuntime) -> Result<(), Fail> {
    let keys = RandomState::new(&rt)?;
    // B's record is from before the recall, and lacks y, too.
    let a = [
        Short::Made('x', 'y'),
        Short::Shipped('y', 'b'),
        Short::Shipped('x', 'b'),
        Short::Start,
    ];
    let verdict = audited(rt.alloc(), keys, &a, &[])?;
    assert!(rt; x_is_missing_at_b(&verdict));
    Ok(())
}
