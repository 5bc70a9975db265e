//! The two sites, A and B, and their jobs.

use epc_core::Epc;
use event_json::{Sequence, Sites};
use site_core::{SiteInput, SiteState};
use site_threads::Job;
use std::alloc::Global;
use std::hash::RandomState;
use std::test::Fail;

/// x was made into y, and y was shipped to B.
const DOCUMENT: &str =
    "{\"type\":\"EPCISDocument\",\"epcisBody\":{\"eventList\":[{\"type\":\"TransformationEvent\",\"eventTime\":\"2024-05-01T08:00:00Z\",\"eventTimeZoneOffset\":\"+00:00\",\"inputEPCList\":[\"x\"],\"outputEPCList\":[\"y\"]},{\"type\":\"ObjectEvent\",\"eventTime\":\"2024-05-01T09:00:00Z\",\"eventTimeZoneOffset\":\"+00:00\",\"action\":\"OBSERVE\",\"epcList\":[\"y\"],\"destinationList\":[{\"destination\":\"b\"}]}]}}";

/// What A captures: x was made into y and z, and both were shipped to B.
const TO_B: &str =
    "{\"type\":\"EPCISDocument\",\"epcisBody\":{\"eventList\":[{\"type\":\"TransformationEvent\",\"eventTime\":\"2024-05-01T08:00:00Z\",\"eventTimeZoneOffset\":\"+00:00\",\"inputEPCList\":[\"x\"],\"outputEPCList\":[\"y\",\"z\"]},{\"type\":\"ObjectEvent\",\"eventTime\":\"2024-05-01T09:00:00Z\",\"eventTimeZoneOffset\":\"+00:00\",\"action\":\"OBSERVE\",\"epcList\":[\"y\",\"z\"],\"destinationList\":[{\"destination\":\"b\"}]}]}}";

/// What B captures: y was shipped back to A.
const TO_A: &str =
    "{\"type\":\"EPCISDocument\",\"epcisBody\":{\"eventList\":[{\"type\":\"ObjectEvent\",\"eventTime\":\"2024-05-01T10:00:00Z\",\"eventTimeZoneOffset\":\"+00:00\",\"action\":\"OBSERVE\",\"epcList\":[\"y\"],\"destinationList\":[{\"destination\":\"a\"}]}]}}";

/// Site A or B, which has captured nothing.
pub fn fresh(alloc: Global, keys: RandomState, second: bool) -> Result<SiteState, Fail> {
    let mut sites = Sites::new(alloc);
    let a = sites.add("A", &["a"])?;
    let b = sites.add("B", &["b"])?;
    Ok(SiteState::new(alloc, keys, sites, if second { b } else { a }))
}

/// Site A, which has captured the document and started a recall of x. Its message to B waits.
pub fn begun(alloc: Global, keys: RandomState) -> Result<SiteState, Fail> {
    let mut state = fresh(alloc, keys, false)?;
    let bytes = DOCUMENT.as_bytes().to_vec(alloc)?;
    state.apply(&SiteInput::Capture(Sequence::from_vec(bytes)))?;
    state.apply(&SiteInput::Start(Epc::read(alloc, "x")?))?;
    Ok(state)
}

/// To capture the document. `None` where there is no memory for it.
pub fn capture(alloc: Global) -> Option<Job> {
    capture_of(alloc, DOCUMENT)
}

/// To capture what A, or B, captures of what goes both ways. `None` where there is no memory for it.
pub fn both_ways(alloc: Global, second: bool) -> Option<Job> {
    capture_of(alloc, if second { TO_A } else { TO_B })
}

/// To capture this document. `None` where there is no memory for it.
fn capture_of(alloc: Global, document: &str) -> Option<Job> {
    match document.as_bytes().to_vec(alloc) {
        Ok(bytes) => Some(Job::Capture(Sequence::from_vec(bytes))),
        Err(_) => None,
    }
}

/// To start a recall of x. `None` where there is no memory for it.
pub fn start(alloc: Global) -> Option<Job> {
    match Epc::read(alloc, "x") {
        Ok(item) => Some(Job::Start(item)),
        Err(_) => None,
    }
}
