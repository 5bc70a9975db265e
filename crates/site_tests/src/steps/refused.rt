//! A document and steps of which one growth may be refused: `tests/hostile.sh` refuses each one in turn. Where that is while an
//! input is made the test fails for want of memory, and else it passes. With ample memory nothing is done again.
use super::Want::Done;
use super::{FRESH, Row, Want, is_answer, started, taken};
use crate::sites::At::{A, B};
use crate::sites::Given::{Made, Recalled, Shipped, Signalled, Told};
use crate::sites::{TIMES, fresh, input, recall};
use event_json::{ReadFault, Sites, read_document};
use site_core::{Effects, Refusal, SiteInput, SiteState};
use std::alloc::Global;
use std::hash::RandomState;
use std::test::Fail;

/// Whether the document is read, if need be the second time.
fn is_read(alloc: Global, document: &str, sites: &Sites) -> bool {
    match read_document(alloc, document.as_bytes(), sites) {
        Err(ReadFault::NoMemory) => read_document(alloc, document.as_bytes(), sites).is_ok(),
        answer => answer.is_ok(),
    }
}

#[test]
fn a_document_is_read_where_growth_is_refused(rt: HostRuntime) -> Result<(), Fail> {
    let mut sites = Sites::new(rt.alloc());
    sites.add("B", &["b"])?;
    let document = format!(in rt.alloc();
        "{{\"type\":\"EPCISDocument\",\"epcisBody\":{{\"eventList\":[{{\"type\":\"TransformationEvent\",{TIMES},\"eventID\":\"e\",\"inputEPCList\":[\"x\"],\"outputEPCList\":[\"y\"]}},{{\"type\":\"ObjectEvent\",{TIMES},\"action\":\"OBSERVE\",\"epcList\":[\"y\"],\"destinationList\":[{{\"destination\":\"b\"}}]}}]}}}}"
    )?;
    assert!(rt; is_read(rt.alloc(), document.as_str(), &sites));
    Ok(())
}

/// Whether the site gives this answer, if need be the second time.
fn gives_again(state: &mut SiteState, input: &SiteInput, want: Want) -> bool {
    match state.apply(input) {
        Err(Refusal::NoMemory) => is_answer(&state.apply(input), want),
        answer => is_answer(&answer, want),
    }
}

/// Whether the site gives these answers, one after another.
fn give_again(alloc: Global, state: &mut SiteState, rows: &[Row]) -> Result<bool, Fail> {
    for row in rows {
        let input = input(alloc, row.0)?;
        if !gives_again(state, &input, row.1) {
            return Ok(false);
        }
    }
    Ok(true)
}

/// Site A makes y of x, ships y to B, starts a recall of x, takes a message of B with y, twice, and the signal that
/// ends its own; then a message of B with z.
fn steps(alloc: Global, a: &mut SiteState) -> Result<bool, Fail> {
    let rows = [
        (Made('x', 'y'), FRESH),
        (Shipped('y', 'b'), FRESH),
        (Recalled('x'), started(2, 1)),
        (Told(B, 1, A, 'y'), taken(0, 0, false)),
        (Told(B, 1, A, 'y'), Done(Effects::Repeat)),
        (Signalled(A, 1, B), Done(Effects::Ended(recall()))),
        (Told(B, 2, A, 'z'), taken(1, 0, false)),
    ];
    give_again(alloc, a, &rows)
}

#[test]
fn steps_are_taken_where_growth_is_refused(rt: HostRuntime) -> Result<(), Fail> {
    let keys = RandomState::new(&rt)?;
    let mut a = fresh(rt.alloc(), keys, A)?;
    assert!(rt; steps(rt.alloc(), &mut a)?);
    Ok(())
}
