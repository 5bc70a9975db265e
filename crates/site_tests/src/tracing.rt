//! How often the parts of a transformation are looked at, which no program tells.

use epc_core::Epc;
use event_json::{SiteNo, Sites, read_document};
use std::alloc::Global;
use std::hash::RandomState;
use std::test::Fail;
use trace_core::Captured;

/// A document of 1,000 parts of transformation t, each with one item of its list of inputs, or of outputs, which the
/// item is named by.
fn parts(alloc: Global, list: &str) -> Result<String, Fail> {
    let mut text = String::from_str(
        alloc,
        r#"{"type":"EPCISDocument","epcisBody":{"eventList":["#,
    )?;
    for item in 0..1000 {
        let comma = if item == 0 { "" } else { "," };
        let part = format!(in alloc;
            r#"{comma}{{"type":"TransformationEvent","eventTime":"2024-05-01T08:00:00Z","eventTimeZoneOffset":"+00:00","transformationID":"t","{list}":["{list}{item}"]}}"#
        )?;
        text.push_str(part.as_str())?;
    }
    text.push_str("]}}")?;
    Ok(text)
}

/// Captures a document.
fn capture(alloc: Global, site: &mut Captured, text: &str) -> Result<(), Fail> {
    site.add(read_document(alloc, text.as_bytes(), &Sites::new(alloc))?.events)?;
    Ok(())
}

/// Captures 1,000 parts of one input, or of one output.
fn capture_parts(alloc: Global, site: &mut Captured, list: &str) -> Result<(), Fail> {
    capture(alloc, site, parts(alloc, list)?.as_str())
}

/// Whether the spread of the first input has 1,001 items, found by 2,001 looks: one at each of them, and one at each
/// output.
fn spreads_to_all_outputs(alloc: Global, site: &Captured) -> Result<bool, Fail> {
    let items = [Epc::read(alloc, "inputEPCList0")?];
    let (found, looks) = site.spread_counted(&items)?;
    Ok(found.len() == 1001 && looks == 2001)
}

/// Whether so it is at a site with a transformation that is reported in parts: 1,000 of one input, and 1,000 of one
/// output.
fn parts_are_looked_at_once(alloc: Global, keys: RandomState) -> Result<bool, Fail> {
    let mut site = Captured::new(alloc, keys, SiteNo::of(0).unwrap());
    capture_parts(alloc, &mut site, "inputEPCList")?;
    capture_parts(alloc, &mut site, "outputEPCList")?;
    Ok(site.len() == 2000 && spreads_to_all_outputs(alloc, &site)?)
}

#[test]
fn looks_at_each_part_once(rt: HostRuntime) -> Result<(), Fail> {
    let keys = RandomState::new(&rt)?;
    assert!(rt; parts_are_looked_at_once(rt.alloc(), keys)?);
    Ok(())
}
