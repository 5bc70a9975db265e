//! Lines that another program made (Python's `json` and `hashlib`), and lines that carry no frame.

use epc_core::Epc;
use event_json::{SiteNo, Sites};
use frame_core::{Frame, MsgId, RecallId};
use frame_lines::{ChainId, LineFault, frame_line, read_line};
use std::alloc::Global;
use std::test::Fail;

const CHAIN: &str = "0123456789abcdef0123456789abcdef";

/// The message, as a line.
const MESSAGE: &str =
    "{\"chain\":\"0123456789abcdef0123456789abcdef\",\"frame\":\"message\",\"item\":\"uri ä\\\"\\\\x\",\"message\":\"plant.1\",\"recall\":\"plant#4611686018427387904\",\"sum\":\"50fec525af2f0496\",\"to\":\"shop-1\"}\n";

/// The signal that answers it.
const SIGNAL: &str =
    "{\"by\":\"shop-1\",\"chain\":\"0123456789abcdef0123456789abcdef\",\"frame\":\"signal\",\"message\":\"plant.1\",\"sum\":\"e2af1fdb863c88fa\",\"to\":\"plant\"}\n";

/// The plant, with two addresses, and the shop, with none.
fn sites(alloc: Global) -> Result<Sites, Fail> {
    let mut sites = Sites::new(alloc);
    let addresses = [
        "urn:epc:id:sgln:0952132.00001.0",
        "https://id.gs1.org/414/09521321000010",
    ];
    sites.add("plant", &addresses)?;
    sites.add("shop-1", &[])?;
    Ok(sites)
}

/// The first message of the plant to the shop, of the last recall that the plant can begin.
fn message(alloc: Global) -> Result<Frame, Fail> {
    let plant = SiteNo::of(0).unwrap();
    let item = Epc::read(alloc, "ä\"\\x")?;
    Ok(Frame::Recall {
        id: MsgId {
            site: plant,
            number: 1,
        },
        dest: SiteNo::of(1).unwrap(),
        recall: RecallId {
            site: plant,
            number: 1 << 62,
        },
        item,
    })
}

/// The signal that answers it.
fn signal() -> Frame {
    Frame::Signal {
        id: MsgId {
            site: SiteNo::of(0).unwrap(),
            number: 1,
        },
        by: SiteNo::of(1).unwrap(),
    }
}

/// Whether a frame is written as this line, and is read back of it, with LF, with CRLF and with neither.
fn goes_and_comes(
    alloc: Global,
    sites: &Sites,
    chain: &ChainId,
    frame: &Frame,
    line: &str,
) -> Result<bool, Fail> {
    let written = frame_line(alloc, sites, chain, &frame.view())?;
    let bare = line.trim_end_matches('\n');
    let with_both = format!(in alloc; "{bare}\r\n")?;
    for text in [line, bare, with_both.as_str()] {
        match read_line(alloc, sites, chain, text.as_bytes())? {
            Ok(read) => {
                if read != *frame {
                    return Ok(false);
                }
            }
            Err(_) => return Ok(false),
        }
    }
    Ok(written.as_str() == line)
}

#[test]
fn frames_go_and_come(rt: HostRuntime) -> Result<(), Fail> {
    let alloc = rt.alloc();
    let sites = sites(alloc)?;
    let chain = ChainId::read(CHAIN).unwrap();
    assert!(rt; goes_and_comes(alloc, &sites, &chain, &message(alloc)?, MESSAGE)?);
    assert!(rt; goes_and_comes(alloc, &sites, &chain, &signal(), SIGNAL)?);
    Ok(())
}

/// Whether a line has this fault.
fn has(
    alloc: Global,
    sites: &Sites,
    chain: &ChainId,
    line: &str,
    fault: LineFault,
) -> Result<bool, Fail> {
    match read_line(alloc, sites, chain, line.as_bytes())? {
        Ok(_) => Ok(false),
        Err(found) => Ok(found == fault),
    }
}

#[test]
fn other_lines_have_faults(rt: HostRuntime) -> Result<(), Fail> {
    let alloc = rt.alloc();
    let sites = sites(alloc)?;
    let chain = ChainId::read(CHAIN).unwrap();
    let rows = [
        ("", LineFault::BadFrame),
        ("{}", LineFault::BadFrame),
        ("\"chain\"", LineFault::BadFrame),
        ("{\"chain\":\"x\"}", LineFault::OtherChain),
        ("{\"chain\":1}", LineFault::BadFrame),
        (
            "{\"by\":\"shop-1\",\"chain\":\"0123456789abcdef0123456789abcdef\",\"frame\":\"signal\",\"message\":\"plant.1\",\"sum\":\"e2af1fdb863c88fa\",\"to\":\"plant\"}\n\n",
            LineFault::BadFrame,
        ),
        (
            "{\"by\":\"shop-1\",\"chain\":\"0123456789abcdef0123456789abcdef\",\"frame\":\"signal\",\"message\":\"plant.1\",\"sum\":\"e2af1fdb863c88fa\",\"to\":\"plant\"} ",
            LineFault::BadFrame,
        ),
        (
            "{\"by\":\"shop-1\",\"chain\":\"0123456789abcdef0123456789abcdef\",\"frame\":\"signal\",\"message\":\"plant.1\",\"sum\":\"e2af1fdb863c88fa\",\"to\":\"plant",
            LineFault::BadFrame,
        ),
        (
            "{\"by\":\"plant\",\"chain\":\"0123456789abcdef0123456789abcdef\",\"frame\":\"signal\",\"message\":\"plant.1\",\"sum\":\"e2af1fdb863c88fa\",\"to\":\"plant\"}",
            LineFault::BadSum,
        ),
        (
            "{\"by\":\"shop-1\",\"chain\":\"0123456789abcdef0123456789abcdef\",\"frame\":\"signal\",\"message\":\"plant.2\",\"sum\":\"e2af1fdb863c88fa\",\"to\":\"plant\"}",
            LineFault::BadSum,
        ),
        (
            "{\"by\":\"shop-1\",\"chain\":\"0123456789abcdef0123456789abcdef\",\"frame\":\"signal\",\"message\":\"plant.1\",\"sum\":\"e2b01fdb863c88fa\",\"to\":\"plant\"}",
            LineFault::BadSum,
        ),
        (
            "{\"by\":\"shop-1\",\"chain\":\"0123456789abcdef0123456789abcdef\",\"frame\":\"signal\",\"message\":\"plant.1\",\"sum\":\"E2AF1fdb863c88fa\",\"to\":\"plant\"}",
            LineFault::BadSum,
        ),
        (
            "{\"by\":\"shop-1\",\"chain\":\"0123456789abcdef0123456789abcdef\",\"frame\":\"signal\",\"message\":\"plant.1\",\"to\":\"plant\"}",
            LineFault::BadFrame,
        ),
        (
            "{\"by\":\"shop-1\",\"chain\":\"0123456789abcdef0123456789abcdef\",\"frame\":\"signal\",\"message\":\"plant.01\",\"sum\":\"e2af1fdb863c88fa\",\"to\":\"plant\"}",
            LineFault::BadFrame,
        ),
        (
            "{\"by\":\"shop-1\",\"chain\":\"0123456789abcdef0123456789abcdef\",\"frame\":\"signal\",\"message\":\"plant.+1\",\"sum\":\"e2af1fdb863c88fa\",\"to\":\"plant\"}",
            LineFault::BadFrame,
        ),
        (
            "{\"by\":\"shop-1\",\"chain\":\"0123456789abcdef0123456789abcdef\",\"frame\":\"signal\",\"message\":\"plant.18446744073709551616\",\"sum\":\"e2af1fdb863c88fa\",\"to\":\"plant\"}",
            LineFault::BadFrame,
        ),
        (
            "{\"by\":\"shop-1\",\"chain\":\"0123456789abcdef0123456789abcdef\",\"frame\":\"signal\",\"message\":\"plant.1\",\"sum\":\"e2af1fdb863c88fa\",\"to\":\"shop-1\"}",
            LineFault::BadFrame,
        ),
        (
            "{\"by\":\"shop\",\"chain\":\"0123456789abcdef0123456789abcdef\",\"frame\":\"signal\",\"message\":\"plant.1\",\"sum\":\"e2af1fdb863c88fa\",\"to\":\"plant\"}",
            LineFault::BadFrame,
        ),
        (
            "{\"by\":\"shop-1\",\"chain\":\"9123456789abcdef0123456789abcdef\",\"frame\":\"signal\",\"message\":\"plant.1\",\"sum\":\"e2af1fdb863c88fa\",\"to\":\"plant\"}",
            LineFault::OtherChain,
        ),
    ];
    for (line, fault) in &rows {
        assert!(rt; has(alloc, &sites, &chain, line, *fault)?, "{line}");
    }
    Ok(())
}
