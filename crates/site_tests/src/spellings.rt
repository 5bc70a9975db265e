//! Which texts name a unit, and which a lot, by rows.

use document_convert::{link_of, lot_of};
use std::test::*;

/// Whether a text has this one spelling; `-` where it has none.
fn is(spelling: &Option<String>, want: &str) -> bool {
    match spelling {
        Some(text) => text.as_str() == want,
        None => want == "-",
    }
}

/// The one link of the unit that a text names.
#[test]
fn links(rt: HostRuntime) -> Result<(), Fail> {
    let unit = "https://id.gs1.org/01/04012345123456/21/7";
    let pallet = "https://id.gs1.org/00/106141412345678908";
    let rows = [
        (unit, unit),
        ("http://example.com/01/4012345123456/21/7?21=8#9", unit),
        ("https://a.b/gtin/04012345123456/cpv/2A/lot/L/ser/7", unit),
        ("https://a.b/01/04012345123456/10/L/21/7", unit),
        ("(01)04012345123456(10)L(21)7", unit),
        ("(21)7(01)04012345123456", unit),
        ("https://a.b/00/106141412345678908", pallet),
        ("https://a.b/sscc/106141412345678908?x", pallet),
        ("(00)106141412345678908", pallet),
        (
            "https://a.b/01/96385074/21/A%2fB",
            "https://id.gs1.org/01/00000096385074/21/A%2FB",
        ),
        ("https://a.b/01/04012345123457/21/7", "-"),
        ("https://a.b/01/04012345123456/21/7/235/x", "-"),
        ("https://a.b/x/01/04012345123456/21/7", "-"),
        ("https://a.b/01/04012345123456/10/L/22/2A/21/7", "-"),
        ("https://a.b/01/04012345123456?21=7", "-"),
        ("https://a.b/01/4012345123456789/21/7", "-"),
        ("https://a.b/01/04012345123456/21/", "-"),
        ("https://a.b/00/106141412345678909", "-"),
        ("ftp://a.b/01/04012345123456/21/7", "-"),
        ("0104012345123456217", "-"),
        ("(01)04012345123457(21)7", "-"),
        ("(01)04012345123456(10)L", "-"),
        ("urn:epc:id:sgtin:4012345.012345.7", "-"),
    ];
    for (text, want) in &rows {
        assert!(rt; is(&link_of(rt.alloc(), text)?, want));
    }
    Ok(())
}

/// The one spelling of the lot that a text names.
#[test]
fn lots(rt: HostRuntime) -> Result<(), Fail> {
    let lot = "https://id.gs1.org/01/04012345123456/10/998877";
    let rows = [
        ("urn:epc:class:lgtin:4012345.012345.998877", lot),
        (lot, lot),
        ("http://id.gs1.org/01/4012345123456/10/998877", lot),
        (
            "https://example.com/01/04012345123456/10/998877?17=261231#x",
            lot,
        ),
        (
            "https://example.com/01/96385074/10/a-b.c_d",
            "https://id.gs1.org/01/00000096385074/10/a-b.c_d",
        ),
        (
            "urn:epc:class:lgtin:4012345.012345.A%2fB",
            "https://id.gs1.org/01/04012345123456/10/A%2FB",
        ),
        (
            "https://id.gs1.org/01/04012345123456/10/A%252FB",
            "https://id.gs1.org/01/04012345123456/10/A%252FB",
        ),
        (
            "https://id.gs1.org/01/04012345123456/10/LOT%2D9!",
            "https://id.gs1.org/01/04012345123456/10/LOT-9%21",
        ),
        ("https://a.b/gtin/04012345123456/cpv/x/lot/998877", lot),
        ("https://a.b/01/04012345123456/22/2A/10/998877", lot),
        ("(01)04012345123456(10)998877", lot),
        (
            "(01)04012345123456(10)A/B",
            "https://id.gs1.org/01/04012345123456/10/A%2FB",
        ),
        ("(01)04012345123456(10)A(17)261231", "-"),
        ("(01)4012345123456(10)A", "-"),
        ("https://id.gs1.org/01/04012345123457/10/998877", "-"),
        ("https://id.gs1.org/01/04012345123456/10/998877/21/5", "-"),
        ("https://id.gs1.org/01/04012345123456/10/", "-"),
        ("https://id.gs1.org/01/04012345123456/10/a%20b", "-"),
        (
            "https://id.gs1.org/01/04012345123456/10/123456789012345678901",
            "-",
        ),
        ("https://id.gs1.org/01/04012345123456/21/998877", "-"),
        ("https://id.gs1.org/01/04012345123456", "-"),
        ("urn:epc:idpat:sgtin:4012345.012345.*", "-"),
        ("urn:epc:class:lgtin:4012345.12345.998877", "-"),
        ("", "-"),
    ];
    for (text, want) in &rows {
        assert!(rt; is(&lot_of(rt.alloc(), text)?, want));
    }
    Ok(())
}
