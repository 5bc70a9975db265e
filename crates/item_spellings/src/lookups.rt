//! The item that element strings name.
ghost use Rattle.std.specs.Prelude.{◌≡◌, ℕ, List, Option, Some, None, Ok, Err, codes, option_map, IsTrue};
ghost use Rattle.epc_core.specs.Numbers.{IsChecked};
ghost use Rattle.epc_core.specs.Serials.{IsSerial};
ghost use Rattle.item_spellings.specs.Scans.{look, all_have, only, lot_item, lot_named, sscc_item, sgtin_item, item_named, item_of};
ghost use Rattle.item_spellings.specs.Seen.{seen};
ghost use Rattle.item_spellings.specs.Named.{OnlySeen, NamesItem};

use crate::bytes::{is_checked, is_serial};
use crate::faults::ScanFault;

/// The parts of an item's key, within the text that was read.
#[derive(Clone, Copy)]
pub(crate) enum Named<'a> {
    /// A GTIN-14 and a serial number.
    Sgtin(&'a [u8], &'a [u8]),
    /// An SSCC-18.
    Sscc(&'a [u8]),
    /// A GTIN-14 and a lot number.
    Lot(&'a [u8], &'a [u8]),
}

/// The item that elements name, or why they name none.
pub(crate) fn item_of<'a>(elements: &[(&'a [u8], &'a [u8])]) -> Result<Named<'a>, ScanFault>
    ensures { NamesItem (item_of (seen elements.now)) result }
{
    let sscc = only(elements, b"00")?;
    let gtin = only(elements, b"01")?;
    let serial = only(elements, b"21")?;
    item_named(elements, sscc, gtin, serial)
}

/// The item of what is found under AI 00, AI 01 and AI 21, and else under AI 01 and AI 10.
fn item_named<'a>(
    elements: &[(&'a [u8], &'a [u8])],
    sscc: Option<&'a [u8]>,
    gtin: Option<&'a [u8]>,
    serial: Option<&'a [u8]>,
) -> Result<Named<'a>, ScanFault>
    ensures { NamesItem (item_named (seen elements.now) (option_map (λ b. b.now) sscc.entry)
        (option_map (λ b. b.now) gtin.entry) (option_map (λ b. b.now) serial.entry)) result }
{
    match (sscc, gtin, serial) {
        (Some(_), Some(_), Some(_)) => Err(ScanFault::TwoItems),
        (Some(sscc), _, _) => sscc_item(sscc),
        (None, Some(gtin), Some(serial)) => sgtin_item(gtin, serial),
        (None, Some(gtin), None) => lot_named(elements, gtin),
        (None, None, _) => Err(ScanFault::NoItem),
    }
}

/// The logistic unit of an SSCC.
fn sscc_item(sscc: &[u8]) -> Result<Named<'_>, ScanFault>
    ensures { NamesItem (sscc_item sscc.now) result }
{
    if !is_checked(sscc, 18) {
        return Err(ScanFault::CheckDigit);
    }
    Ok(Named::Sscc(sscc))
}

/// The trade item of a GTIN and a serial number.
fn sgtin_item<'a>(gtin: &'a [u8], serial: &'a [u8]) -> Result<Named<'a>, ScanFault>
    ensures { NamesItem (sgtin_item gtin.now serial.now) result }
{
    if !is_checked(gtin, 14) {
        return Err(ScanFault::CheckDigit);
    }
    if !is_serial(serial) {
        return Err(ScanFault::BadSerial);
    }
    Ok(Named::Sgtin(gtin, serial))
}

/// The lot of a GTIN and of what is found under AI 10.
fn lot_named<'a>(elements: &[(&'a [u8], &'a [u8])], gtin: &'a [u8]) -> Result<Named<'a>, ScanFault>
    ensures { NamesItem (lot_named gtin.now (only (codes "10") (seen elements.now))) result }
{
    match only(elements, b"10")? {
        Some(lot) => lot_item(gtin, lot),
        None => Err(ScanFault::NoSerial),
    }
}

/// The lot of a GTIN and a lot number.
fn lot_item<'a>(gtin: &'a [u8], lot: &'a [u8]) -> Result<Named<'a>, ScanFault>
    ensures { NamesItem (lot_item gtin.now lot.now) result }
{
    if !is_checked(gtin, 14) {
        return Err(ScanFault::CheckDigit);
    }
    if !is_serial(lot) {
        return Err(ScanFault::BadLot);
    }
    Ok(Named::Lot(gtin, lot))
}

/// The value of an AI, which is the same wherever it stands.
fn only<'a>(elements: &[(&'a [u8], &'a [u8])], ai: &[u8]) -> Result<Option<&'a [u8]>, ScanFault>
    ensures { OnlySeen (only ai.now (seen elements.now)) result }
{
    let Some(value) = look(elements, ai) else {
        return Ok(None);
    };
    if !all_have(elements, ai, value) {
        return Err(ScanFault::Differing);
    }
    Ok(Some(value))
}

/// The value of the first element with this AI.
fn look<'a>(elements: &[(&'a [u8], &'a [u8])], ai: &[u8]) -> Option<&'a [u8]>
    ensures { option_map (λ b. b.now) result ≡ look ai.now (seen elements.now) }
{
    for element in elements {
        if element.0 == ai {
            return Some(element.1);
        }
    }
    None
}

/// Whether each element with this AI has this value.
fn all_have(elements: &[(&[u8], &[u8])], ai: &[u8], value: &[u8]) -> bool
    ensures { result ≡ all_have ai.now value.now (seen elements.now) }
{
    for element in elements {
        if element.0 == ai && element.1 != value {
            return false;
        }
    }
    true
}
