//! Items from what a scanner gives.
ghost use Rattle.std.specs.Prelude.{◌≡◌, ℕ, ◌++◌, IsUtf8, IfOk, OnOk, string_bytes, Ok, Some};
ghost use Rattle.epc_core.specs.Spellings.{IsKey};
ghost use Rattle.item_spellings.specs.Named.{named_key, IsNamed};
ghost use Rattle.item_spellings.specs.Scans.{scan_reading};

use crate::elements::elements_of;
use crate::faults::ScanFault;
use crate::lookups::{Named, item_of};
use crate::lots::push_lot_number;
use epc_core::Epc;
use std::alloc::{AllocError, Global};

/// The item that a scanned text spells: the trade item of its GTIN (AI 01) and serial number (AI 21), or the logistic
/// unit of its SSCC (AI 00), or without these the lot of its GTIN and lot number (AI 10), spelled as
/// [`lot_text`](crate::lot_text) has it; whatever stands beside them and in any order.
///
/// The text is a list of GS1 element strings, with each AI in brackets or as a bar code carries them, where an FNC1
/// (the byte 29) ends a value of no predefined length; a symbology identifier and an FNC1 in front are passed over. It
/// fails only where memory runs out.
#[tactic(auto, unfolding(crate::specs::Scans::scan_reading))]
pub fn read_scan(alloc: Global, text: &str) -> Result<Result<Epc, ScanFault>, AllocError>
    // The text is written of exactly the element strings that are read, in brackets or raw, and has no second reading.
    // The item is that of its GTIN and serial number, or of its SSCC, or without these of its GTIN and lot, in whatever
    // order they stand and whatever stands beside them. A text is refused for want of elements exactly where it is
    // written of none.
    // Not covered: how many digits an identifier has, by its first two, where these tell no length of its value: tests
    // reach some; of several faults which one is named.
    ensures { IfOk result (λ item. item ≡ scan_reading text.now) }
{
    let Some(elements) = elements_of(alloc, text)? else {
        return Ok(Err(ScanFault::NoElements));
    };
    match item_of(elements.as_slice()) {
        Ok(named) => Ok(Ok(epc_of(alloc, &named)?)),
        Err(fault) => Ok(Err(fault)),
    }
}

/// The item of these parts.
fn epc_of(alloc: Global, named: &Named<'_>) -> Result<Epc, AllocError>
    requires { IsNamed named.now }
    ensures { IfOk result (λ item. item ≡ named_key named.now) }
{
    let key = key_of(alloc, named)?;
    match Epc::from_key(alloc, key.as_str())? {
        Some(item) => Ok(item),
        None => unreachable!(),
    }
}

/// The key of these parts.
fn key_of(alloc: Global, named: &Named<'_>) -> Result<String, AllocError>
    requires { IsNamed named.now }
    ensures { IfOk result (λ key. string_bytes key ≡ named_key named.now) }
{
    let mut key = String::new(alloc);
    match named {
        Named::Sgtin(gtin, serial) => {
            key.push_str("sgtin ")?;
            push_ascii(&mut key, gtin)?;
            key.push_str(" ")?;
            push_ascii(&mut key, serial)?;
        }
        Named::Sscc(sscc) => {
            key.push_str("sscc ")?;
            push_ascii(&mut key, sscc)?;
        }
        Named::Lot(gtin, lot) => {
            key.push_str("uri https://id.gs1.org/01/")?;
            push_ascii(&mut key, gtin)?;
            key.push_str("/10/")?;
            push_lot_number(&mut key, lot)?;
        }
    }
    Ok(key)
}

/// Appends bytes that are text to a text.
fn push_ascii(key: &mut String, bytes: &[u8]) -> Result<(), AllocError>
    requires { IsUtf8 bytes.now }
    ensures { OnOk result (string_bytes key.new ≡ string_bytes key.old ++ bytes.now) }
{
    match str::from_utf8(bytes) {
        Ok(text) => key.push_str(text),
        Err(_) => unreachable!(),
    }
}
