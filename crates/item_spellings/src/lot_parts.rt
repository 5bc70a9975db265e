//! The parts of a lot's key.

ghost use Rattle.std.specs.Prelude.{◌≡◌, ◌↔◌, IfOk, IsTrue, codes, option_map, string_bytes};
ghost use Rattle.std.specs.List.{list_all};
ghost use Rattle.epc_core.specs.Items.{behind, parted};
ghost use Rattle.epc_core.specs.Numbers.{is_digit};
ghost use Rattle.epc_core.specs.Serials.{is_part_byte};
ghost use Rattle.percent_encoding.specs.Percent.{percent_decode};
ghost use Rattle.item_spellings.specs.LotParts.{IsLot, are_lot_parts, is_printable, link_parts, lot_number, lot_of_link, lot_parts_of};

use epc_core::{Epc, EpcForm};
use percent_encoding::percent_decode;
use std::alloc::{AllocError, Global};

/// Whether an item is a lot: its text is `https://id.gs1.org/01/<gtin>/10/<lot>` (GS1 Digital Link standard, URI
/// syntax), with 14 digits, whatever the check digit, and a lot number of one byte at least, without `/`, `?` and `#`.
pub fn is_lot(item: &Epc) -> bool
    ensures { IsTrue result ↔ IsLot item.now }
{
    lot_parts_of(item).is_some()
}

/// The GTIN of a lot, 14 digits, and its number as it is spelled; `None` of an item that is no lot, as [`is_lot`] says.
pub fn lot_parts_of(item: &Epc) -> Option<(&str, &str)>
    ensures { option_map (λ p. (p.0.now, p.1.now)) result ≡ lot_parts_of item.now }
{
    match item.form() {
        EpcForm::Item { gtin: _, serial: _ } => None,
        EpcForm::Sscc(_) => None,
        EpcForm::Other(text) => lot_of_link(text.as_str()),
    }
}

/// The GTIN and the number in the link of a lot.
fn lot_of_link(text: &str) -> Option<(&str, &str)>
    ensures { option_map (λ p. (p.0.now, p.1.now)) result ≡ lot_of_link text.now }
{
    let (gtin, number) = link_parts(text)?;
    if are_lot_parts(gtin.as_bytes(), number.as_bytes()) {
        Some((gtin, number))
    } else {
        None
    }
}

/// What stands for a GTIN and for a lot number in a link.
fn link_parts(text: &str) -> Option<(&str, &str)>
    ensures { option_map (λ p. (p.0.now, p.1.now)) result ≡ link_parts text.now }
{
    let (gtin, rest) = parted(behind_link(text)?)?;
    Some((gtin, behind_key(rest)?))
}

/// What is behind the link of a GTIN's front.
fn behind_link(text: &str) -> Option<&str>
    ensures { option_map (λ t. t.now) result ≡ behind (codes "https://id.gs1.org/01/") text.now }
{
    text.strip_prefix("https://id.gs1.org/01/")
}

/// What is behind the key of a lot number.
fn behind_key(text: &str) -> Option<&str>
    ensures { option_map (λ t. t.now) result ≡ behind (codes "10/") text.now }
{
    text.strip_prefix("10/")
}

/// What is before the first slash, and what is behind it.
fn parted(text: &str) -> Option<(&str, &str)>
    ensures { option_map (λ p. (p.0.now, p.1.now)) result ≡ parted 47 text.now }
{
    text.split_once('/')
}

/// Whether these are the digits of a GTIN-14, and what may be a lot number in a link: one byte at least, and none that
/// ends a part of a path.
fn are_lot_parts(gtin: &[u8], number: &[u8]) -> bool
    ensures { result ≡ are_lot_parts gtin.now number.now }
{
    (gtin.len() == 14 && are_digits(gtin)) && (!number.is_empty() && are_part_bytes(number))
}

fn are_digits(bytes: &[u8]) -> bool
    ensures { result ≡ list_all is_digit bytes.now }
{
    bytes.iter().all(|b| is_digit(*b))
}

fn is_digit(b: u8) -> bool
    ensures { result ≡ is_digit b }
{
    b.is_ascii_digit()
}

fn are_part_bytes(bytes: &[u8]) -> bool
    ensures { result ≡ list_all is_part_byte bytes.now }
{
    bytes.iter().all(|b| is_part_byte(*b))
}

fn is_part_byte(b: u8) -> bool
    ensures { result ≡ is_part_byte b }
{
    !(b == b'/' || b == b'?' || b == b'#')
}

/// The lot number that a link spells so: each `%` with two hexadecimal digits behind it is decoded, where that gives
/// printable characters of ASCII alone, the space among them; any other number is as it is spelled. It fails only where
/// memory runs out.
#[tactic(auto, unfolding(crate::specs::LotParts::lot_number))]
pub fn lot_number(alloc: Global, spelled: &str) -> Result<String, AllocError>
    ensures { IfOk result (λ number. string_bytes number ≡ lot_number spelled.now) }
{
    let mut number = Vec::new(alloc);
    percent_decode(spelled.as_bytes()).append_to(&mut number)?;
    if are_printable(number.as_slice()) {
        text_of(alloc, number.as_slice())
    } else {
        String::from_str(alloc, spelled)
    }
}

fn are_printable(bytes: &[u8]) -> bool
    ensures { result ≡ list_all is_printable bytes.now }
{
    bytes.iter().all(|b| is_printable(*b))
}

/// Whether a byte is a printable character of ASCII.
fn is_printable(b: u8) -> bool
    ensures { result ≡ is_printable b }
{
    b >= b' ' && b <= b'~'
}

/// Printable characters of ASCII as a text.
fn text_of(alloc: Global, bytes: &[u8]) -> Result<String, AllocError>
    requires { IsTrue (list_all is_printable bytes.now) }
    ensures { IfOk result (λ text. string_bytes text ≡ bytes.now) }
{
    let mut text = String::new(alloc);
    for byte in bytes {
        text.push(char::from(*byte))?;
    }
    Ok(text)
}
