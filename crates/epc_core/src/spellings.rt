//! The four forms in which a text spells a GS1 item, and the item that it spells.
ghost use Rattle.std.specs.Prelude.{◌≡◌, ℕ, List, IfOk, IfErr, option_map, is_some};
ghost use Rattle.std.specs.List.{list_all};
ghost use Rattle.std.specs.Option.{option_or};
ghost use Rattle.epc_core.specs.Serials.{serial_of, is_part_byte};
ghost use Rattle.epc_core.specs.Items.{gtin_of_uri, gtin_of_link, sscc_of_uri, sscc_of_link, number_key_of, key_of};
ghost use Rattle.epc_core.specs.Forms.{key_of_form, IsForm, IsNumberForm, TakesMemory};
ghost use Rattle.epc_core.specs.Spellings.{IsPlain};

use crate::item_texts::ItemText;
use crate::items::EpcForm;
use crate::numbers::{are_parts, is_checked, write_number};
use crate::serials::{MOST_CHARACTERS, Serial};
use percent_encoding::percent_decode;
use std::alloc::{AllocError, Global};

/// The item that a plain text names.
pub(crate) fn form_of(alloc: Global, text: &str) -> Result<EpcForm, AllocError>
    requires { IsPlain text.now }
    ensures key { IfOk result (λ form. key_of_form form ≡ key_of text.now) }
    ensures form { IfOk result (λ form. IsForm form) }
    ensures memory { IfErr result (λ _. TakesMemory (key_of text.now)) }
{
    if let Some(form) = number_form(text) {
        return Ok(form);
    }
    Ok(EpcForm::Other(ItemText::new(alloc, text)?))
}

/// Whether a text spells a GTIN with a serial number, or an SSCC.
pub(crate) fn spells_number(text: &str) -> bool
    ensures { result ≡ is_some (number_key_of text.now) }
{
    number_form(text).is_some()
}

/// The item whose GTIN and serial number, or whose SSCC, a text spells.
fn number_form(text: &str) -> Option<EpcForm>
    ensures { IsNumberForm text.now result }
{
    if let Some(parts) = gtin_of_uri(text).or(gtin_of_link(text)) {
        let gtin = parts.0;
        if let Some(serial) = serial_of(parts.1) {
            return Some(EpcForm::Item { gtin, serial });
        }
    }
    let digits = sscc_of_uri(text).or(sscc_of_link(text))?;
    Some(EpcForm::Sscc(digits))
}

/// The GTIN-14 and the escaped serial number in an SGTIN's EPC URI.
fn gtin_of_uri(text: &str) -> Option<([u8; 14], &str)>
    ensures { option_map (λ parts. (parts.0, parts.1.now)) result ≡ gtin_of_uri text.now }
{
    let rest = text.strip_prefix("urn:epc:id:sgtin:")?;
    let (company, rest) = rest.split_once('.')?;
    let (reference, escaped) = rest.split_once('.')?;
    if !are_parts(company.as_bytes(), reference.as_bytes(), 13) {
        return None;
    }
    let mut gtin = [b'0'; 14];
    write_number(&mut gtin, company.as_bytes(), reference.as_bytes());
    Some((gtin, escaped))
}

/// The GTIN-14 and the escaped serial number in an SGTIN's Digital Link.
fn gtin_of_link(text: &str) -> Option<([u8; 14], &str)>
    ensures { option_map (λ parts. (parts.0, parts.1.now)) result ≡ gtin_of_link text.now }
{
    let rest = text.strip_prefix("https://id.gs1.org/01/")?;
    let (digits, rest) = rest.split_once('/')?;
    let escaped = rest.strip_prefix("21/")?;
    if !is_checked(digits.as_bytes(), 14) || !is_part(escaped.as_bytes()) {
        return None;
    }
    let mut gtin = [b'0'; 14];
    gtin.copy_from_slice(digits.as_bytes());
    Some((gtin, escaped))
}

/// The SSCC-18 in its EPC URI.
fn sscc_of_uri(text: &str) -> Option<[u8; 18]>
    ensures { result ≡ sscc_of_uri text.now }
{
    let rest = text.strip_prefix("urn:epc:id:sscc:")?;
    let (company, reference) = rest.split_once('.')?;
    if !are_parts(company.as_bytes(), reference.as_bytes(), 17) {
        return None;
    }
    let mut sscc = [b'0'; 18];
    write_number(&mut sscc, company.as_bytes(), reference.as_bytes());
    Some(sscc)
}

/// The SSCC-18 in its Digital Link.
fn sscc_of_link(text: &str) -> Option<[u8; 18]>
    ensures { result ≡ sscc_of_link text.now }
{
    let digits = text.strip_prefix("https://id.gs1.org/00/")?;
    if !is_checked(digits.as_bytes(), 18) {
        return None;
    }
    let mut sscc = [b'0'; 18];
    sscc.copy_from_slice(digits.as_bytes());
    Some(sscc)
}

/// Whether a part of a Digital Link has no raw `/`, `?` or `#`.
fn is_part(bytes: &[u8]) -> bool
    ensures { result ≡ list_all is_part_byte bytes.now }
{
    bytes.iter().all(|b| is_part_byte(*b))
}

/// Whether a part of a Digital Link may have this byte raw.
fn is_part_byte(b: u8) -> bool
    ensures { result ≡ is_part_byte b }
{
    !(b == b'/' || b == b'?' || b == b'#')
}

/// The serial number that an escaped text stands for.
fn serial_of(escaped: &str) -> Option<Serial>
    ensures { result ≡ serial_of escaped.now }
{
    let mut bytes = [0; MOST_CHARACTERS];
    let mut count: usize = 0;
    for byte in percent_decode(escaped.as_bytes()) {
        if count == MOST_CHARACTERS {
            return None;
        }
        bytes[count] = byte;
        count += 1;
    }
    Serial::of_bytes(&bytes[..count])
}
