//! Units, and the one link of each.

ghost use Rattle.std.specs.Prelude.{◌≡◌, IfOk, codes, option_and_then, option_map, string_bytes};
ghost use Rattle.epc_core.specs.Items.{parted};
ghost use Rattle.epc_core.specs.Reading.{reading};
ghost use Rattle.document_convert.specs.Links.{item_at, item_parts, link_of, link_of_elements, link_of_key, link_of_link, link_read, past_lot, path_of, sscc_at, unit_at};
ghost use Rattle.document_convert.specs.Lots.{behind_key};

use crate::lots::{before_query, behind_key, behind_scheme, parted, past_variant, unit_of_parts};
use epc_core::{Epc, EpcFault, EpcForm};
use event_writing::item_text;
use item_spellings::read_scan;
use std::alloc::{AllocError, Global};

/// The path of a Digital Link, on any host, without a query and a fragment.
fn path_of(text: &str) -> Option<&str>
    ensures { option_map (λ t. t.now) result ≡ path_of text.now }
{
    let (_, path) = parted(before_query(behind_scheme(text)?))?;
    Some(path)
}

/// What is behind a batch or lot number, where there is one.
fn past_lot(path: &str) -> &str
    ensures { result.now ≡ past_lot path.now }
{
    match lot_part(path) {
        Some((_, rest)) => rest,
        None => path,
    }
}

/// A batch or lot number, and what is behind it.
fn lot_part(path: &str) -> Option<(&str, &str)>
    ensures { option_map (λ p. (p.0.now, p.1.now)) result
        ≡ option_and_then (parted 47) (behind_key (codes "10/") (codes "lot/") path.now) }
{
    parted(behind_key(path, "10/", "lot/")?)
}

/// The digits of a GTIN that a path begins with, and the serial number that it ends with.
fn item_parts(path: &str) -> Option<(&str, &str)>
    ensures { option_map (λ p. (p.0.now, p.1.now)) result ≡ item_parts path.now }
{
    let (gtin, rest) = parted(behind_key(path, "01/", "gtin/")?)?;
    let serial = behind_key(past_lot(past_variant(rest)), "21/", "ser/")?;
    Some((gtin, serial))
}

/// The link on `id.gs1.org` of the trade item with this path.
fn item_at(alloc: Global, path: &str) -> Result<Option<String>, AllocError>
    ensures { IfOk result (λ unit. option_map string_bytes unit ≡ item_at path.now) }
{
    match item_parts(path) {
        Some((gtin, serial)) => unit_of_parts(alloc, gtin, serial),
        None => Ok(None),
    }
}

/// The link on `id.gs1.org` of the logistic unit with this path.
fn sscc_at(alloc: Global, path: &str) -> Result<Option<String>, AllocError>
    ensures { IfOk result (λ unit. option_map string_bytes unit ≡ sscc_at path.now) }
{
    let Some(digits) = behind_key(path, "00/", "sscc/") else {
        return Ok(None);
    };
    let mut unit = String::new(alloc);
    unit.push_str("https://id.gs1.org/00/")?;
    unit.push_str(digits)?;
    Ok(Some(unit))
}

/// The link on `id.gs1.org` of the unit with this path.
fn unit_at(alloc: Global, path: &str) -> Result<Option<String>, AllocError>
    ensures { IfOk result (λ unit. option_map string_bytes unit ≡ unit_at path.now) }
{
    match item_at(alloc, path)? {
        Some(unit) => Ok(Some(unit)),
        None => sscc_at(alloc, path),
    }
}

/// The link on `id.gs1.org` of the unit that a link names.
fn unit_of_link(alloc: Global, text: &str) -> Result<Option<String>, AllocError>
    ensures { IfOk result
        (λ unit. option_map string_bytes unit ≡ option_and_then unit_at (path_of text.now)) }
{
    match path_of(text) {
        Some(path) => unit_at(alloc, path),
        None => Ok(None),
    }
}

/// The one link of a unit, and `None` of any other item.
#[tactic(auto, using(crate::proofs::LinkLemmas::link_of_item, crate::proofs::LinkLemmas::link_of_sscc, crate::proofs::LinkLemmas::link_of_other))]
fn link_of_key(alloc: Global, unit: &Epc) -> Result<Option<String>, AllocError>
    ensures { IfOk result (λ link. option_map string_bytes link ≡ link_of_key unit.now) }
{
    match unit.form() {
        EpcForm::Item { .. } => Ok(Some(item_text(alloc, unit)?)),
        EpcForm::Sscc(_) => Ok(Some(item_text(alloc, unit)?)),
        EpcForm::Other(_) => Ok(None),
    }
}

/// The one link of the unit that a text spells.
fn link_read(alloc: Global, unit: &str) -> Result<Option<String>, AllocError>
    ensures { IfOk result (λ link. option_map string_bytes link ≡ link_read (reading unit.now)) }
{
    match Epc::read(alloc, unit) {
        Ok(unit) => link_of_key(alloc, &unit),
        Err(EpcFault::NoMemory) => Err(AllocError),
        Err(EpcFault::Empty | EpcFault::TooLong | EpcFault::BadByte(_)) => Ok(None),
    }
}

/// The one link of the unit that a link names.
fn link_of_link(alloc: Global, text: &str) -> Result<Option<String>, AllocError>
    ensures { IfOk result (λ link. option_map string_bytes link ≡ link_of_link text.now) }
{
    match unit_of_link(alloc, text)? {
        Some(unit) => link_read(alloc, unit.as_str()),
        None => Ok(None),
    }
}

/// The one link of the unit that an element string in brackets names.
fn link_of_elements(alloc: Global, text: &str) -> Result<Option<String>, AllocError>
    ensures { IfOk result (λ link. option_map string_bytes link ≡ link_of_elements text.now) }
{
    let Some(_) = text.strip_prefix("(") else {
        return Ok(None);
    };
    match read_scan(alloc, text)? {
        Ok(unit) => link_of_key(alloc, &unit),
        Err(_) => Ok(None),
    }
}

/// The one link of the unit that a text spells, `None` where it spells none in one of these ways.
///
/// A unit is a GTIN with a serial number, or an SSCC (GS1 General Specifications, application identifiers 01, 21 and
/// 00). A text spells it
///
/// - as a Digital Link (GS1 Digital Link standard, URI syntax), `http` or `https`, on any host, with the path
///   `/01/<gtin>/21/<serial>` or `/00/<sscc>`, or `gtin`, `ser` and `sscc` in place of the numbers; before the serial
///   number may stand a consumer product variant (`/22/<variant>`, `cpv`) and then a lot (`/10/<lot>`, `lot`), and no
///   further key; a GTIN of 8, 12 or 13 digits is filled with zeros to 14, and a query and a fragment are passed over;
/// - as element strings in brackets, as `(01)<gtin>(21)<serial>` or `(00)<sscc>`, with whatever else a scanner gives,
///   in any order (GS1 General Specifications, section 7.8).
///
/// Check digits have to be right. A serial number has 1 to 20 of the 82 characters; of a link its escapes are decoded.
///
/// Its link is `https://id.gs1.org/01/<gtin>/21/<serial>`, with each byte of the serial number but letters, digits, `-`,
/// `.` and `_` escaped, in capital letters, or `https://id.gs1.org/00/<sscc>`.
///
/// # Errors
/// Where memory runs out.
#[tactic(auto, unfolding(crate::specs::Links::link_of))]
pub fn link_of(alloc: Global, text: &str) -> Result<Option<String>, AllocError>
    // A text that names a unit has the link that spells this very unit, and no other text has one: so two spellings of a
    // unit become one item, and two units never one.
    // Not covered: a host may be any text without a slash, also an empty one.
    ensures { IfOk result (λ link. option_map string_bytes link ≡ link_of text.now) }
{
    match link_of_link(alloc, text)? {
        Some(link) => Ok(Some(link)),
        None => link_of_elements(alloc, text),
    }
}
