//! Which lot a text spells.

ghost use Rattle.std.specs.Prelude.{◌≡◌, ◌++◌, IfOk, IsTrue, codes, option_and_then, option_map, string_bytes};
ghost use Rattle.std.specs.List.{list_all};
ghost use Rattle.epc_core.specs.Items.{parted};
ghost use Rattle.epc_core.specs.Numbers.{is_digit};
ghost use Rattle.epc_core.specs.Reading.{reading};
ghost use Rattle.document_convert.specs.Lots.{before, before_query, behind_key, behind_scheme, element_parts, link_parts, lot_of, lot_of_key, lot_read, past_variant, path_parts, unit_of, unit_of_element, unit_of_link, unit_of_parts, unit_of_uri, zeros};
ghost use Rattle.item_spellings.specs.Lots.{lot_text};

use epc_core::{Epc, EpcFault, EpcForm};
use item_spellings::{lot_text, push_lot_number};
use std::alloc::{AllocError, Global};

/// The digits of a GTIN as a text.
pub(crate) fn digits_text(alloc: Global, digits: &[u8]) -> Result<String, AllocError>
    requires { IsTrue (list_all is_digit digits.now) }
    ensures { IfOk result (λ text. string_bytes text ≡ digits.now) }
{
    let mut text = String::new(alloc);
    for digit in digits {
        text.push(char::from(*digit))?;
    }
    Ok(text)
}

/// What is behind the scheme of a link, `https` or `http`.
pub(crate) fn behind_scheme(text: &str) -> Option<&str>
    ensures { option_map (λ t. t.now) result ≡ behind_scheme text.now }
{
    match text.strip_prefix("https://") {
        Some(rest) => Some(rest),
        None => text.strip_prefix("http://"),
    }
}

/// What is before the first slash, and what is behind it.
pub(crate) fn parted(text: &str) -> Option<(&str, &str)>
    ensures { option_map (λ p. (p.0.now, p.1.now)) result ≡ parted 47 text.now }
{
    text.split_once('/')
}

/// What stands before the first question mark.
fn before_question(text: &str) -> &str
    ensures { result.now ≡ before 63 text.now }
{
    match text.split_once('?') {
        Some((front, _)) => front,
        None => text,
    }
}

/// What stands before the first number sign.
fn before_fragment(text: &str) -> &str
    ensures { result.now ≡ before 35 text.now }
{
    match text.split_once('#') {
        Some((front, _)) => front,
        None => text,
    }
}

/// A text without a query and a fragment.
pub(crate) fn before_query(text: &str) -> &str
    ensures { result.now ≡ before_query text.now }
{
    before_question(before_fragment(text))
}

/// What is behind the first of two fronts that a path has.
pub(crate) fn behind_key<'p>(path: &'p str, number: &str, name: &str) -> Option<&'p str>
    ensures { option_map (λ t. t.now) result ≡ behind_key number.now name.now path.now }
{
    match path.strip_prefix(number) {
        Some(rest) => Some(rest),
        None => path.strip_prefix(name),
    }
}

/// What is behind a consumer product variant, where there is one.
pub(crate) fn past_variant(path: &str) -> &str
    ensures { result.now ≡ past_variant path.now }
{
    match variant(path) {
        Some((_, rest)) => rest,
        None => path,
    }
}

/// A consumer product variant, and what is behind it.
fn variant(path: &str) -> Option<(&str, &str)>
    ensures { option_map (λ p. (p.0.now, p.1.now)) result
        ≡ option_and_then (parted 47) (behind_key (codes "22/") (codes "cpv/") path.now) }
{
    parted(behind_key(path, "22/", "cpv/")?)
}

/// The digits of a GTIN that a path begins with, and the lot that it has then.
fn path_parts(path: &str) -> Option<(&str, &str)>
    ensures { option_map (λ p. (p.0.now, p.1.now)) result ≡ path_parts path.now }
{
    let (gtin, rest) = parted(behind_key(path, "01/", "gtin/")?)?;
    let lot = behind_key(past_variant(rest), "10/", "lot/")?;
    Some((gtin, before_query(lot)))
}

/// The digits of the GTIN and the lot in a Digital Link, on any host.
fn link_parts(text: &str) -> Option<(&str, &str)>
    ensures { option_map (λ p. (p.0.now, p.1.now)) result ≡ link_parts text.now }
{
    let (_, path) = parted(behind_scheme(text)?)?;
    path_parts(path)
}

/// What stands before so many digits of a GTIN, so that there are 14.
fn zeros(count: usize) -> Option<&'static str>
    ensures { option_map (λ t. t.now) result ≡ zeros count }
{
    match count {
        14 => Some(""),
        13 => Some("0"),
        12 => Some("00"),
        8 => Some("000000"),
        _ => None,
    }
}

/// The link of the unit that has the lot for its serial number.
pub(crate) fn unit_of_parts(
    alloc: Global,
    gtin: &str,
    lot: &str,
) -> Result<Option<String>, AllocError>
    ensures { IfOk result
        (λ unit. option_map string_bytes unit ≡ unit_of_parts (gtin.now, lot.now)) }
{
    let Some(front) = zeros(gtin.len()) else {
        return Ok(None);
    };
    let mut unit = String::new(alloc);
    unit.push_str("https://id.gs1.org/01/")?;
    unit.push_str(front)?;
    unit.push_str(gtin)?;
    unit.push_str("/21/")?;
    unit.push_str(lot)?;
    Ok(Some(unit))
}

/// The link of the unit that has the lot of a link for its serial number.
fn unit_of_link(alloc: Global, text: &str) -> Result<Option<String>, AllocError>
    ensures { IfOk result (λ unit. option_map string_bytes unit ≡ unit_of_link text.now) }
{
    match link_parts(text) {
        Some((gtin, lot)) => unit_of_parts(alloc, gtin, lot),
        None => Ok(None),
    }
}

/// The URI of a unit with these parts.
fn unit_uri(alloc: Global, parts: &str) -> Result<String, AllocError>
    ensures { IfOk result (λ unit. string_bytes unit ≡ codes "urn:epc:id:sgtin:" ++ parts.now) }
{
    let mut unit = String::new(alloc);
    unit.push_str("urn:epc:id:sgtin:")?;
    unit.push_str(parts)?;
    Ok(unit)
}

/// The URI of the unit that has the lot for its serial number.
fn unit_of_uri(alloc: Global, text: &str) -> Result<Option<String>, AllocError>
    ensures { IfOk result (λ unit. option_map string_bytes unit ≡ unit_of_uri text.now) }
{
    match text.strip_prefix("urn:epc:class:lgtin:") {
        Some(rest) => Ok(Some(unit_uri(alloc, rest)?)),
        None => Ok(None),
    }
}

/// What is before the first opening bracket, and what is behind it.
fn at_bracket(text: &str) -> Option<(&str, &str)>
    ensures { option_map (λ p. (p.0.now, p.1.now)) result ≡ parted 40 text.now }
{
    text.split_once('(')
}

/// The GTIN and the lot of an element string in brackets, with nothing behind the lot.
fn element_parts(text: &str) -> Option<(&str, &str)>
    ensures { option_map (λ p. (p.0.now, p.1.now)) result ≡ element_parts text.now }
{
    let (gtin, rest) = at_bracket(text.strip_prefix("(01)")?)?;
    let lot = rest.strip_prefix("10)")?;
    match at_bracket(lot) {
        Some(_) => None,
        None => Some((gtin, lot)),
    }
}

/// The link of the unit that has the lot of an element string for its serial number.
fn unit_of_element(alloc: Global, text: &str) -> Result<Option<String>, AllocError>
    ensures { IfOk result (λ unit. option_map string_bytes unit ≡ unit_of_element text.now) }
{
    let Some((gtin, lot)) = element_parts(text) else {
        return Ok(None);
    };
    let mut unit = String::new(alloc);
    unit.push_str("https://id.gs1.org/01/")?;
    unit.push_str(gtin)?;
    unit.push_str("/21/")?;
    push_lot_number(&mut unit, lot.as_bytes())?;
    Ok(Some(unit))
}

/// The text of the unit that has the lot of a text for its serial number.
#[tactic(auto, unfolding(crate::specs::Lots::unit_of))]
fn unit_of(alloc: Global, text: &str) -> Result<Option<String>, AllocError>
    ensures { IfOk result (λ unit. option_map string_bytes unit ≡ unit_of text.now) }
{
    if let Some(unit) = unit_of_uri(alloc, text)? {
        return Ok(Some(unit));
    }
    match unit_of_link(alloc, text)? {
        Some(unit) => Ok(Some(unit)),
        None => unit_of_element(alloc, text),
    }
}

/// The one spelling of the lot with these digits.
fn lot_of_digits(alloc: Global, gtin: &[u8], number: &[u8]) -> Result<String, AllocError>
    requires { IsTrue (list_all is_digit gtin.now) }
    ensures { IfOk result (λ text. string_bytes text ≡ lot_text gtin.now number.now) }
{
    let gtin = digits_text(alloc, gtin)?;
    lot_text(alloc, gtin.as_str(), number)
}

/// The one spelling of the lot of a unit.
fn lot_of_unit(alloc: Global, unit: &Epc) -> Result<Option<String>, AllocError>
    ensures { IfOk result (λ lot. option_map string_bytes lot ≡ lot_of_key unit.now) }
{
    match unit.form() {
        EpcForm::Item { gtin, serial } => {
            Ok(Some(lot_of_digits(alloc, gtin, serial.as_bytes())?))
        }
        EpcForm::Sscc(_) => Ok(None),
        EpcForm::Other(_) => Ok(None),
    }
}

/// The one spelling of the lot of the unit that a text spells.
fn lot_read(alloc: Global, unit: &str) -> Result<Option<String>, AllocError>
    ensures { IfOk result (λ lot. option_map string_bytes lot ≡ lot_read (reading unit.now)) }
{
    match Epc::read(alloc, unit) {
        Ok(unit) => lot_of_unit(alloc, &unit),
        Err(EpcFault::NoMemory) => Err(AllocError),
        Err(EpcFault::Empty | EpcFault::TooLong | EpcFault::BadByte(_)) => Ok(None),
    }
}

/// The one spelling of the lot that a text spells, `None` where it spells none.
///
/// A lot is a GTIN with a batch or lot number (GS1 General Specifications, application identifiers 01 and 10). A text
/// spells it
///
/// - as an EPC class URI, `urn:epc:class:lgtin:CompanyPrefix.ItemReference.Lot` (EPC Tag Data Standard, section 6.4);
/// - as a Digital Link, `http` or `https`, on any host, with the path `/01/<gtin>/10/<lot>`, or `gtin` and `lot`
///   in place of the numbers, with a consumer product variant (`/22/<variant>`, `cpv`) between them or not, and no
///   further key; a GTIN of 8, 12 or 13 digits is filled with zeros to 14, and a query and a fragment are passed over;
/// - as an element string in brackets, `(01)<gtin>(10)<lot>`, with a GTIN of 14 digits and nothing behind it.
///
/// The GTIN's check digit has to be right. A lot number has 1 to 20 of the 82 characters of a serial number; of the
/// first two its escapes are decoded.
///
/// Its spelling is `https://id.gs1.org/01/<gtin>/10/<lot>`, with each byte of the lot number but letters, digits, `-`,
/// `.` and `_` escaped, in capital letters.
///
/// # Errors
/// Where memory runs out.
#[tactic(auto, unfolding(crate::specs::Lots::lot_of))]
pub fn lot_of(alloc: Global, text: &str) -> Result<Option<String>, AllocError>
    // Two spellings of one lot become one item, and two lots never one.
    // Not covered: which texts name a unit stands by the cases of `unit_of` and by rows of site_tests.
    ensures { IfOk result (λ lot. option_map string_bytes lot ≡ lot_of text.now) }
{
    match unit_of(alloc, text)? {
        Some(unit) => lot_read(alloc, unit.as_str()),
        None => Ok(None),
    }
}
