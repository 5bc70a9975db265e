//! Locations by their GLN, in the spellings by which a destination names one.

ghost use Rattle.std.specs.Prelude.{◌≡◌, ◌≤◌, ◌%◌, ◌==◌, ◌++◌, IfOk, IsTrue, codes, length, option_map};
ghost use Rattle.std.specs.List.{list_all};
ghost use Rattle.epc_core.specs.Items.{behind, parted};
ghost use Rattle.epc_core.specs.Numbers.{are_parts, is_digit, weighted};
ghost use Rattle.document_lint.specs.Locations.{before_slash, behind_key, gln_location, is_gln, is_named, link_location, location_of, uri_location, uri_parts};

use crate::near_misses::{behind_scheme, path_of};
use std::alloc::{AllocError, Global};
use std::mem;

/// The digits of the GLN of the location that a text names, without its check digit, which an EPC URI leaves out;
/// `None` where it names none.
///
/// A location is named by an EPC URI (SGLN, GS1 EPC Tag Data Standard 2.0), by a Digital Link on any host (GS1 Digital
/// Link URI syntax, application identifiers 414 and 254), and by the GLN alone. An extension is passed over.
///
/// # Errors
/// Where memory runs out.
pub fn location_of(alloc: Global, text: &str) -> Result<Option<Vec<u8>>, AllocError>
    // An EPC URI, whatever its extension, a GLN, and a Digital Link of it on any host, with an extension or without,
    // name the location of that GLN.
    ensures { IfOk result (λ found. option_map (λ v. v.items) found ≡ location_of text.now) }
{
    if let Some(location) = uri_location(alloc, text)? {
        return Ok(Some(location));
    }
    if let Some(location) = link_location(alloc, text)? {
        return Ok(Some(location));
    }
    gln_location(alloc, text)
}

/// Whether a text names this location.
pub(crate) fn is_named(alloc: Global, location: &[u8], text: &str) -> Result<bool, AllocError>
    ensures { IfOk result (λ named. named ≡ is_named location.now text.now) }
{
    match location_of(alloc, text)? {
        Some(named) => Ok(named.as_slice() == location),
        None => Ok(false),
    }
}

/// The location of an EPC URI, whatever its extension.
fn uri_location(alloc: Global, text: &str) -> Result<Option<Vec<u8>>, AllocError>
    ensures { IfOk result (λ found. option_map (λ v. v.items) found ≡ uri_location text.now) }
{
    let Some((company, reference)) = uri_parts(text) else {
        return Ok(None);
    };
    let company = company.as_bytes();
    let reference = reference.as_bytes();
    if are_parts(company, reference) {
        Ok(Some(joined(alloc, company, reference)?))
    } else {
        Ok(None)
    }
}

/// The company prefix and the location reference of an EPC URI.
fn uri_parts(text: &str) -> Option<(&str, &str)>
    ensures { option_map (λ p. (p.0.now, p.1.now)) result ≡ uri_parts text.now }
{
    let (company, rest) = at_dot(behind_front(text)?)?;
    let (reference, _) = at_dot(rest)?;
    Some((company, reference))
}

/// What is behind the front of an EPC URI of a location.
fn behind_front(text: &str) -> Option<&str>
    ensures { option_map (λ t. t.now) result ≡ behind (codes "urn:epc:id:sgln:") text.now }
{
    text.strip_prefix("urn:epc:id:sgln:")
}

/// What is before the first full stop, and what is behind it.
fn at_dot(text: &str) -> Option<(&str, &str)>
    ensures { option_map (λ p. (p.0.now, p.1.now)) result ≡ parted 46 text.now }
{
    text.split_once('.')
}

/// The location of a Digital Link, on any host and whatever its extension.
fn link_location(alloc: Global, text: &str) -> Result<Option<Vec<u8>>, AllocError>
    ensures { IfOk result (λ found. option_map (λ v. v.items) found ≡ link_location text.now) }
{
    match behind_key(text) {
        Some(rest) => gln_location(alloc, before_slash(rest)),
        None => Ok(None),
    }
}

/// What is behind the host and the key of a Digital Link of a location.
fn behind_key(text: &str) -> Option<&str>
    ensures { option_map (λ t. t.now) result ≡ behind_key text.now }
{
    path_of(behind_scheme(text)?)?.strip_prefix("414/")
}

/// What stands before the first slash, or all of a text without one.
fn before_slash(text: &str) -> &str
    ensures { result.now ≡ before_slash text.now }
{
    match text.split_once('/') {
        Some((front, _)) => front,
        None => text,
    }
}

/// The location of a GLN.
fn gln_location(alloc: Global, digits: &str) -> Result<Option<Vec<u8>>, AllocError>
    ensures { IfOk result (λ found. option_map (λ v. v.items) found ≡ gln_location digits.now) }
{
    let digits = digits.as_bytes();
    if is_gln(digits) {
        Ok(Some(joined(alloc, &digits[..12], b"")?))
    } else {
        Ok(None)
    }
}

/// The bytes of two, one after the other.
fn joined(alloc: Global, first: &[u8], second: &[u8]) -> Result<Vec<u8>, AllocError>
    ensures { IfOk result (λ both. both.items ≡ first.now ++ second.now) }
{
    let mut both = Vec::new(alloc);
    both.extend_from_slice(first)?;
    both.extend_from_slice(second)?;
    Ok(both)
}

/// Whether a company prefix of 6 to 12 digits and a reference are 12 digits together.
fn are_parts(company: &[u8], reference: &[u8]) -> bool
    ensures { result ≡ are_parts 12 company.now reference.now }
{
    company.len() >= 6
        && company.len() <= 12
        && company.len() + reference.len() == 12
        && are_digits(company)
        && are_digits(reference)
}

/// Whether these are 13 digits, the last of which checks the others.
fn is_gln(digits: &[u8]) -> bool
    ensures { result ≡ is_gln digits.now }
{
    digits.len() == 13 && are_digits(digits) && weighted_sum(digits) % 10 == 0
}

/// Whether each byte is a digit.
fn are_digits(bytes: &[u8]) -> bool
    ensures { result ≡ list_all is_digit bytes.now }
{
    bytes.iter().all(|b| is_digit(*b))
}

/// Whether a byte is a digit.
fn is_digit(b: u8) -> bool
    ensures { result ≡ is_digit b }
{
    b >= b'0' && b <= b'9'
}

/// The digits in odd places from the left, and three times those in even places, added up.
fn weighted_sum(digits: &[u8]) -> u32
    requires digits { IsTrue (list_all is_digit digits.now) }
    requires few { length digits.now ≤ 13 }
    ensures { result ≡ weighted 1 3 digits.now }
{
    let mut sum = 0;
    let mut weight = 1;
    let mut next = 3;
    for digit in digits {
        sum += weight * u32::from(*digit - b'0');
        mem::swap(&mut weight, &mut next);
    }
    sum
}
