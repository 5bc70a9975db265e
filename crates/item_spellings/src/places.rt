//! Places by their GLN: whether two texts are two spellings of one.
ghost use Rattle.std.specs.Prelude.{◌≡◌, ◌≤◌, ◌-◌, bytes_eq, take, drop};
ghost use Rattle.item_spellings.specs.Places.{are_one_place, extension_of, has_uri, is_extended, is_gln, is_place_link, is_place_uri, is_uri_of_link};

use crate::bytes::{are_digits, weighted_sum};

/// Whether one of two texts is the Digital Link of a GLN, perhaps with its extension, and the other one an EPC URI of
/// the same place, as `https://id.gs1.org/414/9521321000032` and `urn:epc:id:sgln:9521321.00003.0` are. A link shows
/// not how many digits the company prefix has, so that it has an EPC URI for each number of 6 to 12.
#[tactic(auto, unfolding(crate::specs::Places::are_one_place))]
pub fn are_one_place(a: &str, b: &str) -> bool
    // Not covered: the definition stands by its words; tests/scripts has rows.
    ensures { result ≡ are_one_place a.now b.now }
{
    is_uri_of_link(a.as_bytes(), b.as_bytes()) || is_uri_of_link(b.as_bytes(), a.as_bytes())
}

/// Whether the first text is the link of a place, and the other one an EPC URI of it.
#[tactic(auto, unfolding(crate::specs::Places::is_uri_of_link))]
fn is_uri_of_link(link: &[u8], uri: &[u8]) -> bool
    ensures { result ≡ is_uri_of_link link.now uri.now }
{
    is_place_link(link) && has_uri(first(last(link, 23), 13), extension_of(last(link, 36)), uri)
}

/// Whether a text is an EPC URI of a place, for some length of its company prefix.
#[tactic(auto, unfolding(crate::specs::Places::has_uri))]
fn has_uri(gln: &[u8], extension: &[u8], uri: &[u8]) -> bool
    ensures { result ≡ has_uri gln.now extension.now uri.now }
{
    [6, 7, 8, 9, 10, 11, 12]
        .iter()
        .any(|n| is_place_uri(uri, gln, extension, *n))
}

/// Whether a text is the EPC URI of a place whose company prefix has so many digits.
fn is_place_uri(text: &[u8], gln: &[u8], extension: &[u8], company: usize) -> bool
    requires { company ≤ 12 }
    ensures { result ≡ is_place_uri text.now gln.now extension.now company }
{
    first(text, 16) == b"urn:epc:id:sgln:".as_slice()
        && first(last(text, 16), company) == first(gln, company)
        && first(last(text, 16 + company), 1) == b".".as_slice()
        && first(last(text, 17 + company), 12 - company) == first(last(gln, company), 12 - company)
        && first(last(text, 29), 1) == b".".as_slice()
        && last(text, 30) == extension
}

/// Whether a text is the link of a place.
#[tactic(auto, unfolding(crate::specs::Places::is_place_link))]
fn is_place_link(text: &[u8]) -> bool
    ensures { result ≡ is_place_link text.now }
{
    first(text, 23) == b"https://id.gs1.org/414/".as_slice()
        && is_gln(first(last(text, 23), 13))
        && is_extended(last(text, 36))
}

/// Whether these are 13 digits, the last of which checks the others.
fn is_gln(digits: &[u8]) -> bool
    ensures { result ≡ is_gln digits.now }
{
    digits.len() == 13 && are_digits(digits) && weighted_sum(digits, 1, 3) % 10 == 0
}

/// Whether there is nothing behind a GLN, or an extension.
fn is_extended(rest: &[u8]) -> bool
    ensures { result ≡ is_extended rest.now }
{
    rest.is_empty() || (first(rest, 5) == b"/254/".as_slice() && rest.len() > 5)
}

/// The extension of a place.
fn extension_of(rest: &[u8]) -> &[u8]
    ensures { result.now ≡ extension_of rest.now }
{
    if rest.is_empty() { b"0" } else { last(rest, 5) }
}

/// The first bytes of a text, or all where it has fewer.
fn first(text: &[u8], count: usize) -> &[u8]
    ensures { result.now ≡ take count text.now }
{
    if count < text.len() {
        &text[..count]
    } else {
        text
    }
}

/// A text without its first bytes.
fn last(text: &[u8], count: usize) -> &[u8]
    ensures { result.now ≡ drop count text.now }
{
    if count < text.len() {
        &text[count..]
    } else {
        &text[text.len()..]
    }
}
