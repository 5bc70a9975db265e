//! The element strings of a text.
ghost use Rattle.std.specs.Prelude.{◌≡◌, ℕ, ◌≤◌, ◌==◌, List, length, take, drop, Option, Some, option_map, IfOk, OnOk, map, ◌++◌, ◌∷◌, []};
ghost use Rattle.epc_core.specs.Items.{behind};
ghost use Rattle.item_spellings.specs.Elements.{ai_length, first_two, fixed_length, fits};
ghost use Rattle.item_spellings.specs.Reading.{has_ai, ai_of, value_count, unseparated, value_of, first_element, all_elements, elements_of, unidentified};
ghost use Rattle.item_spellings.specs.Seen.{seen};

use crate::bytes::{are_digits, are_value_bytes, before, is_digit, opens, past, tail};
use crate::forms::Form;
use std::alloc::{AllocError, Global};

/// The byte that a scanner gives for FNC1 behind a value.
const SEPARATOR: u8 = 0x1D;

/// The most characters of a value.
const MOST_CHARACTERS: usize = 90;

/// An AI and its value, both within the text that was read.
pub(crate) type Element<'a> = (&'a [u8], &'a [u8]);

/// The elements of a text, or `None` where it is no list of element strings.
#[tactic(auto, unfolding(crate::specs::Reading::elements_of))]
pub(crate) fn elements_of(
    alloc: Global,
    text: &str,
) -> Result<Option<Vec<(&[u8], &[u8])>>, AllocError>
    ensures { IfOk result (λ found. option_map (λ v. seen v.items) found ≡ elements_of text.now) }
{
    if opens(text.as_bytes(), b'(') {
        return all_elements(alloc, Form::Bracketed, text.as_bytes());
    }
    let rest = unidentified(text).unwrap_or(text);
    all_elements(alloc, Form::Carried, past(rest.as_bytes(), SEPARATOR))
}

/// A text without its symbology identifier, if it has one.
fn unidentified(text: &str) -> Option<&str>
    ensures { option_map (λ rest. rest.now) result ≡ unidentified text.now }
{
    stripped(text, "]d2")
        .or(stripped(text, "]C1"))
        .or(stripped(text, "]e0"))
        .or(stripped(text, "]Q3"))
        .or(stripped(text, "]J1"))
}

/// All elements of a text of this form.
fn all_elements(
    alloc: Global,
    form: Form,
    text: &[u8],
) -> Result<Option<Vec<(&[u8], &[u8])>>, AllocError>
    ensures { IfOk result (λ found. option_map (λ v. seen v.items) found
        ≡ all_elements form text.now) }
{
    let mut elements = Vec::new(alloc);
    let mut rest = text;
    for _ in 0..text.len() {
        if rest.is_empty() {
            break;
        }
        let Some((ai, value, behind)) = first_element(form, rest) else {
            return Ok(None);
        };
        elements.push((ai, value))?;
        rest = behind;
    }
    if rest.is_empty() {
        Ok(Some(elements))
    } else {
        Ok(None)
    }
}

/// The AI and the value of the first element of a text, and what is behind it.
fn first_element(form: Form, text: &[u8]) -> Option<(&[u8], &[u8], &[u8])>
    ensures { option_map (λ p. ((p.0.now, p.1.now), p.2.now)) result ≡ first_element form text.now }
{
    match form {
        Form::Bracketed => {
            if !opens(text, b'(') {
                return None;
            }
            let (ai, rest) = ai_of(tail(text))?;
            if !opens(rest, b')') {
                return None;
            }
            value_of(form, ai, tail(rest))
        }
        Form::Carried => {
            let (ai, rest) = ai_of(text)?;
            value_of(form, ai, rest)
        }
    }
}

/// The AI in front of a text, and what is behind it.
fn ai_of(text: &[u8]) -> Option<(&[u8], &[u8])>
    ensures { option_map (λ p. (p.0.now, p.1.now)) result ≡ ai_of text.now }
{
    let count = ai_length(first_two(text));
    if !has_ai(count, text) {
        return None;
    }
    Some((&text[..count], &text[count..]))
}

/// Whether a text begins with an AI of this many digits.
fn has_ai(count: usize, text: &[u8]) -> bool
    ensures { result ≡ has_ai count text.now }
{
    count >= 1 && count <= text.len() && are_digits(&text[..count])
}

/// The value of an AI in front of a text, and what is behind it.
fn value_of<'a>(form: Form, ai: &'a [u8], text: &'a [u8]) -> Option<(&'a [u8], &'a [u8], &'a [u8])>
    ensures { option_map (λ p. ((p.0.now, p.1.now), p.2.now)) result
        ≡ value_of form ai.now text.now }
{
    let fixed = fixed_length(first_two(ai));
    let count = value_count(form, fixed, text);
    if count > text.len() || !fits(fixed, &text[..count]) {
        return None;
    }
    Some((ai, &text[..count], unseparated(form, &text[count..])))
}

/// How many bytes the value has that begins a text.
fn value_count(form: Form, fixed: usize, text: &[u8]) -> usize
    ensures { result ≡ value_count form fixed text.now }
{
    match form {
        Form::Bracketed => before(text, b'('),
        Form::Carried => {
            if fixed == 0 {
                before(text, SEPARATOR)
            } else {
                fixed
            }
        }
    }
}

/// What is behind a value, without the separator.
fn unseparated(form: Form, text: &[u8]) -> &[u8]
    ensures { result.now ≡ unseparated form text.now }
{
    match form {
        Form::Bracketed => text,
        Form::Carried => past(text, SEPARATOR),
    }
}

/// Whether a value has the predefined number of digits, or, where that is 0, 1 to 90 characters.
fn fits(fixed: usize, value: &[u8]) -> bool
    ensures { result ≡ fits fixed value.now }
{
    if fixed == 0 {
        value.len() >= 1 && value.len() <= MOST_CHARACTERS && are_value_bytes(value)
    } else {
        value.len() == fixed && are_digits(value)
    }
}

/// The number that the first two digits of a text spell, and 100 where it doesn't begin with two digits.
fn first_two(text: &[u8]) -> usize
    ensures is { result ≡ first_two text.now }
    ensures few { result ≤ 100 }
{
    if text.len() < 2 || !is_digit(text[0]) || !is_digit(text[1]) {
        return 100;
    }
    10 * usize::from(text[0] - b'0') + usize::from(text[1] - b'0')
}

/// How many digits an AI has, by the number of its first two; 0 where there is none.
fn ai_length(first: usize) -> usize
    ensures { result ≡ ai_length first }
{
    match first {
        0..=4 | 10..=22 | 30 | 37 | 90..=99 => 2,
        23..=25 | 40..=42 | 71 => 3,
        31..=36 | 39 | 43 | 70 | 72 | 80..=82 => 4,
        _ => 0,
    }
}

/// How many digits the value of an AI has by the number of its first two, where that is predefined; 0 where it isn't.
fn fixed_length(first: usize) -> usize
    ensures { result ≡ fixed_length first }
{
    match first {
        0 => 18,
        1..=3 => 14,
        4 => 16,
        11..=19 | 31..=36 => 6,
        20 => 2,
        41 => 13,
        _ => 0,
    }
}

/// A text without this front, if it has it.
fn stripped<'a>(text: &'a str, front: &str) -> Option<&'a str>
    ensures { option_map (λ rest. rest.now) result ≡ behind front.now text.now }
{
    text.strip_prefix(front)
}
