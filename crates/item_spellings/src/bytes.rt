//! Bytes of a text, by their place and their kind.
ghost use Rattle.std.specs.Prelude.{◌≡◌, ℕ, ◌≤◌, ◌%◌, ◌==◌, IsTrue, length, drop};
ghost use Rattle.std.specs.List.{list_all};
ghost use Rattle.epc_core.specs.Numbers.{is_digit, weighted, is_checked};
ghost use Rattle.epc_core.specs.Serials.{is_serial_byte, is_serial};
ghost use Rattle.item_spellings.specs.Elements.{is_value_byte};
ghost use Rattle.item_spellings.specs.Reading.{opens, past, before};

use std::mem;

/// Whether a text begins with this byte.
pub(crate) fn opens(text: &[u8], byte: u8) -> bool
    ensures { result ≡ opens byte text.now }
{
    !text.is_empty() && text[0] == byte
}

/// A text without its first byte.
pub(crate) fn tail(text: &[u8]) -> &[u8]
    ensures { result.now ≡ drop 1 text.now }
{
    if text.is_empty() { text } else { &text[1..] }
}

/// A text without this byte in front.
pub(crate) fn past(text: &[u8], byte: u8) -> &[u8]
    ensures { result.now ≡ past byte text.now }
{
    if opens(text, byte) { tail(text) } else { text }
}

/// How many bytes stand before the first such byte, or at all where there is none.
pub(crate) fn before(text: &[u8], byte: u8) -> usize
    ensures is { result ≡ before byte text.now }
    ensures within { result ≤ length text.now }
{
    let mut count: usize = 0;
    for b in text {
        if *b == byte {
            return count;
        }
        count += 1;
    }
    count
}

/// Whether each byte is a digit.
pub(crate) fn are_digits(bytes: &[u8]) -> bool
    ensures { result ≡ list_all is_digit bytes.now }
{
    bytes.iter().all(|b| is_digit(*b))
}

/// Whether a byte is a digit.
pub(crate) fn is_digit(b: u8) -> bool
    ensures { result ≡ is_digit b }
{
    b >= b'0' && b <= b'9'
}

/// Whether each byte is a character of a value.
pub(crate) fn are_value_bytes(bytes: &[u8]) -> bool
    ensures { result ≡ list_all is_value_byte bytes.now }
{
    bytes.iter().all(|b| is_value_byte(*b))
}

/// Whether a byte is a character of a value.
fn is_value_byte(b: u8) -> bool
    ensures { result ≡ is_value_byte b }
{
    is_serial_byte(b) || b == b'#'
}

/// Whether these are 1 to 20 of the 82 characters that a serial number may have.
pub(crate) fn is_serial(bytes: &[u8]) -> bool
    ensures { result ≡ is_serial bytes.now }
{
    bytes.len() >= 1 && bytes.len() <= 20 && are_serial_bytes(bytes)
}

/// Whether a serial number may have each of these characters.
fn are_serial_bytes(bytes: &[u8]) -> bool
    ensures { result ≡ list_all is_serial_byte bytes.now }
{
    bytes.iter().all(|b| is_serial_byte(*b))
}

/// Whether a serial number may have this character.
fn is_serial_byte(b: u8) -> bool
    ensures { result ≡ is_serial_byte b }
{
    b.is_ascii_uppercase()
        || b.is_ascii_lowercase()
        || b == b'_'
        || b == b'!'
        || b == b'"'
        || (b'%'..=b'?').contains(&b)
}

/// Whether these are `count` digits, the last of which is the check digit of the others.
pub(crate) fn is_checked(digits: &[u8], count: usize) -> bool
    requires { count ≤ 18 }
    ensures { result ≡ is_checked count digits.now }
{
    digits.len() == count && are_digits(digits) && weighted_sum(digits, 3, 1) % 10 == 0
}

/// The digits from the left times the one weight, the other one, the first one again and so on, added up.
pub(crate) fn weighted_sum(digits: &[u8], first: u32, second: u32) -> u32
    requires digits { IsTrue (list_all is_digit digits.now) }
    requires few { length digits.now ≤ 18 }
    requires weights { (first ≤ 3) × (second ≤ 3) }
    ensures { result ≡ weighted first second digits.now }
{
    let mut sum = 0;
    let mut weight = first;
    let mut next = second;
    for digit in digits {
        sum += weight * u32::from(*digit - b'0');
        mem::swap(&mut weight, &mut next);
    }
    sum
}
