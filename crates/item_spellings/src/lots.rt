//! A lot as an item.

ghost use Rattle.std.specs.Prelude.{◌≡◌, ◌++◌, IfOk, OnOk, string_bytes};
ghost use Rattle.item_spellings.specs.Lots.{escape, escape_byte, is_kept, lot_text};

use percent_encoding::percent_encode_byte;
use std::alloc::{AllocError, Global};

/// Whether a byte of a lot number stands for itself in a link: a letter, a digit, `-`, `.` or `_`.
fn is_kept(b: u8) -> bool
    ensures { result ≡ is_kept b }
{
    b.is_ascii_uppercase()
        || b.is_ascii_lowercase()
        || b.is_ascii_digit()
        || b == b'-'
        || b == b'.'
        || b == b'_'
}

/// Appends a byte of a lot number.
fn push_byte(text: &mut String, b: u8) -> Result<(), AllocError>
    ensures { OnOk result (string_bytes text.new ≡ string_bytes text.old ++ escape_byte b) }
{
    if is_kept(b) {
        text.push(char::from(b))
    } else {
        text.push_str(percent_encode_byte(b))
    }
}

/// Appends a lot number as it stands in a link: a byte that is no letter, digit, `-`, `.` or `_` is `%` and two digits,
/// of capital letters. It fails only where memory runs out.
pub fn push_lot_number(text: &mut String, number: &[u8]) -> Result<(), AllocError>
    ensures { OnOk result (string_bytes text.new ≡ string_bytes text.old ++ escape number.now) }
{
    for b in number {
        push_byte(text, *b)?;
    }
    Ok(())
}

/// The one spelling of a lot as an item, `https://id.gs1.org/01/<gtin>/10/<lot>` (GS1 Digital Link standard, URI
/// syntax), with its number as [`push_lot_number`] has it. It fails only where memory runs out.
pub fn lot_text(alloc: Global, gtin: &str, number: &[u8]) -> Result<String, AllocError>
    ensures { IfOk result (λ text. string_bytes text ≡ lot_text gtin.now number.now) }
{
    let mut text = String::new(alloc);
    text.push_str("https://id.gs1.org/01/")?;
    text.push_str(gtin)?;
    text.push_str("/10/")?;
    push_lot_number(&mut text, number)?;
    Ok(text)
}
