//! Items as texts that spell them.
ghost use Rattle.std.specs.Prelude.{◌≡◌, ◌++◌, ℕ, IfOk, IsTrue, List, OnOk, map, string_bytes};
ghost use Rattle.std.specs.List.{list_all};
ghost use Rattle.serde_json.specs.Data.{string};
ghost use Rattle.serde_json.specs.View.{view};
ghost use Rattle.percent_encoding.specs.Percent.{percent_encode};
ghost use Rattle.epc_core.specs.Numbers.{is_digit};
ghost use Rattle.epc_core.specs.Spellings.{Spells, sgtin_link, sscc_link};
ghost use Rattle.event_writing.specs.declared.item_texts.TheConstants.{RESERVED};
ghost use Rattle.event_writing.specs.Packings.{AreSpellings};
ghost use Rattle.event_writing.specs.Texts.{item_text};

use epc_core::{Epc, EpcForm};
use percent_encoding::{AsciiSet, NON_ALPHANUMERIC, ascii_set, percent_encode};
use serde_json::Value;
use std::alloc::{AllocError, Global};

/// What is escaped in a serial number: all but letters, digits and `-`, `.`, `_` (RFC 3986, section 2.3).
const RESERVED: AsciiSet = ascii_set!(NON_ALPHANUMERIC.remove(b'-').remove(b'.').remove(b'_'));

/// A text that spells the item: the Digital Link on `id.gs1.org` of a trade item or a logistic unit (GS1 Digital Link
/// standard, URI syntax), and the text of any other item.
///
/// # Errors
/// Out of memory.
#[tactic(auto, using(crate::proofs::Links::item_spelled, crate::proofs::Links::sscc_spelled))]
pub fn item_text(alloc: Global, item: &Epc) -> Result<String, AllocError>
    ensures spelled { IfOk result (λ t. Spells (string_bytes t) item.now) }
    ensures text { IfOk result (λ t. string_bytes t ≡ item_text item.now) }
{
    match item.form() {
        EpcForm::Item { gtin, serial } => item_link(alloc, gtin, serial.as_bytes()),
        EpcForm::Sscc(digits) => sscc_link(alloc, digits),
        EpcForm::Other(text) => String::from_str(alloc, text.as_str()),
    }
}

/// The Digital Link of a trade item.
fn item_link(alloc: Global, gtin: &[u8], serial: &[u8]) -> Result<String, AllocError>
    requires { IsTrue (list_all is_digit gtin.now) }
    ensures { IfOk result (λ t. string_bytes t
        ≡ sgtin_link gtin.now (percent_encode RESERVED serial.now)) }
{
    let mut text = String::from_str(alloc, "https://id.gs1.org/01/")?;
    push_digits(&mut text, gtin)?;
    text.push_str("/21/")?;
    percent_encode(serial, RESERVED).append_to(&mut text)?;
    Ok(text)
}

/// The Digital Link of a logistic unit.
fn sscc_link(alloc: Global, digits: &[u8]) -> Result<String, AllocError>
    requires { IsTrue (list_all is_digit digits.now) }
    ensures { IfOk result (λ t. string_bytes t ≡ sscc_link digits.now) }
{
    let mut text = String::from_str(alloc, "https://id.gs1.org/00/")?;
    push_digits(&mut text, digits)?;
    Ok(text)
}

/// Appends digits to a text.
fn push_digits(text: &mut String, digits: &[u8]) -> Result<(), AllocError>
    requires { IsTrue (list_all is_digit digits.now) }
    ensures { OnOk result (string_bytes text.new ≡ string_bytes text.old ++ digits.now) }
{
    for digit in digits {
        text.push(char::from(*digit))?;
    }
    Ok(())
}

/// The texts of items, in order.
///
/// # Errors
/// Out of memory.
pub(crate) fn item_values(alloc: Global, items: &[Epc]) -> Result<Vec<Value>, AllocError>
    ensures { IfOk result (λ vs. (texts : List (List ℕ)) × (map view vs.items ≡ map string texts)
        × AreSpellings items.now texts) }
{
    let mut values = Vec::with_capacity(alloc, items.len())?;
    for item in items {
        values.push(text_value(item_text(alloc, item)?))?;
    }
    Ok(values)
}

/// A text as a value.
fn text_value(text: String) -> Value
    ensures { view result ≡ string (string_bytes text) }
{
    Value::String(text)
}
