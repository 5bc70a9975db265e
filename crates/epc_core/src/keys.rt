//! Items from their keys.
ghost use Rattle.std.specs.Prelude.{◌≡◌, ℕ, ◌++◌, List, codes, IfOk, IfErr};
ghost use Rattle.epc_core.specs.Forms.{IsFormOfKey, TakesMemory};
ghost use Rattle.epc_core.specs.Spellings.{IsKey};

use crate::item_texts::ItemText;
use crate::items::EpcForm;
use crate::numbers::is_checked;
use crate::plain_texts::is_plain;
use crate::serials::Serial;
use crate::spellings::spells_number;
use std::alloc::{AllocError, Global};

/// The form of the item with this key, if there is one.
pub(crate) fn form_of_key(alloc: Global, key: &str) -> Result<Option<EpcForm>, AllocError>
    ensures form { IfOk result (λ form. IsFormOfKey key.now form) }
    ensures memory { IfErr result (λ _. IsKey key.now) }
    ensures long { IfErr result (λ _. TakesMemory key.now) }
{
    if let Some(rest) = key.strip_prefix("sgtin ") {
        return Ok(item_of_key(rest));
    }
    if let Some(digits) = key.strip_prefix("sscc ") {
        return Ok(sscc_of_key(digits));
    }
    match key.strip_prefix("uri ") {
        Some(text) => other_of_key(alloc, text),
        None => Ok(None),
    }
}

/// The form of a trade item, from its key behind the first word.
fn item_of_key(rest: &str) -> Option<EpcForm>
    ensures { IsFormOfKey (codes "sgtin " ++ rest.now) result }
{
    let (digits, serial) = rest.split_once(' ')?;
    if !is_checked(digits.as_bytes(), 14) {
        return None;
    }
    let serial = Serial::of_bytes(serial.as_bytes())?;
    let mut gtin = [b'0'; 14];
    gtin.copy_from_slice(digits.as_bytes());
    Some(EpcForm::Item { gtin, serial })
}

/// The form of a logistic unit, from its key behind the first word.
fn sscc_of_key(digits: &str) -> Option<EpcForm>
    ensures { IsFormOfKey (codes "sscc " ++ digits.now) result }
{
    if !is_checked(digits.as_bytes(), 18) {
        return None;
    }
    let mut sscc = [b'0'; 18];
    sscc.copy_from_slice(digits.as_bytes());
    Some(EpcForm::Sscc(sscc))
}

/// The form of any other item, from its key behind the first word: a text that spells no number.
fn other_of_key(alloc: Global, text: &str) -> Result<Option<EpcForm>, AllocError>
    ensures form { IfOk result (λ form. IsFormOfKey (codes "uri " ++ text.now) form) }
    ensures memory { IfErr result (λ _. IsKey (codes "uri " ++ text.now)) }
    ensures long { IfErr result (λ _. TakesMemory (codes "uri " ++ text.now)) }
{
    if !is_plain(text) || spells_number(text) {
        return Ok(None);
    }
    let text = ItemText::new(alloc, text)?;
    Ok(Some(EpcForm::Other(text)))
}
