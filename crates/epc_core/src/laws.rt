//! Laws of the definitions, each of which a call ensures.
ghost use Rattle.std.specs.Prelude.{◌≡◌, ◌↔◌, ℕ, ◌<◌, List, length, Ok, Err};
ghost use Rattle.epc_core.specs.Items.{key_of, sgtin_key, sscc_key, uri_key};
ghost use Rattle.epc_core.specs.Spellings.{IsPlain, Spells, IsKey};
ghost use Rattle.epc_core.specs.Reading.{reading};
ghost use Rattle.epc_core.specs.Forms.{key_of_form, IsForm, SameForm, TakesMemory};
ghost use Rattle.epc_core.specs.Laws.{GtinsAreSpelledTwice, SsccsAreSpelledTwice, BadBytesAreRefused, BadBytesAreThese, serial_characters, SerialNumbersAreThese};
ghost use Rattle.epc_core.specs.declared.items.EpcForm.{EpcForm};

use crate::items::EpcFault;

/// A plain text spells exactly one item.
pub fn one_text_one_item()
    ensures exists { (text : List ℕ) → IsPlain text → (key : List ℕ) × Spells text key }
    ensures only { (text key other : List ℕ) → Spells text key → Spells text other → key ≡ other }
{}

/// The EPC URI and the Digital Link of one GTIN and serial number spell one item, and so do those
/// of one SSCC.
pub fn two_spellings_one_item()
    ensures gtin { GtinsAreSpelledTwice }
    ensures sscc { SsccsAreSpelledTwice }
{}

/// What is read is what is spelled.
pub fn reading_is_spelling()
    ensures { (text key : List ℕ) → (reading text ≡ Ok key) ↔ Spells text key }
{}

/// Two plain texts have equal keys exactly where they spell one item.
pub fn equal_keys_one_item()
    ensures { (text other : List ℕ) → IsPlain text → IsPlain other → (key_of text ≡ key_of other)
        ↔ ((key : List ℕ) × Spells text key × Spells other key) }
{}

/// The key of an item's form is an item's key, and determines the form.
pub fn one_key_one_form()
    ensures is_key { (form : EpcForm) → IsForm form → IsKey (key_of_form form) }
    ensures same { (form other : EpcForm) → IsForm form → IsForm other
        → key_of_form form ≡ key_of_form other → SameForm form other }
{}

/// Which texts are refused, and by which fault: at most one of the three.
pub fn refusals()
    ensures empty { (text : List ℕ) → (reading text ≡ Err EpcFault.Empty) ↔ (length text ≡ 0) }
    ensures too_long { (text : List ℕ) → (reading text ≡ Err EpcFault.TooLong)
        ↔ (512 < length text) }
    ensures bad_byte { BadBytesAreRefused }
{}

/// Which bytes no plain text has, by their numbers: those up to 32, and 127.
pub fn bad_bytes()
    ensures { BadBytesAreThese }
{}

/// A serial number is 1 to 20 of 82 characters, by their letters and signs.
pub fn serial_numbers()
    ensures counted { length serial_characters ≡ 82 }
    ensures serials { SerialNumbersAreThese }
{}

/// Which items allocate: opaque ones whose text has more than 30 bytes, and no others.
pub fn items_that_take_memory()
    ensures gtin { (gtin serial : List ℕ) → ¬ TakesMemory (sgtin_key gtin serial) }
    ensures sscc { (digits : List ℕ) → ¬ TakesMemory (sscc_key digits) }
    ensures other { (text : List ℕ) → TakesMemory (uri_key text) ↔ (30 < length text) }
{}
