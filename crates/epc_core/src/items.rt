//! The item of an EPC text.
ghost use Rattle.std.specs.Prelude.{◌≡◌, ◌↔◌, ℕ, IsUtf8, List, IfOk, IfErr, MatchResult, IsSome, IfSome, string_bytes, Err, Some, refl, nat_eq, flat_map, fold};
ghost use Rattle.std.specs.Cmp as Cmp;
ghost use Rattle.std.specs.Cmp.Lexicographic.{slice_cmp, pointwise, nat_list_cmp_total, nat_list_eq_equiv, texts_ties, texts_po, bytes_decides};
ghost use Rattle.std.specs.Ordering.{nat_cmp};
ghost use Rattle.std.specs.Hash as fed;
ghost use Rattle.epc_core.specs.Forms.{SameForm, TakesMemory, key_of_form};

use crate::blocks::compare_blocks;
use crate::item_texts::ItemText;
use crate::keys::form_of_key;
use crate::plain_texts::fault_of;
use crate::serials::Serial;
use crate::spellings::form_of;
use crate::texts::push_digits;
use std::alloc::{AllocError, Global};
use std::cmp::Ordering;
use std::hash::{Hash, Hasher};
use std::marker::Model;
use std::mem::size_of;
use thiserror::Error;

/// Why a text is no EPC text.
#[derive(Debug, Drop, PartialEq, Eq, Error)]
pub enum EpcFault {
    /// Memory ran out.
    #[error("memory ran out")]
    NoMemory,
    /// The text is empty.
    #[error("an EPC text has at least 1 byte")]
    Empty,
    /// The text has more than 512 bytes.
    #[error("an EPC text has at most 512 bytes")]
    TooLong,
    /// The byte at this place, from 0, is a space, a control byte or DEL.
    #[error("byte {0} is a space or a control character")]
    BadByte(usize),
}

/// The parts of an item's key.
#[derive(Debug, Drop)]
pub enum EpcForm {
    /// A trade item: the 14 digits of its GTIN in ASCII, and its serial number, 1 to 20 characters.
    Item { gtin: [u8; 14], serial: Serial },
    /// A logistic unit: the 18 digits of its SSCC in ASCII.
    Sscc([u8; 18]),
    /// Any other item: its text, as it was read.
    Other(ItemText),
}

impl EpcForm {
    /// A copy with the same digits and characters. It fails only where memory runs out, and
    /// of an opaque text of more than 30 bytes alone.
    pub fn copy(&self, alloc: Global) -> Result<EpcForm, AllocError>
        ensures same { IfOk result (λ form. SameForm form self.now) }
        ensures memory { IfErr result (λ _. TakesMemory (key_of_form self.now)) }
    {
        match self {
            EpcForm::Item { gtin, serial } => Ok(EpcForm::Item {
                gtin: *gtin,
                serial: serial.copy(),
            }),
            EpcForm::Sscc(digits) => Ok(EpcForm::Sscc(*digits)),
            EpcForm::Other(text) => Ok(EpcForm::Other(text.copy(alloc)?)),
        }
    }
}

/// The item that an EPC text names.
///
/// Contracts see it as its key's bytes: `sgtin`, the GTIN-14 and the serial number, or `sscc` and the
/// SSCC-18, or `uri` and the text, with one space between the words. Equality, order and hash are the
/// key's; none of them builds it.
#[derive(Debug, Drop)]
pub struct Epc {
    form: EpcForm,
}

// Maps keep items by value, so an item has to stay small.
const _: () = prove!(size_of::<Epc>() == 40);

impl Model for Epc {
    ghost use Rattle.std.specs.Prelude.{List, ℕ};

    ghost Value = { List ℕ };

    ghost use Rattle.epc_core.specs.Forms.{key_of_form, IsForm};

    ghost view = { λ e. key_of_form e.form };

    ghost invariant = { λ e. IsForm e.form };
}

impl Epc {
    ghost use Rattle.epc_core.specs.Reading.{reading, Gives};
    ghost use Rattle.epc_core.specs.Spellings.{IsPlain, Spells, IsKey};
    ghost use Rattle.epc_core.specs.Items.{key_of};
    ghost use Rattle.epc_core.specs.Forms.{IsForm};

    /// Reads an EPC text: an SGTIN or SSCC as an EPC URI (EPC Tag Data Standard, sections 6.3.1 and
    /// 6.3.2) or as a Digital Link on `id.gs1.org`, or any other plain text as an opaque item.
    ///
    /// The faults are those of a text that isn't plain, the first that applies, or `NoMemory`, which
    /// comes only of a plain text that names an opaque item and has more than 30 bytes.
    pub fn read(alloc: Global, text: &str) -> Result<Epc, EpcFault>
        // The text is read as the item that it spells, or refused by its first fault: `Empty`, `TooLong` or `BadByte`
        // with the byte's place from 0. Each comes exactly where the text has that fault.
        // Not covered: how a spelling is put together and the check digit stand by their own words.
        ensures gives { Gives result (reading text.now) }
        ensures spells { IfOk result (λ e. Spells text.now e) }
        // Not covered: that a read succeeds with memory at hand.
        ensures memory { result ≡ Err EpcFault.NoMemory → IsPlain text.now }
        ensures long { result ≡ Err EpcFault.NoMemory → TakesMemory (key_of text.now) }
    {
        if let Some(fault) = fault_of(text.as_bytes()) {
            return Err(fault);
        }
        match form_of(alloc, text) {
            Ok(form) => Ok(Epc { form }),
            Err(_) => Err(EpcFault::NoMemory),
        }
    }

    /// The key as a text. It fails only where memory runs out.
    pub fn key(&self, alloc: Global) -> Result<String, AllocError>
        ensures { IfOk result (λ k. string_bytes k ≡ self.now) }
    {
        let mut key = String::new(alloc);
        match &self.form {
            EpcForm::Item { gtin, serial } => {
                key.push_str("sgtin ")?;
                push_digits(&mut key, gtin)?;
                key.push_str(" ")?;
                key.push_str(serial.as_str())?;
            }
            EpcForm::Sscc(digits) => {
                key.push_str("sscc ")?;
                push_digits(&mut key, digits)?;
            }
            EpcForm::Other(text) => {
                key.push_str("uri ")?;
                key.push_str(text.as_str())?;
            }
        }
        Ok(key)
    }

    /// The item with this key, or `None` where no text spells an item of this key, which is found
    /// without allocating. It fails only where memory runs out, so for the key of an item alone,
    /// and there only of an opaque one with a text of more than 30 bytes.
    pub fn from_key(alloc: Global, key: &str) -> Result<Option<Epc>, AllocError>
        ensures found { IfOk result (λ item. IsSome item ↔ IsKey key.now) }
        ensures same { IfOk result (λ item. IfSome item (λ e. e ≡ key.now)) }
        ensures memory { IfErr result (λ _. IsKey key.now) }
        ensures long { IfErr result (λ _. TakesMemory key.now) }
    {
        match form_of_key(alloc, key)? {
            Some(form) => Ok(Some(Epc { form })),
            None => Ok(None),
        }
    }

    /// The form of the item, which its key determines.
    pub fn form(&self) -> &EpcForm
        ensures key { key_of_form result.now ≡ self.now }
        ensures form { IsForm result.now }
        ensures is_key { IsKey self.now }
        ensures text { IsUtf8 self.now }
    {
        &self.form
    }

    /// An equal item. It fails only where memory runs out, and of an opaque item with a text of more
    /// than 30 bytes alone.
    pub fn copy(&self, alloc: Global) -> Result<Epc, AllocError>
        ensures { MatchResult result (λ e. e ≡ self.now) (λ _. TakesMemory self.now) }
    {
        let form = self.form.copy(alloc)?;
        Ok(Epc { form })
    }
}

impl PartialEq for Epc {
    ghost eq = { pointwise nat_eq };

    ghost laws = { Cmp.partial_equiv_from_equiv nat_list_eq_equiv };

    #[inline]
    fn eq(&self, other: &Epc) -> bool {
        self.cmp(other).is_eq()
    }
}

impl Eq for Epc {
    ghost laws = { nat_list_eq_equiv };
}

impl PartialOrd for Epc {
    ghost partial_cmp = { λ x y. Some (slice_cmp nat_cmp x y) };

    ghost laws = { texts_po };

    fn partial_cmp(&self, other: &Epc) -> Option<Ordering> {
        Some(self.cmp(other))
    }
}

impl Ord for Epc {
    ghost cmp = { slice_cmp nat_cmp };

    ghost total = { nat_list_cmp_total };

    ghost matches_partial_cmp = { λ x y. refl };

    ghost matches_eq = { texts_ties };

    fn cmp(&self, other: &Epc) -> Ordering {
        match (&self.form, &other.form) {
            (
                EpcForm::Item { gtin, serial },
                EpcForm::Item {
                    gtin: other_gtin,
                    serial: other_serial,
                },
            ) => match compare_blocks(gtin, other_gtin) {
                Ordering::Equal => serial.compare(other_serial),
                decided => decided,
            },
            (EpcForm::Sscc(digits), EpcForm::Sscc(others)) => compare_blocks(digits, others),
            (EpcForm::Other(text), EpcForm::Other(other)) => text.compare(other),
            (EpcForm::Item { .. }, _) => Ordering::Less,
            (_, EpcForm::Item { .. }) => Ordering::Greater,
            (EpcForm::Sscc(_), _) => Ordering::Less,
            (_, EpcForm::Sscc(_)) => Ordering::Greater,
        }
    }
}

/// Feeds a hasher bytes, one after another.
fn feed<H: Hasher>(state: &mut H, bytes: &[u8])
    ensures { state.new ≡ fold H.write state.old (flat_map fed.u8 bytes.now) }
{
    for byte in bytes {
        state.write_u8(*byte);
    }
}

/// A hasher is fed the key's bytes, one after another.
impl Hash for Epc {
    ghost hash_input = { flat_map fed.u8 };

    ghost respects_eq = { (fed.same_Alike (flat_map fed.u8) bytes_decides).fed };

    fn hash<H: Hasher>(&self, state: &mut H) {
        match &self.form {
            EpcForm::Item { gtin, serial } => {
                feed(state, b"sgtin ");
                feed(state, gtin);
                feed(state, b" ");
                feed(state, serial.as_bytes());
            }
            EpcForm::Sscc(digits) => {
                feed(state, b"sscc ");
                feed(state, digits);
            }
            EpcForm::Other(text) => {
                feed(state, b"uri ");
                feed(state, text.as_bytes());
            }
        }
    }
}
