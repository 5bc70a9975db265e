//! A plain text.
ghost use Rattle.std.specs.Prelude.{◌≡◌, ◌↔◌, IfOk, IfSome, IsSome};
ghost use Rattle.epc_core.specs.Spellings.{IsPlain};

use epc_core::is_plain;
use std::alloc::{AllocError, Global};
use std::marker::Model;

/// A plain text: 1 to 512 bytes, none of them a space, a control byte or DEL.
#[derive(Debug, Drop)]
pub struct PlainText {
    text: String,
}

impl Model for PlainText {
    ghost use Rattle.std.specs.Prelude.{List, ℕ, string_bytes};
    ghost use Rattle.epc_core.specs.Spellings.{IsPlain};

    ghost Value = { List ℕ };

    ghost view = { λ t. string_bytes t.text };

    ghost invariant = { λ t. IsPlain (string_bytes t.text) };
}

impl PlainText {
    /// The text, `None` where it isn't plain.
    pub fn read(alloc: Global, text: &str) -> Result<Option<PlainText>, AllocError>
        ensures plain { IfOk result (λ t. IsSome t ↔ IsPlain text.now) }
        ensures value { IfOk result (λ t. IfSome t (λ own. own ≡ text.now)) }
    {
        if !is_plain(text) {
            return Ok(None);
        }
        Ok(Some(PlainText::of(alloc, text)?))
    }

    /// A text that is known to be plain.
    pub(crate) fn of(alloc: Global, text: &str) -> Result<PlainText, AllocError>
        requires { IsPlain text.now }
        ensures { IfOk result (λ t. t ≡ text.now) }
    {
        Ok(PlainText {
            text: String::from_str(alloc, text)?,
        })
    }

    /// The text.
    pub fn as_str(&self) -> &str
        ensures value { result.now ≡ self.now }
        ensures plain { IsPlain self.now }
    {
        self.text.as_str()
    }

    /// An equal text.
    pub fn copy(&self, alloc: Global) -> Result<PlainText, AllocError>
        ensures { IfOk result (λ t. t ≡ self.now) }
    {
        Ok(PlainText {
            text: String::from_str(alloc, self.text.as_str())?,
        })
    }
}

impl PartialEq for PlainText {
    ghost use Rattle.std.specs.Prelude.{nat_eq};
    ghost use Rattle.std.specs.Cmp as Cmp;
    ghost use Rattle.std.specs.Cmp.Lexicographic.{pointwise, nat_list_eq_equiv};

    ghost eq = { pointwise nat_eq };

    ghost laws = { Cmp.partial_equiv_from_equiv nat_list_eq_equiv };

    fn eq(&self, other: &PlainText) -> bool {
        self.text == other.text
    }
}

impl Eq for PlainText {
    ghost use Rattle.std.specs.Cmp.Lexicographic.{nat_list_eq_equiv};

    ghost laws = { nat_list_eq_equiv };
}
