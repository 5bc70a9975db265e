//! Texts that a JSON value lends, once they are checked.

ghost use Rattle.std.specs.Prelude.{◌≡◌, Some, None, IsSome, IfOk, if◌then◌else◌};
ghost use Rattle.epc_core.specs.Items.{is_plain, key_of};
ghost use Rattle.epc_core.specs.Spellings.{IsPlain};

use crate::texts::PlainText;
use epc_core::{Epc, EpcFault, is_plain};
use std::alloc::{AllocError, Global};
use std::marker::Model;

/// A plain text that is lent.
#[derive(Debug, Drop)]
pub struct PlainStr<'v> {
    text: &'v str,
}

impl<'v> Model for PlainStr<'v> {
    ghost use Rattle.std.specs.Prelude.{List, ℕ};
    ghost use Rattle.epc_core.specs.Spellings.{IsPlain};

    ghost Value = { List ℕ };

    ghost view = { λ t. t.text.now };

    ghost invariant = { λ t. IsPlain t.text.now };
}

impl<'v> PlainStr<'v> {
    /// The text, `None` where it isn't plain.
    pub fn of(text: &'v str) -> Option<PlainStr<'v>>
        ensures value { result ≡ (if is_plain text.now then Some text.now else None) }
        ensures plain { IsSome result → IsPlain text.now }
    {
        if is_plain(text) {
            Some(PlainStr { text })
        } else {
            None
        }
    }

    /// A text that is known to be plain.
    pub fn known(text: &'v str) -> PlainStr<'v>
        requires { IsPlain text.now }
        ensures { result ≡ text.now }
    {
        PlainStr { text }
    }

    /// A copy of the text. It fails only where memory runs out.
    pub fn copy(&self, alloc: Global) -> Result<PlainText, AllocError>
        ensures value { IfOk result (λ t. t ≡ self.now) }
        ensures plain { IfOk result IsPlain }
    {
        PlainText::of(alloc, self.text)
    }
}

/// An EPC text that is lent. Contracts see it as the key of the item that it names.
#[derive(Debug, Drop)]
pub struct EpcText<'v> {
    text: &'v str,
}

impl<'v> Model for EpcText<'v> {
    ghost use Rattle.std.specs.Prelude.{List, ℕ};
    ghost use Rattle.epc_core.specs.Items.{key_of};
    ghost use Rattle.epc_core.specs.Spellings.{IsPlain};

    ghost Value = { List ℕ };

    ghost view = { λ t. key_of t.text.now };

    ghost invariant = { λ t. IsPlain t.text.now };
}

impl<'v> EpcText<'v> {
    /// The text, `None` where it names no item.
    pub fn of(text: &'v str) -> Option<EpcText<'v>>
        ensures value { result ≡ (if is_plain text.now then Some (key_of text.now) else None) }
        ensures plain { IsSome result → IsPlain text.now }
    {
        if is_plain(text) {
            Some(EpcText { text })
        } else {
            None
        }
    }

    /// A text that is known to be plain.
    pub fn known(text: &'v str) -> EpcText<'v>
        requires { IsPlain text.now }
        ensures { result ≡ key_of text.now }
    {
        EpcText { text }
    }

    /// The item that the text names. It fails only where memory runs out.
    #[tactic(auto, using(crate::proofs::Lent::plain_is_read))]
    pub fn read(&self, alloc: Global) -> Result<Epc, AllocError>
        ensures { IfOk result (λ e. e ≡ self.now) }
    {
        match Epc::read(alloc, self.text) {
            Ok(epc) => Ok(epc),
            Err(EpcFault::NoMemory) => Err(AllocError),
            Err(EpcFault::Empty | EpcFault::TooLong | EpcFault::BadByte(_)) => unreachable!(),
        }
    }
}
