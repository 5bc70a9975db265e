//! The texts of rows, read back: one that isn't UTF-8 stands for nothing.
ghost use Rattle.std.specs.Prelude.{◌≡◌, ◌↔◌, IfOk, IfSome, IsSome, IsTrue};
ghost use Rattle.site_rows.specs.Texts.{IsItemText, IsPlainText};

use crate::texts::Text;
use epc_core::{Epc, is_plain};
use event_json::PlainText;
use std::alloc::{AllocError, Global};

/// Whether a text is plain and UTF-8.
pub(crate) fn is_plain_text(text: &Text) -> bool
    ensures { IsTrue result ↔ IsPlainText text.now }
{
    match text.as_str() {
        Some(text) => is_plain(text),
        None => false,
    }
}

/// The plain text, where it is one.
pub(crate) fn plain_text_of(alloc: Global, text: &Text) -> Result<Option<PlainText>, AllocError>
    ensures plain { IfOk result (λ t. IsSome t ↔ IsPlainText text.now) }
    ensures same { IfOk result (λ t. IfSome t (λ own. own ≡ text.now)) }
{
    match text.as_str() {
        Some(text) => PlainText::read(alloc, text),
        None => Ok(None),
    }
}

/// The item whose key the text is, where it is one.
pub(crate) fn item_of_key(alloc: Global, key: &Text) -> Result<Option<Epc>, AllocError>
    ensures found { IfOk result (λ item. IsSome item ↔ IsItemText key.now) }
    ensures same { IfOk result (λ item. IfSome item (λ e. e ≡ key.now)) }
{
    match key.as_str() {
        Some(key) => Epc::from_key(alloc, key),
        None => Ok(None),
    }
}
