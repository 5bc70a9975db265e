//! A text of a row, as the database has it: bytes, which need not be UTF-8.
ghost use Rattle.std.specs.Prelude.{◌≡◌, IfOk, IsUtf8, Some, option_map, string_bytes, refl, nat_eq};
ghost use Rattle.std.specs.Cmp as Cmp;
ghost use Rattle.std.specs.Cmp.Lexicographic.{slice_cmp, pointwise, nat_list_cmp_total, nat_list_eq_equiv, texts_ties, texts_po};
ghost use Rattle.std.specs.Ordering.{nat_cmp};
ghost use Rattle.site_rows.specs.Texts.{IsItemText, IsPlainText, Reads};

use epc_core::Epc;
use event_json::PlainText;
use std::alloc::{AllocError, Global};
use std::cmp::Ordering;
use std::marker::Model;

/// A text of a row, which contracts see as its bytes.
#[derive(Debug, Drop)]
pub struct Text {
    bytes: Vec<u8>,
}

impl Model for Text {
    ghost use Rattle.std.specs.Prelude.{List, ℕ};

    ghost Value = { List ℕ };

    ghost view = { λ t. t.bytes.items };
}

impl Text {
    /// The text. Does not allocate.
    pub fn from_string(text: String) -> Text
        ensures { result ≡ string_bytes text }
    {
        Text {
            bytes: text.into_bytes(),
        }
    }

    /// The text of these bytes.
    pub fn from_bytes(alloc: Global, bytes: &[u8]) -> Result<Text, AllocError>
        ensures { IfOk result (λ t. t ≡ bytes.now) }
    {
        Ok(Text {
            bytes: Vec::from_slice(alloc, bytes)?,
        })
    }

    /// A copy of a text.
    pub fn of(alloc: Global, text: &str) -> Result<Text, AllocError>
        ensures value { IfOk result (λ t. t ≡ text.now) }
        ensures utf8 { IsUtf8 text.now }
    {
        Text::from_bytes(alloc, text.as_bytes())
    }

    /// A copy of a plain text.
    pub fn of_plain(alloc: Global, text: &PlainText) -> Result<Text, AllocError>
        ensures value { IfOk result (λ t. t ≡ text.now) }
        ensures plain { IsPlainText text.now }
    {
        Text::of(alloc, text.as_str())
    }

    /// The key of an item.
    pub fn of_item(alloc: Global, item: &Epc) -> Result<Text, AllocError>
        ensures value { IfOk result (λ t. t ≡ item.now) }
        ensures item { IsItemText item.now }
    {
        // The form shows the proof that this is the key of an item.
        let _form = item.form();
        Ok(Text::from_string(item.key(alloc)?))
    }

    /// Its bytes.
    pub fn as_bytes(&self) -> &[u8]
        ensures { result.now ≡ self.now }
    {
        self.bytes.as_slice()
    }

    /// The text, where it is UTF-8.
    pub fn as_str(&self) -> Option<&str>
        ensures { Reads (option_map (λ t. t.now) result) self.now }
    {
        str::from_utf8(self.as_bytes()).ok()
    }

    /// An equal text.
    pub fn copy(&self, alloc: Global) -> Result<Text, AllocError>
        ensures { IfOk result (λ t. t ≡ self.now) }
    {
        Text::from_bytes(alloc, self.as_bytes())
    }
}

impl PartialEq for Text {
    ghost eq = { pointwise nat_eq };

    ghost laws = { Cmp.partial_equiv_from_equiv nat_list_eq_equiv };

    fn eq(&self, other: &Text) -> bool {
        self.as_bytes() == other.as_bytes()
    }
}

impl Eq for Text {
    ghost laws = { nat_list_eq_equiv };
}

impl PartialOrd for Text {
    ghost partial_cmp = { λ x y. Some (slice_cmp nat_cmp x y) };

    ghost laws = { texts_po };

    fn partial_cmp(&self, other: &Text) -> Option<Ordering> {
        Some(self.cmp(other))
    }
}

impl Ord for Text {
    ghost cmp = { slice_cmp nat_cmp };

    ghost total = { nat_list_cmp_total };

    ghost matches_partial_cmp = { λ x y. refl };

    ghost matches_eq = { texts_ties };

    fn cmp(&self, other: &Text) -> Ordering {
        self.as_bytes().cmp(other.as_bytes())
    }
}
