//! The texts of opaque items, of which short ones lie in the item itself.
ghost use Rattle.std.specs.Prelude.{◌≡◌, ℕ, ◌≤◌, ◌<◌, length, take, drop, IfOk, IfErr};
ghost use Rattle.std.specs.Cmp.Lexicographic.{slice_cmp};
ghost use Rattle.std.specs.Ordering.{nat_cmp};
ghost use Rattle.epc_core.specs.Blocks.{padded};
ghost use Rattle.epc_core.specs.Spellings.{IsPlain};

use crate::blocks::compare_blocks;
use std::alloc::{AllocError, Global};
use std::cmp::Ordering;
use std::fmt;
use std::marker::Model;

/// The most bytes of a text that lies in the item itself.
const MOST_INSIDE: usize = 30;

/// The text of an opaque item: 1 to 512 bytes of UTF-8, none of them a control byte, a space or DEL.
///
/// Contracts see it as its bytes. A text of up to 30 bytes lies in the item itself, a longer one on the heap.
#[derive(Drop)]
pub struct ItemText {
    kept: Kept,
}

/// Where a text lies.
#[derive(Drop)]
enum Kept {
    /// In the item: its bytes, zeros behind them, and how many bytes there are.
    Inside { bytes: [u8; 30], count: u8 },
    /// On the heap.
    Heap(String),
}

impl Model for ItemText {
    ghost use Rattle.std.specs.Prelude.{List, ℕ};

    ghost Value = { List ℕ };

    ghost use Rattle.epc_core.specs.KeptTexts.{kept_text, IsKept};

    ghost view = { λ t. kept_text t.kept };

    ghost invariant = { λ t. IsKept t.kept };
}

impl ItemText {
    /// The item text with these bytes. It fails only where memory runs out, and of up to 30 bytes never.
    pub(crate) fn new(alloc: Global, text: &str) -> Result<ItemText, AllocError>
        requires { IsPlain text.now }
        ensures text { IfOk result (λ t. t ≡ text.now) }
        ensures memory { IfErr result (λ _. 30 < length text.now) }
    {
        if text.len() <= MOST_INSIDE {
            return Ok(ItemText::inside(text));
        }
        let text = String::from_str(alloc, text)?;
        Ok(ItemText {
            kept: Kept::Heap(text),
        })
    }

    /// The item text with these bytes, in the item itself.
    fn inside(text: &str) -> ItemText
        requires plain { IsPlain text.now }
        requires short { length text.now ≤ 30 }
        ensures { result ≡ text.now }
    {
        let mut bytes = [0; 30];
        bytes[..text.len()].copy_from_slice(text.as_bytes());
        let count = text.len() as u8;
        ItemText {
            kept: Kept::Inside { bytes, count },
        }
    }

    /// The bytes of the text.
    pub fn as_bytes(&self) -> &[u8]
        ensures bytes { result.now ≡ self.now }
        ensures plain { IsPlain self.now }
    {
        match &self.kept {
            Kept::Inside { bytes, count } => &bytes[..usize::from(*count)],
            Kept::Heap(text) => text.as_bytes(),
        }
    }

    /// The text.
    pub fn as_str(&self) -> &str
        ensures text { result.now ≡ self.now }
        ensures plain { IsPlain self.now }
    {
        match &self.kept {
            Kept::Inside { bytes, count } => match str::from_utf8(&bytes[..usize::from(*count)]) {
                Ok(text) => text,
                Err(_) => unreachable!(),
            },
            Kept::Heap(text) => text.as_str(),
        }
    }

    /// A copy of the text. It fails only where memory runs out, and of up to 30 bytes never.
    pub(crate) fn copy(&self, alloc: Global) -> Result<ItemText, AllocError>
        ensures same { IfOk result (λ t. t ≡ self.now) }
        ensures memory { IfErr result (λ _. 30 < length self.now) }
    {
        let kept = match &self.kept {
            Kept::Inside { bytes, count } => Kept::Inside {
                bytes: *bytes,
                count: *count,
            },
            Kept::Heap(text) => Kept::Heap(String::from_str(alloc, text.as_str())?),
        };
        Ok(ItemText { kept })
    }

    /// How two texts compare, byte by byte. Where one lies in the item, the first 30 bytes mostly decide.
    #[inline(always)]
    pub(crate) fn compare(&self, other: &ItemText) -> Ordering
        ensures { result ≡ slice_cmp nat_cmp self.now other.now }
    {
        if let (Kept::Heap(text), Kept::Heap(other_text)) = (&self.kept, &other.kept) {
            return text.as_str().cmp(other_text.as_str());
        }
        let fronts = compare_blocks(self.front(), other.front());
        if fronts.is_ne() {
            return fronts;
        }
        self.compare_rests(other)
    }

    /// How the bytes behind the first 30 compare. Not inlined, to keep the comparison of the first ones small.
    #[inline(never)]
    fn compare_rests(&self, other: &ItemText) -> Ordering
        ensures { result ≡ slice_cmp nat_cmp (drop 30 self.now) (drop 30 other.now) }
    {
        self.rest().cmp(&other.rest())
    }

    /// The first 30 bytes, zeros behind a shorter text.
    #[inline(always)]
    fn front(&self) -> &[u8]
        ensures bytes { result.now ≡ take 30 (padded 30 self.now) }
        ensures counted { length result.now ≡ 30 }
        ensures plain { IsPlain self.now }
    {
        match &self.kept {
            Kept::Inside { bytes, count: _ } => bytes,
            Kept::Heap(text) => &text.as_bytes()[..MOST_INSIDE],
        }
    }

    /// The bytes behind the first 30.
    fn rest(&self) -> &[u8]
        ensures { result.now ≡ drop 30 self.now }
    {
        match &self.kept {
            Kept::Inside { bytes, count: _ } => &bytes[MOST_INSIDE..],
            Kept::Heap(text) => &text.as_bytes()[MOST_INSIDE..],
        }
    }
}

impl fmt::Debug for ItemText {
    fn fmt<W: fmt::Write>(&self, f: &mut fmt::Formatter<W>) -> fmt::Result {
        write!(f, "{:?}", self.as_str())
    }
}
