//! Serial numbers, which lie in the item itself.
ghost use Rattle.std.specs.Prelude.{◌≡◌, ℕ, Some, None, if◌then◌else◌};
ghost use Rattle.std.specs.List.{list_all};
ghost use Rattle.std.specs.Cmp.Lexicographic.{slice_cmp};
ghost use Rattle.std.specs.Ordering.{nat_cmp};
ghost use Rattle.epc_core.specs.Serials.{is_serial_byte, is_serial, IsSerial};

use crate::blocks::compare_blocks;
use std::cmp::Ordering;
use std::fmt;
use std::marker::Model;

/// The most characters of a serial number.
pub(crate) const MOST_CHARACTERS: usize = 20;

/// The serial number of a trade item: 1 to 20 of the 82 characters that the EPC Tag Data Standard allows.
///
/// Contracts see it as its bytes, one for each character. It does not allocate.
#[derive(Drop)]
pub struct Serial {
    /// The characters, and zeros behind them.
    bytes: [u8; 20],
    /// How many characters there are.
    count: u8,
}

impl Model for Serial {
    ghost use Rattle.std.specs.Prelude.{List, ℕ, take};

    ghost Value = { List ℕ };

    ghost use Rattle.epc_core.specs.Blocks.{HoldsText};
    ghost use Rattle.epc_core.specs.Serials.{IsSerial};

    ghost view = { λ s. take s.count s.bytes };

    ghost invariant = { λ s. HoldsText 20 s.count s.bytes × IsSerial (take s.count s.bytes) };
}

impl Serial {
    /// The serial number with these characters, or `None` where they are none.
    pub(crate) fn of_bytes(bytes: &[u8]) -> Option<Serial>
        ensures { result ≡ (if is_serial bytes.now then Some bytes.now else None) }
    {
        if !is_serial(bytes) {
            return None;
        }
        let mut kept = [0; 20];
        kept[..bytes.len()].copy_from_slice(bytes);
        Some(Serial {
            bytes: kept,
            count: bytes.len() as u8,
        })
    }

    /// The characters, each one byte of ASCII.
    pub fn as_bytes(&self) -> &[u8]
        ensures bytes { result.now ≡ self.now }
        ensures serial { IsSerial self.now }
    {
        &self.bytes[..usize::from(self.count)]
    }

    /// The characters as a text.
    pub fn as_str(&self) -> &str
        ensures text { result.now ≡ self.now }
        ensures serial { IsSerial self.now }
    {
        match str::from_utf8(self.as_bytes()) {
            Ok(text) => text,
            Err(_) => unreachable!(),
        }
    }

    /// A copy of the serial number.
    pub(crate) fn copy(&self) -> Serial
        ensures { result ≡ self.now }
    {
        Serial {
            bytes: self.bytes,
            count: self.count,
        }
    }

    /// How two serial numbers compare, character by character.
    #[inline(always)]
    pub(crate) fn compare(&self, other: &Serial) -> Ordering
        ensures { result ≡ slice_cmp nat_cmp self.now other.now }
    {
        compare_blocks(&self.bytes, &other.bytes)
    }
}

impl fmt::Debug for Serial {
    fn fmt<W: fmt::Write>(&self, f: &mut fmt::Formatter<W>) -> fmt::Result {
        write!(f, "{:?}", self.as_str())
    }
}

/// Whether these are 1 to 20 of the 82 characters that a serial number may have.
pub(crate) fn is_serial(bytes: &[u8]) -> bool
    ensures { result ≡ is_serial bytes.now }
{
    bytes.len() >= 1 && bytes.len() <= MOST_CHARACTERS && are_serial_bytes(bytes)
}

/// Whether a serial number may have each of these characters.
fn are_serial_bytes(bytes: &[u8]) -> bool
    ensures { result ≡ list_all is_serial_byte bytes.now }
{
    bytes.iter().all(|b| is_serial_byte(*b))
}

/// Whether a serial number may have this character.
fn is_serial_byte(b: u8) -> bool
    ensures { result ≡ is_serial_byte b }
{
    b.is_ascii_uppercase()
        || b.is_ascii_lowercase()
        || b == b'_'
        || b == b'!'
        || b == b'"'
        || (b'%'..=b'?').contains(&b)
}
