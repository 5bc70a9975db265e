//! The id of a chain.
ghost use Rattle.std.specs.Prelude.{◌≡◌, IsTrue, Some, None, if◌then◌else◌};
ghost use Rattle.std.specs.List.{list_all};
ghost use Rattle.frame_lines.specs.Chains.{is_chain_digit, is_chain_id};

use std::marker::Model;

/// How many digits a chain's id has.
const CHAIN_DIGITS: usize = 32;

/// The id of a chain: 32 hexadecimal digits in lower case.
///
/// It is drawn once for a chain and is the same on each machine that holds a site of it. Contracts see it as the
/// bytes of its digits. It does not allocate.
#[derive(Clone, Copy, Debug, PartialEq, Eq)]
pub struct ChainId {
    digits: [u8; 32],
}

impl Model for ChainId {
    ghost use Rattle.std.specs.Prelude.{List, ℕ, IsTrue};
    ghost use Rattle.frame_lines.specs.Chains.{is_chain_id};

    ghost Value = { List ℕ };

    ghost view = { λ c. c.digits };

    ghost invariant = { λ c. IsTrue (is_chain_id c.digits) };

    ghost inverse = { λ digits. record { digits = digits } };
}

impl ChainId {
    /// The id that a text is, `None` where it is none.
    pub fn read(text: &str) -> Option<ChainId>
        ensures { result ≡ (if is_chain_id text.now then Some text.now else None) }
    {
        let bytes = text.as_bytes();
        if !is_chain_id(bytes) {
            return None;
        }
        let mut digits = [0; 32];
        digits.copy_from_slice(bytes);
        Some(ChainId { digits })
    }

    /// The id as a text.
    pub fn as_str(&self) -> &str
        ensures text { result.now ≡ self.now }
        ensures id { IsTrue (is_chain_id self.now) }
    {
        match str::from_utf8(&self.digits) {
            Ok(text) => text,
            Err(_) => unreachable!(),
        }
    }
}

/// Whether these are the digits of a chain's id.
fn is_chain_id(bytes: &[u8]) -> bool
    ensures { result ≡ is_chain_id bytes.now }
{
    bytes.len() == CHAIN_DIGITS && are_chain_digits(bytes)
}

/// Whether each of these is a digit of a chain's id.
fn are_chain_digits(bytes: &[u8]) -> bool
    ensures { result ≡ list_all is_chain_digit bytes.now }
{
    bytes.iter().all(|b| is_chain_digit(*b))
}

/// Whether this is a digit of a chain's id.
fn is_chain_digit(b: u8) -> bool
    ensures { result ≡ is_chain_digit b }
{
    b.is_ascii_digit() || (b'a'..=b'f').contains(&b)
}
