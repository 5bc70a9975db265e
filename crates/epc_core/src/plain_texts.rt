//! Plain texts, and the first reason why a text isn't plain.
ghost use Rattle.std.specs.Prelude.{◌≡◌, ℕ, ◌↔◌, IsTrue, position, not};
ghost use Rattle.std.specs.List.{list_all};
ghost use Rattle.epc_core.specs.Items.{is_plain_byte, is_plain};
ghost use Rattle.epc_core.specs.Reading.{fault_of};
ghost use Rattle.epc_core.specs.Spellings.{IsPlain};

use crate::items::EpcFault;

/// The most bytes that a plain text has.
const MOST_BYTES: usize = 512;

/// Whether a text is plain: 1 to 512 bytes, no byte up to 0x20 (a control byte or a space) and no
/// byte 0x7F (DEL).
#[tactic(auto, unfolding(crate::specs::Items::is_plain))]
pub fn is_plain(text: &str) -> bool
    ensures test { result ≡ is_plain text.now }
    ensures plain { IsTrue result ↔ IsPlain text.now }
{
    1 <= text.len() && text.len() <= MOST_BYTES && are_plain_bytes(text.as_bytes())
}

/// Whether a plain text may have each of these bytes.
fn are_plain_bytes(bytes: &[u8]) -> bool
    ensures { result ≡ list_all is_plain_byte bytes.now }
{
    bytes.iter().all(|b| is_plain_byte(*b))
}

/// The first reason why a text isn't plain.
pub(crate) fn fault_of(text: &[u8]) -> Option<EpcFault>
    ensures { result ≡ fault_of text.now }
{
    if text.is_empty() {
        return Some(EpcFault::Empty);
    }
    if text.len() > MOST_BYTES {
        return Some(EpcFault::TooLong);
    }
    match first_bad_byte(text) {
        Some(place) => Some(EpcFault::BadByte(place)),
        None => None,
    }
}

/// The place of the first byte that no plain text has.
fn first_bad_byte(text: &[u8]) -> Option<usize>
    ensures { result ≡ position (λ b. not (is_plain_byte b)) text.now }
{
    text.iter().position(|b| !is_plain_byte(*b))
}

/// Whether a plain text may have this byte.
fn is_plain_byte(b: u8) -> bool
    ensures { result ≡ is_plain_byte b }
{
    b >= 33 && b != 127
}
