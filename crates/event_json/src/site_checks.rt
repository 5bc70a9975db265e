//! Whether a name and addresses are those of a site.

ghost use Rattle.std.specs.Prelude.{◌≡◌, map, bytes_eq};
ghost use Rattle.std.specs.List.{list_all, list_any};
ghost use Rattle.epc_core.specs.Items.{is_plain};
ghost use Rattle.event_json.specs.Sites.{is_name_byte, is_site_name, repeats};

use crate::limits::MAX_NAME_BYTES;
use epc_core::is_plain;

/// Whether a site's name may have this byte.
fn is_name_byte(b: u8) -> bool
    ensures { result ≡ is_name_byte b }
{
    b.is_ascii_alphanumeric() || b == b'_' || b == b'-'
}

/// Whether a text is a site's name.
pub(crate) fn is_site_name(text: &str) -> bool
    ensures { result ≡ is_site_name text.now }
{
    let bytes = text.as_bytes();
    1 <= bytes.len() && bytes.len() <= MAX_NAME_BYTES && are_name_bytes(bytes)
}

/// Whether a site's name may have each of the bytes.
fn are_name_bytes(bytes: &[u8]) -> bool
    ensures { result ≡ list_all is_name_byte bytes.now }
{
    bytes.iter().all(|b| is_name_byte(*b))
}

/// Whether all texts are plain.
pub(crate) fn are_plain(texts: &[&str]) -> bool
    ensures { result ≡ list_all is_plain (map (λ t. t.now) texts.now) }
{
    for text in texts {
        if !is_plain(*text) {
            return false;
        }
    }
    true
}

/// Whether the text is among the others.
fn is_among(text: &str, others: &[&str]) -> bool
    ensures { result ≡ list_any (λ t. bytes_eq t text.now) (map (λ t. t.now) others.now) }
{
    for other in others {
        if *other == text {
            return true;
        }
    }
    false
}

/// Whether some text stands twice.
pub(crate) fn repeats(texts: &[&str]) -> bool
    ensures { result ≡ repeats (map (λ t. t.now) texts.now) }
{
    for (place, text) in texts.iter().enumerate() {
        if is_among(*text, &texts[place + 1..]) {
            return true;
        }
    }
    false
}
