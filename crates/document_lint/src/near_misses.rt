//! Items whose text begins as that of an SGTIN or an SSCC does.

ghost use Rattle.std.specs.Prelude.{◌≡◌, option_map};
ghost use Rattle.document_lint.specs.NearMisses.{begins, behind_scheme, is_number_element, is_number_like, is_number_link, is_number_path, is_number_uri, near_text, path_of};

use epc_core::{Epc, EpcForm, ItemText};

/// The text of an item that is neither an SGTIN nor an SSCC, but whose text begins as that of one.
pub(crate) fn near_text(item: &Epc) -> Option<&ItemText>
    ensures { option_map (λ t. t.now) result ≡ near_text item.now }
{
    match item.form() {
        EpcForm::Other(text) => {
            if is_number_like(text.as_str()) {
                Some(text)
            } else {
                None
            }
        }
        EpcForm::Item { gtin: _, serial: _ } => None,
        EpcForm::Sscc(_) => None,
    }
}

/// Whether a text begins as an EPC URI, an element string or a Digital Link of an SGTIN or an SSCC.
fn is_number_like(text: &str) -> bool
    ensures { result ≡ is_number_like text.now }
{
    is_number_uri(text) || is_number_element(text) || is_number_link(text)
}

/// Whether a text begins as an EPC URI of one.
fn is_number_uri(text: &str) -> bool
    ensures { result ≡ is_number_uri text.now }
{
    begins(text, "urn:epc:id:sgtin:") || begins(text, "urn:epc:id:sscc:")
}

/// Whether a text begins as an element string of one, in brackets.
fn is_number_element(text: &str) -> bool
    ensures { result ≡ is_number_element text.now }
{
    begins(text, "(01)") || begins(text, "(00)")
}

/// Whether a text begins as a Digital Link of one, on any host.
fn is_number_link(text: &str) -> bool
    ensures { result ≡ is_number_link text.now }
{
    let Some(rest) = behind_scheme(text) else {
        return false;
    };
    match path_of(rest) {
        Some(path) => is_number_path(path),
        None => false,
    }
}

/// What is behind the scheme of a link, `https` or `http`.
pub(crate) fn behind_scheme(text: &str) -> Option<&str>
    ensures { option_map (λ t. t.now) result ≡ behind_scheme text.now }
{
    match text.strip_prefix("https://") {
        Some(rest) => Some(rest),
        None => text.strip_prefix("http://"),
    }
}

/// What is behind the host of a link.
pub(crate) fn path_of(rest: &str) -> Option<&str>
    ensures { option_map (λ t. t.now) result ≡ path_of rest.now }
{
    let (_, path) = rest.split_once('/')?;
    Some(path)
}

/// Whether a path begins as that of a GTIN or an SSCC in a Digital Link.
fn is_number_path(path: &str) -> bool
    ensures { result ≡ is_number_path path.now }
{
    begins(path, "01/") || begins(path, "00/")
}

/// Whether a text begins so.
fn begins(text: &str, front: &str) -> bool
    ensures { result ≡ begins front.now text.now }
{
    match text.strip_prefix(front) {
        Some(_) => true,
        None => false,
    }
}
