//! A text as it is found, and its values.

ghost use Rattle.std.specs.Prelude.{◌≡◌, ◌<◌, ◌+◌, ◌==◌, ◌∷◌, All, IfNone, IfOk, IfSome, drop, false, length, map, option_map, take};
ghost use Rattle.std.specs.List.{slice_split};
ghost use Rattle.serde_json.specs.View.{view};
ghost use Rattle.epc_core.specs.Items.{parted};
ghost use Rattle.document_convert.specs.Texts.{is_blank, unmarked, value_of};

use serde_json::Value;
use std::alloc::{AllocError, Global};

/// What stands behind a byte order mark, or all of a text that has none.
pub(crate) fn unmarked(text: &[u8]) -> &[u8]
    ensures { result.now ≡ unmarked text.now }
{
    match text.strip_prefix(&[239, 187, 191]) {
        Some(rest) => rest,
        None => text,
    }
}

/// The value of a text, `None` where it isn't JSON in UTF-8.
pub(crate) fn value_of(alloc: Global, text: &[u8]) -> Result<Option<Value>, AllocError>
    ensures { IfOk result (λ value. option_map view value ≡ value_of text.now) }
{
    match Value::from_slice(alloc, text) {
        Ok(value) => Ok(Some(value)),
        Err(error) => {
            if error.is_memory() {
                Err(AllocError)
            } else {
                Ok(None)
            }
        }
    }
}

/// Whether a line has nothing but spaces, tabs and carriage returns.
pub(crate) fn is_blank(line: &[u8]) -> bool
    ensures { result ≡ is_blank line.now }
{
    line.iter()
        .all(|code| *code == b' ' || *code == b'\t' || *code == b'\r')
}

/// The place of the first line feed.
fn line_end(text: &[u8]) -> Option<usize>
    ensures none { IfNone result (All (λ b. (b == 10) ≡ false) text.now) }
    ensures some { IfSome result (λ end. (end < length text.now)
        × All (λ b. (b == 10) ≡ false) (take end text.now)
        × (drop end text.now ≡ 10 ∷ drop (end + 1) text.now)) }
{
    text.iter().position(|b| *b == b'\n')
}

/// What is before the first line feed, and what is behind it.
fn first_line(text: &[u8]) -> Option<(&[u8], &[u8])>
    ensures { option_map (λ p. (p.0.now, p.1.now)) result ≡ parted 10 text.now }
{
    match line_end(text) {
        Some(end) => Some((&text[..end], &text[end + 1..])),
        None => None,
    }
}

/// The lines of a text: what its line feeds part.
pub(crate) fn lines_of<'t>(alloc: Global, text: &'t [u8]) -> Result<Vec<&'t [u8]>, AllocError>
    ensures { IfOk result (λ lines. map (λ l. l.now) lines.items
        ≡ slice_split (λ b. b == 10) text.now) }
{
    let mut lines = Vec::new(alloc);
    let mut rest = text;
    while let Some((line, more)) = first_line(rest) {
        lines.push(line)?;
        rest = more;
    }
    lines.push(rest)?;
    Ok(lines)
}
