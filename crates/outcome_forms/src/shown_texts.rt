//! Texts of strangers, as names of files, of tables and of sites in a file, as they are shown in lines of words.

ghost use Rattle.std.specs.Prelude.{◌≡◌, ◌++◌, IfOk, OnOk, string_bytes};
ghost use Rattle.std.specs.Str.{NoCharPasses};
ghost use Rattle.outcome_forms.specs.Shown.{is_control, is_hidden, is_mark, shown, shown_char};

use std::alloc::{AllocError, Global};

/// A text that may come from a stranger, as it is shown: what is below a space, DEL, U+0080 to U+009F, the marks of
/// direction (U+061C, U+200E, U+200F, U+202A to U+202E, U+2066 to U+2069), U+2028 and U+2029 are written by their codes, as
/// `\u{1b}`, and a backslash twice. So it is one line, and turns nothing around; any other character is as it was.
pub fn shown(alloc: Global, text: &str) -> Result<String, AllocError>
    // Not covered: that a line has its texts so is tested: tests/messages.sh, tests/files.sh.
    ensures exact { IfOk result (λ t. string_bytes t ≡ shown text.now) }
    ensures seen { IfOk result (λ t. NoCharPasses is_hidden (string_bytes t)) }
{
    let mut shown = String::new(alloc);
    for c in text.chars() {
        push_shown(alloc, &mut shown, c)?;
    }
    Ok(shown)
}

/// Adds a character as it is shown.
#[tactic(auto, unfolding(crate::specs::Shown::shown_char))]
fn push_shown(alloc: Global, text: &mut String, c: char) -> Result<(), AllocError>
    ensures { OnOk result (string_bytes text.new ≡ string_bytes text.old ++ shown_char c) }
{
    if is_hidden(c) {
        let code = c as u32;
        let escaped = format!(in alloc; "\\u{{{code:x}}}")?;
        text.push_str(escaped.as_str())
    } else if c == '\\' {
        text.push_str("\\\\")
    } else {
        text.push(c)
    }
}

/// Whether a character is never shown as it is.
fn is_hidden(c: char) -> bool
    ensures { result ≡ is_hidden c }
{
    is_control(c) || is_mark(c)
}

/// Whether it is a control character.
fn is_control(c: char) -> bool
    ensures { result ≡ is_control c }
{
    c < ' ' || ('\u{7f}' <= c && c <= '\u{9f}')
}

/// Whether it is a mark of direction, or a separator of lines or of paragraphs.
fn is_mark(c: char) -> bool
    ensures { result ≡ is_mark c }
{
    c == '\u{61c}'
        || ('\u{200e}' <= c && c <= '\u{200f}')
        || ('\u{2028}' <= c && c <= '\u{202e}')
        || ('\u{2066}' <= c && c <= '\u{2069}')
}
