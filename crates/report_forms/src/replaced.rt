//! Texts with another text in place of a character.

ghost use Rattle.std.specs.Prelude.{◌≡◌, ◌++◌, ◌<◌, OnOk, string_bytes};
ghost use Rattle.report_forms.specs.Dot.{replaced};

use std::alloc::AllocError;

/// Adds a text, with another in place of each such character, which is of ASCII.
pub(crate) fn push_replaced(
    text: &mut String,
    part: &str,
    byte: char,
    with: &str,
) -> Result<(), AllocError>
    requires { byte < 128 }
    ensures { OnOk result (string_bytes text.new
        ≡ string_bytes text.old ++ replaced byte with.now part.now) }
{
    let mut rest = part;
    while let Some((before, behind)) = rest.split_once(byte) {
        text.push_str(before)?;
        text.push_str(with)?;
        rest = behind;
    }
    text.push_str(rest)
}
