//! Digits into a text.
ghost use Rattle.std.specs.Prelude.{◌≡◌, ℕ, ◌++◌, IsTrue, OnOk, string_bytes};
ghost use Rattle.std.specs.List.{list_all};
ghost use Rattle.epc_core.specs.Numbers.{is_digit};

use std::alloc::AllocError;

/// Appends digits to a text.
pub(crate) fn push_digits(text: &mut String, digits: &[u8]) -> Result<(), AllocError>
    requires { IsTrue (list_all is_digit digits.now) }
    ensures { OnOk result (string_bytes text.new ≡ string_bytes text.old ++ digits.now) }
{
    for digit in digits {
        text.push(char::from(*digit))?;
    }
    Ok(())
}
