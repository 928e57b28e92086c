//! Characters as hexadecimal numbers.

ghost use Rattle.std.specs.Prelude.{◌≡◌, ◌<◌, ◌≤◌, ◌/◌, ◌%◌, [], ◌∷◌, ◌++◌, OnOk, string_bytes};
ghost use Rattle.std.specs.Char.{digit_char};
ghost use Rattle.tfs_printed.specs.Printed.{place_text, number_text, unit_text};

use std::alloc::AllocError;

/// Appends the code point of a character, as in `\u{202e}`.
pub(crate) fn push_number(out: &mut String, c: char) -> Result<(), AllocError>
    ensures { OnOk result (string_bytes out.new ≡ string_bytes out.old ++ number_text c) }
{
    let code = c as u32;
    out.push_str("\\u{")?;
    push_place(out, code, 0x10_0000)?;
    push_place(out, code, 0x1_0000)?;
    push_place(out, code, 0x1000)?;
    push_place(out, code, 0x100)?;
    push_place(out, code, 0x10)?;
    out.push(hex_digit(code % 16))?;
    out.push('}')
}

/// Appends the digit whose place value is `place`, if the number has a digit there.
fn push_place(out: &mut String, code: u32, place: u32) -> Result<(), AllocError>
    requires { 0 < place }
    ensures { OnOk result (string_bytes out.new ≡ string_bytes out.old ++ place_text place code) }
{
    if code < place {
        Ok(())
    } else {
        out.push(hex_digit(code / place % 16))
    }
}

/// Appends a UTF-16 code unit, as in `\u202e`.
#[tactic(auto, unfolding(crate::specs::Printed::unit_text))]
pub(crate) fn push_unit(out: &mut String, unit: u32) -> Result<(), AllocError>
    ensures { OnOk result (string_bytes out.new ≡ string_bytes out.old ++ unit_text unit) }
{
    out.push_str("\\u")?;
    out.push(hex_digit(unit / 4096 % 16))?;
    out.push(hex_digit(unit / 256 % 16))?;
    out.push(hex_digit(unit / 16 % 16))?;
    out.push(hex_digit(unit % 16))
}

/// Returns the lower-case hexadecimal digit.
fn hex_digit(digit: u32) -> char
    requires { digit < 16 }
    ensures value { result ≡ digit_char digit }
    ensures ascii { result < 128 }
{
    char::from_digit(digit, 16).unwrap()
}
