//! Writes a text as JSON at the end of another.

ghost use Rattle.std.specs.Prelude.{◌≡◌, ◌<◌, ◌/◌, ◌%◌, [], ◌∷◌, ◌++◌, ℕ, List, OnOk, string_bytes, encode_utf8};
ghost use Rattle.std.specs.Char.{digit_char};
ghost use Rattle.tfs_addr.specs.Steps.{after_quote};
ghost use Rattle.serde_json.specs.Data.{string};
ghost use Rattle.serde_json.specs.Written.{compact_text};

use std::alloc::AllocError;

/// Appends the text as JSON, in quotes (RFC 8259, section 7).
pub(crate) fn push_json(out: &mut String, text: &str) -> Result<(), AllocError>
    ensures { OnOk result
        (string_bytes out.new ≡ string_bytes out.old ++ compact_text (string text.now)) }
{
    out.push('"')?;
    for c in text.chars() {
        push_escaped(out, c)?;
    }
    out.push('"')
}

/// Appends a character in the form that it has in a JSON text.
fn push_escaped(out: &mut String, c: char) -> Result<(), AllocError>
    ensures { OnOk result ((rest : List ℕ) → string_bytes out.new ++ after_quote rest
        ≡ string_bytes out.old ++ after_quote (encode_utf8 c ++ rest)) }
{
    match c {
        '"' => out.push_str("\\\""),
        '\\' => out.push_str("\\\\"),
        '\u{8}' => out.push_str("\\b"),
        '\u{c}' => out.push_str("\\f"),
        '\n' => out.push_str("\\n"),
        '\r' => out.push_str("\\r"),
        '\t' => out.push_str("\\t"),
        _ if c < ' ' => push_code(out, c as u32),
        _ => out.push(c),
    }
}

/// Appends the escape of a character by its code, for which two hex digits suffice.
fn push_code(out: &mut String, code: u32) -> Result<(), AllocError>
    requires { code < 32 }
    ensures { OnOk result (string_bytes out.new ≡ string_bytes out.old
        ++ 92 ∷ 117 ∷ 48 ∷ 48 ∷ digit_char (code / 16) ∷ digit_char (code % 16) ∷ []) }
{
    out.push_str("\\u00")?;
    out.push(hex_digit(code / 16))?;
    out.push(hex_digit(code % 16))
}

/// Returns the lower-case hex digit.
fn hex_digit(digit: u32) -> char
    requires { digit < 16 }
    ensures { result ≡ digit_char digit }
{
    char::from_digit(digit, 16).unwrap()
}
