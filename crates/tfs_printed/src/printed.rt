//! The characters of a text that a terminal prints, and the escapes of the others.

ghost use Rattle.std.specs.Prelude.{◌≡◌, ◌++◌, OnOk, string_bytes, chars};
ghost use Rattle.std.specs.List.{flat_map};
ghost use Rattle.tfs_printed.specs.Printed.{is_printed, printed, json, pair_text, units_text, drawn};

use crate::hex::{push_number, push_unit};
use std::alloc::AllocError;
use ucd_category::GeneralCategory;

/// Returns true if a terminal prints a character at its position: it is not a control (Cc) or
/// format (Cf) character, and not a line (Zl) or paragraph (Zp) separator.
pub fn is_printed(c: char) -> bool
    ensures { result ≡ is_printed c }
{
    !matches!(
        GeneralCategory::for_char(c),
        GeneralCategory::Control
            | GeneralCategory::Format
            | GeneralCategory::LineSeparator
            | GeneralCategory::ParagraphSeparator
    )
}

/// Appends a text for a table. A character that isn't printed is written as its code point, as in
/// `\u{202e}`.
pub fn push_printed(out: &mut String, text: &str) -> Result<(), AllocError>
    ensures { OnOk result (string_bytes out.new ≡ string_bytes out.old ++ flat_map printed (chars text.now)) }
{
    for c in text.chars() {
        push_printed_char(out, c)?;
    }
    Ok(())
}

/// Appends a character for a table.
fn push_printed_char(out: &mut String, c: char) -> Result<(), AllocError>
    ensures { OnOk result (string_bytes out.new ≡ string_bytes out.old ++ printed c) }
{
    if is_printed(c) {
        out.push(c)
    } else {
        push_number(out, c)
    }
}

/// Appends a JSON text, which may have characters that aren't printed only in its strings. These
/// characters are written as UTF-16 code units, as in `\u202e`.
pub fn push_json(out: &mut String, text: &str) -> Result<(), AllocError>
    ensures { OnOk result (string_bytes out.new ≡ string_bytes out.old ++ flat_map json (chars text.now)) }
{
    for c in text.chars() {
        push_json_char(out, c)?;
    }
    Ok(())
}

/// Appends a character of a JSON text.
fn push_json_char(out: &mut String, c: char) -> Result<(), AllocError>
    ensures { OnOk result (string_bytes out.new ≡ string_bytes out.old ++ json c) }
{
    if is_printed(c) {
        out.push(c)
    } else {
        push_units(out, c as u32)
    }
}

/// Appends the UTF-16 code units of a code point.
fn push_units(out: &mut String, code: u32) -> Result<(), AllocError>
    ensures { OnOk result (string_bytes out.new ≡ string_bytes out.old ++ units_text code) }
{
    if code < 0x1_0000 {
        push_unit(out, code)
    } else {
        push_pair(out, code - 0x1_0000)
    }
}

/// Appends the surrogate pair of a code point, where `above` is the code point minus 0x10000.
fn push_pair(out: &mut String, above: u32) -> Result<(), AllocError>
    ensures { OnOk result (string_bytes out.new ≡ string_bytes out.old ++ pair_text above) }
{
    push_unit(out, 0xd800 + above / 0x400)?;
    push_unit(out, 0xdc00 + above % 0x400)
}

/// Appends a picture in the DOT language. Line feeds are kept. Any other character that isn't
/// printed is written as its code point after two backslashes, which Graphviz draws as one.
pub fn push_drawn(out: &mut String, text: &str) -> Result<(), AllocError>
    ensures { OnOk result (string_bytes out.new ≡ string_bytes out.old ++ flat_map drawn (chars text.now)) }
{
    for c in text.chars() {
        push_drawn_char(out, c)?;
    }
    Ok(())
}

/// Appends a character of a picture.
fn push_drawn_char(out: &mut String, c: char) -> Result<(), AllocError>
    ensures { OnOk result (string_bytes out.new ≡ string_bytes out.old ++ drawn c) }
{
    if is_printed(c) || c == '\n' {
        return out.push(c);
    }
    out.push('\\')?;
    push_number(out, c)
}
