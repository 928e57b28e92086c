//! The escaped form of a text between the quotes of JSON (RFC 8259, section 7).

ghost use Rattle.std.specs.Prelude.{◌≡◌, ◌≤◌, ◌<◌, ◌*◌, ◌^◌, [], ◌∷◌, ◌++◌, IfSome, IfNone, OnOk, length, take};
ghost use Rattle.json.specs.Print.{escape, escape_byte};

use crate::plain::is_plain;
use std::alloc::AllocError;

/// Returns the escape of a byte, or `None` if the byte is written unchanged.
#[tactic(auto, unfolding(json::specs::Print::escape_byte))]
fn escape_of(byte: u8) -> Option<&'static str>
    ensures some { IfSome result (λ text. text.now ≡ escape_byte byte) }
    ensures limit { IfSome result (λ text. length text.now ≤ 6) }
    ensures none { IfNone result (escape_byte byte ≡ byte ∷ []) }
{
    let text = match byte {
        b'"' => "\\\"",
        b'\\' => "\\\\",
        0 => "\\u0000",
        1 => "\\u0001",
        2 => "\\u0002",
        3 => "\\u0003",
        4 => "\\u0004",
        5 => "\\u0005",
        6 => "\\u0006",
        7 => "\\u0007",
        8 => "\\b",
        9 => "\\t",
        10 => "\\n",
        11 => "\\u000b",
        12 => "\\f",
        13 => "\\r",
        14 => "\\u000e",
        15 => "\\u000f",
        16 => "\\u0010",
        17 => "\\u0011",
        18 => "\\u0012",
        19 => "\\u0013",
        20 => "\\u0014",
        21 => "\\u0015",
        22 => "\\u0016",
        23 => "\\u0017",
        24 => "\\u0018",
        25 => "\\u0019",
        26 => "\\u001a",
        27 => "\\u001b",
        28 => "\\u001c",
        29 => "\\u001d",
        30 => "\\u001e",
        31 => "\\u001f",
        _ => return None,
    };
    Some(text)
}

/// Returns the number of bytes in the escaped form of a text.
pub fn escaped_len(text: &[u8]) -> u128
    ensures value { result ≡ length (escape text.now) }
    ensures limit { result < 6 * 2 ^ 63 }
{
    if is_plain(text) {
        return text.len() as u128;
    }
    sum_of_widths(text)
}

/// Does the same as `escaped_len`, byte by byte.
fn sum_of_widths(text: &[u8]) -> u128
    ensures value { result ≡ length (escape text.now) }
    ensures limit { result < 6 * 2 ^ 63 }
{
    let mut len = 0;
    for byte in text {
        len += width(*byte);
    }
    len
}

/// Returns the number of bytes in the escaped form of a byte.
fn width(byte: u8) -> u128
    ensures value { result ≡ length (escape_byte byte) }
    ensures limit { result ≤ 6 }
{
    match escape_of(byte) {
        Some(text) => text.len() as u128,
        None => 1,
    }
}

/// Returns the number of bytes before the first one that needs an escape.
fn plain_len(text: &[u8]) -> usize
    ensures bound { result ≤ length text.now }
    ensures plain { escape (take result text.now) ≡ take result text.now }
{
    let mut count = 0;
    'bytes: while count < text.len() && escape_of(text[count]).is_none() {
        count += 1;
    }
    count
}

/// Appends the escaped form of a text. Fails only if memory is exhausted.
pub fn push_escaped(out: &mut Vec<u8>, text: &[u8]) -> Result<(), AllocError>
    ensures { OnOk result (out.new.items ≡ out.old.items ++ escape text.now) }
{
    let mut rest = text;
    'runs: while !rest.is_empty() {
        let (shown, behind) = first_run(rest);
        out.extend_from_slice(shown)?;
        rest = behind;
    }
    Ok(())
}

/// Returns the escaped form of the first bytes of a text, and the text after them.
#[tactic(auto, using(crate::proofs::EscapedLemmas::plain_told))]
pub(crate) fn first_run<'t>(text: &'t [u8]) -> (&'t [u8], &'t [u8])
    ensures joined { result.0.now ++ escape result.1.now ≡ escape text.now }
    ensures shorter { 0 < length text.now → length result.1.now < length text.now }
{
    if is_plain(text) {
        let nothing: &[u8] = &[];
        return (text, nothing);
    }
    let Some((first, behind)) = text.split_first() else {
        return (text, text);
    };
    match escape_of(*first) {
        Some(shown) => (shown.as_bytes(), behind),
        None => text.split_at(1 + plain_len(behind)),
    }
}
