//! Detection of texts that need no escape between the quotes of JSON (RFC 8259, section 7): they
//! have no quote, no backslash and no control character.

ghost use Rattle.std.specs.Prelude.{◌≡◌, ◌+◌, ◌≤◌, length};
ghost use Rattle.std.specs.Bool.{OnTrue};
ghost use Rattle.json.specs.Print.{escape};
ghost use Rattle.json.specs.Written.{PlainBetween};

use std::simd::prelude::*;

/// The number of bytes that are compared in one step.
const BLOCK: usize = 16;

/// Returns true if a text needs no escape.
pub(crate) fn is_plain(text: &[u8]) -> bool
    ensures { OnTrue result (escape text.now ≡ text.now) }
{
    if text.len() < 16 {
        are_plain(text)
    } else {
        blocks_are_plain(text)
    }
}

/// Does the same as `is_plain`, byte by byte.
fn are_plain(text: &[u8]) -> bool
    ensures { OnTrue result (PlainBetween text.now 0 (length text.now)) }
{
    for &byte in text {
        if byte == b'"' || byte == b'\\' || byte < 32 {
            return false;
        }
    }
    true
}

/// Does the same as `is_plain`, block by block. The last block is the last 16 bytes of the text, so
/// some bytes may be checked twice.
fn blocks_are_plain(text: &[u8]) -> bool
    requires { 16 ≤ length text.now }
    ensures { OnTrue result (PlainBetween text.now 0 (length text.now)) }
{
    let last = text.len() - BLOCK;
    let mut at = 0;
    'blocks: while at < last {
        if !block_is_plain(text, at) {
            return false;
        }
        at += BLOCK;
    }
    block_is_plain(text, last)
}

/// Returns true if none of the 16 bytes from `at` on needs an escape.
fn block_is_plain(text: &[u8], at: usize) -> bool
    requires { at + 16 ≤ length text.now }
    ensures { OnTrue result (PlainBetween text.now at (at + 16)) }
{
    let block = u8x16::from_slice(&text[at..]);
    let marks = block.simd_eq(u8x16::splat(b'"'))
        | block.simd_eq(u8x16::splat(b'\\'))
        | block.simd_lt(u8x16::splat(32));
    marks.to_bitmask() == 0
}
