//! A search for the first of two bytes that is often near: the next bytes are compared in one step
//! before a search of any length.

ghost use Rattle.std.specs.Prelude.{◌≤◌, length};
ghost use Rattle.memchr.specs.Find.{IsFirst, IsFirstByte, Passes, is_byte2};

use memchr::memchr2;
use std::simd::prelude::*;

/// The number of bytes that are compared in one step.
const NEAR: usize = 16;

/// Returns the index of the first byte that equals one of the two. A match at the first byte is
/// found by a branch alone, on which no other instruction depends.
#[inline(always)]
pub(crate) fn find_either(bytes: &[u8], first: u8, second: u8) -> Option<usize>
    ensures { IsFirstByte (is_byte2 first second) bytes.now result }
{
    if bytes.len() < NEAR {
        return find_in_few(bytes, first, second);
    }
    if bytes[0] == first || bytes[0] == second {
        return Some(0);
    }
    if let Some(index) = find_near(bytes, first, second) {
        return Some(index);
    }
    let beyond = memchr2(first, second, &bytes[NEAR..])?;
    Some(NEAR + beyond)
}

/// Returns the index of the first match among the near bytes.
#[inline(always)]
fn find_near(bytes: &[u8], first: u8, second: u8) -> Option<usize>
    requires { NEAR ≤ length bytes.now }
    ensures { IsFirst (Passes (is_byte2 first second) bytes.now) 0 NEAR result }
{
    let near = u8x16::from_slice(bytes);
    let found = near.simd_eq(u8x16::splat(first)) | near.simd_eq(u8x16::splat(second));
    let mask = found.to_bitmask();
    if mask == 0 {
        return None;
    }
    Some(mask.trailing_zeros() as usize)
}

/// Returns the index of the first match among bytes that are too few for one step.
#[inline(never)]
fn find_in_few(bytes: &[u8], first: u8, second: u8) -> Option<usize>
    ensures { IsFirstByte (is_byte2 first second) bytes.now result }
{
    for (index, byte) in bytes.iter().enumerate() {
        if *byte == first || *byte == second {
            return Some(index);
        }
    }
    None
}
