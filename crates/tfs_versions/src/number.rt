//! Replacement of a number in a text.

ghost use Rattle.std.specs.Prelude.{◌≡◌, ◌++◌, decimal, IfOk, IfSome};
ghost use Rattle.std.specs.List.{list_all};
ghost use Rattle.std.specs.Char.{is_ascii_digit};
ghost use Rattle.tfs_versions.specs.Restored.{HasNumber};

use crate::place::SerialPlace;
use itoa::Buffer;
use std::alloc::{AllocError, Global};

/// Returns the text with the digits at `place` replaced by a number. Returns `None` if the place is
/// outside the text or has bytes other than digits.
pub(crate) fn with_number(
    alloc: Global,
    text: &[u8],
    place: SerialPlace,
    number: u64,
) -> Result<Option<Vec<u8>>, AllocError>
    ensures { IfOk result (λ new. IfSome new (λ new. HasNumber text.now number new.items)) }
{
    let Some((front, rest)) = text.split_at_checked(place.start) else {
        return Ok(None);
    };
    let Some((digits, back)) = rest.split_at_checked(place.len) else {
        return Ok(None);
    };
    if !are_digits(digits) {
        return Ok(None);
    }
    Ok(Some(join_number(alloc, front, number, back)?))
}

/// Returns a text, a number in decimal, and another text, joined.
fn join_number(alloc: Global, front: &[u8], number: u64, back: &[u8]) -> Result<Vec<u8>, AllocError>
    ensures { IfOk result (λ text. text.items ≡ front.now ++ (decimal number ++ back.now)) }
{
    let mut buffer = Buffer::new();
    let mut text = Vec::from_slice(alloc, front)?;
    text.extend_from_slice(buffer.format(number).as_bytes())?;
    text.extend_from_slice(back)?;
    Ok(text)
}

/// Returns true if all bytes are decimal digits.
fn are_digits(bytes: &[u8]) -> bool
    ensures { result ≡ list_all is_ascii_digit bytes.now }
{
    bytes.iter().all(|byte| byte.is_ascii_digit())
}
