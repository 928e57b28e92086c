//! The place of the serial in the text of a state.

ghost use Rattle.std.specs.Prelude.{◌≡◌};

use json::{Invalid, Reader, Scratch};
use std::alloc::{AllocError, Global};

/// The maximum nesting depth of the values in a state.
const MAX_DEPTH: usize = 126;

/// A part of a text.
#[derive(Clone, Copy, Debug, PartialEq, Eq)]
pub(crate) struct SerialPlace {
    pub(crate) start: usize,
    pub(crate) len: usize,
}

/// Returns the place of the serial's digits: those of the last member `serial` of the text's
/// object. Nothing is promised of the place, so the caller must check it.
pub(crate) fn serial_place(alloc: Global, text: &str) -> Result<Option<SerialPlace>, AllocError> {
    let mut scratch = Scratch::new(alloc);
    let mut reader = Reader::new(text, &mut scratch)?;
    reader.next();
    match last_serial_end(&mut reader) {
        Ok(Some(end)) => Ok(digits_before(text.as_bytes(), end)),
        Ok(None) | Err(Invalid) => Ok(None),
    }
}

/// Returns the offset of the reader after the value of the last member `serial`.
fn last_serial_end(reader: &mut Reader<'_>) -> Result<Option<usize>, Invalid> {
    let mut end = None;
    'members: while let Some(name) = reader.next_key()? {
        reader.skip_value(MAX_DEPTH)?;
        if name == "serial" {
            end = Some(reader.offset());
        }
    }
    Ok(end)
}

/// Returns the place of the last sequence of digits before `end`. Other bytes between them and
/// `end`, such as blanks and a comma, are skipped.
fn digits_before(text: &[u8], end: usize) -> Option<SerialPlace> {
    let text = text.get(..end)?;
    let end = text.iter().rposition(|byte| byte.is_ascii_digit())? + 1;
    let digits = text.get(..end)?;
    let start = match digits.iter().rposition(|byte| !byte.is_ascii_digit()) {
        Some(before) => before + 1,
        None => 0,
    };
    Some(SerialPlace {
        start,
        len: end - start,
    })
}
