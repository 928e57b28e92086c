//! An older state as the next one.

ghost use Rattle.std.specs.Prelude.{◌≡◌, ℕ, ◌≤◌, ◌<◌, ◌⊎◌, List, length, true, IfOk, IfErr, option_map};
ghost use Rattle.tfs_versions.specs.Restored.{IsRestored, IsNext, IsKeptFor, IsUnrestoredFor, HasNumber, SpellsSuch};
ghost use Rattle.tfs_versions.specs.declared.restore.RestoreFault.TheVariants.{Unplaced, TooLong, NoMemory};

use crate::number::with_number;
use crate::place::serial_place;
use std::alloc::{AllocError, Global};
use tfs_state::{Doc, MAX_STATE_BYTES, StateFault};
use thiserror::Error;

/// Why an older state can't be restored. `LineageDiffers` is checked first, then `SerialAtLimit`.
#[derive(Clone, Copy, Debug, PartialEq, Eq, Error)]
pub enum RestoreFault {
    /// The newest state has another lineage.
    #[error("LineageDiffers")]
    LineageDiffers,
    /// The newest state's serial is 18446744073709551615, so there is no higher one.
    #[error("SerialAtLimit")]
    SerialAtLimit,
    /// With the new serial the text is longer than a state may be.
    #[error("TooLong")]
    TooLong,
    /// The serial's place in the text wasn't found: no digits there can be replaced so that the
    /// text reads as a state with the new serial and the same lineage.
    #[error("Unplaced")]
    Unplaced,
    /// Memory was refused.
    #[error("OutOfMemory")]
    NoMemory,
}

impl From<AllocError> for RestoreFault {
    ghost from_gives = { λ _ fault. fault ≡ NoMemory };

    fn from(_error: AllocError) -> RestoreFault {
        RestoreFault::NoMemory
    }
}

/// Returns the text that restores a version of a state. If there is a newest state, it is the
/// version's text with a serial one higher than the newest; otherwise it is the version's text
/// unchanged.
pub fn restore_text(
    alloc: Global,
    newest: Option<&Doc>,
    version: &Doc,
) -> Result<Vec<u8>, RestoreFault>
    ensures ok { IfOk result (λ text. IsRestored (option_map (λ doc. doc.now) newest.entry) version.now text.items) }
    ensures err { IfErr result (IsUnrestoredFor (option_map (λ doc. doc.now) newest.entry) version.now) }
{
    match newest {
        Some(newest) => next_text(alloc, newest, version),
        None => Ok(Vec::from_slice(alloc, version.bytes())?),
    }
}

/// Returns the text of a version with a serial one higher than the newest.
fn next_text(alloc: Global, newest: &Doc, version: &Doc) -> Result<Vec<u8>, RestoreFault>
    ensures ok { IfOk result (λ text. IsNext newest.now version.now text.items) }
    ensures err { IfErr result (IsKeptFor newest.now version.now) }
{
    if newest.lineage() != version.lineage() {
        return Err(RestoreFault::LineageDiffers);
    }
    let Some(serial) = newest.serial().checked_add(1) else {
        return Err(RestoreFault::SerialAtLimit);
    };
    let text = text_with(alloc, version.bytes(), serial)?;
    if is_version_with(alloc, text.as_slice(), version, serial)? {
        Ok(text)
    } else {
        Err(RestoreFault::Unplaced)
    }
}

/// Returns a state's text with its serial replaced by another number.
fn text_with(alloc: Global, bytes: &[u8], serial: u64) -> Result<Vec<u8>, RestoreFault>
    ensures ok { IfOk result (λ text. HasNumber bytes.now serial text.items) }
    ensures short { IfOk result (λ text. length text.items ≤ 16777216) }
    ensures err { IfErr result (λ why. (why ≡ NoMemory) ⊎ ((why ≡ Unplaced) ⊎ ((why ≡ TooLong)
        × ((text : List ℕ) × HasNumber bytes.now serial text × (16777216 < length text))))) }
{
    let Ok(text) = str::from_utf8(bytes) else {
        return Err(RestoreFault::Unplaced);
    };
    let Some(place) = serial_place(alloc, text)? else {
        return Err(RestoreFault::Unplaced);
    };
    match with_number(alloc, bytes, place, serial)? {
        Some(text) => {
            if text.len() > MAX_STATE_BYTES {
                Err(RestoreFault::TooLong)
            } else {
                Ok(text)
            }
        }
        None => Err(RestoreFault::Unplaced),
    }
}

/// Returns true if the text is a state with this serial and the version's lineage.
fn is_version_with(
    alloc: Global,
    text: &[u8],
    version: &Doc,
    serial: u64,
) -> Result<bool, AllocError>
    requires { length text.now ≤ 16777216 }
    ensures { IfOk result (λ is. is ≡ true → SpellsSuch text.now serial version.now.lineage) }
{
    match Doc::read(alloc, Vec::from_slice(alloc, text)?) {
        Ok(doc) => Ok(doc.serial() == serial && doc.lineage() == version.lineage()),
        Err(StateFault::NoMemory) => Err(AllocError),
        Err(_) => Ok(false),
    }
}
