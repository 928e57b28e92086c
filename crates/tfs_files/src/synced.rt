//! The records of synced bytes next to the journals of a folder. A record has the number of a
//! journal's first bytes that are synced, or a lower one.

use std::alloc::AllocError;
use std::fmt::{self, Formatter};
use std::fs::{self, OpenOptions};
use std::io;
use std::os::unix::fs::{FileExt, OpenOptionsExt};

/// The name of the record of the journal with a number, for paths and messages.
#[derive(Clone, Copy, Debug, PartialEq, Eq)]
pub struct SyncedName(pub u64);

impl fmt::Display for SyncedName {
    fn fmt<W: fmt::Write>(&self, f: &mut Formatter<W>) -> fmt::Result {
        let SyncedName(number) = *self;
        write!(f, "journal-{number:010}.synced")
    }
}

/// The number of decimal digits of a record.
const DIGITS: usize = 20;

/// Returns the path of the record of the journal with this number.
fn synced_path(rt: &HostRuntime, folder: &str, number: u64) -> Result<String, AllocError> {
    format!(in rt.alloc(); "{folder}/{}", SyncedName(number))
}

/// Records that this many first bytes of the journal with this number are synced, over an earlier
/// record. The record itself isn't synced: a power cut may leave an earlier one, or none.
pub fn record_synced(rt: &HostRuntime, folder: &str, number: u64, bytes: u64) -> io::Result<()> {
    let path = synced_path(rt, folder, number)?;
    let text = format!(in rt.alloc(); "{bytes:020}\n")?;
    let file = OpenOptions::new()
        .write(true)
        .create(true)
        .mode(0o600)
        .open(rt, path.as_str())?;
    file.write_all_at(text.as_bytes(), 0)
}

/// Returns the recorded number of synced first bytes of the journal with this number, 0 if none is
/// recorded. Returns `None` if the record can't be read or is invalid.
pub(crate) fn synced_bytes(rt: &HostRuntime, folder: &str, number: u64) -> Option<u64> {
    let path = synced_path(rt, folder, number).ok()?;
    match fs::read_to_string(rt, path.as_str()) {
        Ok(text) => bytes_in(text.as_str()),
        Err(error) => match error.kind() {
            io::ErrorKind::NotFound => Some(0),
            _ => None,
        },
    }
}

/// Parses a record: 20 decimal digits and a line end. An empty one, and one of zero bytes, records
/// nothing: a power cut leaves it so.
fn bytes_in(text: &str) -> Option<u64> {
    if text.as_bytes().iter().all(|byte| *byte == 0) {
        return Some(0);
    }
    let digits = text.strip_suffix('\n')?;
    if digits.len() != DIGITS || !digits.as_bytes().iter().all(u8::is_ascii_digit) {
        return None;
    }
    digits.parse().ok()
}
