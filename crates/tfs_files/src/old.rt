//! Removal of files from `old/`.

use crate::folder::{journal_path, old_numbers, old_path};
use crate::retention::{OldFile, Retention, expired};
use std::alloc::AllocError;
use std::fs::{self, Metadata};
use std::io;
use std::time::SystemTime;

/// Removes the files of `old/` beyond the retention, oldest first. A file that can't be removed
/// stays.
pub fn remove_expired(rt: &HostRuntime, folder: &str, retention: Retention) -> io::Result<()> {
    let old = old_path(rt, folder)?;
    let files = files_in(rt, folder, old.as_str())?;
    let numbers = expired(rt.alloc(), files.as_slice(), retention)?;
    for number in numbers.iter().rev() {
        remove(rt, old.as_str(), *number)?;
    }
    Ok(())
}

/// Lists the files of a folder's `old/`, newest first.
fn files_in(rt: &HostRuntime, folder: &str, old: &str) -> io::Result<Vec<OldFile>> {
    let now = SystemTime::now(rt).ok();
    let mut files = Vec::new(rt.alloc());
    let numbers = old_numbers(rt, folder)?;
    for number in numbers.iter().rev() {
        files.push(file_of(rt, old, *number, now)?)?;
    }
    Ok(files)
}

/// Returns the file with this number, with its age and size if the system reports them.
fn file_of(
    rt: &HostRuntime,
    old: &str,
    number: u64,
    now: Option<SystemTime>,
) -> Result<OldFile, AllocError> {
    let path = journal_path(rt, old, number)?;
    match fs::metadata(rt, path.as_str()) {
        Ok(metadata) => Ok(OldFile {
            number,
            age: age_of(&metadata, now),
            bytes: Some(metadata.len()),
        }),
        Err(_) => Ok(OldFile {
            number,
            age: None,
            bytes: None,
        }),
    }
}

/// Returns the seconds since a file was written; 0 for a time in the future.
fn age_of(metadata: &Metadata, now: Option<SystemTime>) -> Option<u64> {
    let written = metadata.modified().ok()?;
    match now?.duration_since(written) {
        Ok(age) => Some(age.as_secs()),
        Err(_) => Some(0),
    }
}

/// Removes the file with this number. A file that can't be removed stays.
fn remove(rt: &HostRuntime, old: &str, number: u64) -> Result<(), AllocError> {
    let path = journal_path(rt, old, number)?;
    let _ = fs::remove_file(rt, path.as_str());
    Ok(())
}
