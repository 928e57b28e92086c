//! The newest journal of the folder, which is read again only after it or its log has changed.

use std::alloc::AllocError;
use std::fs;
use tfs_files::{journal_path, log_path, numbers_in};
use tfs_reports::{Newest, Records, ReportEnd, newest_journal, records_of_last_changes};

/// The newest journal, and the log records of its workspaces' last changes.
#[derive(Drop)]
pub(crate) struct Present {
    pub(crate) newest: Newest,
    pub(crate) records: Records,
}

/// The newest journal as it was read, and the files that it was read from; none before the first
/// read.
#[derive(Drop)]
pub(crate) struct Kept {
    read: Option<(Files, Present)>,
}

/// The number of the newest journal, and the lengths in bytes of it and of its log; 0 if they
/// aren't known.
#[derive(Clone, Copy, PartialEq, Eq)]
struct Files {
    number: u64,
    journal: u64,
    log: u64,
}

impl Kept {
    /// Returns the state before the first read.
    pub(crate) fn new() -> Kept {
        Kept { read: None }
    }

    /// Returns the newest journal. Reads it again if its number, its length or its log's length has
    /// changed.
    pub(crate) fn present(
        &mut self,
        rt: &HostRuntime,
        folder: &str,
    ) -> Result<&Present, ReportEnd> {
        let files = files_of(rt, folder);
        let is_same = match &self.read {
            Some((known, present)) => *known == files
                && present.newest.len as u64 == files.journal
                && 0 < files.journal,
            None => false,
        };
        if !is_same {
            self.read = None;
            self.read = Some((files, read_present(rt, folder)?));
        }
        match &self.read {
            Some((_, present)) => Ok(present),
            None => unreachable!(),
        }
    }
}

/// Reads the newest journal and its log records.
fn read_present(rt: &HostRuntime, folder: &str) -> Result<Present, ReportEnd> {
    let newest = newest_journal(rt, folder)?;
    let records = records_of_last_changes(rt, folder, &newest.table)?;
    Ok(Present { newest, records })
}

/// Returns the number of the folder's newest journal, and the lengths of it and of its log.
fn files_of(rt: &HostRuntime, folder: &str) -> Files {
    let number = newest_number(rt, folder).unwrap_or(0);
    Files {
        number,
        journal: len_at(rt, journal_path(rt, folder, number)),
        log: len_at(rt, log_path(rt, folder, number)),
    }
}

/// Returns the number of the folder's newest journal, if it has one.
fn newest_number(rt: &HostRuntime, folder: &str) -> Option<u64> {
    match numbers_in(rt, folder) {
        Ok(numbers) => Some(*numbers.as_slice().last()?),
        Err(_) => None,
    }
}

/// Returns the length in bytes of a file; 0 if it isn't known.
fn len_at(rt: &HostRuntime, path: Result<String, AllocError>) -> u64 {
    let Ok(path) = path else {
        return 0;
    };
    match fs::metadata(rt, path.as_str()) {
        Ok(found) => found.len(),
        Err(_) => 0,
    }
}
