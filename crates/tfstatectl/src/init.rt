//! The command `init`: creates a folder with its first, empty journal.

use std::fs;
use std::process::ExitCode;
use tfs_files::{
    CommandEnd, CommandFault, FIRST_NUMBER, FaultPlace, JournalName, end_by, lock_folder,
    make_first,
};

/// Creates a folder with its first journal, and prints the journal's path. Returns the program's
/// exit status.
pub(crate) fn run(rt: &HostRuntime, folder: &str) -> ExitCode {
    match create(rt, folder) {
        Ok(()) => ExitCode::SUCCESS,
        Err(end) => end_by(rt, folder, end),
    }
}

/// Creates a folder with its first journal, under the folder's lock.
fn create(rt: &HostRuntime, folder: &str) -> Result<(), CommandEnd> {
    let _ = fs::create_dir_all(rt, folder);
    let _lock = lock_folder(rt, folder)?;
    make_first(rt, folder)?;
    match println!(rt; "created {folder}/{}", JournalName(FIRST_NUMBER)) {
        Ok(()) => Ok(()),
        Err(_) => Err(CommandEnd::at(FaultPlace::Command, CommandFault::Write)),
    }
}
