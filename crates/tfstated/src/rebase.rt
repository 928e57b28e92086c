//! The command `rebase`: writes a journal to a new file that continues the one in an old file.

use crate::fault::{end_with, end_without_file};
use std::process::ExitCode;
use std::{fs, io};
use tfs_conversation::{Watched, run_rebase};
use tfs_ends::ProgramFault;
use tfs_records::FileSink;

/// Reads the old file, creates the new one, and writes the journal that continues the old one.
/// Returns the program's exit status.
pub(crate) fn run(rt: &HostRuntime, old: &str, new: &str) -> ExitCode {
    let bytes = match fs::read(rt, old) {
        Ok(bytes) => bytes,
        Err(error) => return end_without_file(rt, ProgramFault::CannotRead, &error),
    };
    let sink = match FileSink::create_new(rt, new) {
        Ok(sink) => sink,
        Err(error) => return end_without_file(rt, ProgramFault::CannotCreate, &error),
    };
    let mut writer = Watched::new(io::writer(rt));
    match run_rebase(rt.alloc(), bytes.as_slice(), sink, &mut writer) {
        Ok(_) => ExitCode::SUCCESS,
        Err(fault) => end_with(rt, fault),
    }
}
