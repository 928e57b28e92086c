//! The command `check`: lists the records of a journal file, and reports how it ends.

use crate::fault::{end_with, end_without_file};
use std::process::ExitCode;
use std::{fs, io};
use tfs_conversation::{Watched, run_check};
use tfs_ends::ProgramFault;

/// Prints what the journal in a file lists, and how it ends. Returns the program's exit status.
pub(crate) fn run(rt: &HostRuntime, file: &str) -> ExitCode {
    let bytes = match fs::read(rt, file) {
        Ok(bytes) => bytes,
        Err(error) => return end_without_file(rt, ProgramFault::CannotRead, &error),
    };
    let mut writer = Watched::new(io::writer(rt));
    match run_check(rt.alloc(), bytes.as_slice(), &mut writer) {
        Ok(status) => ExitCode::from(status),
        Err(fault) => end_with(rt, fault),
    }
}
