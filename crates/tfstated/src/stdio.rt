//! The command `stdio`: a conversation over standard input and output.

use crate::fault::end_by;
use std::io;
use std::process::ExitCode;
use tfs_conversation::{Reads, Watched, converse_over_table};
use tfs_ends::{ProgramFault, status_of};
use tfs_records::Discard;
use tfs_table::Table;

/// Answers standard input on standard output over a new table, whose journal is discarded. Returns
/// the program's exit status.
pub(crate) fn run(rt: &(impl AllocGlobal + Input + Print + Eprint)) -> ExitCode {
    let alloc = rt.alloc();
    let mut reader = Watched::new(rt.reader());
    let mut writer = Watched::new(io::writer(rt));
    // A sink that discards the journal never fails.
    let Ok(mut table) = Table::new(alloc, Discard) else {
        return end_by(rt, ProgramFault::NoMemory);
    };
    let mut reads = Reads::new();
    match converse_over_table(alloc, &mut reader, &mut writer, &mut table, &mut reads) {
        Ok(ended) => ExitCode::from(status_of(ended)),
        Err(fault) => end_by(rt, ProgramFault::from(fault)),
    }
}
