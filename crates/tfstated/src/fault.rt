//! The end of the program by a fault: the report on standard error, and the exit status.

use std::io;
use std::process::ExitCode;
use tfs_conversation::RunFault;
use tfs_ends::{ProgramFault, fault_status};

/// Reports a fault by its name on standard error, and returns the status of a failure. A failure to
/// write is ignored, because there is nowhere left to report it.
pub(crate) fn end_by(rt: &impl Eprint, fault: ProgramFault) -> ExitCode {
    let _ = eprintln!(rt; "tfstated: {fault}");
    ExitCode::FAILURE
}

/// Ends because a file can't be read or created: by this fault, or by NoMemory if memory ran out.
pub(crate) fn end_without_file(
    rt: &impl Eprint,
    fault: ProgramFault,
    error: &io::Error,
) -> ExitCode {
    match error.kind() {
        io::ErrorKind::OutOfMemory => end_by(rt, ProgramFault::NoMemory),
        _ => end_by(rt, fault),
    }
}

/// Ends by a fault of a command that reads a journal.
pub(crate) fn end_with(rt: &impl Eprint, fault: RunFault) -> ExitCode {
    end_by(rt, ProgramFault::from(fault));
    ExitCode::from(fault_status(fault))
}
