//! The faults that the program reports.

use tfs_conversation::{RunFault, ServeFault};
use tfs_table::OpenFault;
use thiserror::Error;

/// Why a command ended before its work was done. Its text is the name in docs/PROTOCOL.md (The
/// program).
#[derive(Clone, Copy, Debug, PartialEq, Eq, Error)]
pub enum ProgramFault {
    /// Memory was refused.
    #[error("NoMemory")]
    NoMemory,
    /// The input of a conversation could not be read.
    #[error("Read")]
    Read,
    /// The output could not be written.
    #[error("Write")]
    Write,
    /// The input of a conversation came in too many reads.
    #[error("TooManyReads")]
    TooManyReads,
    /// The file of a journal could not be read.
    #[error("CannotRead")]
    CannotRead,
    /// The file of the new journal could not be created.
    #[error("CannotCreate")]
    CannotCreate,
    /// The bytes of the old journal aren't a journal.
    #[error("Damaged")]
    Damaged,
    /// The old journal ends inside its base.
    #[error("TornBase")]
    TornBase,
    /// An entry of the old journal isn't lawful.
    #[error("Unlawful")]
    Unlawful,
    /// The position of the old journal is too high for a base.
    #[error("TooFar")]
    TooFar,
    /// The file of the new journal could not be written.
    #[error("SinkFault")]
    SinkFault,
    /// No place for reading snapshots was available for a session.
    #[error("NoPlace")]
    NoPlace,
    /// The server could not listen at the address.
    #[error("CannotBind")]
    CannotBind,
    /// The listener accepted no connection.
    #[error("AcceptFault")]
    AcceptFault,
}

impl From<ServeFault> for ProgramFault {
    fn from(fault: ServeFault) -> ProgramFault {
        match fault {
            ServeFault::Read => ProgramFault::Read,
            ServeFault::Write => ProgramFault::Write,
            ServeFault::TooManyReads => ProgramFault::TooManyReads,
            ServeFault::NoMemory => ProgramFault::NoMemory,
        }
    }
}

impl From<RunFault> for ProgramFault {
    fn from(fault: RunFault) -> ProgramFault {
        match fault {
            RunFault::Write => ProgramFault::Write,
            RunFault::NoMemory => ProgramFault::NoMemory,
            RunFault::Opening(OpenFault::Damaged(_)) => ProgramFault::Damaged,
            RunFault::Opening(OpenFault::Unlawful(_)) => ProgramFault::Unlawful,
            RunFault::Opening(OpenFault::SinkFault) => ProgramFault::SinkFault,
            RunFault::Opening(OpenFault::NoMemory) => ProgramFault::NoMemory,
            RunFault::Opening(OpenFault::TornBase) => ProgramFault::TornBase,
            RunFault::Opening(OpenFault::TooFar) => ProgramFault::TooFar,
        }
    }
}
