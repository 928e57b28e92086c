//! Errors of compactions and runs.

use tfs_files::CommandFault;
use tfs_runs::{Finish, NotCompacted};
use tfs_serve::Obstacle;
use tfs_table::OpenFault;

/// The error of a compaction that isn't done, or of a run that doesn't start.
#[derive(Clone, Copy)]
pub(crate) enum CompactionFault {
    /// A request for memory was refused.
    NoMemory,
    /// The address of the listener couldn't be printed.
    Write,
    /// The next journal's number would have more than ten digits.
    TooFar,
    /// The next journal couldn't be made, or couldn't get its name.
    CannotWrite,
    /// The journal of a run, or the name that the next one has got, may not be durable.
    Unsynced,
    /// The folder, its journal or its lock file was replaced.
    Replaced,
}

/// Returns the program's error for an error of a compaction.
pub(crate) fn fault_of(fault: CompactionFault) -> CommandFault {
    match fault {
        CompactionFault::NoMemory => CommandFault::OutOfMemory,
        CompactionFault::Write => CommandFault::Write,
        CompactionFault::TooFar => CommandFault::TooFar,
        CompactionFault::CannotWrite | CompactionFault::Unsynced => CommandFault::CannotWrite,
        CompactionFault::Replaced => CommandFault::Replaced,
    }
}

/// Returns the error of a journal that isn't rebased.
pub(crate) fn fault_of_opening(fault: OpenFault) -> CompactionFault {
    match fault {
        OpenFault::NoMemory => CompactionFault::NoMemory,
        OpenFault::TooFar => CompactionFault::TooFar,
        OpenFault::SinkFault
        | OpenFault::Damaged(_)
        | OpenFault::Unlawful(_)
        | OpenFault::TornBase => CompactionFault::CannotWrite,
    }
}

/// Returns why the runs ended. `has_stopped` is true if the journal of the last run's table has
/// stopped.
///
/// `NoCopy`, after which the table may lack something that a worker had seen, counts as an error of
/// accept.
pub(crate) fn end_of(finish: Finish<CompactionFault>, has_stopped: bool) -> CommandFault {
    match finish {
        Finish::Ended | Finish::NotCompacted(NotCompacted::Stopped) => {
            if has_stopped {
                CommandFault::JournalFault
            } else {
                CommandFault::AcceptFault
            }
        }
        Finish::Unserved(Obstacle::NoMemory) => CommandFault::OutOfMemory,
        Finish::Unserved(Obstacle::NoPlace) => CommandFault::NoPlace,
        Finish::Unserved(Obstacle::NoListener(fault)) => fault_of(fault),
        Finish::Unserved(Obstacle::NoCopy) => CommandFault::AcceptFault,
        Finish::Failed(fault) | Finish::NotCompacted(NotCompacted::Failed(fault)) => fault_of(
            fault,
        ),
        Finish::NotCompacted(NotCompacted::Unopened(fault)) => fault_of(fault_of_opening(fault)),
    }
}
