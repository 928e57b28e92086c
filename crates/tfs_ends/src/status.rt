//! The exit statuses of the program.

ghost use Rattle.std.specs.Prelude.{◌≡◌};
ghost use Rattle.tfs_ends.specs.Status.{fault_status, status_of};

use tfs_conversation::{Ended, RunFault};
use tfs_table::OpenFault;

/// Returns the exit status for the end of a conversation.
pub fn status_of(ended: Ended) -> u8
    ensures status { result ≡ status_of ended }
{
    match ended {
        Ended::Clean | Ended::Asked => 0,
        Ended::Cut => 3,
        Ended::Refused => 4,
    }
}

/// Returns the exit status for a fault of a command that reads a journal.
pub fn fault_status(fault: RunFault) -> u8
    ensures status { result ≡ fault_status fault }
{
    match fault {
        RunFault::Opening(OpenFault::TornBase) => 3,
        RunFault::Opening(OpenFault::Damaged(_)) => 4,
        RunFault::Opening(OpenFault::Unlawful(_)) => 5,
        RunFault::Opening(OpenFault::SinkFault)
        | RunFault::Opening(OpenFault::NoMemory)
        | RunFault::Opening(OpenFault::TooFar)
        | RunFault::Write
        | RunFault::NoMemory => 1,
    }
}
