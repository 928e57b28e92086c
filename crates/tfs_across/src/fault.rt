//! The errors of the search for readers.

ghost use Rattle.std.specs.Prelude.{◌≡◌};
ghost use Rattle.tfs_across.specs.declared.fault.AcrossFault.TheVariants.{NoMemory};

use std::alloc::AllocError;
use thiserror::Error;

/// The reason why the readers of a workspace aren't found. The variants are listed in the order of
/// the checks.
#[derive(Clone, Copy, Debug, PartialEq, Eq, Error)]
pub enum AcrossFault {
    /// No workspace of the name has a state.
    #[error("no workspace of this name has a state")]
    UnknownName,
    /// There are more than 4,096 workspaces.
    #[error("there are more than 4096 workspaces")]
    TooManyWorkspaces,
    /// A request for memory was refused.
    #[error("no memory to find the readers")]
    NoMemory,
}

impl From<AllocError> for AcrossFault {
    ghost from_gives = { λ _ e. e ≡ NoMemory };

    fn from(_error: AllocError) -> AcrossFault {
        AcrossFault::NoMemory
    }
}
