//! The faults of making a table.

ghost use Rattle.std.specs.Prelude.{◌≡◌};
ghost use Rattle.tfs_table.specs.declared.fault.OpenFault.TheVariants.{NoMemory};

use std::alloc::AllocError;
use thiserror::Error;

/// Why no table was made.
#[derive(Clone, Copy, Debug, PartialEq, Eq, Error)]
pub enum OpenFault {
    /// The bytes are damaged from this offset on.
    #[error("the journal is damaged at byte {0}")]
    Damaged(usize),
    /// The record with this number, from 1, isn't accepted after the records before it.
    #[error("record {0} of the journal breaks the rules")]
    Unlawful(u64),
    /// The new sink has failed.
    #[error("the journal could not be written")]
    SinkFault,
    /// Memory was refused.
    #[error("no memory for the table")]
    NoMemory,
    /// The bytes end inside the base.
    #[error("the journal ends inside its base")]
    TornBase,
    /// The position is over 2 to the 62nd.
    #[error("the position is too high for a base")]
    TooFar,
}

impl From<AllocError> for OpenFault {
    ghost from_gives = { λ _ fault. fault ≡ NoMemory };

    fn from(_error: AllocError) -> OpenFault {
        OpenFault::NoMemory
    }
}
