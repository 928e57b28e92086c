//! The errors of impact queries.

ghost use Rattle.std.specs.Prelude.{◌≡◌};
ghost use Rattle.tfs_index.specs.declared.fault.ImpactFault.TheVariants.{NoMemory};

use std::alloc::AllocError;
use thiserror::Error;

/// The reason why an impact query isn't answered. The variants are listed in the order of the
/// checks.
#[derive(Clone, Copy, Debug, PartialEq, Eq, Error)]
pub enum ImpactFault {
    /// The query has no text.
    #[error("the query has no address")]
    NoAddress,
    /// The query has more than 64 texts, including repeated ones.
    #[error("the query has more than 64 addresses")]
    TooManyAddresses,
    /// The text with this index, counted from 0, is the first that names no instance.
    #[error("address {0} of the query names nothing")]
    UnknownAddress(usize),
    /// A request for memory was refused.
    #[error("no memory to answer the query")]
    NoMemory,
}

impl From<AllocError> for ImpactFault {
    ghost from_gives = { λ _ e. e ≡ NoMemory };

    fn from(_error: AllocError) -> ImpactFault {
        ImpactFault::NoMemory
    }
}
