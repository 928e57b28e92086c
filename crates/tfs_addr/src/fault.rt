//! The reasons why a text has no address.

ghost use Rattle.std.specs.Prelude.{◌≡◌};
ghost use Rattle.tfs_addr.specs.declared.fault.AddrFault.TheVariants.{NoMemory};

use std::alloc::AllocError;
use thiserror::Error;

/// The reason why a text isn't stripped. An error in the text is determined by its first bracket
/// that belongs to no key, and takes precedence over `NoMemory`.
#[derive(Clone, Copy, Debug, PartialEq, Eq, Error)]
pub enum AddrFault {
    /// That bracket is a `[`, which begins no key.
    #[error("a bracket is opened, and no key follows that ends")]
    Unclosed,
    /// That bracket is a `]`, which ends no key.
    #[error("a bracket is closed, and was not opened")]
    StrayBracket,
    /// Memory was exhausted.
    #[error("out of memory")]
    NoMemory,
}

impl From<AllocError> for AddrFault {
    ghost from_gives = { λ _ e. e ≡ NoMemory };

    fn from(_error: AllocError) -> AddrFault {
        AddrFault::NoMemory
    }
}
