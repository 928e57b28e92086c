//! The errors of reading JSON texts.

use json::Invalid;
use std::alloc::AllocError;
use thiserror::Error;

/// The reason why bytes can't be read as a JSON value.
#[derive(Clone, Copy, Debug, PartialEq, Eq, Error)]
pub enum JsonFault {
    /// The bytes aren't a JSON text (RFC 8259), are nested deeper than 127, or have a number
    /// outside the range of `serde_json`'s numbers.
    #[error("the bytes are no JSON text")]
    NotJson,
    /// A request for memory was refused.
    #[error("no memory to read JSON")]
    NoMemory,
}

impl From<Invalid> for JsonFault {
    ghost use Rattle.std.specs.Prelude.{◌≡◌};
    ghost use Rattle.tfs_json.specs.declared.fault.JsonFault.TheVariants.{NotJson as not_json};

    ghost from_gives = { λ _ e. e ≡ not_json };

    fn from(_invalid: Invalid) -> JsonFault {
        JsonFault::NotJson
    }
}

impl From<AllocError> for JsonFault {
    ghost use Rattle.std.specs.Prelude.{◌≡◌};
    ghost use Rattle.tfs_json.specs.declared.fault.JsonFault.TheVariants.{NoMemory as no_memory};

    ghost from_gives = { λ _ e. e ≡ no_memory };

    fn from(_refused: AllocError) -> JsonFault {
        JsonFault::NoMemory
    }
}
