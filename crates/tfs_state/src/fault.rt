//! The errors of reading state texts.

ghost use Rattle.std.specs.Prelude.{◌≡◌};
ghost use Rattle.tfs_state.specs.declared.fault.StateFault.TheVariants.{NoMemory};

use std::alloc::AllocError;
use thiserror::Error;

/// The reason why bytes aren't read as a state document. The variants are listed in the order of
/// the checks; each resource is checked with its instances and their dependencies before the next
/// one.
#[derive(Clone, Copy, Debug, PartialEq, Eq, Error)]
pub enum StateFault {
    /// The bytes aren't a JSON text (RFC 8259), are nested deeper than 127, or have a number
    /// outside the range of `serde_json`'s numbers.
    #[error("the state is no JSON text")]
    NotJson,
    /// The value isn't an object, or its `version` isn't the integer 4.
    #[error("the state's version isn't 4")]
    Version,
    /// `serial` isn't an unsigned 64-bit integer.
    #[error("the state's serial isn't an unsigned 64-bit whole number")]
    Serial,
    /// `lineage` isn't a text, or is empty.
    #[error("the state's lineage isn't a text, or is empty")]
    Lineage,
    /// The element of `resources` with this index isn't a resource by its own members. If
    /// `resources` isn't a list, the index is 0.
    #[error("resource {0} of the state isn't one")]
    Resource(usize),
    /// In the resource with the first index, the instance with the second index isn't an instance
    /// by its own members.
    #[error("instance {1} of resource {0} of the state isn't one")]
    Instance(usize, usize),
    /// In the instance with the second index of the resource with the first, the dependency with
    /// the third index isn't a text that can be stripped.
    #[error("dependency {2} of instance {1} of resource {0} of the state is no address")]
    Dependency(usize, usize, usize),
    /// There are more than 4,096 instances.
    #[error("the state has more than 4096 instances")]
    TooManyInstances,
    /// A request for memory was refused.
    #[error("no memory to read the state")]
    NoMemory,
}

impl From<AllocError> for StateFault {
    ghost from_gives = { λ _ e. e ≡ NoMemory };

    fn from(_error: AllocError) -> StateFault {
        StateFault::NoMemory
    }
}
