//! The errors of reading lock texts.

use thiserror::Error;

/// The reason why bytes aren't read as lock information. The variants are listed in the order of
/// the checks, except [`LockFault::TooLong`], which is checked first for the bytes and last for the
/// identifier.
#[derive(Clone, Copy, Debug, PartialEq, Eq, Error)]
pub enum LockFault {
    /// The bytes aren't a JSON text (RFC 8259), are nested deeper than 127, or have a number
    /// outside the range of `serde_json`'s numbers.
    #[error("the lock information is no JSON text")]
    NotJson,
    /// The value isn't an object.
    #[error("the lock information is no object")]
    NotObject,
    /// `ID` is absent, isn't a text, or is empty.
    #[error("the lock information's ID is absent, isn't a text, or is empty")]
    NoId,
    /// There are more than 65,536 bytes, or the identifier has more than 256 bytes.
    #[error("the lock information has over 65,536 bytes, or its ID over 256")]
    TooLong,
    /// A request for memory was refused.
    #[error("no memory to read the lock information")]
    NoMemory,
}
