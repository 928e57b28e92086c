//! The faults that end a conversation.

use thiserror::Error;

/// Why a conversation ended before its input did.
#[derive(Clone, Copy, Debug, PartialEq, Eq, Error)]
pub enum ServeFault {
    /// The reader failed.
    #[error("the input could not be read")]
    Read,
    /// The writer failed, or accepted no byte.
    #[error("the output could not be written")]
    Write,
    /// Another read was needed after 1,048,576 of them.
    #[error("the input came in too many reads")]
    TooManyReads,
    /// Memory was refused, for the input or for a reply's text.
    #[error("no memory for the conversation")]
    NoMemory,
}
