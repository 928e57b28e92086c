//! The end of a decoder: after a refusal, or an error for lack of memory, it returns no more
//! messages.

ghost use Rattle.std.specs.Prelude.{◌≡◌, ℕ, List};
ghost use Rattle.tfs_framing.specs.Decoder.{IsOver, last_result};
ghost use Rattle.tfs_framing.specs.Framing.{framing_refusal};

use crate::framing::Received;
use std::alloc::AllocError;
use tfs_calls::Refusal;

/// Why a decoder returns no more messages.
#[derive(Drop)]
pub(crate) struct Over {
    /// The refusal, or `None` if memory was refused.
    pub(crate) reason: Option<Refusal>,
    /// True if no byte of the message had arrived.
    pub(crate) is_empty: bool,
}

impl Over {
    /// Returns the result that ended the decoder.
    pub(crate) fn result(&self) -> Result<Received, AllocError>
        ensures { (bytes : List ℕ) → IsOver bytes self.now → result ≡ last_result self.now.reason }
    {
        match &self.reason {
            Some(refusal) => Ok(Received::Refused(copy_of(refusal))),
            None => Err(AllocError),
        }
    }
}

/// Copies a refusal by framing, which is one of seven.
pub(crate) fn copy_of(refusal: &Refusal) -> Refusal
    ensures { (bytes : List ℕ) → framing_refusal bytes refusal.now → result ≡ refusal.now }
{
    match refusal {
        Refusal::HeadTooLarge => Refusal::HeadTooLarge,
        Refusal::NoHost => Refusal::NoHost,
        Refusal::BadLength => Refusal::BadLength,
        Refusal::TransferCoding => Refusal::TransferCoding,
        Refusal::BodyTooLarge => Refusal::BodyTooLarge,
        Refusal::BadChunk => Refusal::BadChunk,
        _ => Refusal::BadHead,
    }
}
