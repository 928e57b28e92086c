//! Decoding of chunked bodies while their bytes arrive, so that the coded bytes needn't be kept.

ghost use Rattle.std.specs.Prelude.{◌≡◌, ◌+◌, ◌++◌, ℕ, IfOk, List, length, false};
ghost use Rattle.tfs_framing.specs.Decoded.{HasPassed, IsDecoded};

use crate::chunks::{Ahead, Flaw, Part, part_at};
use std::alloc::{AllocError, Global};

/// A chunked body that is partly decoded.
#[derive(Drop)]
pub(crate) struct ChunkedBody {
    /// The number of chunks that are completely decoded.
    pub(crate) count: usize,
    /// The number of decoded bytes, including those of an incomplete chunk.
    pub(crate) total: usize,
    pub(crate) body: Joined,
    /// What is known of the next part.
    pub(crate) ahead: Ahead,
}

/// The joined bytes of the chunks, until memory for more of them is refused.
#[derive(Drop)]
pub(crate) struct Joined {
    pub(crate) bytes: Vec<u8>,
    /// True if memory was refused, so that bytes are missing.
    pub(crate) lost: bool,
}

/// The outcome of decoding valid bytes.
#[derive(Drop)]
pub(crate) enum Decoded {
    /// More bytes are needed; the last `left` bytes aren't decoded.
    Wanted { decoded: ChunkedBody, left: usize },
    /// The body is complete, and `left` bytes follow it.
    Whole { joined: Joined, left: usize },
}

impl ChunkedBody {
    /// Creates a body without any decoded bytes.
    pub(crate) fn start(alloc: Global) -> ChunkedBody
        ensures { (rest : List ℕ) → HasPassed rest result rest }
    {
        ChunkedBody {
            count: 0,
            total: 0,
            body: Joined {
                bytes: Vec::new(alloc),
                lost: false,
            },
            ahead: Ahead::Line(0),
        }
    }
}

impl Joined {
    /// Appends bytes. If memory for them is refused, drops them and all later ones.
    fn push(&mut self, bytes: &[u8])
        ensures { self.new.lost ≡ false → (self.old.lost ≡ false) × (self.new.bytes.items ≡ self.old.bytes.items ++ bytes.now) }
    {
        if self.lost {
            return;
        }
        if self.bytes.extend_from_slice(bytes).is_err() {
            self.lost = true;
        }
    }

    /// Returns the bytes without spare capacity, or an error if any are missing.
    pub(crate) fn into_bytes(self) -> Result<Vec<u8>, AllocError>
        ensures { IfOk result (λ bytes. (self.lost ≡ false) × (bytes.items ≡ self.bytes.items)) }
    {
        if self.lost {
            return Err(AllocError);
        }
        let mut bytes = self.bytes;
        bytes.shrink_to_fit();
        Ok(bytes)
    }
}

/// Decodes the bytes that are left, as far as possible. If memory for the bytes of chunks is
/// refused, continues without storing them, so that a later flaw is still reported.
pub(crate) fn decode_body(decoded: ChunkedBody, left: &[u8]) -> Result<Decoded, Flaw>
    requires { (rest : List ℕ) × HasPassed rest decoded left.now }
    ensures { (rest : List ℕ) → HasPassed rest decoded left.now → IsDecoded rest left.now result }
{
    let mut decoded = decoded;
    let mut left = left;
    loop {
        match part_at(decoded.count, decoded.total, left, decoded.ahead)? {
            Part::Wanted {
                bytes,
                ahead,
                after,
            } => {
                decoded.body.push(bytes);
                decoded.total += bytes.len();
                decoded.ahead = ahead;
                return Ok(Decoded::Wanted {
                    decoded,
                    left: after.len(),
                });
            }
            Part::Chunk { bytes, after } => {
                decoded.body.push(bytes);
                decoded.count += 1;
                decoded.total += bytes.len();
                decoded.ahead = Ahead::Line(0);
                left = after;
            }
            Part::Last(after) => return Ok(Decoded::Whole {
                joined: decoded.body,
                left: after.len(),
            }),
        }
    }
}
