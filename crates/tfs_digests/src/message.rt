//! A text as the blocks that MD5 processes (RFC 1321, sections 3.1 and 3.2).

ghost use Rattle.std.specs.Prelude.{◌≡◌, ◌≤◌, ◌<◌, ◌+◌, ◌-◌, ◌/◌, ℕ, List, ◌∷◌, ◌++◌, length, replicate};
ghost use Rattle.tfs_digests.specs.Blocks.{BeginsWithEnd, block_count, block_of};

use std::marker::Model;

/// The number of bytes in a block.
const BLOCK_BYTES: usize = 64;

/// A text and its end: the bytes after its whole blocks once it is padded.
#[derive(Drop)]
pub(crate) struct Message<'a> {
    text: &'a [u8],
    end: [u8; 128],
}

impl<'a> Model for Message<'a> {
    ghost Value = { List ℕ };

    ghost view = { λ m. m.text.now };

    ghost invariant = { λ m. BeginsWithEnd m.text.now m.end };
}

impl<'a> Message<'a> {
    /// Creates the message of a text.
    pub(crate) fn new(text: &'a [u8]) -> Message<'a>
        ensures { result ≡ text.now }
    {
        Message {
            text,
            end: end_of(text),
        }
    }

    /// Returns the number of blocks.
    pub(crate) fn blocks(&self) -> usize
        ensures { result ≡ block_count self.now }
    {
        self.text.len() / BLOCK_BYTES + end_blocks(self.text)
    }

    /// Returns block `i`. If there is no block `i`, returns 64 unspecified bytes.
    pub(crate) fn block(&self, i: usize) -> &[u8]
        ensures size { length result.now ≡ 64 }
        ensures bytes { i < block_count self.now → result.now ≡ block_of self.now i }
    {
        let whole = self.text.len() / BLOCK_BYTES;
        if i < whole {
            &self.text[BLOCK_BYTES * i..BLOCK_BYTES * i + BLOCK_BYTES]
        } else if i == whole {
            &self.end[..BLOCK_BYTES]
        } else {
            &self.end[BLOCK_BYTES..]
        }
    }
}

/// Returns the number of blocks in the end: two if the text's length doesn't fit into the first.
fn end_blocks(text: &[u8]) -> usize
    ensures count { block_count text.now ≡ length text.now / 64 + result }
    ensures few { result ≤ 2 }
{
    if text.len() % BLOCK_BYTES < 56 { 1 } else { 2 }
}

/// Returns the bytes after a text's whole blocks once it is padded.
fn end_of(text: &[u8]) -> [u8; 128]
    ensures { BeginsWithEnd text.now result }
{
    let used = text.len() % BLOCK_BYTES;
    let at = if used < 56 { 56 } else { 120 };
    let bits = (text.len() as u64).wrapping_mul(8);
    let mut end = final_blocks(&text[text.len() - used..]);
    end[at..at + 8].copy_from_slice(&bits.to_le_bytes());
    end
}

/// Returns `left`, which is shorter than a block, followed by the padding's first byte and zeros.
fn final_blocks(left: &[u8]) -> [u8; 128]
    requires { length left.now < 64 }
    ensures { result ≡ left.now ++ 0x80 ∷ replicate (127 - length left.now) 0 }
{
    let mut end = [0; 128];
    end[..left.len()].copy_from_slice(left);
    end[left.len()] = 0x80;
    end
}
