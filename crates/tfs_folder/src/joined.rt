//! Sources whose first bytes were read before.

ghost use Rattle.std.specs.Prelude.{◌≡◌, if◌then◌else◌, Some, false};
ghost use Rattle.std.specs.Fmt.{option_append};

use tfs_stream::{LentFault, Source};

/// A source that gives first bytes, which were read before, and then the bytes of another source.
#[derive(Drop)]
pub(crate) struct Joined<'f, S> {
    front: &'f [u8],
    rest: S,
    /// Whether the other source was asked for bytes.
    is_behind: bool,
    asked: usize,
}

impl<'f, S> Joined<'f, S> {
    /// Creates the source of these bytes and the bytes of another source.
    pub(crate) fn new(front: &'f [u8], rest: S) -> Joined<'f, S>
        ensures front { result.front.now ≡ front.now }
        ensures rest { result.rest ≡ rest }
        ensures begins { result.is_behind ≡ false }
    {
        Joined {
            front,
            rest,
            is_behind: false,
            asked: 0,
        }
    }
}

impl<S: Source> Source for Joined<'_, S> {
    ghost remaining = { λ j. if j.is_behind then S.remaining j.rest else option_append (Some j.front.now) (S.remaining j.rest) };

    ghost failed = { λ j. if j.is_behind then S.failed j.rest else false };

    ghost asked = { λ j. j.asked };

    fn read(&mut self, buf: &mut [u8]) -> Result<usize, LentFault> {
        self.asked = buf.len();
        if self.is_behind || self.front.is_empty() {
            self.is_behind = true;
            return self.rest.read(buf);
        }
        let count = self.front.len().min(buf.len());
        let (piece, more) = self.front.split_at(count);
        buf[..count].copy_from_slice(piece);
        self.front = more;
        Ok(count)
    }
}
