//! The parts of a chunked body (RFC 9112, section 7.1), read while they arrive.

ghost use Rattle.std.specs.Prelude.{◌≡◌, ◌≤◌, ◌<◌, ℕ, List, ◌∷◌, ◌++◌, length, IfSome, IfNone, IfOk, IfErr};
ghost use Rattle.httparse.specs.Ascii.{line_feed};
ghost use Rattle.httparse.specs.Grammar.{crlf, print_end, ChunkLine, HasNoChunkLine};
ghost use Rattle.httparse.specs.Spans.{IsChunkLineAt};
ghost use Rattle.tfs_framing.specs.Chunks.{HasBadLine};
ghost use Rattle.tfs_framing.specs.Parts.{HasNoFeedIn, IsLineAt, IsPart, IsPassed};
ghost use Rattle.tfs_framing.specs.Sought.{HasNoEndYet};
ghost use Rattle.tfs_framing.specs.declared.chunks.Ahead.TheVariants.{Bytes, Trailer};
ghost use Rattle.tfs_framing.specs.declared.chunks.Flaw.TheVariants.{Unreadable};

use crate::head::head_len;
use crate::limits::{MAX_BODY_BYTES, MAX_CHUNK_LINE_BYTES, MAX_CHUNKS, MAX_TRAILER_BYTES};
use httparse::{Status, parse_chunk_size};

/// Why bytes don't begin with a chunked body.
#[derive(Clone, Copy)]
pub(crate) enum Flaw {
    /// The chunks have more bytes than a body may have.
    TooLarge,
    /// A chunk line, a chunk's end or the trailer is malformed or too long, or there are too many
    /// chunks.
    Unreadable,
}

/// What is known of the next part of a chunked body.
#[derive(Clone, Copy)]
pub(crate) enum Ahead {
    /// A chunk line comes next; its first bytes, this many, have no line feed.
    Line(usize),
    /// The line of a chunk was read; this many of the chunk's bytes are missing.
    Bytes(usize),
    /// The last chunk line comes next, `len` bytes long. In the bytes from its line feed on, none
    /// of the first `passed` bytes is a line feed followed by an empty line.
    Trailer { len: usize, passed: usize },
}

/// The next part of a chunked body.
#[derive(Clone, Copy)]
pub(crate) enum Part<'b> {
    /// More bytes are needed: the available bytes of an incomplete chunk, perhaps none; what is
    /// known of the next part; and the bytes after those.
    Wanted {
        bytes: &'b [u8],
        ahead: Ahead,
        after: &'b [u8],
    },
    /// The remaining bytes of a chunk that is complete, and the bytes after the chunk.
    Chunk {
        bytes: &'b [u8],
        after: &'b [u8],
    },
    /// The end of the body, with the bytes after it.
    Last(&'b [u8]),
}

/// Returns the next part after `count` chunks. `total` bytes of the body were decoded.
pub(crate) fn part_at(
    count: usize,
    total: usize,
    left: &[u8],
    ahead: Ahead,
) -> Result<Part<'_>, Flaw>
    requires { (rest : List ℕ) × (body : List ℕ) × IsPassed rest count body ahead left.now × (total ≡ length body) }
    ensures { (rest body : List ℕ) → IsPassed rest count body ahead left.now → total ≡ length body → IsPart rest count body left.now result }
{
    let seen = match ahead {
        Ahead::Line(seen) => seen,
        Ahead::Bytes(lacking) => return rest_of_chunk(left, lacking),
        Ahead::Trailer { len, passed } => return last_behind(left, len, passed),
    };
    let Some((len, size)) = chunk_line_at(left, seen)? else {
        let (none, _) = left.split_at(0);
        return Ok(Part::Wanted {
            bytes: none,
            ahead: Ahead::Line(left.len()),
            after: left,
        });
    };
    if size > (MAX_BODY_BYTES - total) as u64 {
        return Err(Flaw::TooLarge);
    }
    if size == 0 {
        return last_behind(left, len, 0);
    }
    if count == MAX_CHUNKS {
        return Err(Flaw::Unreadable);
    }
    let (_, behind) = left.split_at(len);
    rest_of_chunk(behind, size as usize)
}

/// Finds the chunk line at the start, within the first 1,024 bytes, and returns its length and the
/// chunk's size; `None` if the line is incomplete. The first `seen` bytes have no line feed.
fn chunk_line_at(left: &[u8], seen: usize) -> Result<Option<(usize, u64)>, Flaw>
    requires { HasNoFeedIn seen left.now }
    ensures found { IfOk result (λ told. IfSome told (λ at. (line : ChunkLine) × IsLineAt left.now at.0 at.1 line)) }
    ensures absent { IfOk result (λ told. IfNone told (HasNoFeedIn (length left.now) left.now × (length left.now < 1024))) }
    ensures err { IfErr result (λ flaw. (flaw ≡ Unreadable) × HasBadLine left.now) }
{
    let (window, _) = left.split_at(left.len().min(MAX_CHUNK_LINE_BYTES));
    let (_, new) = window.split_at(seen.min(window.len()));
    if new.contains(&b'\n') {
        match parse_line(window) {
            Some(line) => Ok(Some(line)),
            None => Err(Flaw::Unreadable),
        }
    } else if left.len() >= MAX_CHUNK_LINE_BYTES {
        Err(Flaw::Unreadable)
    } else {
        Ok(None)
    }
}

/// Parses the chunk line at the start, and returns its length and the chunk's size.
fn parse_line(bytes: &[u8]) -> Option<(usize, u64)>
    ensures found { IfSome result (λ told. (line : ChunkLine) × IsChunkLineAt bytes.now told.0 told.1 line) }
    ensures absent { IfNone result (HasNoChunkLine bytes.now) }
{
    match parse_chunk_size(bytes) {
        Ok(Status::Complete(told)) => Some(told),
        _ => None,
    }
}

/// Reads the last `lacking` bytes of a chunk, and its CR LF.
fn rest_of_chunk(left: &[u8], lacking: usize) -> Result<Part<'_>, Flaw>
    requires { lacking ≤ 16777216 }
    ensures { (rest : List ℕ) (count : ℕ) (body : List ℕ) → IsPassed rest count body (Bytes lacking) left.now → IsPart rest count body left.now result }
{
    let (bytes, end) = left.split_at(lacking.min(left.len()));
    if left.len() < lacking + 2 {
        return Ok(Part::Wanted {
            bytes,
            ahead: Ahead::Bytes(lacking - bytes.len()),
            after: end,
        });
    }
    match strip_line_end(end) {
        Some(behind) => Ok(Part::Chunk {
            bytes,
            after: behind,
        }),
        None => Err(Flaw::Unreadable),
    }
}

/// Returns the bytes after a leading CR LF, or `None` if there is none.
fn strip_line_end(bytes: &[u8]) -> Option<&[u8]>
    ensures found { IfSome result (λ rest. bytes.now ≡ print_end crlf ++ rest.now) }
    ensures absent { IfNone result ((rest : List ℕ) → ¬ (bytes.now ≡ print_end crlf ++ rest)) }
{
    match bytes {
        [b'\r', b'\n', rest @ ..] => Some(rest),
        _ => None,
    }
}

/// Finds the end of the trailer after the last chunk line, which has `len` bytes. The search starts
/// at this line's line feed; the first `passed` bytes from there were searched before.
fn last_behind(left: &[u8], len: usize, passed: usize) -> Result<Part<'_>, Flaw>
    requires some { 0 < len }
    requires inside { len ≤ length left.now }
    requires last { (line : ChunkLine) × (at : IsLineAt left.now len 0 line) × HasNoEndYet passed (line_feed ∷ at.after) }
    ensures { (rest : List ℕ) (count : ℕ) (body : List ℕ) → IsPassed rest count body (Trailer len passed) left.now
        → IsPart rest count body left.now result }
{
    let (_, from) = left.split_at(len - 1);
    let (window, _) = from.split_at(from.len().min(MAX_TRAILER_BYTES + 1));
    match head_len(window, passed) {
        Some(end) => {
            let (_, behind) = from.split_at(end);
            Ok(Part::Last(behind))
        }
        None => {
            if from.len() <= MAX_TRAILER_BYTES {
                let (none, _) = left.split_at(0);
                let passed = from.len().saturating_sub(2);
                let ahead = Ahead::Trailer { len, passed };
                Ok(Part::Wanted {
                    bytes: none,
                    ahead,
                    after: left,
                })
            } else {
                Err(Flaw::Unreadable)
            }
        }
    }
}
