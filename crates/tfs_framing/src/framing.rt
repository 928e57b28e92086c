//! Message framing: the end of a message (RFC 9112, sections 2.2, 3, 5 and 6.2).

ghost use Rattle.std.specs.Prelude.{◌≡◌, ℕ, List, IfOk, OnErr};
ghost use Rattle.tfs_framing.specs.Body.{refusal_of};
ghost use Rattle.tfs_framing.specs.Decoded.{Decodes};
ghost use Rattle.tfs_framing.specs.Decoder.{IsFramed};
ghost use Rattle.tfs_framing.specs.Framing.{BeginsWith, Opens};
ghost use Rattle.tfs_framing.specs.Sought.{IsSought};
ghost use Rattle.tfs_framing.specs.Request.{RequestValue};
ghost use Rattle.tfs_framing.specs.declared.lines.BodyLength.TheVariants.{Sized};

use crate::body::{ChunkedBody, Decoded, decode_body};
use crate::chunks::Flaw;
use crate::head::{Search, find_head};
use crate::limits::MAX_HEAD_BYTES;
use crate::lines::{BodyLength, read_head};
use crate::progress::{Progress, begin_sized, keep_chunks};
use crate::request::{OpenRequest, Request};
use std::alloc::{AllocError, Global};
use tfs_calls::Refusal;

/// The outcome of framing bytes.
#[derive(Drop)]
pub enum Take {
    /// Neither a message nor a refusal yet: more bytes are needed.
    Need,
    /// A message, and its length in bytes.
    Got(Request, usize),
    /// The message is refused for this reason; its end is unknown.
    Fault(Refusal),
}

/// The outcome of decoding the bytes that a decoder was fed with.
#[derive(Drop)]
pub enum Received {
    /// Neither a message nor a refusal yet: more bytes are needed. The decoder accepts up to this
    /// many in the next call of `feed`.
    More(usize),
    /// A message. The bytes after it remain in the decoder.
    Message(Request),
    /// The message is refused for this reason; its end is unknown.
    Refused(Refusal),
}

/// The outcome of framing, with the number of bytes that are left: after the message, or undecoded.
#[derive(Drop)]
pub(crate) enum Framed {
    /// A message.
    Message {
        request: Request,
        left: usize,
    },
    /// The message is refused for this reason; its end is unknown.
    Refused(Refusal),
    /// Neither yet: what is known of the bytes, or an error if memory for it was refused.
    More {
        progress: Result<Progress, AllocError>,
        left: usize,
    },
}

/// Frames the message at the start of the bytes. The search for the end of its head continues from
/// `search`. The request keeps its head if `keeps_head` is true.
pub(crate) fn frame(
    alloc: Global,
    bytes: &[u8],
    search: Search,
    keeps_head: bool,
) -> Result<Framed, AllocError>
    requires { IsSought bytes.now search }
    ensures ok { IfOk result (IsFramed bytes.now bytes.now) }
    ensures memory { OnErr result ((request : RequestValue) × (used : ℕ) × BeginsWith bytes.now request used) }
{
    let (head, rest) = match find_head(bytes, search) {
        Ok(parts) => parts,
        Err(search) => {
            if bytes.len() < MAX_HEAD_BYTES {
                return Ok(Framed::More {
                    progress: Ok(Progress::Head(search)),
                    left: bytes.len(),
                });
            }
            return Ok(Framed::Refused(Refusal::HeadTooLarge));
        }
    };
    match read_head(head) {
        Ok(lines) => {
            let request = OpenRequest::new(alloc, &lines, kept_of(head, keeps_head));
            frame_body(alloc, request, lines.size, rest)
        }
        Err(refusal) => Ok(Framed::Refused(refusal)),
    }
}

/// Returns the bytes of a head that its request keeps.
fn kept_of(head: &[u8], keeps_head: bool) -> &[u8] {
    if keeps_head { head } else { &[] }
}

/// Frames the body that follows a head.
fn frame_body(
    alloc: Global,
    request: Result<OpenRequest, AllocError>,
    size: BodyLength,
    rest: &[u8],
) -> Result<Framed, AllocError>
    requires { (bytes : List ℕ) × Opens bytes request size rest.now }
    ensures ok { (bytes : List ℕ) → Opens bytes request size rest.now
        → IfOk result (IsFramed bytes rest.now) }
    ensures memory { (bytes : List ℕ) → Opens bytes request size rest.now
        → OnErr result ((request : RequestValue) × (used : ℕ) × BeginsWith bytes request used) }
{
    match size {
        BodyLength::Absent => {
            let request = request?.complete(Vec::new(alloc));
            let left = rest.len();
            Ok(Framed::Message { request, left })
        }
        BodyLength::Sized(size) => frame_sized(alloc, request, size, rest),
        BodyLength::Chunked => frame_chunks(request, ChunkedBody::start(alloc), rest),
    }
}

/// Frames a body of known length.
fn frame_sized(
    alloc: Global,
    request: Result<OpenRequest, AllocError>,
    size: usize,
    rest: &[u8],
) -> Result<Framed, AllocError>
    requires { (bytes : List ℕ) × Opens bytes request (Sized size) rest.now }
    ensures ok { (bytes : List ℕ) → Opens bytes request (Sized size) rest.now
        → IfOk result (IsFramed bytes rest.now) }
    ensures memory { (bytes : List ℕ) → Opens bytes request (Sized size) rest.now
        → OnErr result ((request : RequestValue) × (used : ℕ) × BeginsWith bytes request used) }
{
    if rest.len() < size {
        let progress = begin_sized(alloc, request, size, rest);
        return Ok(Framed::More { progress, left: 0 });
    }
    let (body, after) = rest.split_at(size);
    let body = Vec::from_slice(alloc, body)?;
    let request = request?.complete(body);
    let left = after.len();
    Ok(Framed::Message { request, left })
}

/// Frames a chunked body that is partly decoded; `left` has the undecoded bytes.
pub(crate) fn frame_chunks(
    request: Result<OpenRequest, AllocError>,
    decoded: ChunkedBody,
    left: &[u8],
) -> Result<Framed, AllocError>
    requires { (bytes : List ℕ) × Decodes bytes request decoded left.now }
    ensures ok { (bytes : List ℕ) → Decodes bytes request decoded left.now
        → IfOk result (IsFramed bytes left.now) }
    ensures memory { (bytes : List ℕ) → Decodes bytes request decoded left.now
        → OnErr result ((request : RequestValue) × (used : ℕ) × BeginsWith bytes request used) }
{
    match decode_body(decoded, left) {
        Ok(Decoded::Wanted { decoded, left }) => {
            let progress = keep_chunks(request, decoded);
            Ok(Framed::More { progress, left })
        }
        Ok(Decoded::Whole { joined, left }) => {
            let body = joined.into_bytes()?;
            let request = request?.complete(body);
            Ok(Framed::Message { request, left })
        }
        Err(flaw) => Ok(Framed::Refused(refusal_of(flaw))),
    }
}

/// Returns the refusal for a flaw of a chunked body.
fn refusal_of(flaw: Flaw) -> Refusal
    ensures { result ≡ refusal_of flaw }
{
    match flaw {
        Flaw::TooLarge => Refusal::BodyTooLarge,
        Flaw::Unreadable => Refusal::BadChunk,
    }
}
