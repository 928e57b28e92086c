//! What a decoder knows of the next message, and the steps that decode it.

ghost use Rattle.std.specs.Prelude.{◌≡◌, ◌≤◌, ◌<◌, ◌++◌, ℕ, List, [], length, None, IfOk, IfSome, OnErr};
ghost use Rattle.tfs_framing.specs.Decoded.{Decodes};
ghost use Rattle.tfs_framing.specs.Decoder.{Comes, HasNoRefusal, HasRoomFor, IsApart, IsAt, IsFramed, over_of};
ghost use Rattle.tfs_framing.specs.Framing.{IsUnfinished, Opens};
ghost use Rattle.tfs_framing.specs.declared.lines.BodyLength.TheVariants.{Sized};

use crate::body::ChunkedBody;
use crate::framing::{Framed, Received, frame, frame_chunks};
use crate::head::Search;
use crate::laws::what_is_known_stays_whatever_bytes_follow;
use crate::over::Over;
use crate::request::OpenRequest;
use bytes::BytesMut;
use std::alloc::{AllocError, Global};
use std::mem;

/// The maximum number of bytes that a decoder is fed with in one call.
const MAX_FED_BYTES: usize = 65_536;

/// What is known of the next message.
#[derive(Drop)]
pub(crate) enum Progress {
    /// Its head is incomplete, and all its bytes are unused; the search for the end of the head got
    /// this far.
    Head(Search),
    /// Its head states the length of its body, which is kept in a separate vector.
    Sized(SizedBody),
    /// Its head states a chunked body, which is decoded while it arrives.
    Chunks(Chunks),
    /// The decoder has ended: no more messages follow.
    Over(Over),
}

/// A request whose body has a known length, with the bytes of the body that have arrived.
#[derive(Drop)]
pub(crate) struct SizedBody {
    pub(crate) request: OpenRequest,
    pub(crate) size: usize,
    /// Has capacity for all `size` bytes.
    pub(crate) body: Vec<u8>,
}

/// A request with a chunked body, as far as it is decoded.
#[derive(Drop)]
pub(crate) struct Chunks {
    pub(crate) request: OpenRequest,
    pub(crate) decoded: ChunkedBody,
}

impl Progress {
    /// Returns the progress before any byte has arrived.
    pub(crate) fn start() -> Progress
        ensures at { (bytes : List ℕ) → IsAt bytes result bytes }
        ensures room { (spare : ℕ) → HasRoomFor 0 result spare }
        ensures over { over_of result ≡ None }
    {
        Progress::Head(Search::start())
    }
}

/// Keeps a request with an incomplete body, and copies the body's bytes into a vector with capacity
/// for all of them.
pub(crate) fn begin_sized(
    alloc: Global,
    request: Result<OpenRequest, AllocError>,
    size: usize,
    read: &[u8],
) -> Result<Progress, AllocError>
    requires size { size ≤ 16777216 }
    requires lacking { length read.now < size }
    ensures at { (bytes : List ℕ) → Opens bytes request (Sized size) read.now
        → IfOk result (λ p. IsAt bytes p []) }
    ensures over { IfOk result (λ p. over_of p ≡ None) }
{
    let request = request?;
    let mut body = Vec::with_capacity(alloc, size)?;
    body.extend_from_slice(read)?;
    Ok(Progress::Sized(SizedBody {
        request,
        size,
        body,
    }))
}

/// Keeps a request with incomplete chunks. Fails if bytes of the body were lost for lack of memory.
pub(crate) fn keep_chunks(
    request: Result<OpenRequest, AllocError>,
    decoded: ChunkedBody,
) -> Result<Progress, AllocError>
    ensures at { (bytes left : List ℕ) → Decodes bytes request decoded left
        → IfOk result (λ p. IsAt bytes p left) }
    ensures over { IfOk result (λ p. over_of p ≡ None) }
{
    let request = request?;
    if decoded.body.lost {
        return Err(AllocError);
    }
    Ok(Progress::Chunks(Chunks { request, decoded }))
}

/// Decodes the unused bytes. If more are needed, makes room for them. A request keeps its head if
/// `keeps_head` is true.
pub(crate) fn step(
    alloc: Global,
    progress: &mut Progress,
    unused: &mut BytesMut,
    keeps_head: bool,
) -> Result<Received, AllocError>
    requires at { (bytes : List ℕ) × IsAt bytes progress.old unused.old.items }
    ensures ok { (bytes : List ℕ) → IsAt bytes progress.old unused.old.items
        → IfOk result (Comes bytes unused.new.items unused.new.spare progress.new) }
    ensures memory { (bytes : List ℕ) → IsAt bytes progress.old unused.old.items
        → OnErr result (HasNoRefusal bytes) }
    ensures again { IfSome (over_of progress.old) (λ last. result ≡ last) }
{
    match mem::replace(progress, Progress::start()) {
        Progress::Head(search) => {
            let framed = frame(alloc, unused.as_slice(), search, keeps_head);
            settle(framed, progress, unused)
        }
        Progress::Sized(sized) => settle(Ok(fill(sized)), progress, unused),
        Progress::Chunks(chunks) => {
            let framed = frame_chunks(Ok(chunks.request), chunks.decoded, unused.as_slice());
            settle(framed, progress, unused)
        }
        Progress::Over(over) => over.result(),
    }
}

/// Completes a request if its body is complete.
fn fill(sized: SizedBody) -> Framed
    ensures { (bytes : List ℕ) → IsApart bytes sized [] → IsFramed bytes [] result }
{
    if sized.body.len() < sized.size {
        return Framed::More {
            progress: Ok(Progress::Sized(sized)),
            left: 0,
        };
    }
    let request = sized.request.complete(sized.body);
    Framed::Message { request, left: 0 }
}

/// Stores the progress, and drops the bytes that were used.
fn settle(
    framed: Result<Framed, AllocError>,
    progress: &mut Progress,
    unused: &mut BytesMut,
) -> Result<Received, AllocError>
    requires framed { (bytes : List ℕ) × IfOk framed (IsFramed bytes unused.old.items) }
    ensures ok { (bytes : List ℕ) → IfOk framed (IsFramed bytes unused.old.items)
        → IfOk result (Comes bytes unused.new.items unused.new.spare progress.new) }
    ensures memory { (bytes : List ℕ) → IfOk framed (IsFramed bytes unused.old.items)
        → OnErr framed (HasNoRefusal bytes) → OnErr result (HasNoRefusal bytes) }
{
    match framed? {
        Framed::Message { request, left } => {
            let used = unused.len() - left;
            unused.advance(used);
            Ok(Received::Message(request))
        }
        Framed::Refused(refusal) => Ok(Received::Refused(refusal)),
        Framed::More {
            progress: known,
            left,
        } => {
            *progress = known?;
            let used = unused.len() - left;
            unused.advance(used);
            let room = make_room(progress, unused)?;
            Ok(Received::More(room))
        }
    }
}

/// Makes room for more bytes of an incomplete message, and returns their maximum number.
fn make_room(progress: &Progress, unused: &mut BytesMut) -> Result<usize, AllocError>
    requires { (bytes : List ℕ) × IsAt bytes progress.now unused.old.items × IsUnfinished bytes
        × (over_of progress.now ≡ None) }
    ensures items { unused.new.items ≡ unused.old.items }
    ensures room { IfOk result (λ room. HasRoomFor room progress.now unused.new.spare
        × (0 < room) × (room ≤ 65536)) }
{
    match progress {
        Progress::Sized(sized) => Ok(MAX_FED_BYTES.min(sized.size - sized.body.len())),
        Progress::Head(_) | Progress::Chunks(_) | Progress::Over(_) => {
            unused.reserve(MAX_FED_BYTES)?;
            Ok(MAX_FED_BYTES)
        }
    }
}

/// Appends bytes to the body of known length, or to the unused bytes.
pub(crate) fn put(progress: &mut Progress, unused: &mut BytesMut, bytes: &[u8])
    requires at { (old : List ℕ) × IsAt old progress.old unused.old.items }
    requires room { HasRoomFor (length bytes.now) progress.old unused.old.spare }
    ensures at { (old : List ℕ) → IsAt old progress.old unused.old.items
        → IsAt (old ++ bytes.now) progress.new unused.new.items }
    ensures over { over_of progress.new ≡ over_of progress.old }
{
    what_is_known_stays_whatever_bytes_follow();
    match progress {
        Progress::Sized(sized) => sized.body.extend_from_slice(bytes).unwrap(),
        Progress::Head(_) | Progress::Chunks(_) => unused.extend_from_slice(bytes).unwrap(),
        Progress::Over(_) => {}
    }
}
