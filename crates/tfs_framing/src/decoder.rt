//! Framing of the next message: `take` reads all bytes together, `RequestDecoder` in pieces.

ghost use Rattle.std.specs.Prelude.{◌≡◌, ℕ, List, [], ◌++◌, IfOk, OnErr};
ghost use Rattle.std.specs.Borrow.{ftrue};
ghost use Rattle.std.specs.Coded.{coded_ℕ, coded_list};
ghost use Rattle.tfs_framing.specs.Framing.{BeginsWith, Frames};
ghost use Rattle.tfs_framing.specs.Request.{RequestValue};

use crate::framing::{Framed, Received, Take, frame};
use crate::head::Search;
use crate::over::{Over, copy_of};
use crate::progress::{Progress, put, step};
use bytes::BytesMut;
use std::alloc::{AllocError, Global};
use std::marker::Model;

/// Returns the message at the start of the bytes with its length, or its refusal, or `Need` if
/// neither is known yet. Bytes that follow a message don't change the result. Fails for lack of
/// memory only if the bytes begin with a message.
pub fn take(alloc: Global, bytes: &[u8]) -> Result<Take, AllocError>
    ensures ok { IfOk result (Frames bytes.now) }
    ensures memory { OnErr result ((request : RequestValue) × (used : ℕ) × BeginsWith bytes.now request used) }
{
    match frame(alloc, bytes, Search::start(), false)? {
        Framed::Message { request, left } => Ok(Take::Got(request, bytes.len() - left)),
        Framed::Refused(refusal) => Ok(Take::Fault(refusal)),
        Framed::More { .. } => Ok(Take::Need),
    }
}

/// A decoder of requests. It is fed with the bytes of a connection in pieces of any length, and
/// returns the messages in order.
#[derive(Drop)]
pub struct RequestDecoder {
    progress: Progress,
    /// The bytes that were fed and are not decoded; a body of known length is kept in `progress`.
    unused: BytesMut,
    /// The number of bytes that the next call of `feed` may pass.
    room: usize,
    /// Whether requests keep their heads.
    keeps_heads: bool,
    fed: Fed,
}

impl Model for RequestDecoder {
    ghost use Rattle.std.specs.Prelude.{◌≤◌, length};
    ghost use Rattle.tfs_framing.specs.Decoder.{DecoderValue, HasRoomFor, IsAt, over_of};

    ghost Value = { DecoderValue };

    ghost view = { λ d. record {
      bytes = d.fed.bytes;
      room = d.room;
      unused = length d.unused.items;
      over = over_of d.progress;
    } };

    ghost invariant = { λ d. IsAt d.fed.bytes d.progress d.unused.items
        × HasRoomFor d.room d.progress d.unused.spare };
}

impl RequestDecoder {
    ghost use Rattle.std.specs.Prelude.{◌≡◌, ◌≤◌, ◌++◌, ◌==◌, [], length, None, IfOk, IfSome, OnErr};
    ghost use Rattle.tfs_framing.specs.Decoder.{Gives, HasNoRefusal, lasting};

    /// Creates a decoder that was fed with no bytes.
    pub fn new(alloc: Global) -> RequestDecoder
        ensures value { result ≡ record { bytes = []; room = 0; unused = 0; over = None } }
    {
        RequestDecoder::start(alloc, false)
    }

    /// Creates a decoder whose requests keep their heads for `Request::field`. Each takes memory for
    /// its head.
    pub fn keeping_heads(alloc: Global) -> RequestDecoder
        ensures value { result ≡ record { bytes = []; room = 0; unused = 0; over = None } }
    {
        RequestDecoder::start(alloc, true)
    }

    /// Creates a decoder that was fed with no bytes.
    fn start(alloc: Global, keeps_heads: bool) -> RequestDecoder
        ensures value { result ≡ record { bytes = []; room = 0; unused = 0; over = None } }
    {
        RequestDecoder {
            progress: Progress::start(),
            unused: BytesMut::new(alloc),
            room: 0,
            keeps_heads,
            fed: Fed::new(),
        }
    }

    /// Decodes the next message. If it is incomplete, reserves room for more bytes. After a
    /// refusal, or an error for lack of memory, each further call returns the same, and no message.
    /// A refusal is reported even if memory is refused.
    pub fn next(&mut self, alloc: Global) -> Result<Received, AllocError>
        ensures ok { IfOk result (Gives self.old.bytes self.new) }
        ensures memory { OnErr result (HasNoRefusal self.old.bytes) }
        ensures over { self.new.over ≡ lasting result }
        ensures again { IfSome self.old.over (λ last. result ≡ last) }
        ensures kept { IfSome self.new.over (λ last. self.new.bytes ≡ self.old.bytes) }
    {
        let is_empty = self.is_empty();
        self.room = 0;
        match step(
            alloc,
            &mut self.progress,
            &mut self.unused,
            self.keeps_heads,
        ) {
            Ok(Received::More(room)) => {
                self.room = room;
                Ok(Received::More(room))
            }
            Ok(Received::Message(request)) => {
                self.progress = Progress::start();
                self.fed = Fed::of(self.unused.as_slice());
                Ok(Received::Message(request))
            }
            Ok(Received::Refused(refusal)) => {
                let reason = Some(copy_of(&refusal));
                self.progress = Progress::Over(Over { reason, is_empty });
                Ok(Received::Refused(refusal))
            }
            Err(fault) => {
                let reason = None;
                self.progress = Progress::Over(Over { reason, is_empty });
                Err(fault)
            }
        }
    }

    /// Appends bytes, at most as many as the last call of `next` made room for.
    pub fn feed(&mut self, bytes: &[u8])
        requires room { length bytes.now ≤ self.old.room }
        ensures bytes { self.new.bytes ≡ self.old.bytes ++ bytes.now }
        ensures over { self.new.over ≡ self.old.over }
    {
        put(&mut self.progress, &mut self.unused, bytes);
        self.room = 0;
        self.fed = self.fed.then(&Piece { text: bytes });
    }

    /// Returns true if no message has begun.
    pub fn is_empty(&self) -> bool
        ensures value { result ≡ (length self.now.bytes == 0) }
    {
        match &self.progress {
            Progress::Head(_) => self.unused.is_empty(),
            Progress::Sized(_) | Progress::Chunks(_) => false,
            Progress::Over(over) => over.is_empty,
        }
    }
}

/// The bytes that a decoder was fed with; clauses read them as `bytes`. They exist only in proofs:
/// they take no memory, and the methods do nothing at run time.
#[derive(Drop)]
pub(crate) struct Fed {
    pub(crate) ghost bytes: { List ℕ } by { coded_list coded_ℕ },
}

impl Model for Fed {
    ghost also_owns = { λ _. ftrue };
}

/// A piece of bytes for `Fed::then`.
#[derive(Clone, Copy, Drop)]
pub(crate) struct Piece<'b> {
    pub(crate) text: &'b [u8],
}

impl Fed {
    /// Creates an empty list of bytes.
    #[inline(always)]
    pub(crate) fn new() -> Fed
        ensures { result.bytes ≡ [] }
    {
        Fed {}
    }

    /// Returns the bytes with a piece appended.
    #[inline(always)]
    pub(crate) fn then(&self, _piece: &Piece<'_>) -> Fed
        ensures { result.bytes ≡ self.now.bytes ++ _piece.now.text.now }
    {
        Fed {}
    }

    /// Creates a list of these bytes.
    pub(crate) fn of(text: &[u8]) -> Fed
        ensures { result.bytes ≡ text.now }
    {
        Fed::new().then(&Piece { text })
    }
}
