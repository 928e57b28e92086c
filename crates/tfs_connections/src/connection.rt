//! The two ends of a connection, with time limits.

ghost use Rattle.std.specs.Prelude.{◌≡◌, ◌<◌, IfOk};
ghost use Rattle.std.specs.Io.{ReadsAtMost, WritesAtMost};
ghost use Rattle.std.specs.Io.KnownBytes.{ReadConsumes, WriteAppends};
ghost use Rattle.std.specs.IoError.{error_kind};
ghost use Rattle.tfs_connections.specs.Waiting.{is_passing};

use crate::limits::MAX_LOOKS;
use crate::timing::Timing;
use crate::written::Text;
use std::io;
use std::io::{ErrorKind, Read, Write};
use std::time::Clock;
use tfs_conversation::{LentFault, Outlet, Source};

/// The reading end of a connection. It fails if its stream fails, if the client takes too long, or
/// if the conversation is to end. After a failure each read fails. For proofs, it keeps the bytes
/// that its stream gave, after those of earlier turns that belong to no answered message.
#[derive(Drop)]
pub struct Incoming<'t, 'r, 'e, R: Clock, S: Read> {
    timing: &'t Timing<'r, 'e, R>,
    stream: S,
    has_failed: bool,
    given: Text,
}

impl<'t, 'r, 'e, R: Clock, S: Read> Incoming<'t, 'r, 'e, R, S> {
    /// Wraps a stream that hasn't failed, from which these bytes were read before.
    pub fn new(timing: &'t Timing<'r, 'e, R>, stream: S, given: Text) -> Incoming<'t, 'r, 'e, R, S>
        ensures given { result.given ≡ given }
    {
        Incoming {
            timing,
            stream,
            has_failed: false,
            given,
        }
    }
}

impl<'t, 'r, 'e, R: Clock, S: Read + Drop> Incoming<'t, 'r, 'e, R, S> {
    /// Returns the bytes that were read.
    pub(crate) fn into_given(self) -> Text
        ensures given { result ≡ self.entry.given }
    {
        let Incoming { given, .. } = self;
        given
    }
}

impl<'t, 'r, 'e, R: Clock, S: Read> Source for Incoming<'t, 'r, 'e, R, S> {
    ghost use Rattle.std.specs.Prelude.{Some};

    ghost remaining = { λ i. S.remaining i.stream };

    // The bytes that the stream gave, after those of earlier turns.
    ghost taken = { λ i. Some i.given.bytes };

    ghost failed = { λ i. i.has_failed };

    fn read(&mut self, buf: &mut [u8]) -> Result<usize, LentFault> {
        if self.has_failed || self.timing.ends_reading() {
            self.has_failed = true;
            return Err(LentFault);
        }
        match read_in_time(self.timing, &mut self.stream, buf) {
            Ok(count) => {
                let (front, _) = buf.split_at(count);
                self.given.note(front);
                Ok(count)
            }
            Err(fault) => {
                self.has_failed = true;
                Err(fault)
            }
        }
    }
}

/// Waits until bytes have come, and reads once.
#[tactic(auto, using(crate::proofs::Keeping::keeps_then, crate::proofs::Keeping::kept_read))]
fn read_in_time<R: Clock, S: Read>(
    timing: &Timing<'_, '_, R>,
    stream: &mut S,
    buf: &mut [u8],
) -> Result<usize, LentFault>
    ensures bound { ReadsAtMost result buf.new }
    ensures bytes { ReadConsumes (S.remaining stream.old) (S.remaining stream.new) result buf.new }
{
    let since = timing.now();
    for _look in 0..MAX_LOOKS {
        match stream.read(buf) {
            Ok(count) => {
                timing.note_read(count);
                return Ok(count);
            }
            Err(error) => {
                if !passes(&error) || timing.ends_waiting(since) {
                    return Err(LentFault);
                }
            }
        }
    }
    Err(LentFault)
}

/// The writing end of a connection. It fails if its stream fails or takes no byte, if the client
/// takes too long, or if the conversation is to end. After a failure each write fails.
#[derive(Drop)]
pub struct Outgoing<'t, 'r, 'e, R: Clock, S: Write> {
    timing: &'t Timing<'r, 'e, R>,
    stream: S,
    has_failed: bool,
}

impl<'t, 'r, 'e, R: Clock, S: Write> Outgoing<'t, 'r, 'e, R, S> {
    /// Wraps a stream that hasn't failed.
    pub fn new(timing: &'t Timing<'r, 'e, R>, stream: S) -> Outgoing<'t, 'r, 'e, R, S>
        ensures stream { result.stream ≡ stream }
    {
        Outgoing {
            timing,
            stream,
            has_failed: false,
        }
    }

    /// Returns the stream.
    pub(crate) fn into_stream(self) -> S
        ensures stream { result ≡ self.entry.stream }
    {
        let Outgoing { stream, .. } = self;
        stream
    }
}

impl<'t, 'r, 'e, R: Clock, S: Write> Outlet for Outgoing<'t, 'r, 'e, R, S> {
    ghost contents = { λ o. S.contents o.stream };

    ghost failed = { λ o. o.has_failed };

    fn write(&mut self, text: &[u8]) -> Result<usize, LentFault> {
        self.timing.note_written(0);
        if self.has_failed || self.timing.ends_writing(text.len()) {
            self.has_failed = true;
            return Err(LentFault);
        }
        let result = write_in_time(self.timing, &mut self.stream, text);
        self.has_failed = result.is_err();
        result
    }
}

/// Waits until the stream takes bytes, and writes once.
#[tactic(auto, using(crate::proofs::Keeping::keeps_then, crate::proofs::Keeping::kept_write))]
fn write_in_time<R: Clock, S: Write>(
    timing: &Timing<'_, '_, R>,
    stream: &mut S,
    text: &[u8],
) -> Result<usize, LentFault>
    ensures bound { WritesAtMost result text.now }
    ensures bytes { WriteAppends (S.contents stream.old) (S.contents stream.new) result text.now }
    ensures some { IfOk result (λ n. 0 < n) }
{
    let since = timing.now();
    for _look in 0..MAX_LOOKS {
        match stream.write(text) {
            Ok(0) => return Err(LentFault),
            Ok(count) => {
                timing.note_written(count);
                return Ok(count);
            }
            Err(error) => {
                if !passes(&error) || timing.ends_waiting_to_write(since, text.len()) {
                    return Err(LentFault);
                }
            }
        }
    }
    Err(LentFault)
}

/// Returns true if a read or a write is retried after this error: its wait timed out, or a signal
/// interrupted it.
fn passes(error: &io::Error) -> bool
    ensures value { result ≡ is_passing (error_kind error.now) }
{
    match error.kind() {
        ErrorKind::WouldBlock | ErrorKind::Interrupted => true,
        _ => false,
    }
}
