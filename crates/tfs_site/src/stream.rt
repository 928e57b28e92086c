//! Reading and writing a connection within a limit of time.

ghost use Rattle.std.specs.Io.{ReadsAtMost, WritesAtMost};

use std::io::{self, ErrorKind, Read, Write};
use tfs_connections::AnyStream;

/// How often the waits of a connection may end without a byte: about 5 seconds in all.
const MAX_WAITS: u32 = 100;

/// A connection that ends after `MAX_WAITS` waits without a byte.
#[derive(Drop)]
pub(crate) struct LimitedStream<'c> {
    stream: &'c AnyStream,
    waits: u32,
}

impl<'c> LimitedStream<'c> {
    /// Wraps a connection whose waits end after a while.
    pub(crate) fn new(stream: &'c AnyStream) -> LimitedStream<'c> {
        LimitedStream { stream, waits: 0 }
    }

    /// Counts a wait without a byte. Returns the error if there were too many, or if it isn't the
    /// end of a wait.
    fn wait_past(&mut self, error: io::Error) -> io::Result<()> {
        match error.kind() {
            ErrorKind::WouldBlock | ErrorKind::Interrupted if self.waits < MAX_WAITS => {
                self.waits += 1;
                Ok(())
            }
            _ => Err(error),
        }
    }
}

impl<'c> Read for LimitedStream<'c> {
    fn read(&mut self, buf: &mut [u8]) -> io::Result<usize> {
        for _ in 0..MAX_WAITS {
            match read_once(self.stream, buf) {
                Ok(count) => return Ok(count),
                Err(error) => self.wait_past(error)?,
            }
        }
        Err(ErrorKind::TimedOut.into())
    }
}

impl<'c> Write for LimitedStream<'c> {
    fn write(&mut self, text: &[u8]) -> io::Result<usize> {
        for _ in 0..MAX_WAITS {
            match write_once(self.stream, text) {
                Ok(count) => return Ok(count),
                Err(error) => self.wait_past(error)?,
            }
        }
        Err(ErrorKind::TimedOut.into())
    }

    fn flush(&mut self) -> io::Result<()> {
        Ok(())
    }
}

/// Reads once.
fn read_once(stream: &AnyStream, buf: &mut [u8]) -> io::Result<usize>
    ensures bound { ReadsAtMost result buf.new }
{
    match stream {
        AnyStream::Tcp(stream) => {
            let mut stream = stream;
            stream.read(buf)
        }
        AnyStream::Local(stream) => {
            let mut stream = stream;
            stream.read(buf)
        }
    }
}

/// Writes once.
fn write_once(stream: &AnyStream, text: &[u8]) -> io::Result<usize>
    ensures bound { WritesAtMost result text.now }
{
    match stream {
        AnyStream::Tcp(stream) => {
            let mut stream = stream;
            stream.write(text)
        }
        AnyStream::Local(stream) => {
            let mut stream = stream;
            stream.write(text)
        }
    }
}
