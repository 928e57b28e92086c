//! Connections over TCP and unix sockets.

ghost use Rattle.std.specs.Prelude.{◌≡◌, []};

use crate::any_listener::AnyStream;
use crate::lasting::LastingStream;
use crate::limits::LOOK_MILLISECONDS;
use crate::parked::ParkedConnections;
use crate::paused::Paused;
use crate::written::Text;
use std::io::{self, Read, Write};
use std::net::{IpAddr, TcpStream};
use std::os::unix::net::UnixStream;
use std::sync::{Arc, Wait};
use std::time::Duration;

/// A connection to a client.
pub trait Connection {
    ghost use Rattle.std.specs.Prelude.{Some};
    ghost use Rattle.std.specs.Io.{ReadsAtMost, WritesAtMost};
    ghost use Rattle.std.specs.Io.KnownBytes.{WriteAppends};

    /// Returns the address of the client. `None` if it has none, or isn't known.
    fn client(&self) -> Option<IpAddr>;

    /// Sets a timeout of `LOOK_MILLISECONDS` on reads and writes, and has each write sent at once.
    fn limit(&self) -> io::Result<()>;

    /// Reads once.
    fn receive(&self, buf: &mut [u8]) -> io::Result<usize>
        ensures bound { ReadsAtMost result buf.new };

    /// Writes once, and appends the bytes that the connection took to `written`.
    fn send(&self, text: &[u8], written: &mut Text) -> io::Result<usize>
        ensures bound { WritesAtMost result text.now }
        ensures bytes { WriteAppends (Some written.old.bytes) (Some written.new.bytes) result text.now };

    /// Returns the place where the connection can wait for its client without a worker.
    fn place(&self) -> Option<Arc<ParkedConnections>> {
        None
    }

    /// Takes what is left of the connection's conversation, if it was paused.
    fn take_paused(&mut self) -> Option<Paused> {
        None
    }

    /// Has the connection wait for its client until `until`, if it can. Otherwise closes it.
    fn pause<R: Wait>(self, rt: &R, paused: Paused, until: Duration);

    /// Converts the connection to the type that workers take.
    fn into_lasting(self) -> LastingStream;
}

impl Connection for TcpStream {
    fn client(&self) -> Option<IpAddr> {
        Some(self.peer_addr().ok()?.ip())
    }

    fn limit(&self) -> io::Result<()> {
        let look = Duration::from_millis(LOOK_MILLISECONDS);
        self.set_read_timeout(Some(look))?;
        self.set_write_timeout(Some(look))?;
        self.set_nodelay(true)
    }

    fn receive(&self, buf: &mut [u8]) -> io::Result<usize> {
        let mut stream = self;
        stream.read(buf)
    }

    fn send(&self, text: &[u8], written: &mut Text) -> io::Result<usize> {
        let mut stream = self;
        let count = stream.write(text)?;
        written.note(&text[..count]);
        Ok(count)
    }

    fn pause<R: Wait>(self, _rt: &R, _paused: Paused, _until: Duration) {}

    fn into_lasting(self) -> LastingStream {
        LastingStream::new(AnyStream::Tcp(self), None)
    }
}

impl Connection for UnixStream {
    fn client(&self) -> Option<IpAddr> {
        None
    }

    fn limit(&self) -> io::Result<()> {
        let look = Duration::from_millis(LOOK_MILLISECONDS);
        self.set_read_timeout(Some(look))?;
        self.set_write_timeout(Some(look))
    }

    fn receive(&self, buf: &mut [u8]) -> io::Result<usize> {
        let mut stream = self;
        stream.read(buf)
    }

    fn send(&self, text: &[u8], written: &mut Text) -> io::Result<usize> {
        let mut stream = self;
        let count = stream.write(text)?;
        written.note(&text[..count]);
        Ok(count)
    }

    fn pause<R: Wait>(self, _rt: &R, _paused: Paused, _until: Duration) {}

    fn into_lasting(self) -> LastingStream {
        LastingStream::new(AnyStream::Local(self), None)
    }
}

/// A reader and a writer over a borrowed connection. For proofs, it keeps what it has written.
#[derive(Drop)]
pub(crate) struct LentConnection<'c, C: Connection> {
    connection: &'c C,
    pub(crate) written: Text,
}

impl<'c, C: Connection> LentConnection<'c, C> {
    /// Wraps a borrowed connection. Nothing has been written yet.
    pub(crate) fn of(connection: &'c C) -> LentConnection<'c, C>
        ensures written { result.written.bytes ≡ [] }
    {
        LentConnection {
            connection,
            written: Text::new(),
        }
    }
}

impl<'c, C: Connection> Read for LentConnection<'c, C> {
    fn read(&mut self, buf: &mut [u8]) -> io::Result<usize> {
        self.connection.receive(buf)
    }
}

impl<'c, C: Connection> Write for LentConnection<'c, C> {
    ghost use Rattle.std.specs.Prelude.{Some};

    // The bytes that the connection took.
    ghost contents = { λ c. Some c.written.bytes };

    fn write(&mut self, text: &[u8]) -> io::Result<usize> {
        self.connection.send(text, &mut self.written)
    }

    fn flush(&mut self) -> io::Result<()> {
        Ok(())
    }
}
