//! Listeners on a TCP address or a unix socket.

use crate::lasting::LastingStream;
use crate::limits::{LOOK_MILLISECONDS, MAX_WAITING};
use crate::paused::Paused;
use crate::transport::Connection;
use crate::written::Text;
use std::fs::{self, Files, Permissions};
use std::io;
use std::net::{IpAddr, Ipv4Addr, Net, OpenListener, SocketAddr, TcpListener, TcpStream};
use std::os::fd::{AsFd, AsRawFd, OwnedFd, RawFd};
use std::os::unix::fs::PermissionsExt;
use std::os::unix::net::{self, UnixListener, UnixStream};
use std::sync::Wait;
use std::time::Duration;

/// The mode of a socket: its user and group may connect.
const SOCKET_MODE: u32 = 0o660;

/// A listener on a TCP address or a unix socket.
#[derive(Drop)]
pub enum AnyListener {
    Tcp(TcpListener),
    Local(UnixListener),
}

/// A connection over TCP or a unix socket.
#[derive(Drop)]
pub enum AnyStream {
    Tcp(TcpStream),
    Local(UnixStream),
}

impl OpenListener for AnyListener {
    type Stream = AnyStream;

    /// Accepts the next connection. A client of a unix socket has no network address; it gets the
    /// unspecified one, 0.0.0.0:0.
    fn accept(&self) -> io::Result<(AnyStream, SocketAddr)> {
        match self {
            AnyListener::Tcp(listener) => {
                let (stream, address) = listener.accept()?;
                Ok((AnyStream::Tcp(stream), address))
            }
            AnyListener::Local(listener) => {
                let (stream, _) = listener.accept()?;
                Ok((AnyStream::Local(stream), unspecified()))
            }
        }
    }
}

impl AnyListener {
    /// Returns another handle of the listener.
    pub(crate) fn another_handle(&self) -> io::Result<AnyListener> {
        match self {
            AnyListener::Tcp(listener) => Ok(AnyListener::Tcp(listener.try_clone()?)),
            AnyListener::Local(listener) => Ok(AnyListener::Local(listener.try_clone()?)),
        }
    }

    /// Has accept report that no connection waits, instead of waiting for one.
    pub(crate) fn never_wait(&self) -> io::Result<()> {
        match self {
            AnyListener::Tcp(listener) => listener.set_nonblocking(true),
            AnyListener::Local(listener) => listener.set_nonblocking(true),
        }
    }
}

impl AsRawFd for AnyListener {
    fn as_raw_fd(&self) -> RawFd {
        match self {
            AnyListener::Tcp(listener) => listener.as_raw_fd(),
            AnyListener::Local(listener) => listener.as_raw_fd(),
        }
    }
}

impl AsRawFd for AnyStream {
    fn as_raw_fd(&self) -> RawFd {
        match self {
            AnyStream::Tcp(stream) => stream.as_raw_fd(),
            AnyStream::Local(stream) => stream.as_raw_fd(),
        }
    }
}

impl AnyStream {
    /// Sets a timeout on reads.
    pub(crate) fn limit_reads(&self, timeout: Duration) -> io::Result<()> {
        match self {
            AnyStream::Tcp(stream) => stream.set_read_timeout(Some(timeout)),
            AnyStream::Local(stream) => stream.set_read_timeout(Some(timeout)),
        }
    }
}

/// Returns the unspecified address, for a client without a network address.
pub(crate) fn unspecified() -> SocketAddr {
    SocketAddr::new(IpAddr::V4(Ipv4Addr::UNSPECIFIED), 0)
}

impl Connection for AnyStream {
    fn client(&self) -> Option<IpAddr> {
        match self {
            AnyStream::Tcp(stream) => stream.client(),
            AnyStream::Local(stream) => stream.client(),
        }
    }

    fn limit(&self) -> io::Result<()> {
        match self {
            AnyStream::Tcp(stream) => stream.limit(),
            AnyStream::Local(stream) => stream.limit(),
        }
    }

    fn receive(&self, buf: &mut [u8]) -> io::Result<usize> {
        match self {
            AnyStream::Tcp(stream) => stream.receive(buf),
            AnyStream::Local(stream) => stream.receive(buf),
        }
    }

    fn send(&self, text: &[u8], written: &mut Text) -> io::Result<usize> {
        match self {
            AnyStream::Tcp(stream) => stream.send(text, written),
            AnyStream::Local(stream) => stream.send(text, written),
        }
    }

    fn pause<R: Wait>(self, _rt: &R, _paused: Paused, _until: Duration) {}

    fn into_lasting(self) -> LastingStream {
        LastingStream::new(self, None)
    }
}

/// A borrowed listener that returns each connection as a `LastingStream`.
#[derive(Drop)]
pub struct LentListener<'l, L: OpenListener> {
    listener: &'l L,
}

impl<'l, L: OpenListener> LentListener<'l, L> {
    /// Wraps a borrowed listener.
    pub fn of(listener: &'l L) -> LentListener<'l, L> {
        LentListener { listener }
    }
}

impl<'l, L: OpenListener> OpenListener for LentListener<'l, L>
where
    L::Stream: Connection,
{
    type Stream = LastingStream;

    fn accept(&self) -> io::Result<(LastingStream, SocketAddr)> {
        let (stream, address) = self.listener.accept()?;
        Ok((stream.into_lasting(), address))
    }
}

/// Makes a unix socket at a path that its user and group may connect to, and listens on it. A wait
/// for a connection ends after `LOOK_MILLISECONDS`, so that a worker notices when conversations are
/// to end.
pub fn bind_local<R: Files + Net>(rt: &R, path: &str) -> io::Result<UnixListener> {
    let socket = rt.unix_socket()?;
    rt.bind_unix(socket.as_fd(), &net::SocketAddr::from_pathname(path)?)?;
    // Nobody can connect before the socket listens, and by then it has its mode.
    fs::set_permissions(rt, path, Permissions::from_mode(SOCKET_MODE))?;
    listen_at(socket)
}

/// Listens on a socket.
fn listen_at(socket: OwnedFd) -> io::Result<UnixListener> {
    if libc::net::listen(socket.as_raw_fd(), MAX_WAITING) != 0 {
        return Err(io::Error::from(io::ErrorKind::Other));
    }
    // The option belongs to the socket, but the listener's type can't set it.
    let socket = UnixStream::from(socket);
    socket.set_read_timeout(Some(Duration::from_millis(LOOK_MILLISECONDS)))?;
    Ok(UnixListener::from(OwnedFd::from(socket)))
}
