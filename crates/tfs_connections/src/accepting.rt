//! Accepting connections from a listener, and handling its errors.

ghost use Rattle.std.specs.Prelude.{◌≡◌, Some, None, IfOk, IfErr};
ghost use Rattle.tfs_connections.specs.Accepting.{HasPassed, IsFinal, error_of, remedy_for, remedy_by_number};

use crate::limits::{LOOK_MILLISECONDS, MAX_WAITING};
use crate::load::Load;
use std::fmt::Formatter;
use std::io::ErrorKind;
use std::net::{OpenListener, TcpListener, TcpStream};
use std::os::fd::{AsRawFd, OwnedFd};
use std::sync::Wait;
use std::sync::atomic::{AtomicBool, Ordering};
use std::time::{Clock, Duration};
use std::{fmt, io, thread};
use thiserror::Error;

/// The pause of a worker, in milliseconds, before it accepts again if the system lacks descriptors
/// or memory.
pub const PAUSE_MILLISECONDS: u64 = 50;

/// The kind of an error of accept, and the system's number for it.
#[derive(Clone, Copy, Debug, PartialEq, Eq)]
pub struct AcceptError {
    pub kind: ErrorKind,
    pub number: Option<i32>,
}

impl fmt::Display for AcceptError {
    fn fmt<W: fmt::Write>(&self, f: &mut Formatter<W>) -> fmt::Result {
        match self.number {
            Some(number) => write!(f, "{} (os error {number})", self.kind),
            None => write!(f, "{}", self.kind),
        }
    }
}

/// The error of a listener that can't accept connections any more.
#[derive(Clone, Copy, Debug, PartialEq, Eq, Error)]
#[error("no connection could be taken: {error}")]
pub struct AcceptFault {
    error: AcceptError,
}

impl AcceptFault {
    /// Returns the error that the listener reported.
    pub fn error(&self) -> AcceptError
        ensures value { result ≡ error_of self.now }
    {
        self.error
    }
}

/// What to do after an error of accept.
#[derive(Clone, Copy, Debug, PartialEq, Eq)]
pub enum Remedy {
    /// Accept again: the error concerned one connection, or is transient.
    Again,
    /// Accept again after a pause: descriptors or memory are lacking.
    Pause,
    /// Give up: the listener is unusable.
    End,
}

/// Numbers of errors that the network reported for one connection (errno(3) of Linux): ENONET,
/// EPROTO, ENOPROTOOPT, EOPNOTSUPP, EHOSTDOWN.
const NUMBERS_OF_A_CONNECTION: [i32; 5] = [64, 71, 92, 95, 112];

/// Numbers of errors for lack of descriptors or memory: ENFILE, EMFILE, ENOBUFS.
const NUMBERS_OF_LACK: [i32; 3] = [23, 24, 105];

/// Returns what to do after an error of accept (accept(2) of Linux), by its kind or, if the kind
/// doesn't decide it, by the system's number.
pub fn remedy_of(kind: ErrorKind, number: Option<i32>) -> Remedy
    ensures remedy { result ≡ remedy_for kind number }
{
    match kind {
        ErrorKind::ConnectionAborted
        | ErrorKind::Interrupted
        | ErrorKind::WouldBlock
        | ErrorKind::PermissionDenied
        | ErrorKind::NetworkDown
        | ErrorKind::NetworkUnreachable
        | ErrorKind::HostUnreachable => Remedy::Again,
        ErrorKind::OutOfMemory => Remedy::Pause,
        _ => remedy_by_number(number),
    }
}

/// Returns what to do after an error whose kind doesn't decide it.
fn remedy_by_number(number: Option<i32>) -> Remedy
    ensures remedy { result ≡ remedy_by_number number }
{
    let Some(number) = number else {
        return Remedy::End;
    };
    if NUMBERS_OF_A_CONNECTION.contains(&number) {
        return Remedy::Again;
    }
    if NUMBERS_OF_LACK.contains(&number) {
        return Remedy::Pause;
    }
    Remedy::End
}

/// A source of connections.
pub trait Listener {
    ghost use Rattle.std.specs.Prelude.{Option};
    ghost use Rattle.tfs_connections.specs.declared.accepting.AcceptError.{AcceptError};

    type Stream: Drop;

    // The last error that the listener reported.
    ghost told: { Self → Option AcceptError };

    /// Waits for the next connection. May also return with an error after a while without one.
    fn accept(&mut self) -> Result<Self::Stream, AcceptError>
        ensures told { IfErr result (λ error. told self.new ≡ Some error) };
}

/// A borrowed listener of the system, and the last error that it reported.
#[derive(Drop)]
pub struct Listening<'l, L: OpenListener> {
    listener: &'l L,
    error: Option<AcceptError>,
}

impl<'l, L: OpenListener> Listening<'l, L> {
    /// Wraps a listener that has reported no error yet.
    pub fn new(listener: &'l L) -> Listening<'l, L> {
        Listening {
            listener,
            error: None,
        }
    }
}

impl<'l, L: OpenListener> Listener for Listening<'l, L> {
    type Stream = L::Stream;

    ghost told = { λ l. l.error };

    fn accept(&mut self) -> Result<L::Stream, AcceptError> {
        match self.listener.accept() {
            Ok((stream, _)) => Ok(stream),
            Err(error) => {
                let error = AcceptError {
                    kind: error.kind(),
                    number: error.raw_os_error(),
                };
                self.error = Some(error);
                Err(error)
            }
        }
    }
}

/// Sets a timeout of `LOOK_MILLISECONDS` on the waits of a listener, so that a waiting worker
/// notices when conversations are to end. Without the timeout it notices at the next connection.
pub fn limit_waits(listener: TcpListener) -> io::Result<TcpListener> {
    let_wait(&listener);
    // The option belongs to the socket, but the listener's type can't set it.
    let socket = TcpStream::from(OwnedFd::from(listener));
    socket.set_read_timeout(Some(Duration::from_millis(LOOK_MILLISECONDS)))?;
    Ok(TcpListener::from(OwnedFd::from(socket)))
}

/// Sets the backlog of a listener to `MAX_WAITING` connections. If the system refuses, the backlog
/// stays as it is.
pub fn let_wait(listener: &TcpListener) {
    // Listening again changes only the backlog.
    let _ = libc::net::listen(listener.as_raw_fd(), MAX_WAITING);
}

/// Waits for the next connection, and counts the worker as free meanwhile. Returns `None` if
/// conversations are to end, and an error if the listener has reported one after which it is
/// unusable.
pub fn take_connection<L: Listener, R: Wait + Clock>(
    rt: &R,
    listener: &mut L,
    ended: &AtomicBool,
    load: &Load,
) -> Result<Option<L::Stream>, AcceptFault>
    ensures told { IfErr result (λ fault. L.told listener.new ≡ Some (error_of fault)) }
    ensures ends { IfErr result (λ fault. IsFinal (error_of fault)) }
    ensures none { IfOk result (λ next. next ≡ None → HasPassed (L.told listener.new)) }
{
    load.begin_wait();
    let next = accept_next(rt, listener, ended);
    load.end_wait();
    next
}

/// Waits for the next connection. Returns `None` if conversations are to end before there is one.
fn accept_next<L: Listener, R: Wait + Clock>(
    rt: &R,
    listener: &mut L,
    ended: &AtomicBool,
) -> Result<Option<L::Stream>, AcceptFault>
    ensures told { IfErr result (λ fault. L.told listener.new ≡ Some (error_of fault)) }
    ensures ends { IfErr result (λ fault. IsFinal (error_of fault)) }
    ensures none { IfOk result (λ next. next ≡ None → HasPassed (L.told listener.new)) }
{
    for _ in rt.forever() {
        match listener.accept() {
            Ok(stream) => return Ok(Some(stream)),
            Err(error) => wait_past(rt, error)?,
        }
        if ended.load(Ordering::SeqCst) {
            return Ok(None);
        }
    }
    unreachable!()
}

/// Waits until accept can be retried after a transient error. Returns an error after any other one.
fn wait_past<R: Wait + Clock>(rt: &R, error: AcceptError) -> Result<(), AcceptFault>
    ensures ok { IfOk result (λ _. HasPassed (Some error)) }
    ensures told { IfErr result (λ fault. error ≡ error_of fault) }
    ensures ends { IfErr result (λ fault. IsFinal (error_of fault)) }
{
    match remedy_of(error.kind, error.number) {
        Remedy::Again => Ok(()),
        Remedy::Pause => {
            thread::sleep(rt, Duration::from_millis(PAUSE_MILLISECONDS));
            Ok(())
        }
        Remedy::End => Err(AcceptFault { error }),
    }
}
