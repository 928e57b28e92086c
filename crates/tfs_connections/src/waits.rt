//! What is ready of a listener and its connections.

use crate::any_listener::{AnyListener, AnyStream};
use crate::limits::{LOOK_MILLISECONDS, MAX_ACCEPTED, MAX_EVENTS};
use mio::unix::SourceFd;
use mio::{Events, Interest, Poll, Registry, Token};
use std::alloc::Global;
use std::collections::VecDeque;
use std::io;
use std::io::ErrorKind;
use std::net::{Net, OpenListener, SocketAddr};
use std::os::fd::{AsRawFd, RawFd};
use std::time::Duration;

/// The token of the listener. Those of connections are their keys.
const LISTENER: Token = Token(usize::MAX);

/// The number of ready connections for which there is always memory.
const MAX_READY: usize = 1_088;

/// A connection that a worker can take.
#[derive(Drop)]
pub(crate) enum Ready {
    /// An accepted one.
    New(AnyStream, SocketAddr),
    /// One that has waited, by its key.
    Parked(usize),
}

/// What is ready, in the order in which it became so, and the system's means to wait for more.
#[derive(Drop)]
pub(crate) struct Waits {
    poll: Poll,
    events: Events,
    ready: VecDeque<Ready>,
    /// Whether the listener's next connection is reported.
    is_armed: bool,
    /// When connections whose time is over were last closed.
    pub(crate) swept: Duration,
}

impl Waits {
    /// Waits for a listener whose accept never waits. Returns the means to register connections, too.
    pub(crate) fn beside<N: Net>(
        net: &N,
        alloc: Global,
        listener: &AnyListener,
    ) -> io::Result<(Waits, Registry)> {
        let poll = Poll::new(net)?;
        let registry = poll.registry().try_clone()?;
        let Ok(events) = Events::with_capacity(alloc, MAX_EVENTS) else {
            return Err(io::Error::from(ErrorKind::OutOfMemory));
        };
        let Ok(ready) = VecDeque::with_capacity(alloc, MAX_READY) else {
            return Err(io::Error::from(ErrorKind::OutOfMemory));
        };
        let descriptor = listener.as_raw_fd();
        registry.register(&mut SourceFd(&descriptor), LISTENER, Interest::READABLE)?;
        let waits = Waits {
            poll,
            events,
            ready,
            is_armed: true,
            swept: Duration::ZERO,
        };
        Ok((waits, registry))
    }

    /// Has a descriptor reported by a key once it is readable.
    pub(crate) fn register(registry: &Registry, descriptor: RawFd, key: usize) -> io::Result<()> {
        registry.register(&mut SourceFd(&descriptor), Token(key), Interest::READABLE)
    }

    /// Has a descriptor reported no more.
    pub(crate) fn deregister(registry: &Registry, descriptor: RawFd) -> io::Result<()> {
        registry.deregister(&mut SourceFd(&descriptor))
    }

    /// Returns the number of connections that are ready.
    pub(crate) fn len(&self) -> u64 {
        self.ready.len() as u64
    }

    /// Returns true if no connection is ready.
    pub(crate) fn is_empty(&self) -> bool {
        self.ready.is_empty()
    }

    /// Takes the connection that became ready first.
    pub(crate) fn pop(&mut self) -> Option<Ready> {
        self.ready.pop_front()
    }

    /// Waits, at most `LOOK_MILLISECONDS`, until a connection is ready.
    ///
    /// # Errors
    ///
    /// Returns the error of the listener or of the system if no connection is ready.
    pub(crate) fn wait(&mut self, listener: &AnyListener) -> io::Result<()> {
        let gathered = self.gather(listener, Duration::from_millis(LOOK_MILLISECONDS));
        if self.is_empty() { gathered } else { Ok(()) }
    }

    /// Waits, at most so long, until something is ready, and appends it. Accepts what the listener
    /// has.
    pub(crate) fn gather(&mut self, listener: &AnyListener, most: Duration) -> io::Result<()> {
        self.arm(listener)?;
        self.poll.poll(&mut self.events, Some(most))?;
        for event in &self.events {
            let token = event.token();
            if token == LISTENER {
                self.is_armed = false;
            } else if self
                .ready
                .push_back(Ready::Parked(usize::from(token)))
                .is_err()
            {
                return Err(io::Error::from(ErrorKind::OutOfMemory));
            }
        }
        if self.is_armed {
            return Ok(());
        }
        self.accept(listener)
    }

    /// Accepts connections of the listener, until it has none. Otherwise the next wait has it
    /// reported again.
    fn accept(&mut self, listener: &AnyListener) -> io::Result<()> {
        for _ in 0..MAX_ACCEPTED {
            match listener.accept() {
                Ok((stream, address)) => {
                    if self.ready.push_back(Ready::New(stream, address)).is_err() {
                        return Err(io::Error::from(ErrorKind::OutOfMemory));
                    }
                }
                Err(error) if error.kind() == ErrorKind::WouldBlock => {
                    self.is_armed = true;
                    return Ok(());
                }
                Err(error) => return Err(error),
            }
        }
        Ok(())
    }

    /// Has the listener's next connection reported, unless it is.
    fn arm(&mut self, listener: &AnyListener) -> io::Result<()> {
        if self.is_armed {
            return Ok(());
        }
        let descriptor = listener.as_raw_fd();
        let registry = self.poll.registry();
        registry.reregister(&mut SourceFd(&descriptor), LISTENER, Interest::READABLE)?;
        self.is_armed = true;
        Ok(())
    }
}
