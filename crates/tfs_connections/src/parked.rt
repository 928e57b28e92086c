//! Connections that wait for their clients without a worker: between two requests, or within one
//! that comes slowly.

use crate::any_listener::{AnyListener, AnyStream, unspecified};
use crate::lasting::LastingStream;
use crate::limits::{MAX_PARKED, SPARE_DESCRIPTORS, SWEEP_MILLISECONDS};
use crate::paused::Paused;
use crate::waits::{Ready, Waits};
use slab::Slab;
use std::alloc::Global;
use std::io;
use std::io::ErrorKind;
use std::net::{Net, SocketAddr};
use std::os::fd::AsRawFd;
use std::sync::atomic::{AtomicBool, AtomicU64, Ordering};
use std::sync::{Arc, Mutex, MutexGuard, Wait};
use std::time::{Clock, Duration};

/// A connection that waits for its client.
#[derive(Drop)]
struct Parked {
    stream: AnyStream,
    paused: Paused,
    /// When it is closed if nothing has come.
    until: Duration,
}

/// The connections of a listener that wait for their clients. One worker at a time waits for all of
/// them and for the listener, and takes the first that is ready.
#[derive(Drop)]
pub struct ParkedConnections {
    listener: AnyListener,
    waits: Mutex<Waits>,
    parked: Mutex<Slab<Parked>>,
    most: usize,
    registry: mio::Registry,
    /// The number of clients that were ready, and had no worker, when this was last counted.
    crowd: AtomicU64,
}

impl ParkedConnections {
    /// Creates the place for the connections of a listener, of which none waits. From then on the
    /// listener's own accept never waits.
    ///
    /// # Errors
    ///
    /// Returns the error of the system if it has no descriptor or memory for it; nothing changes then.
    pub fn beside<N: Net>(
        net: &N,
        alloc: Global,
        listener: &AnyListener,
    ) -> io::Result<Arc<ParkedConnections>> {
        let listener = listener.another_handle()?;
        let (waits, registry) = Waits::beside(net, alloc, &listener)?;
        let parked = ParkedConnections {
            listener,
            waits: Mutex::new(waits),
            parked: Mutex::new(Slab::new(alloc)),
            most: most_parked(),
            registry,
            crowd: AtomicU64::new(0),
        };
        let Ok(parked) = Arc::new(alloc, parked) else {
            return Err(io::Error::from(ErrorKind::OutOfMemory));
        };
        parked.listener.never_wait()?;
        Ok(parked)
    }

    /// Has a connection wait for its client until `until`. If too many wait, closes the one between
    /// two requests that has waited longest, or else this one. If the system refuses, closes it.
    pub(crate) fn park<R: Wait>(&self, rt: &R, stream: AnyStream, paused: Paused, until: Duration) {
        let mut parked = self.parked.lock(rt);
        if self.most <= parked.len() {
            if let Some(key) = longest_idle(&parked) {
                let _ = parked.try_remove(key);
            }
        }
        if parked.len() < self.most {
            let waiting = Parked {
                stream,
                paused,
                until,
            };
            self.insert(&mut parked, waiting);
        }
        MutexGuard::unlock(parked);
    }

    /// Has a connection wait, if the system doesn't refuse.
    fn insert(&self, parked: &mut Slab<Parked>, waiting: Parked) {
        let descriptor = waiting.stream.as_raw_fd();
        let Ok(key) = parked.insert(waiting) else {
            return;
        };
        if Waits::register(&self.registry, descriptor, key).is_err() {
            let _ = parked.try_remove(key);
        }
    }

    /// Waits until a connection is readable or the listener has a new one, and returns it. While
    /// another worker waits for that, waits for its turn.
    ///
    /// # Errors
    ///
    /// Returns the error of the listener or of the system; `WouldBlock` if nothing came within
    /// `LOOK_MILLISECONDS`, or if conversations are to end.
    pub fn next<R: Wait + Clock>(
        this: &Arc<ParkedConnections>,
        rt: &R,
        ended: &AtomicBool,
    ) -> io::Result<(LastingStream, SocketAddr)> {
        let mut waits = this.waits.lock(rt);
        let next = if ended.load(Ordering::SeqCst) {
            Err(io::Error::from(ErrorKind::WouldBlock))
        } else {
            next_of(this, rt, &mut waits)
        };
        this.crowd.store(waits.len(), Ordering::SeqCst);
        MutexGuard::unlock(waits);
        next
    }

    /// Returns how many clients are ready and have no worker, for one whose client makes it wait.
    pub(crate) fn crowd(&self) -> u64 {
        if let Some(mut waits) = self.waits.try_lock() {
            // What can't be asked now is asked by the next wait.
            let _ = waits.gather(&self.listener, Duration::ZERO);
            self.crowd.store(waits.len(), Ordering::SeqCst);
            MutexGuard::unlock(waits);
        }
        self.crowd.load(Ordering::SeqCst)
    }

    /// Closes the connections whose time is over, if it was not done just now.
    fn sweep<R: Wait + Clock>(&self, rt: &R, waits: &mut Waits) {
        let Ok(now) = rt.monotonic() else {
            return;
        };
        if now.saturating_sub(waits.swept) < Duration::from_millis(SWEEP_MILLISECONDS) {
            return;
        }
        waits.swept = now;
        let mut parked = self.parked.lock(rt);
        parked.retain(|_, waiting| now <= waiting.until);
        MutexGuard::unlock(parked);
    }
}

/// Returns the next connection of what is ready, or else waits once.
fn next_of<R: Wait + Clock>(
    this: &Arc<ParkedConnections>,
    rt: &R,
    waits: &mut Waits,
) -> io::Result<(LastingStream, SocketAddr)> {
    if waits.is_empty() {
        waits.wait(&this.listener)?;
        this.sweep(rt, waits);
    }
    for _ in 0..MAX_PARKED {
        match waits.pop() {
            Some(Ready::New(stream, address)) => {
                return Ok((LastingStream::new(stream, this.clone().ok()), address));
            }
            Some(Ready::Parked(key)) => {
                if let Some(stream) = take(this, rt, key) {
                    return Ok((stream, unspecified()));
                }
            }
            None => break,
        }
    }
    Err(io::Error::from(ErrorKind::WouldBlock))
}

/// Takes a connection that is ready, if it still waits.
fn take<R: Wait>(this: &Arc<ParkedConnections>, rt: &R, key: usize) -> Option<LastingStream> {
    let mut parked = this.parked.lock(rt);
    let taken = parked.try_remove(key);
    MutexGuard::unlock(parked);
    let Parked { stream, paused, .. } = taken?;
    // An event that comes nevertheless finds no connection, or another one, which then waits on.
    let _ = Waits::deregister(&this.registry, stream.as_raw_fd());
    Some(LastingStream::resumed(stream, paused, this.clone().ok()))
}

/// Returns the key of the connection between two requests whose time is over first, if there is one.
fn longest_idle(parked: &Slab<Parked>) -> Option<usize> {
    let mut longest: Option<(usize, Duration)> = None;
    for (key, waiting) in parked.iter() {
        if let Paused::Within(_, _) = waiting.paused {
            continue;
        }
        match longest {
            Some((_, until)) if until <= waiting.until => (),
            _ => longest = Some((key, waiting.until)),
        }
    }
    longest.map(|(key, _)| key)
}

/// Returns how many connections may wait: `MAX_PARKED`, or fewer if the process may have fewer
/// descriptors, of which `SPARE_DESCRIPTORS` are left to others.
fn most_parked() -> usize {
    match u64::try_from(libc::sysconf(libc::_SC_OPEN_MAX)) {
        Ok(most) => most.saturating_sub(SPARE_DESCRIPTORS).min(MAX_PARKED) as usize,
        // There is no limit.
        Err(_) => MAX_PARKED as usize,
    }
}
