//! How busy the workers of a run are.

use crate::limits::most_slow;
use std::array;
use std::sync::atomic::{AtomicU64, Ordering};

/// The maximal number of slow clients that are told apart. A run has at most so many workers.
const MAX_SLOW: usize = 16;

/// The number of workers, of workers that wait for a connection, and since when workers have slow
/// clients.
#[derive(Drop)]
pub struct Load {
    workers: u64,
    waiting: AtomicU64,
    /// For each slow client, the nanoseconds of the clock at which its request or reply began. Zero
    /// stands for none.
    slow: [AtomicU64; MAX_SLOW],
}

impl Load {
    /// Makes the load of a number of workers that haven't started.
    pub fn new(workers: usize) -> Load {
        Load {
            workers: workers as u64,
            waiting: AtomicU64::new(0),
            slow: array::from_fn(|_| AtomicU64::new(0)),
        }
    }

    /// Records that a worker starts to wait for a connection.
    pub(crate) fn begin_wait(&self) {
        self.waiting.fetch_add(1, Ordering::SeqCst);
    }

    /// Records that a worker has stopped waiting for a connection.
    pub(crate) fn end_wait(&self) {
        self.waiting.fetch_sub(1, Ordering::SeqCst);
    }

    /// Returns true if no worker is free, so that clients may be waiting for one.
    pub(crate) fn is_crowded(&self) -> bool {
        self.waiting.load(Ordering::SeqCst) == 0
    }

    /// Records that a worker has a slow client, whose request or reply began then. Returns its place
    /// among the slow clients, if there is one left.
    pub(crate) fn begin_slow(&self, began: u64) -> Option<usize> {
        for (place, slow) in self.slow.iter().enumerate() {
            let order = Ordering::SeqCst;
            if slow.compare_exchange(0, began.max(1), order, order).is_ok() {
                return Some(place);
            }
        }
        None
    }

    /// Returns true if a worker is to drop its slow client of a place, because no worker is free and
    /// too many clients are slow, of which the older ones are dropped.
    pub(crate) fn leaves_slow(&self, place: usize) -> bool {
        let own = match self.slow.get(place) {
            Some(slow) => slow.load(Ordering::SeqCst),
            None => return false,
        };
        let younger = self.slow.iter().enumerate().filter(|(other, slow)| {
            let began = slow.load(Ordering::SeqCst);
            own < began || own == began && place < *other
        });
        self.is_crowded() && most_slow(self.workers) <= younger.count() as u64
    }

    /// Records that a worker no longer has the slow client of a place.
    pub(crate) fn end_slow(&self, place: usize) {
        if let Some(slow) = self.slow.get(place) {
            slow.store(0, Ordering::SeqCst);
        }
    }
}
