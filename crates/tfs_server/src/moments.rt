//! Moments in time, in milliseconds.

use std::sync::atomic::{AtomicU64, Ordering};
use std::time::Clock;

/// Returns the milliseconds since a start that is fixed while the program runs, or 0 if the clock
/// fails.
pub(crate) fn now(rt: &impl Clock) -> u64 {
    match rt.monotonic() {
        Ok(now) => u64::try_from(now.as_millis()).unwrap_or(u64::MAX),
        Err(_) => 0,
    }
}

/// Returns the microseconds since a start that is fixed while the program runs, or 0 if the clock
/// fails.
pub(crate) fn micros(rt: &impl Clock) -> u64 {
    match rt.monotonic() {
        Ok(now) => u64::try_from(now.as_micros()).unwrap_or(u64::MAX),
        Err(_) => 0,
    }
}

/// A moment that threads share.
#[derive(Drop)]
pub(crate) struct Moment(AtomicU64);

impl Moment {
    /// Makes a moment at this many milliseconds.
    pub(crate) fn new(at: u64) -> Moment {
        Moment(AtomicU64::new(at))
    }

    /// Sets the moment.
    pub(crate) fn set(&self, at: u64) {
        self.0.store(at, Ordering::SeqCst);
    }

    /// Returns true if the moment has come.
    pub(crate) fn has_come(&self, now: u64) -> bool {
        self.0.load(Ordering::SeqCst) <= now
    }

    /// Returns how many milliseconds have passed since the moment.
    pub(crate) fn ago(&self, now: u64) -> u64 {
        now.saturating_sub(self.0.load(Ordering::SeqCst))
    }
}
