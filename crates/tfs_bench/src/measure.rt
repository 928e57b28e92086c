//! The measurement of a call.

use anyhow::Result;
use std::time::{Clock, Duration, Instant};

/// How long a call took, and how many things it gave.
#[derive(Clone, Copy)]
pub(crate) struct Measured {
    pub time: Duration,
    pub count: u64,
}

impl Measured {
    /// Returns a measurement with this time and count.
    pub(crate) fn new(time: Duration, count: usize) -> Measured {
        Measured {
            time,
            count: count as u64,
        }
    }

    /// Returns a measurement from a start until now, with this count.
    pub(crate) fn since(rt: &impl Clock, start: Instant, count: usize) -> Result<Measured> {
        Ok(Measured::new(start.elapsed(rt)?, count))
    }

    /// Prints a count; no time is measured.
    pub(crate) fn print_count(rt: &impl Print, what: &str, count: usize) -> Result<Measured> {
        println!(rt; "{what} {count}")?;
        Ok(Measured::new(Duration::ZERO, count))
    }
}
