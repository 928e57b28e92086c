//! Connections that outlast a turn of a worker, and a run.

use crate::any_listener::AnyStream;
use crate::limits::{LOOK_MILLISECONDS, TURN_WAIT_MILLISECONDS};
use crate::parked::ParkedConnections;
use crate::paused::Paused;
use crate::transport::Connection;
use crate::written::Text;
use std::io;
use std::net::IpAddr;
use std::sync::{Arc, Wait};
use std::time::Duration;

/// A connection that waits for its client without a worker. Without a place for that, it is closed
/// at the end of its only turn.
#[derive(Drop)]
pub struct LastingStream {
    stream: AnyStream,
    paused: Option<Paused>,
    place: Option<Arc<ParkedConnections>>,
    /// Whether its timeouts are set.
    is_limited: bool,
}

impl LastingStream {
    /// Creates a connection whose conversation has not begun.
    pub fn new(stream: AnyStream, place: Option<Arc<ParkedConnections>>) -> LastingStream {
        LastingStream {
            stream,
            paused: None,
            place,
            is_limited: false,
        }
    }

    /// Creates a connection whose conversation was paused.
    pub(crate) fn resumed(
        stream: AnyStream,
        paused: Paused,
        place: Option<Arc<ParkedConnections>>,
    ) -> LastingStream {
        LastingStream {
            stream,
            paused: Some(paused),
            place,
            is_limited: true,
        }
    }
}

impl Connection for LastingStream {
    fn client(&self) -> Option<IpAddr> {
        self.stream.client()
    }

    fn limit(&self) -> io::Result<()> {
        if self.is_limited {
            return Ok(());
        }
        self.stream.limit()?;
        if self.place.is_some() {
            self.stream
                .limit_reads(Duration::from_millis(TURN_WAIT_MILLISECONDS))?;
        }
        Ok(())
    }

    fn receive(&self, buf: &mut [u8]) -> io::Result<usize> {
        self.stream.receive(buf)
    }

    fn send(&self, text: &[u8], written: &mut Text) -> io::Result<usize> {
        self.stream.send(text, written)
    }

    fn place(&self) -> Option<Arc<ParkedConnections>> {
        self.place.as_ref()?.clone().ok()
    }

    fn take_paused(&mut self) -> Option<Paused> {
        self.paused.take()
    }

    fn pause<R: Wait>(self, rt: &R, paused: Paused, until: Duration) {
        let LastingStream { stream, place, .. } = self;
        if let Some(place) = place {
            place.park(rt, stream, paused, until);
        }
    }

    fn into_lasting(self) -> LastingStream {
        self
    }
}
