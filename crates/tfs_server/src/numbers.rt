//! Serving the numbers of a server.

use http_server::{Config, Connection as Exchange};
use std::hash::RandomState;
use std::io::{self, Read, Write};
use std::sync::Wait;
use std::sync::atomic::AtomicBool;
use std::time::Clock;
use tfs_connections::{AnyListener, AnyStream, Connection, Listening, Load, take_connection};
use tfs_metrics::{Meter, Scrape};

/// The number of reads and writes after which a connection is closed, so that a slow client doesn't
/// keep others waiting.
const MAX_TURNS: usize = 100;

/// Answers requests for the numbers of a meter, one connection after another, until `ended` is set
/// or the listener fails.
pub fn serve_numbers<R: AllocGlobal + Wait + Clock>(
    rt: &R,
    host: &HostRuntime,
    listener: &AnyListener,
    meter: &Meter,
    ended: &AtomicBool,
) {
    let mut listening = Listening::new(listener);
    let load = Load::new(0);
    let mut scrape = Scrape {
        wait: rt,
        host,
        alloc: rt.alloc(),
        meter,
    };
    for _ in rt.forever() {
        let Ok(Some(stream)) = take_connection(rt, &mut listening, ended, &load) else {
            return;
        };
        let _ = answer(host, &stream, &mut scrape);
    }
}

/// Answers the requests of a connection.
fn answer<W: Wait>(
    host: &HostRuntime,
    stream: &AnyStream,
    scrape: &mut Scrape<'_, W>,
) -> io::Result<()> {
    stream.limit()?;
    let mut exchange = Exchange::new(host.alloc(), RandomState::new(host)?, Config::default());
    match stream {
        AnyStream::Tcp(stream) => take_turns(&mut exchange, scrape, stream, stream),
        AnyStream::Local(stream) => take_turns(&mut exchange, scrape, stream, stream),
    }
}

/// Reads, answers and writes until a connection is done, or `MAX_TURNS` times.
fn take_turns<W: Wait, I: Read + Drop, O: Write + Drop>(
    exchange: &mut Exchange,
    scrape: &mut Scrape<'_, W>,
    mut input: I,
    mut output: O,
) -> io::Result<()> {
    for _ in 0..MAX_TURNS {
        exchange.advance(scrape);
        if exchange.is_done() {
            return Ok(());
        }
        if exchange.wants_write() {
            exchange.write_to(&mut output)?;
        } else {
            exchange.read_from(&mut input)?;
        }
    }
    Ok(())
}
