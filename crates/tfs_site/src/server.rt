//! The server: workers answer the connections of a listener until it fails.

use crate::files::PageFiles;
use crate::reading::Kept;
use crate::site::{Site, Source};
use crate::stream::LimitedStream;
use http_server::{Config, Connection as HttpConnection, serve};
use std::hash::RandomState;
use std::io;
use std::sync::atomic::AtomicBool;
use std::sync::{Mutex, Wait};
use std::thread::{self, Threads};
use std::time::Clock;
use tfs_connections::{
    AcceptFault, AnyListener, AnyStream, Connection, Listening, Load, take_connection,
};

/// The number of connections that are answered at once.
const WORKERS: usize = 8;

/// How to serve a folder's page.
#[derive(Clone, Copy)]
pub struct WebPlan<'a> {
    pub folder: &'a str,
    /// The access file, if users have different rights.
    pub access: Option<&'a str>,
    /// The name of the header field with the user's name.
    pub user_header: &'a str,
    /// Whether the listener is on a TCP address, where only requests for a name of this machine
    /// are answered.
    pub is_local: bool,
}

/// Serves the page of a folder until the listener fails. Returns its fault.
pub fn serve_web<R: Threads + Wait + Clock + Sync>(
    rt: &R,
    host: &HostRuntime,
    listener: &AnyListener,
    files: &PageFiles,
    plan: &WebPlan<'_>,
) -> Option<AcceptFault> {
    let source = Source {
        host,
        folder: plan.folder,
        files,
        access: plan.access,
        user_header: plan.user_header,
        is_local: plan.is_local,
        kept: Mutex::new(Kept::new()),
    };
    let mut faults = [None; WORKERS];
    work(rt, listener, &source, &mut faults);
    first_of(&faults)
}

/// Has each worker answer connections until the listener fails.
fn work<R: Threads + Wait + Clock + Sync>(
    rt: &R,
    listener: &AnyListener,
    source: &Source<'_>,
    faults: &mut [Option<AcceptFault>],
) {
    let ended = AtomicBool::new(false);
    let load = Load::new(WORKERS);
    thread::for_each_mut(
        rt,
        faults,
        WORKERS,
        &|_, fault| {
            let mut listening = Listening::new(listener);
            for _ in rt.forever() {
                match take_connection(rt, &mut listening, &ended, &load) {
                    Ok(Some(stream)) => attend(rt, source, &stream),
                    Ok(None) => {}
                    Err(found) => {
                        *fault = Some(found);
                        return;
                    }
                }
            }
        },
    );
}

/// Returns the first fault.
fn first_of(faults: &[Option<AcceptFault>]) -> Option<AcceptFault> {
    for fault in faults {
        if fault.is_some() {
            return *fault;
        }
    }
    None
}

/// Answers the requests of a connection. An error ends the connection alone.
fn attend<R: Wait>(rt: &R, source: &Source<'_>, stream: &AnyStream) {
    let _ = converse(rt, source, stream);
}

/// Answers the requests of a connection until it ends.
fn converse<R: Wait>(rt: &R, source: &Source<'_>, stream: &AnyStream) -> io::Result<()> {
    stream.limit()?;
    let keys = RandomState::new(source.host)?;
    let mut connection = HttpConnection::new(source.host.alloc(), keys, Config::default());
    let mut site = Site { rt, source };
    let mut reader = LimitedStream::new(stream);
    let mut writer = LimitedStream::new(stream);
    serve(&mut connection, &mut site, &mut reader, &mut writer)
}
