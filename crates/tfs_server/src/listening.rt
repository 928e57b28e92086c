//! The listener of a folder's runs.

use crate::watch::Watch;
use std::io;
use std::net::{OpenListener, SocketAddr};
use std::sync::{Arc, Wait};
use std::time::Clock;
use tfs_files::ServedJournal;
use tfs_serve::{AnyListener, LastingStream, LentListener, ParkedConnections};

/// A listener that a run borrows. It returns the connections that wait for their clients, too, once
/// these send something. When nothing comes for a while, it checks whether a compaction is due.
#[derive(Drop)]
pub(crate) struct Listening<'l, 'w, R: Wait + Clock> {
    pub(crate) rt: &'l R,
    pub(crate) listener: &'l AnyListener,
    pub(crate) watch: &'l Watch<'w>,
    pub(crate) journal: Arc<ServedJournal>,
    /// None if the system had no room for it: each connection then has its worker until it ends.
    pub(crate) parked: Option<&'l Arc<ParkedConnections>>,
}

impl<'l, 'w, R: Wait + Clock> OpenListener for Listening<'l, 'w, R> {
    type Stream = LastingStream;

    /// Returns the next connection. One that has waited gets the unspecified address, 0.0.0.0:0.
    fn accept(&self) -> io::Result<(LastingStream, SocketAddr)> {
        let next = match self.parked {
            Some(parked) => ParkedConnections::next(parked, self.rt, self.watch.ended()),
            None => LentListener::of(self.listener).accept(),
        };
        if next.is_err() {
            self.watch.look(&self.journal);
        }
        next
    }
}
