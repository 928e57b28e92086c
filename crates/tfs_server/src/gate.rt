//! The gates of a server's workers. They compare the folder before a change is acknowledged, raise
//! the position in the file of the least position, end a run whose journal has grown by its bound,
//! and end a server that can't write its journal.

ghost use Rattle.std.specs.Prelude.{◌≡◌};

use crate::moments::micros;
use crate::watch::Watch;
use std::sync::{Arc, Mutex, MutexGuard, Wait};
use tfs_durable::{Durable, FileDevice};
use tfs_files::{PositionFile, ServedJournal};
use tfs_metrics::{Journal, Kind, Meter};
use tfs_serve::{Gate, Heard};
use tfs_table::{Call, Refusal, Reply};

/// A gate that admits every connection until conversations are to end. It does nothing more once
/// nothing is to be written to any client.
///
/// It hears of a reply once the journal of the reply is durable. Before an accepted change is
/// acknowledged, the folder, its journal and its lock file are compared with the opened ones; one
/// comparison may serve all changes of a sync.
///
/// The gate raises the least position with each accepted change, without a sync. If the file can't
/// be written, its position lags. It counts the answers, if there is a meter.
#[derive(Drop)]
pub(crate) struct Watching<'g, 'w, R: AllocGlobal + Wait> {
    pub(crate) rt: &'g R,
    pub(crate) watch: &'g Watch<'w>,
    pub(crate) durable: Arc<Durable<FileDevice>>,
    pub(crate) journal: Arc<ServedJournal>,
    pub(crate) least: &'g Mutex<Option<PositionFile>>,
    pub(crate) serves_reads: bool,
    pub(crate) meter: Option<&'g Meter>,
    /// What the present call asks for, and when it was made, in microseconds.
    pub(crate) begun: Option<(Kind, u64)>,
    /// What it has heard. Only proofs use it.
    pub(crate) heard: Heard,
}

impl<'g, 'w, R: AllocGlobal + Wait> Watching<'g, 'w, R> {
    /// Records the journal after an accepted change, if there is a meter.
    fn measure(&self, position: u64, bytes: u64) {
        if let Some(meter) = self.meter {
            meter.grow(Journal { position, bytes });
        }
    }

    /// Raises the position in the file, if there is one.
    fn raise(&self, position: u64) {
        let mut guard = self.least.lock(self.rt);
        if let Some(file) = &mut *guard {
            let _ = file.raise(self.rt.alloc(), position);
        }
        MutexGuard::unlock(guard);
    }

    /// Counts the reply to the present call, if there is a meter.
    fn count(&mut self, reply: &Reply)
        ensures heard { self.new.heard ≡ self.old.heard }
    {
        if let (Some(meter), Some((kind, since))) = (self.meter, self.begun.take()) {
            let taken = micros(self.watch.host()).saturating_sub(since);
            meter.answer(self.rt, kind, reply, taken);
        }
    }

    /// Acts on a reply, unless nothing is to be written to any client.
    fn heed(&self, reply: &Reply) {
        if self.watch.is_muted() {
            return;
        }
        match reply {
            Reply::Done(position) => {
                let synced = self.durable.synced();
                if !self.watch.holds_after(&self.journal, synced) {
                    return;
                }
                self.raise(*position);
                self.watch.grow(*position, synced);
                self.measure(*position, synced);
            }
            Reply::Refused(Refusal::JournalFault | Refusal::JournalStopped) => {
                self.watch.stop(self.serves_reads);
            }
            Reply::State(_) | Reply::Impact(_) | Reply::Refused(_) => {}
        }
        self.watch.look_between(&self.journal);
    }
}

impl<'g, 'w, R: AllocGlobal + Wait> Gate for Watching<'g, 'w, R> {
    ghost use Rattle.std.specs.Prelude.{Some};
    ghost use Rattle.tfs_serve.specs.Heard.{events_of};

    ghost told = { λ gate. Some (events_of gate.heard) };

    fn admit(&mut self) -> bool {
        self.watch.look_between(&self.journal);
        let admits = !self.watch.is_ended();
        self.heard.record_answer(admits);
        admits
    }

    fn before(&mut self, call: &Call) {
        self.heard.record_call(call);
        if self.meter.is_some() {
            self.begun = Some((Kind::of(call), micros(self.watch.host())));
        }
    }

    fn after(&mut self, reply: &Reply) {
        self.heard.record_reply(reply);
        self.count(reply);
        self.heed(reply);
    }
}
