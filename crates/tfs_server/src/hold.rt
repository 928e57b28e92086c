//! The hold of a server's replies: they wait until the journal is synced.

ghost use Rattle.std.specs.Prelude.{◌≡◌, true, is_ok};
ghost use Rattle.tfs_durable.specs.Counts.{Covers};
ghost use Rattle.tfs_serve.specs.Hold.{IsDurable};

use crate::watch::Watch;
use std::sync::{Arc, Wait};
use std::time::{Clock, Duration};
use tfs_durable::{BeforeSync, Device, Durable, FileDevice, Nothing, SyncFault};
use tfs_files::JournalSink;
use tfs_metrics::Meter;
use tfs_serve::{Client, ClientFields, Hold};
use tfs_table::{Refusal, Table};

/// A hold that has the journal's file synced: one sync serves all replies whose bytes were written
/// before it began. Once a sync has failed, nothing more is written to any client, and the server
/// ends. The clients of changes are recorded in the journal's log.
#[derive(Drop)]
pub(crate) struct SyncHold<'h, 'w, R: Wait + Clock> {
    pub(crate) rt: &'h R,
    pub(crate) watch: &'h Watch<'w>,
    pub(crate) durable: Arc<Durable<FileDevice>>,
    pub(crate) meter: Option<&'h Meter>,
}

impl<'h, 'w, R: Wait + Clock> Hold for SyncHold<'h, 'w, R> {
    ghost use Rattle.tfs_durable.specs.Counts.{Covers};

    // The file was synced after at least this many bytes of it were written.
    ghost durable = { Covers ⟦<FileDevice as Device>⟧.synced };

    // What the log's file has is known to tests alone.
    ghost recorded = { λ position number. Unit {0} };

    ghost made = { λ number. Unit {0} };

    fn synced(&self) -> u64 {
        self.durable.synced()
    }

    fn cover(&self, mark: u64) -> bool {
        let log = self.watch.log(self.rt);
        let is_covered = covers(self.rt, &self.durable, mark, self.meter, &log);
        if !is_covered {
            self.watch.mute();
        }
        is_covered
    }

    fn client_fields(&self) -> ClientFields<'_> {
        self.watch.client_fields()
    }

    fn note_refusal(&self, refusal: &Refusal) {
        if let Some(meter) = self.meter {
            meter.refuse(self.rt, refusal);
        }
    }

    fn record(&self, position: u64, client: Client<'_>) -> u64 {
        self.watch.log(self.rt).add(position, client)
    }

    fn finish(&self, number: u64) {
        self.watch.log(self.rt).finish(number);
    }
}

/// Has the journal's file synced until at least this many bytes of it are. Returns false if a sync
/// fails.
fn covers<R: Wait + Clock, B: BeforeSync>(
    rt: &R,
    durable: &Durable<FileDevice>,
    mark: u64,
    meter: Option<&Meter>,
    before: &B,
) -> bool
    ensures durable { result ≡ true → Covers ⟦<FileDevice as Device>⟧.synced mark }
{
    durable.has_written(mark) && is_counted(rt, meter, durable.cover_after(rt, mark, before))
}

/// Returns true if a sync hasn't failed, and counts it if the calling thread ran it.
fn is_counted<R: Wait>(
    rt: &R,
    meter: Option<&Meter>,
    outcome: Result<Option<Duration>, SyncFault>,
) -> bool
    ensures value { result ≡ is_ok outcome }
{
    match outcome {
        Ok(taken) => {
            if let (Some(meter), Some(taken)) = (meter, taken) {
                meter.sync(rt, taken);
            }
            true
        }
        Err(SyncFault) => false,
    }
}

/// Has the journal's file synced until all bytes of the table's journal are. Returns false if a sync
/// fails.
pub(crate) fn is_synced<R: Wait + Clock>(
    rt: &R,
    table: &Table<JournalSink>,
    meter: Option<&Meter>,
) -> bool
    ensures durable { result ≡ true → IsDurable (Covers ⟦<FileDevice as Device>⟧.synced) table.now.journal }
{
    covers(rt, table.sink().durable(), table.mark(), meter, &Nothing)
}
