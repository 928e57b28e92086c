//! Serving a folder in runs, with a compaction between two of them.

ghost use Rattle.std.specs.Prelude.{◌≡◌, ◌≤◌, [], Some};
ghost use Rattle.tfs_durable.specs.Counts.{Covers};
ghost use Rattle.tfs_table.specs.Table.{model_of};
ghost use Rattle.tfs_runs.specs.Runs.{EndsOn, HoldsAll};

use crate::fault::end_of;
use crate::folder_runs::FolderRuns;
use crate::notice::Notice;
use crate::watch::Watch;
use std::cell::Cell;
use std::snapshot::Snapshot;
use std::sync::{Arc, Mutex, Wait};
use std::thread::Threads;
use std::time::Clock;
use tfs_durable::{Device, FileDevice};
use tfs_files::{
    CommandFault, DurableJournal, FolderLock, JournalSink, PositionFile, Retention, ServedJournal,
};
use tfs_metrics::{Journal, Meter};
use tfs_runs::{Tally, serve_runs};
use tfs_serve::{AcceptFault, AnyListener, ClientFields, ParkedConnections};
use tfs_table::Table;

/// How much the journal of a run may grow before it is compacted, in bytes and in entries.
#[derive(Clone, Copy)]
pub struct Bounds {
    pub bytes: u64,
    pub entries: u64,
}

/// How to serve a folder.
#[derive(Drop)]
pub struct Plan<'p> {
    /// The folder.
    pub folder: &'p str,
    /// The listener's address, as it is printed.
    pub address: &'p str,
    /// Which retired journals to keep.
    pub keep: Retention,
    /// When to end a run for a compaction.
    pub bounds: Bounds,
    /// The number of workers.
    pub workers: usize,
    /// Whether to answer reads after the journal can't be written any more.
    pub serves_reads: bool,
    /// The fields with which requests name their clients.
    pub client_fields: ClientFields<'p>,
    ghost some: { 1 ≤ workers },
    ghost few: { workers ≤ 16 },
}

/// What a start has made: the listener, whose waits time out; the file of the least position; the
/// folder's newest journal; the table over it; and the meter that counts answers and compactions,
/// if there is one.
#[derive(Drop)]
pub struct StartedFolder<'f> {
    pub listener: AnyListener,
    pub least: Option<PositionFile>,
    pub journal: DurableJournal<'f>,
    pub table: Table<JournalSink>,
    pub meter: Option<&'f Meter>,
}

/// What the runs of a folder leave: the last run's table, the error that ended the runs, and the
/// first error of accept that a worker got from the listener, if any.
#[derive(Drop)]
pub struct Left {
    pub table: Table<JournalSink>,
    pub fault: CommandFault,
    pub accepting: Option<AcceptFault>,
    /// The number of changes that workers reported as accepted. Only proofs use it.
    pub reported: Tally,
}

/// Serves a folder in runs, with a compaction between two of them, until an error ends it. In each
/// run that returned, each worker's gate heard of exactly the worker's calls and replies, in order,
/// and before a byte of a reply was written, the file was synced after the bytes of the journal that
/// the reply was answered over were written.
pub fn serve_folder<R: AllocGlobal + Threads + Wait + Clock + Sync>(
    rt: &R,
    host: &HostRuntime,
    lock: &FolderLock,
    plan: &Plan<'_>,
    begun: StartedFolder<'_>,
) -> Left
    ensures ends { EndsOn (Covers ⟦<FileDevice as Device>⟧.synced) (λ told. told ≡ Some []) (model_of begun.entry.table) result.table.journal 0 result.reported.count }
    ensures holds { HoldsAll begun.entry.table.journal result.table.journal 0 result.reported.count }
{
    let StartedFolder {
        listener,
        least,
        journal: in_place,
        table,
        meter,
    } = begun;
    let Some(journal) = served_journal(host, plan.folder, in_place.number()) else {
        return unread(table);
    };
    let least = Mutex::new(least);
    // Without it, each connection has its worker until it ends.
    let parked = ParkedConnections::beside(host, rt.alloc(), &listener).ok();
    let watch = Watch::new(host, lock, plan, in_place);
    watch.open(rt, in_place, table.base().position());
    measure(meter, table.position(), watch.bytes());
    let mut folder_runs = FolderRuns {
        rt,
        host,
        plan,
        watch: &watch,
        journal,
        in_place,
        least: &least,
        listener: &listener,
        parked: parked.as_ref(),
        notice: Cell::new(Notice::First),
        placed: Snapshot::of(&table),
        meter,
        accepting: None,
        reported: Tally::new(),
    };
    let (table, finish) = serve_runs(rt, rt.alloc(), table, &mut folder_runs);
    let fault = fault_after(lock, &watch, end_of(finish, table.stopped()));
    let FolderRuns {
        accepting,
        reported,
        ..
    } = folder_runs;
    Left {
        table,
        fault,
        accepting,
        reported,
    }
}

/// Records the journal that is served first, if there is a meter.
fn measure(meter: Option<&Meter>, position: u64, bytes: u64) {
    if let Some(meter) = meter {
        meter.grow(Journal { position, bytes });
    }
}

/// Returns the result for a journal that can't be opened: its table, and no reported change.
fn unread(table: Table<JournalSink>) -> Left
    ensures table { result.table ≡ table }
    ensures reported { result.reported.count ≡ 0 }
{
    Left {
        table,
        fault: CommandFault::CannotRead,
        accepting: None,
        reported: Tally::new(),
    }
}

/// Returns the error that ended the runs. A lost lock, and then a failed sync, takes precedence
/// over the error of the last run.
fn fault_after(lock: &FolderLock, watch: &Watch<'_>, last: CommandFault) -> CommandFault {
    if lock.is_lost() {
        CommandFault::Replaced
    } else if watch.is_muted() {
        CommandFault::SyncFault
    } else {
        last
    }
}

/// Returns the folder's journal of a number, or `None` if it can't be opened or memory is refused.
fn served_journal(host: &HostRuntime, folder: &str, number: u64) -> Option<Arc<ServedJournal>> {
    let journal = ServedJournal::identify(host, folder, number).ok()?;
    Arc::new(host.alloc(), journal).ok()
}
