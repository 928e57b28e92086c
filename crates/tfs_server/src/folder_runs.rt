//! The files, the listener and the gates of a folder's runs.

ghost use Rattle.std.specs.Prelude.{◌≡◌, ◌<◌, All, [], Some, length, map, IfOk};
ghost use Rattle.tfs_serve.specs.Heard.{events_of};

use crate::fault::{CompactionFault, fault_of, fault_of_opening};
use crate::gate::Watching;
use crate::hold::{SyncHold, is_synced};
use crate::listening::Listening;
use crate::notice::{Compaction, Notice};
use crate::placing::{journal_of, length_of, name_new, remove, sink_of};
use crate::serve::Plan;
use crate::watch::Watch;
use std::alloc::AllocError;
use std::cell::Cell;
use std::snapshot::Snapshot;
use std::sync::atomic::AtomicBool;
use std::sync::{Arc, Mutex, Wait};
use std::time::Clock;
use tfs_durable::{Device, Durable, FileDevice};
use tfs_files::{DurableJournal, JournalSink, PositionFile, ServedJournal};
use tfs_metrics::{Journal, Meter};
use tfs_runs::{NotCompacted, Runs, Tally};
use tfs_serve::{
    AcceptFault, AnyListener, Heard, LastingStream, ParkedConnections, Served, first_fault,
};
use tfs_table::Table;

/// The runs of a folder: what they share, what to report when the next one starts, and the journal
/// in place.
#[derive(Drop)]
pub(crate) struct FolderRuns<'t, 'w, R: AllocGlobal + Wait + Clock> {
    pub(crate) rt: &'t R,
    pub(crate) host: &'t HostRuntime,
    pub(crate) plan: &'w Plan<'w>,
    pub(crate) watch: &'t Watch<'w>,
    pub(crate) journal: Arc<ServedJournal>,
    pub(crate) in_place: DurableJournal<'w>,
    pub(crate) least: &'t Mutex<Option<PositionFile>>,
    pub(crate) listener: &'t AnyListener,
    pub(crate) parked: Option<&'t Arc<ParkedConnections>>,
    pub(crate) notice: Cell<Notice>,
    pub(crate) placed: Snapshot<Table<JournalSink>>,
    pub(crate) meter: Option<&'t Meter>,
    pub(crate) accepting: Option<AcceptFault>,
    pub(crate) reported: Tally,
}

impl<'t, 'w, R: AllocGlobal + Wait + Clock> FolderRuns<'t, 'w, R> {
    /// Returns the number of the next journal.
    fn next_number(&self) -> Result<u64, CompactionFault>
        ensures after { IfOk result (λ number. self.now.in_place.number < number) }
    {
        match self.in_place.number().checked_add(1) {
            Some(number) => Ok(number),
            None => Err(CompactionFault::TooFar),
        }
    }

    /// Counts a compaction for which requests waited this many milliseconds, if the notice reports
    /// one and there is a meter.
    fn measure(&self, notice: &Notice, waited: u64) {
        if let (Notice::Compaction(made), Some(meter)) = (notice, self.meter) {
            meter.compact(self.rt, waited);
            meter.grow(Journal {
                position: made.position,
                bytes: made.after,
            });
        }
    }

    /// Keeps the old journal, because the next one couldn't be made: removes its unfinished file,
    /// and has the next attempt wait.
    fn stay(&self, fault: CompactionFault) {
        self.watch.rest();
        if let Some(meter) = self.meter {
            meter.fail(self.rt);
        }
        if let Ok(number) = self.next_number() {
            let _ = remove(self.host, self.plan.folder, number);
            self.notice.set(Notice::Stayed(number, fault_of(fault)));
        }
    }
}

impl<'t, 'w, R: AllocGlobal + Wait + Clock + Sync> Runs for FolderRuns<'t, 'w, R> {
    ghost use Rattle.std.specs.Prelude.{◌≡◌, ◌≤◌, ◌<◌, ◌+◌, All, [], Some, false, length, map, sum_by, IfOk, OnOk, OnErr, IfSome};
    ghost use Rattle.tfs_durable.specs.Counts.{Covers};
    ghost use Rattle.tfs_runs.specs.declared.runs.NotCompacted.TheVariants.{Failed};
    ghost use Rattle.tfs_serve.specs.Hold.{IsDurable};
    ghost use Rattle.tfs_server.specs.declared.fault.CompactionFault.TheVariants.{Replaced, Unsynced};

    type Gate = Watching<'t, 'w, R>;

    type Sink = JournalSink;

    type Stream = LastingStream;

    type Listener = Listening<'t, 'w, R>;

    type Hold = SyncHold<'t, 'w, R>;

    type Fault = CompactionFault;

    ghost placed = { λ t. t.placed.value.journal };

    ghost reported = { λ t. t.reported.count };

    // A new gate has heard of nothing.
    ghost heard_before = { λ told. told ≡ Some [] };

    fn gates(
        &self,
        table: &Table<JournalSink>,
    ) -> Result<Vec<Watching<'t, 'w, R>>, CompactionFault> {
        match gates_of(self, table.sink().durable()) {
            Ok(gates) => Ok(gates),
            Err(_) => Err(CompactionFault::NoMemory),
        }
    }

    fn hold(&self, table: &Table<JournalSink>) -> Result<SyncHold<'t, 'w, R>, CompactionFault> {
        if !is_synced(self.rt, table, self.meter) {
            self.watch.mute();
            return Err(CompactionFault::Unsynced);
        }
        match table.sink().durable().clone() {
            Ok(durable) => Ok(SyncHold {
                rt: self.rt,
                watch: self.watch,
                durable,
                meter: self.meter,
            }),
            Err(_) => Err(CompactionFault::NoMemory),
        }
    }

    fn listen(&self) -> Result<Listening<'t, 'w, R>, CompactionFault> {
        let waited = self.watch.go_on();
        let notice = self.notice.replace(Notice::Nothing);
        self.measure(&notice, waited);
        if notice.tell(self.host, self.plan, waited).is_err() {
            return Err(CompactionFault::Write);
        }
        match self.journal.clone() {
            Ok(journal) => Ok(Listening {
                rt: self.rt,
                listener: self.listener,
                watch: self.watch,
                journal,
                parked: self.parked,
            }),
            Err(_) => Err(CompactionFault::NoMemory),
        }
    }

    fn ended(&self) -> Option<&AtomicBool> {
        Some(self.watch.ended())
    }

    fn muted(&self) -> Option<&AtomicBool> {
        Some(self.watch.muted())
    }

    fn goes_on(
        &mut self,
        last: &Table<JournalSink>,
        served: &[Served<Watching<'t, 'w, R>>],
    ) -> bool {
        self.accepting = first_fault(served);
        self.reported = self.reported.with(served);
        self.watch.is_ended()
            && !self.watch.is_muted()
            && (self.plan.serves_reads || !last.stopped())
    }

    fn sink(&self) -> Result<JournalSink, CompactionFault> {
        if !self.watch.holds(&self.journal) {
            return Err(CompactionFault::Replaced);
        }
        sink_of(self.host, self.plan.folder, self.next_number()?)
    }

    fn replace(&mut self, next: &Table<JournalSink>) -> Result<(), CompactionFault>
        ensures durable { OnOk result (IsDurable (Covers ⟦<FileDevice as Device>⟧.synced) next.now.journal) }
        ensures placed { OnOk result (self.new.placed.value.journal ≡ next.now.journal) }
        ensures kept { OnErr result (self.new.placed.value.journal ≡ self.old.placed.value.journal) }
        ensures reported { self.new.reported.count ≡ self.old.reported.count }
        ensures newer { OnOk result (self.old.in_place.number < self.new.in_place.number) }
    {
        let (folder, number) = (self.plan.folder, self.next_number()?);
        let journal = journal_of(self.host, folder, number)?;
        if !self.watch.holds(&self.journal) {
            return Err(CompactionFault::Replaced);
        }
        if !is_synced(self.rt, next, self.meter) {
            return Err(CompactionFault::CannotWrite);
        }
        let before = length_of(self.host, folder, self.in_place.number()).unwrap_or(0);
        self.in_place = name_new(self.host, folder, number)?;
        self.placed = Snapshot::of(next);
        self.journal = journal;
        self.watch.open(self.rt, self.in_place, next.position());
        let (position, names) = (next.position(), next.names());
        let after = self.watch.bytes();
        self.notice.set(Notice::Compaction(Compaction {
            number,
            position,
            names,
            before,
            after,
        }));
        Ok(())
    }

    fn goes_on_after(&self, why: &NotCompacted<CompactionFault>) -> bool
        ensures unsynced { why.now ≡ Failed Unsynced → result ≡ false }
        ensures replaced { why.now ≡ Failed Replaced → result ≡ false }
    {
        match why {
            NotCompacted::Stopped => true,
            NotCompacted::Failed(CompactionFault::Unsynced | CompactionFault::Replaced) => false,
            NotCompacted::Failed(fault) => {
                self.stay(*fault);
                true
            }
            NotCompacted::Unopened(fault) => {
                self.stay(fault_of_opening(*fault));
                true
            }
        }
    }
}

/// Makes a gate for each worker.
fn gates_of<'t, 'w, R: AllocGlobal + Wait + Clock>(
    folder_runs: &FolderRuns<'t, 'w, R>,
    durable: &Arc<Durable<FileDevice>>,
) -> Result<Vec<Watching<'t, 'w, R>>, AllocError>
    ensures as_many { IfOk result (λ gates. length gates.items ≡ folder_runs.now.plan.now.workers) }
    ensures new { IfOk result (λ gates. All (λ gate. events_of gate.heard ≡ []) gates.items) }
{
    let alloc = folder_runs.rt.alloc();
    let number = folder_runs.plan.workers;
    let mut gates = Vec::with_capacity(alloc, number)?;
    for _made in 0..number {
        gates.push(gate_of(folder_runs, durable.clone()?)?)?;
    }
    Ok(gates)
}

/// Makes the gate of a worker, which has heard of nothing.
fn gate_of<'t, 'w, R: AllocGlobal + Wait + Clock>(
    folder_runs: &FolderRuns<'t, 'w, R>,
    durable: Arc<Durable<FileDevice>>,
) -> Result<Watching<'t, 'w, R>, AllocError>
    ensures new { IfOk result (λ gate. events_of gate.heard ≡ []) }
{
    Ok(Watching {
        rt: folder_runs.rt,
        watch: folder_runs.watch,
        durable,
        journal: folder_runs.journal.clone()?,
        least: folder_runs.least,
        serves_reads: folder_runs.plan.serves_reads,
        meter: folder_runs.meter,
        begun: None,
        heard: Heard::new(),
    })
}
