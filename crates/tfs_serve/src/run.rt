//! Whole runs: a table is shared, served on connections, and gathered.

ghost use Rattle.std.specs.Prelude.{◌≡◌, ◌≢◌, ◌+◌, ◌≤◌, ◌<◌, ℕ, Bool, [], length, map, slice_index_or, vec_capacity, IfOk, IfErr};
ghost use Rattle.tfs_records.specs.Journal.{position_of};
ghost use Rattle.tfs_published.specs.Beginning.{BeginsWith};
ghost use Rattle.tfs_shared.specs.View.{AreNew, new_session};
ghost use Rattle.tfs_serve.specs.Faults.{first_fault_in};
ghost use Rattle.tfs_serve.specs.Serving.{IsRun, served_view};
ghost use Rattle.tfs_serve.specs.Working.{HasWorked, end_of_work};
ghost use Rattle.tfs_serve.specs.declared.run.Obstacle.TheVariants.{NoCopy};

use crate::crew::{Crew, Room, attend};
use crate::gate::Gate;
use crate::hold::{Hold, NoHold};
use crate::leaving::take_back;
use crate::runtime::Runtime;
use std::alloc::Global;
use std::marker::Brand;
use std::net::{OpenListener, TcpStream};
use std::snapshot::Snapshot;
use std::sync::Wait;
use std::sync::atomic::AtomicBool;
use std::sync::ledger::Blank;
use std::thread::Threads;
use std::time::Clock;
use tfs_connections::{AcceptFault, Connection, Written};
use tfs_records::Sink;
use tfs_shared::{Cause, Naming, Opened, Session, Shared, share};
use tfs_table::Table;

/// The outcome of a gate's worker: its gate, whether the listener failed and with which fault, the
/// position of the journal that the worker has seen, the number of changes that it reported as
/// accepted, and, for proofs, what it has read from each connection and written to it.
#[derive(Drop)]
pub struct Served<G: Gate> {
    pub gate: G,
    pub failed: bool,
    pub fault: Option<AcceptFault>,
    pub seen: u64,
    pub accepted: u64,
    pub written: Snapshot<Written>,
}

/// Returns the fault of the first worker whose listener failed, if there is one.
pub fn first_fault<G: Gate>(served: &[Served<G>]) -> Option<AcceptFault>
    ensures first { result ≡ first_fault_in (map (λ one. one.fault) served.now) }
{
    for one in served {
        if let Some(fault) = one.fault {
            return Some(fault);
        }
    }
    None
}

/// What a run leaves: the table, the outcomes of the workers in the order of their gates, and the
/// listener.
#[derive(Drop)]
pub struct Run<K: Sink, G: Gate, L> {
    pub table: Table<K>,
    pub served: Vec<Served<G>>,
    pub listener: L,
}

/// The reason why there was no run, or why the table may lack what a worker had seen.
#[derive(Drop)]
pub enum Obstacle<E> {
    /// An allocation failed.
    NoMemory,
    /// There was no free reader slot for a worker.
    NoPlace,
    /// The listener couldn't be created.
    NoListener(E),
    /// A worker had seen more than the table's journal.
    NoCopy,
}

/// A table that wasn't served, or that may lack what a worker had seen.
#[derive(Drop)]
pub struct Unserved<K: Sink, E> {
    pub table: Table<K>,
    pub why: Obstacle<E>,
}

/// The arguments of a run: the gates of its workers, and a function that creates the listener.
#[derive(Drop)]
struct Asked<G: Gate, F: Drop> {
    gates: Vec<G>,
    listen: F,
}

/// The blank ledger and history of a run.
struct Blanks {
    blank: Blank,
    opened: Opened,
}

/// Shares the table among one worker for each gate, creates the listener, and lets the workers
/// answer connections until all have finished. Then returns the table.
///
/// The table's journal is lawful, begins with the opening one, and has one more entry for each
/// change that a reply reported as accepted, at the position that this reply, and no other,
/// reported. The table is stopped if and only if it was stopped before, or exactly one reply is
/// `JournalFault`; if it was stopped before, no reply is. It is stopped if any reply is
/// `JournalStopped`. Each reply of a worker is the transition of the model over a prefix of that
/// journal with all that the worker had seen before, except `NoCopy`. What a worker has written to
/// each connection are these replies to the messages that it read from it, and the refusals of
/// those that made no call; if the connection fails, the end may be missing. A failed worker has
/// the fault of its listener; the gate of every other worker is closed.
///
/// # Errors
///
/// Returns the table, whose journal begins with the opening one, and the obstacle. Unless that is
/// `NoCopy`, the journal is unchanged.
pub fn serve<
    L: OpenListener<Stream = TcpStream> + Sync + Drop,
    K: Sink + Send + Drop,
    G: Gate + Send + Drop,
    E,
    F: FnOnce() -> Result<L, E> + Drop,
    R: Threads + Wait + Clock + Sync,
>(
    rt: &R,
    alloc: Global,
    table: Table<K>,
    gates: Vec<G>,
    listen: F,
) -> Result<Run<K, G, L>, Unserved<K, E>>
    requires number { (1 ≤ length gates.items) × (length gates.items ≤ 16) }
    requires callable { F.IsAlwaysCallable listen }
    ensures run { IfOk result (λ run. IsRun ⟦<NoHold as Hold>⟧.durable table.journal run.table.journal table.stopped run.table.stopped (map G.told gates.items) (map (served_view G.told) run.served.items)) }
    ensures kept { IfErr result (λ unserved. BeginsWith unserved.table.journal table.journal) }
    ensures back { IfErr result (λ unserved. unserved.why ≢ NoCopy → unserved.table.journal ≡ table.journal) }
{
    let never = AtomicBool::new(false);
    let runtime = Runtime {
        rt,
        alloc,
        hold: &NoHold,
        ended: &never,
        muted: &never,
    };
    serve_until(&runtime, table, gates, listen)
}

/// Serves as [`serve`] does, over a listener of any transport; conversations can be asked to end.
/// Before a byte of a reply is written, the bytes of the journal that the reply was answered over
/// are durable, as the hold says.
pub fn serve_until<
    L: OpenListener<Stream = S> + Sync + Drop,
    K: Sink + Send + Drop,
    G: Gate + Send + Drop,
    E,
    F: FnOnce() -> Result<L, E> + Drop,
    R: Threads + Wait + Clock + Sync,
    H: Hold + Sync,
    S: Connection + Send + Drop,
>(
    runtime: &Runtime<'_, R, H>,
    table: Table<K>,
    gates: Vec<G>,
    listen: F,
) -> Result<Run<K, G, L>, Unserved<K, E>>
    requires number { (1 ≤ length gates.items) × (length gates.items ≤ 16) }
    requires callable { F.IsAlwaysCallable listen }
    ensures run { IfOk result (λ run. IsRun H.durable table.journal run.table.journal table.stopped run.table.stopped (map G.told gates.items) (map (served_view G.told) run.served.items)) }
    ensures kept { IfErr result (λ unserved. BeginsWith unserved.table.journal table.journal) }
    ensures back { IfErr result (λ unserved. unserved.why ≢ NoCopy → unserved.table.journal ≡ table.journal) }
{
    let blank = Blank::new(gates.len() as u64);
    let opened = Opened::new();
    let asked = Asked { gates, listen };
    let blanks = Blanks { blank, opened };
    serve_named::<Brand, L, K, G, E, F, R, H, S>(runtime, table, asked, blanks)
}

/// Runs over the history and the ledger that `J` names.
fn serve_named<
    J: Naming + Send + Sync,
    L: OpenListener<Stream = S> + Sync + Drop,
    K: Sink + Send + Drop,
    G: Gate + Send + Drop,
    E,
    F: FnOnce() -> Result<L, E> + Drop,
    R: Threads + Wait + Clock + Sync,
    H: Hold + Sync,
    S: Connection + Send + Drop,
>(
    runtime: &Runtime<'_, R, H>,
    table: Table<K>,
    asked: Asked<G, F>,
    blanks: Blanks,
) -> Result<Run<K, G, L>, Unserved<K, E>>
    requires number { (1 ≤ length asked.gates.items) × (length asked.gates.items ≤ 16) }
    requires callable { F.IsAlwaysCallable asked.listen }
    requires named { (length asked.gates.items ≡ J.sessions) × (J.parts ≡ J.sessions) × (blanks.blank.name ≡ J.name)
        × (blanks.blank.parts ≡ J.parts) × (blanks.opened ≡ J.book) × (table.journal ≡ J.opening) }
    ensures run { IfOk result (λ run. IsRun H.durable J.opening run.table.journal table.stopped run.table.stopped (map G.told asked.gates.items) (map (served_view G.told) run.served.items)) }
    ensures kept { IfErr result (λ unserved. BeginsWith unserved.table.journal J.opening) }
    ensures back { IfErr result (λ unserved. unserved.why ≢ NoCopy → unserved.table.journal ≡ J.opening) }
{
    let Blanks { blank, opened } = blanks;
    let (rt, alloc, number) = (runtime.rt, runtime.alloc, asked.gates.len());
    let stopped = table.stopped();
    match share::<J, K, R>(rt, alloc, table, number, blank, opened) {
        Ok((shared, sessions)) => serve_shared(runtime, shared, sessions, asked, stopped),
        Err(unshared) => {
            let why = obstacle_of(unshared.why);
            let table = unshared.table;
            Err(Unserved { table, why })
        }
    }
}

/// Serves a shared table, which may be stopped, with sessions that have made no calls.
fn serve_shared<
    J: Naming + Send + Sync,
    L: OpenListener<Stream = S> + Sync + Drop,
    K: Sink + Send + Drop,
    G: Gate + Send + Drop,
    E,
    F: FnOnce() -> Result<L, E> + Drop,
    R: Threads + Wait + Clock + Sync,
    H: Hold + Sync,
    S: Connection + Send + Drop,
>(
    runtime: &Runtime<'_, R, H>,
    shared: Shared<J, K>,
    sessions: Vec<Session<J>>,
    asked: Asked<G, F>,
    stopped: bool,
) -> Result<Run<K, G, L>, Unserved<K, E>>
    requires number { (1 ≤ length asked.gates.items) × (length asked.gates.items ≡ J.sessions) }
    requires callable { F.IsAlwaysCallable asked.listen }
    requires new { AreNew J.opening stopped J.sessions sessions.items }
    ensures run { IfOk result (λ run. IsRun H.durable J.opening run.table.journal stopped run.table.stopped (map G.told asked.gates.items) (map (served_view G.told) run.served.items)) }
    ensures kept { IfErr result (λ unserved. BeginsWith unserved.table.journal J.opening) }
    ensures back { IfErr result (λ unserved. unserved.why ≢ NoCopy → unserved.table.journal ≡ J.opening) }
{
    let Asked { gates, listen } = asked;
    let Ok(room) = Room::new(runtime.alloc, gates.len()) else {
        let why = Obstacle::NoMemory;
        return Err(give_back(runtime.rt, shared, sessions, why));
    };
    match listen() {
        Ok(listener) => {
            let crew = Crew {
                gates,
                sessions,
                room,
                stopped,
            };
            match attend(runtime, shared, crew, listener) {
                Ok(run) => Ok(run),
                Err(table) => {
                    let why = Obstacle::NoCopy;
                    Err(Unserved { table, why })
                }
            }
        }
        Err(fault) => {
            let why = Obstacle::NoListener(fault);
            Err(give_back(runtime.rt, shared, sessions, why))
        }
    }
}

/// Takes the table back from sessions that have made no calls, with the reason why it wasn't
/// served.
fn give_back<J: Naming, K: Sink, E, R: Wait>(
    rt: &R,
    shared: Shared<J, K>,
    sessions: Vec<Session<J>>,
    why: Obstacle<E>,
) -> Unserved<K, E>
    requires new { (stopped : Bool) × AreNew J.opening stopped J.sessions sessions.items }
    ensures journal { result.table.journal ≡ J.opening }
{
    let table = take_back(rt, shared, sessions);
    Unserved { table, why }
}

/// Converts the cause of a table that wasn't shared.
fn obstacle_of<E>(cause: Cause) -> Obstacle<E>
    ensures shared { result ≢ NoCopy }
{
    match cause {
        Cause::NoMemory => Obstacle::NoMemory,
        Cause::NoPlace => Obstacle::NoPlace,
    }
}
