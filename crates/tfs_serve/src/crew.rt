//! The crew of a run: its workers, from their start to the gathering of the table.

ghost use Rattle.std.specs.Prelude.{◌≡◌, ◌+◌, ◌≤◌, ◌<◌, ℕ, [], is_some, length, map, slice_index_or, vec_capacity, IfOk, IfErr};
ghost use Rattle.tfs_published.specs.Beginning.{BeginsWith};
ghost use Rattle.tfs_shared.specs.View.{AreNew, new_session};
ghost use Rattle.tfs_serve.specs.Faults.{IsCaused};
ghost use Rattle.tfs_serve.specs.Serving.{IsRun, served_view};
ghost use Rattle.tfs_serve.specs.Working.{HasReplied, end_of_work, nothing_written};

use crate::gate::Gate;
use crate::hold::Hold;
use crate::leaving::{gather_table, split_members};
use crate::member::{Member, work_until};
use crate::run::{Run, Served};
use crate::runtime::Runtime;
use std::alloc::{AllocError, Global};
use std::net::OpenListener;
use std::snapshot::Snapshot;
use std::sync::Wait;
use std::thread::Threads;
use std::time::Clock;
use tfs_connections::{Connection, LastingStream, LentListener, Written};
use tfs_records::Sink;
use tfs_shared::{Naming, Session, Shared};
use tfs_table::Table;

/// Allocated space for members and for what is left of them.
#[derive(Drop)]
pub(crate) struct Room<J: Naming, G: Gate> {
    members: Vec<Member<J, G>>,
    sessions: Vec<Session<J>>,
    served: Vec<Served<G>>,
}

/// A crew before it starts: a gate and a session for each member, allocated space for the members,
/// and whether the table was stopped when it was shared.
#[derive(Drop)]
pub(crate) struct Crew<J: Naming, G: Gate> {
    pub(crate) gates: Vec<G>,
    pub(crate) sessions: Vec<Session<J>>,
    pub(crate) room: Room<J, G>,
    pub(crate) stopped: bool,
}

impl<J: Naming, G: Gate + Drop> Room<J, G> {
    /// Allocates space for `number` members.
    pub(crate) fn new(alloc: Global, number: usize) -> Result<Room<J, G>, AllocError>
        ensures members { IfOk result (λ room. (room.members.items ≡ []) × (number ≤ vec_capacity room.members)) }
        ensures sessions { IfOk result (λ room. (room.sessions.items ≡ []) × (number ≤ vec_capacity room.sessions)) }
        ensures served { IfOk result (λ room. (room.served.items ≡ []) × (number ≤ vec_capacity room.served)) }
    {
        Ok(Room {
            members: Vec::with_capacity(alloc, number)?,
            sessions: Vec::with_capacity(alloc, number)?,
            served: Vec::with_capacity(alloc, number)?,
        })
    }
}

/// Runs a member for each gate, which answer connections, and gathers the table afterwards. If a
/// session had seen more than the table's journal, returns the table alone, as an error.
pub(crate) fn attend<
    J: Naming + Send + Sync,
    L: OpenListener<Stream = S> + Sync + Drop,
    K: Sink + Send + Drop,
    G: Gate + Send + Drop,
    R: Threads + Wait + Clock + Sync,
    H: Hold + Sync,
    S: Connection + Send + Drop,
>(
    runtime: &Runtime<'_, R, H>,
    shared: Shared<J, K>,
    crew: Crew<J, G>,
    listener: L,
) -> Result<Run<K, G, L>, Table<K>>
    requires some { 1 ≤ length crew.gates.items }
    requires new { AreNew J.opening crew.stopped (length crew.gates.items) crew.sessions.items }
    requires empty { (crew.room.members.items ≡ []) × (crew.room.sessions.items ≡ []) × (crew.room.served.items ≡ []) }
    requires room { (length crew.gates.items ≤ vec_capacity crew.room.members) × (length crew.gates.items ≤ vec_capacity crew.room.sessions)
        × (length crew.gates.items ≤ vec_capacity crew.room.served) }
    ensures run { IfOk result (λ run. IsRun H.durable J.opening run.table.journal crew.stopped run.table.stopped (map G.told crew.gates.items) (map (served_view G.told) run.served.items)) }
    ensures kept { IfErr result (λ table. BeginsWith table.journal J.opening) }
{
    let Crew {
        gates,
        sessions,
        room,
        stopped,
    } = crew;
    let Room {
        members,
        sessions: room,
        served,
    } = room;
    let members = make_members(members, gates, sessions, stopped);
    let members = run_members(runtime, &LentListener::of(&listener), members, &shared);
    let (sessions, served) = split_members(members, room, served);
    match gather_table(runtime.rt, shared, sessions) {
        Ok(table) => Ok(Run {
            table,
            served,
            listener,
        }),
        Err(table) => Err(table),
    }
}

/// Makes a member for each gate, over new sessions of a table, which may be stopped: the first gate
/// gets the last session.
fn make_members<J: Naming, G: Gate + Drop>(
    room: Vec<Member<J, G>>,
    gates: Vec<G>,
    sessions: Vec<Session<J>>,
    stopped: bool,
) -> Vec<Member<J, G>>
    requires room { (room.items ≡ []) × (length gates.items ≤ vec_capacity room) }
    requires new { AreNew J.opening stopped (length gates.items) sessions.items }
    ensures gates { map (λ member. member.gate) result.items ≡ gates.items }
    ensures sessions { (i : ℕ) (d : _) → i < length result.items
        → (number : ℕ) × (number + i + 1 ≡ length gates.items) × ((slice_index_or result.items i d).session ≡ new_session J.opening stopped number) }
{
    let mut sessions = sessions;
    let mut members = room;
    for gate in gates {
        let session = sessions.pop().unwrap();
        members
            .push(Member {
                gate,
                session,
                fault: None,
                written: Snapshot::of(&Written::new()),
            })
            .unwrap();
    }
    members
}

/// Runs the members, and returns them when each has finished its work.
fn run_members<
    J: Naming + Send + Sync,
    L: OpenListener<Stream = LastingStream> + Sync,
    K: Sink + Send,
    G: Gate + Send + Drop,
    R: Threads + Wait + Clock + Sync,
    H: Hold + Sync,
>(
    runtime: &Runtime<'_, R, H>,
    listener: &L,
    members: Vec<Member<J, G>>,
    shared: &Shared<J, K>,
) -> Vec<Member<J, G>>
    ensures len { length result.items ≡ length members.items }
    ensures caused { (i : ℕ) (d : _) → i < length members.items → IsCaused (slice_index_or result.items i d).fault }
    ensures worked { (i : ℕ) (d : _) → i < length members.items
        → HasReplied H.durable J.opening (G.told (slice_index_or members.items i d).gate) (G.told (slice_index_or result.items i d).gate)
        (slice_index_or members.items i d).session (slice_index_or result.items i d).session
        (end_of_work (is_some (slice_index_or result.items i d).fault)) nothing_written (slice_index_or result.items i d).written.value }
{
    let mut members = members;
    work_until(runtime, listener, members.as_mut_slice(), shared);
    members
}
