//! The members of a run's crew.

ghost use Rattle.std.specs.Prelude.{ℕ, ◌<◌, is_some, length, slice_index_or};
ghost use Rattle.tfs_serve.specs.Faults.{IsCaused};
ghost use Rattle.tfs_serve.specs.Working.{HasReplied, end_of_work, nothing_written};

use crate::client::Noted;
use crate::gate::Gate;
use crate::held_desk::Post;
use crate::hold::Hold;
use crate::runtime::Runtime;
use crate::serving::work_over;
use crate::session_desk::Service;
use std::net::OpenListener;
use std::snapshot::Snapshot;
use std::sync::{Mutex, Wait};
use std::thread;
use std::thread::Threads;
use std::time::Clock;
use tfs_connections::{AcceptFault, LastingStream, Load, Reception, Written};
use tfs_records::Sink;
use tfs_shared::{Naming, Session, Shared};

/// A session that works in a run, its gate, the fault of the listener that ended its work, if one
/// did, and what it has read from each connection and written to it.
#[derive(Drop)]
pub(crate) struct Member<J: Naming, G: Gate> {
    pub(crate) gate: G,
    pub(crate) session: Session<J>,
    pub(crate) fault: Option<AcceptFault>,
    pub(crate) written: Snapshot<Written>,
}

impl<J: Naming, G: Gate> Member<J, G> {
    /// Works until the gate admits no further connection, or the listener fails.
    fn run<L: OpenListener<Stream = LastingStream>, K: Sink, R: Wait + Clock, H: Hold>(
        &mut self,
        post: &Post<'_, '_, J, K, R, H>,
        listener: &L,
    )
        ensures caused { IsCaused self.new.fault }
        ensures worked { HasReplied H.durable J.opening (G.told self.old.gate) (G.told self.new.gate) self.old.session self.new.session
            (end_of_work (is_some self.new.fault)) nothing_written self.new.written.value }
    {
        let mut reception = Reception::new(listener);
        match work_over(post, &mut reception, &mut self.gate, &mut self.session) {
            Ok(()) => self.fault = None,
            Err(fault) => self.fault = Some(fault),
        }
        self.written = Snapshot::of(&reception.into_written());
    }
}

/// Runs the members, concurrently if the system creates the threads, each until its gate admits no
/// further connection or its listener fails.
pub(crate) fn work_until<
    L: OpenListener<Stream = LastingStream> + Sync,
    J: Naming + Send + Sync,
    K: Sink + Send,
    G: Gate + Send,
    R: Threads + Wait + Clock + Sync,
    H: Hold + Sync,
>(runtime: &Runtime<'_, R, H>, listener: &L, members: &mut [Member<J, G>], shared: &Shared<J, K>)
    ensures caused { (i : ℕ) (d : _) → i < length members.old → IsCaused (slice_index_or members.new i d).fault }
    ensures worked { (i : ℕ) (d : _) → i < length members.old
        → HasReplied H.durable J.opening (G.told (slice_index_or members.old i d).gate) (G.told (slice_index_or members.new i d).gate)
        (slice_index_or members.old i d).session (slice_index_or members.new i d).session
        (end_of_work (is_some (slice_index_or members.new i d).fault)) nothing_written (slice_index_or members.new i d).written.value }
{
    let (rt, alloc, hold) = (runtime.rt, runtime.alloc, runtime.hold);
    let (ended, muted) = (runtime.ended, runtime.muted);
    let even = Mutex::new(());
    let odd = Mutex::new(());
    let load = Load::new(members.len());
    thread::for_each_mut(
        rt,
        members,
        16,
        &|number: usize, member: &mut Member<J, G>|
            ensures caused { IsCaused member.exit.now.fault }
            ensures worked { HasReplied H.durable J.opening (G.told member.entry.now.gate) (G.told member.exit.now.gate) member.entry.now.session
                member.exit.now.session (end_of_work (is_some member.exit.now.fault)) nothing_written member.exit.now.written.value }
        {
            let turn = if number % 2 == 0 { &even } else { &odd };
            let service = Service {
                rt,
                alloc,
                shared,
                turn,
                ended,
                muted,
                load: &load,
            };
            let post = Post {
                service: &service,
                hold,
                noted: Noted::new(alloc),
            };
            member.run(&post, listener)
        },
    );
}
