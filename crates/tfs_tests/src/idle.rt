//! Sessions that are asked through a gated desk, and whose gates admit nobody.

use crate::connections::listener_of;
use crate::drafts::name_of;
use crate::runs::Shut;
use crate::shared::{Scene, new_table, play_scene};
use crate::workers::take_sessions;
use std::alloc::Global;
use std::net::TcpListener;
use std::process::Abort;
use std::sync::atomic::AtomicBool;
use std::sync::{Mutex, Wait};
use std::thread::Threads;
use std::time::Clock;
use tfs_calls::{Call, Refusal, Reply};
use tfs_conversation::Desk;
use tfs_records::Sink;
use tfs_serve::{Gated, Load, Service, SessionDesk, Worker, work, work_all};
use tfs_shared::{Naming, Session, Shared};

#[test]
fn sessions_whose_gates_admit_nobody_end_their_work(rt: HostRuntime) {
    let listener = listener_of(&rt);
    let scene = Scene::Works(&listener);
    assert!(rt; play_scene(&rt, new_table(&rt), 1, scene) == 0);
}

/// Reads a state through a gated desk. Returns the reply.
fn read_gated<J: Naming, K: Sink, R: Wait + Abort + Alloc<A = Global>>(
    rt: &R,
    service: &Service<'_, J, K, R>,
    session: &mut Session<J>,
) -> Reply {
    let mut gate = Shut::new();
    let mut gated = Gated {
        desk: SessionDesk { service, session },
        gate: &mut gate,
    };
    gated.answer(Call::Read(name_of(rt)))
}

/// Checks that a reply is the refusal NoState.
fn is_no_state(rt: &impl Abort, reply: Reply) {
    assert!(rt; matches!(reply, Reply::Refused(Refusal::NoState)));
}

/// Checks a session that is asked through a desk, and that works alone with a gate that admits
/// nobody.
fn works<J: Naming, K: Sink, R: Wait + Clock + Abort + Alloc<A = Global>>(
    rt: &R,
    shared: &Shared<J, K>,
    listener: &TcpListener,
    session: &mut Session<J>,
) {
    let turn = Mutex::new(());
    let never = AtomicBool::new(false);
    let load = Load::new(1);
    let service = Service {
        rt,
        alloc: rt.alloc(),
        shared,
        turn: &turn,
        ended: &never,
        muted: &never,
        load: &load,
    };
    is_no_state(rt, read_gated(rt, &service, session));
    assert!(rt; work(&service, listener, &mut Shut::new(), session) == Ok(()));
}

/// Runs sessions, alone and as workers, with gates that admit nobody. Returns the sessions.
pub(crate) fn work_shut<
    J: Naming + Send + Sync,
    K: Sink + Send,
    R: Threads + Wait + Clock + Abort + Alloc<A = Global> + Sync,
>(
    rt: &R,
    shared: &Shared<J, K>,
    listener: &TcpListener,
    sessions: Vec<Session<J>>,
) -> Vec<Session<J>> {
    let mut workers = Vec::new(rt.alloc());
    for mut session in sessions {
        works(rt, shared, listener, &mut session);
        let worker = Worker {
            gate: Shut::new(),
            session,
            failed: true,
        };
        assert!(rt; workers.push(worker).is_ok());
    }
    work_all(rt, rt.alloc(), listener, workers.as_mut_slice(), shared);
    take_sessions(rt, workers)
}
