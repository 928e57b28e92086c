//! Workers of a shared table, over connections on the loopback interface.

use crate::connections::{asking, is_answered, listener_of};
use crate::shared::{Scene, play_scene, table_of};
use std::alloc::Global;
use std::net::TcpListener;
use std::process::Abort;
use std::sync::Wait;
use std::sync::atomic::{AtomicU64, Ordering};
use std::test::Fail;
use std::thread;
use std::thread::Threads;
use std::time::{Clock, Duration};
use tfs_calls::{Call, Reply};
use tfs_records::{Discard, Sink};
use tfs_serve::{Gate, Heard, Worker, work_all};
use tfs_shared::{Naming, Session, Shared};

/// A query for what `t.a` reaches, after which the connection ends.
const REQUEST: &str = "GET /impact/a/any?of=t.a HTTP/1.1\r\nHost: h\r\nConnection: close\r\n\r\n";

const REPLY: &str =
    "HTTP/1.1 200 OK\r\nConnection: close\r\nContent-Type: application/json\r\nContent-Length: 51\r\n\r\n\
    {\"instances\":[\"t.b\",\"t.c\"],\"position\":1,\"serial\":2}";

/// A gate that admits one connection, and holds its request until two gates have a request.
#[derive(Drop)]
struct Meeting<'m, R: Clock> {
    rt: &'m R,
    come: &'m AtomicU64,
    is_open: bool,
    met: bool,
    heard: Heard,
}

impl<'m, R: Clock> Meeting<'m, R> {
    /// Returns a gate without a request.
    fn new(rt: &'m R, come: &'m AtomicU64) -> Meeting<'m, R> {
        Meeting {
            rt,
            come,
            is_open: true,
            met: false,
            heard: Heard::new(),
        }
    }

    /// Waits for another gate's request, for 10 seconds. Returns true if there are two requests.
    fn wait_for_other(&self) -> bool {
        self.come.fetch_add(1, Ordering::SeqCst);
        for _turn in 0..10_000 {
            if 2 <= self.come.load(Ordering::SeqCst) {
                return true;
            }
            thread::sleep(self.rt, Duration::from_millis(1));
        }
        false
    }
}

impl<'m, R: Clock> Gate for Meeting<'m, R> {
    ghost use Rattle.std.specs.Prelude.{Some};
    ghost use Rattle.tfs_serve.specs.Heard.{events_of};

    ghost told = { λ gate. Some (events_of gate.heard) };

    fn admit(&mut self) -> bool {
        let admits = self.is_open;
        self.is_open = false;
        self.heard.record_answer(admits);
        admits
    }

    fn before(&mut self, call: &Call) {
        self.heard.record_call(call);
        self.met = self.wait_for_other();
    }

    fn after(&mut self, reply: &Reply) {
        self.heard.record_reply(reply);
    }
}

#[test]
fn two_workers_hold_their_requests_at_once(rt: HostRuntime) -> Result<(), Fail> {
    let listener = listener_of(&rt);
    let one = asking(&rt, &listener, REQUEST);
    let other = asking(&rt, &listener, REQUEST);
    let scene = Scene::Meets(&listener);
    assert!(rt; play_scene(&rt, table_of(&rt, Discard, 2), 2, scene) == 1);
    is_answered(&rt, one, REPLY);
    is_answered(&rt, other, REPLY);
    Ok(())
}

/// Has each session work over one connection, and hold its request until the other session has one.
pub(crate) fn meet<
    J: Naming + Send + Sync,
    K: Sink + Send,
    R: Threads + Wait + Clock + Abort + Alloc<A = Global> + Sync,
>(
    rt: &R,
    shared: &Shared<J, K>,
    listener: &TcpListener,
    sessions: Vec<Session<J>>,
) -> Vec<Session<J>> {
    let come = AtomicU64::new(0);
    let mut workers = workers_of(rt, &come, sessions);
    work_all(rt, rt.alloc(), listener, workers.as_mut_slice(), shared);
    for worker in workers.as_slice() {
        assert!(rt; worker.gate.met);
    }
    take_sessions(rt, workers)
}

/// Returns a worker for each session, with a gate.
fn workers_of<'m, J: Naming, R: Clock + Abort + Alloc<A = Global>>(
    rt: &'m R,
    come: &'m AtomicU64,
    sessions: Vec<Session<J>>,
) -> Vec<Worker<J, Meeting<'m, R>>> {
    let mut workers = Vec::new(rt.alloc());
    for session in sessions {
        let worker = Worker {
            gate: Meeting::new(rt, come),
            session,
            failed: true,
        };
        assert!(rt; workers.push(worker).is_ok());
    }
    workers
}

/// Takes the sessions out of workers, and checks that no worker has failed.
pub(crate) fn take_sessions<J: Naming, G: Gate + Drop>(
    rt: &(impl Alloc<A = Global> + Abort),
    workers: Vec<Worker<J, G>>,
) -> Vec<Session<J>> {
    let mut sessions = Vec::new(rt.alloc());
    for worker in workers {
        assert!(rt; !worker.failed);
        assert!(rt; sessions.push(worker.session).is_ok());
    }
    sessions
}
