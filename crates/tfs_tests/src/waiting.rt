//! Answers to a session while another session's change is inside the sink.

use crate::drafts::{lock_of, name_of};
use crate::sessions::{ask, read, read_published};
use crate::shared::{Scene, play_scene, table_of};
use std::alloc::Global;
use std::process::Abort;
use std::sync::Wait;
use std::sync::atomic::{AtomicU64, Ordering};
use std::test::Fail;
use std::thread;
use std::thread::Threads;
use std::time::{Clock, Duration};
use tfs_calls::Kind;
use tfs_records::{Sink, SinkFault};
use tfs_shared::{Naming, Session, Shared};

/// The values of the flag: there is nothing to wait for; the next piece waits; the sink is inside;
/// it may continue; it has waited too long.
const IDLE: u64 = 0;

const ARMED: u64 = 1;

const INSIDE: u64 = 2;

const RELEASED: u64 = 3;

const LATE: u64 = 4;

/// A sink that keeps nothing, and waits for its flag once it is armed.
#[derive(Drop)]
struct Waiting<'f, R: Clock> {
    rt: &'f R,
    flag: &'f AtomicU64,
}

impl<'f, R: Clock> Sink for Waiting<'f, R> {
    ghost use Rattle.std.specs.Prelude.{None};

    ghost told = { λ _. None };

    ghost faults = { λ _. 0 };

    fn write(&mut self, piece: &[u8]) -> Result<usize, SinkFault> {
        if self.flag.load(Ordering::SeqCst) == ARMED {
            self.flag.store(INSIDE, Ordering::SeqCst);
            if !wait_for(self.rt, self.flag, RELEASED) {
                self.flag.store(LATE, Ordering::SeqCst);
            }
        }
        Ok(piece.len())
    }
}

/// Waits until the flag has a value. Returns false if it hasn't after 10,000 turns of a
/// millisecond.
fn wait_for(rt: &impl Clock, flag: &AtomicU64, value: u64) -> bool {
    for _turn in 0..10_000 {
        if flag.load(Ordering::SeqCst) == value {
            return true;
        }
        thread::sleep(rt, Duration::from_millis(1));
    }
    false
}

#[test]
fn a_query_is_answered_while_the_sink_waits(rt: HostRuntime) -> Result<(), Fail> {
    let flag = AtomicU64::new(IDLE);
    let sink = Waiting {
        rt: &rt,
        flag: &flag,
    };
    let table = table_of(&rt, sink, 2);
    assert_eq!(rt; play_scene(&rt, table, 2, Scene::Waits(&flag)), 2);
    assert_eq!(rt; flag.load(Ordering::SeqCst), RELEASED);
    Ok(())
}

/// Has the first session's lock wait in the sink until the second session has its answers.
pub(crate) fn ask_meanwhile<
    J: Naming + Send + Sync,
    K: Sink + Send,
    R: Threads + Wait + Clock + Abort + Alloc<A = Global> + Sync,
>(rt: &R, shared: &Shared<J, K>, sessions: &mut [Session<J>], flag: &AtomicU64) {
    flag.store(ARMED, Ordering::SeqCst);
    thread::for_each_mut(
        rt,
        sessions,
        2,
        &|number, session| {
            if number == 0 {
                change(rt, shared, session);
            } else {
                answer(rt, shared, session, flag);
            }
        },
    );
}

/// Makes the first session's lock, which is the second change.
fn change<J: Naming, K: Sink, R: Wait + Abort + Alloc<A = Global>>(
    rt: &R,
    shared: &Shared<J, K>,
    session: &mut Session<J>,
) {
    let locked = session.submit(rt, shared, name_of(rt), lock_of(rt));
    assert!(rt; locked.ok() == Some(2));
}

/// Checks that the second session's query and its read of a snapshot are answered while the sink
/// waits, and then lets the sink continue. A read sees the change, and so does the next query.
fn answer<J: Naming, K: Sink, R: Wait + Clock + Abort + Alloc<A = Global>>(
    rt: &R,
    shared: &Shared<J, K>,
    session: &mut Session<J>,
    flag: &AtomicU64,
) {
    assert!(rt; wait_for(rt, flag, INSIDE));
    assert!(rt; ask(rt, shared, session, Kind::Any) == (1, 2) && session.seen() == 1);
    assert!(rt; read_published(rt, session) == 2 && session.seen() == 1);
    assert!(rt; flag.load(Ordering::SeqCst) == INSIDE);
    flag.store(RELEASED, Ordering::SeqCst);
    assert!(rt; read(rt, shared, session) == 2 && session.seen() == 2);
    assert!(rt; ask(rt, shared, session, Kind::All) == (2, 2));
}
