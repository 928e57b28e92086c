//! Answers to the sessions of a shared table. No call is refused with NoCopy: no snapshot is
//! outdated or has lost its version.

use crate::drafts::{chain_of, circle, name_of, push_of, query_of};
use std::alloc::Global;
use std::process::Abort;
use std::sync::Wait;
use tfs_calls::Kind;
use tfs_records::Sink;
use tfs_shared::{Naming, Session, Shared};

/// Returns the position of a push of the chain with this serial, which must be accepted.
fn push<J: Naming, K: Sink, R: Wait + Abort + Alloc<A = Global>>(
    rt: &R,
    shared: &Shared<J, K>,
    session: &mut Session<J>,
    serial: u64,
) -> Option<u64> {
    let draft = push_of(rt, serial);
    session.submit(rt, shared, name_of(rt), draft).ok()
}

/// Returns the serial of the state that is read under the lock, which must be the chain.
pub(crate) fn read<J: Naming, K: Sink, R: Wait + Abort + Alloc<A = Global>>(
    rt: &R,
    shared: &Shared<J, K>,
    session: &mut Session<J>,
) -> u64 {
    let name = name_of(rt);
    let state = session.state(rt, shared, &name).ok();
    let state = state.expect(rt, "a state");
    assert!(rt; state.bytes() == chain_of(rt, state.serial()).as_bytes());
    state.serial()
}

/// Returns the same from a snapshot.
pub(crate) fn read_published<J: Naming, R: Abort + Alloc<A = Global>>(
    rt: &R,
    session: &mut Session<J>,
) -> u64 {
    let name = name_of(rt);
    let answer = session.published_state(&name).expect(rt, "an answer");
    let state = answer.ok().expect(rt, "a state");
    assert!(rt; state.bytes() == chain_of(rt, state.serial()).as_bytes());
    state.serial()
}

/// Returns the position of the answer to a query of a kind for what `t.a` reaches, and the serial
/// of the queried state. The answer must be the other two instances.
pub(crate) fn ask<J: Naming, K: Sink, R: Abort + Alloc<A = Global>>(
    rt: &R,
    shared: &Shared<J, K>,
    session: &mut Session<J>,
    kind: Kind,
) -> (u64, u64) {
    let name = name_of(rt);
    let query = query_of(rt, kind);
    let answer = session.impact(shared, &name, &query).ok();
    let answer = answer.expect(rt, "an answer");
    assert!(rt; answer.chosen.as_slice() == [1, 2].as_slice());
    (answer.position, answer.version.doc().serial())
}

/// Makes each call once in each session, one session after another: a push of the current state, a
/// read and a query.
pub(crate) fn turns<J: Naming, K: Sink, R: Wait + Abort + Alloc<A = Global>>(
    rt: &R,
    shared: &Shared<J, K>,
    sessions: &mut [Session<J>],
) {
    for session in sessions {
        assert!(rt; push(rt, shared, session, 1).is_some());
        assert!(rt; read(rt, shared, session) == 1);
        let (position, serial) = ask(rt, shared, session, Kind::Any);
        assert!(rt; position == session.seen() && serial == 1);
    }
}

/// Checks that the first session pushes the chain and is refused an older state, that both read the
/// chain, and that the first one's query is answered.
pub(crate) fn refuses<J: Naming, K: Sink, R: Wait + Abort + Alloc<A = Global>>(
    rt: &R,
    shared: &Shared<J, K>,
    first: &mut Session<J>,
    second: &mut Session<J>,
) {
    assert!(rt; push(rt, shared, first, 2) == Some(1));
    assert!(rt; ask(rt, shared, first, Kind::Any) == (1, 2) && first.seen() == 1);
    assert!(rt; is_too_low(rt, shared, first) && first.seen() == 1);
    assert!(rt; read(rt, shared, first) == 2 && read(rt, shared, second) == 2);
    assert!(rt; second.seen() == 1 && first.accepted() == 1 && second.accepted() == 0);
}

/// Checks that a session is refused the cycle for its serial.
fn is_too_low<J: Naming, K: Sink, R: Wait + Abort + Alloc<A = Global>>(
    rt: &R,
    shared: &Shared<J, K>,
    session: &mut Session<J>,
) -> bool {
    match session.submit(rt, shared, name_of(rt), circle(rt)) {
        Ok(_) => false,
        Err(refusal) => refusal.name() == "SerialTooLow",
    }
}

/// Returns the number of accepted changes of sessions.
pub(crate) fn accepted_by<J: Naming>(sessions: &[Session<J>]) -> u64 {
    let mut count = 0_u64;
    for session in sessions {
        count = count.saturating_add(session.accepted());
    }
    count
}
