//! Sessions that change one workspace concurrently, each in a thread of its own, and a session that
//! queries it meanwhile.

use crate::drafts::{name_of, push_of, push_of_text};
use crate::sessions::{ask, read};
use crate::shared::{Scene, new_table, play_scene, table_of};
use std::alloc::Global;
use std::process::Abort;
use std::sync::Wait;
use std::test::Fail;
use std::thread;
use std::thread::Threads;
use tfs_calls::{Bytes, Draft, Kind, Raw, Refusal};
use tfs_records::{Discard, Sink};
use tfs_shared::{Naming, Session, Shared};

/// Returns the forced unlock of a workspace.
fn unlock_of(rt: &(impl Alloc<A = Global> + Abort)) -> Draft {
    let body = Bytes::new(Vec::new(rt.alloc()));
    let draft = Draft::read(rt.alloc(), Raw::Unlock(body, None));
    draft.ok().expect(rt, "a draft")
}

/// Returns the push of a state without resources, with this serial.
fn small_push(rt: &(impl Alloc<A = Global> + Abort), serial: u64) -> Draft {
    let text = format!(in rt.alloc(); "{{\"version\":4,\"serial\":{serial},\"lineage\":\"L1\"}}");
    push_of_text(rt, text.expect(rt, "memory").as_str())
}

/// Makes 100 forced unlocks. Checks that each is accepted, at a higher position than the last.
fn unlock<J: Naming, K: Sink, R: Wait + Abort + Alloc<A = Global>>(
    rt: &R,
    shared: &Shared<J, K>,
    session: &mut Session<J>,
) {
    let mut last = 0;
    for _turn in 0..100 {
        let number = session.submit(rt, shared, name_of(rt), unlock_of(rt)).ok();
        last = higher(rt, number.expect(rt, "an unlock"), last);
    }
    assert!(rt; session.accepted() == 100);
}

/// Returns a number after checking that it is higher than the last one.
fn higher(rt: &impl Abort, number: u64, last: u64) -> u64 {
    assert!(rt; last < number, "{number} comes after {last}");
    number
}

/// Checks that an answer is the refusal of a state whose serial is too low.
fn is_too_old(rt: &impl Abort, refusal: Refusal) {
    assert!(rt; refusal.name() == "SerialTooLow");
}

/// Pushes the serials from 1 to 100. Checks that each is accepted at a higher position than the
/// last, or refused because its serial is too low.
fn push<J: Naming, K: Sink, R: Wait + Abort + Alloc<A = Global>>(
    rt: &R,
    shared: &Shared<J, K>,
    session: &mut Session<J>,
) {
    let mut last = 0;
    for serial in 1..101 {
        match session.submit(rt, shared, name_of(rt), small_push(rt, serial)) {
            Ok(number) => last = higher(rt, number, last),
            Err(refusal) => is_too_old(rt, refusal),
        }
    }
}

/// Pushes the chain with the serials from 2 to 100. Checks that each is accepted at the position of
/// its serial, and that the next query is answered at that position.
fn lead<J: Naming, K: Sink, R: Wait + Abort + Alloc<A = Global>>(
    rt: &R,
    shared: &Shared<J, K>,
    session: &mut Session<J>,
) {
    for serial in 2..101 {
        let number = session
            .submit(rt, shared, name_of(rt), push_of(rt, serial))
            .ok();
        assert!(rt; number == Some(serial));
        assert!(rt; ask(rt, shared, session, Kind::Any) == (serial, serial));
    }
}

/// Makes 1,000 queries. Checks that each answer has the same number for serial and position, and
/// that no position is lower than the last.
fn follow<J: Naming, K: Sink, R: Abort + Alloc<A = Global>>(
    rt: &R,
    shared: &Shared<J, K>,
    session: &mut Session<J>,
) {
    let mut last = 1;
    for _turn in 0..1_000 {
        let (position, serial) = ask(rt, shared, session, Kind::Any);
        assert!(rt;
            last <= position && position == serial,
            "{position}, serial {serial}"
        );
        last = position;
    }
}

/// Has all sessions make 100 forced unlocks each.
pub(crate) fn unlock_all<
    J: Naming + Send + Sync,
    K: Sink + Send,
    R: Threads + Wait + Abort + Alloc<A = Global> + Sync,
>(rt: &R, shared: &Shared<J, K>, sessions: &mut [Session<J>]) {
    thread::for_each_mut(rt, sessions, 4, &|_, session| unlock(rt, shared, session));
}

/// Has all sessions push the serials from 1 to 100. Checks that the last state has serial 100.
pub(crate) fn push_all<
    J: Naming + Send + Sync,
    K: Sink + Send,
    R: Threads + Wait + Abort + Alloc<A = Global> + Sync,
>(rt: &R, shared: &Shared<J, K>, sessions: &mut [Session<J>]) {
    thread::for_each_mut(rt, sessions, 4, &|_, session| push(rt, shared, session));
    for session in sessions {
        let state = session.state(rt, shared, &name_of(rt)).ok();
        assert!(rt; state.expect(rt, "a state").serial() == 100);
    }
}

/// Has the first session push while the second one makes queries. Checks that both then have the
/// last answer.
pub(crate) fn follow_one<
    J: Naming + Send + Sync,
    K: Sink + Send,
    R: Threads + Wait + Abort + Alloc<A = Global> + Sync,
>(rt: &R, shared: &Shared<J, K>, sessions: &mut [Session<J>]) {
    thread::for_each_mut(
        rt,
        sessions,
        2,
        &|number, session| {
            if number == 0 {
                lead(rt, shared, session);
            } else {
                follow(rt, shared, session);
            }
        },
    );
    for session in sessions {
        assert!(rt; ask(rt, shared, session, Kind::All) == (100, 100));
        assert!(rt; read(rt, shared, session) == 100);
    }
}

#[test]
fn four_sessions_make_100_entries_each(rt: HostRuntime) -> Result<(), Fail> {
    assert_eq!(rt; play_scene(&rt, new_table(&rt), 4, Scene::Unlocks), 400);
    Ok(())
}

#[test]
fn the_numbers_of_each_of_four_sessions_rise(rt: HostRuntime) -> Result<(), Fail> {
    let entries = play_scene(&rt, new_table(&rt), 4, Scene::Pushes);
    assert!(rt; 100 <= entries && entries <= 400, "{entries}");
    Ok(())
}

#[test]
fn no_session_lacks_its_copy_for_ever(rt: HostRuntime) -> Result<(), Fail> {
    assert_eq!(rt;
        play_scene(&rt, table_of(&rt, Discard, 1), 2, Scene::Follows),
        100
    );
    Ok(())
}
