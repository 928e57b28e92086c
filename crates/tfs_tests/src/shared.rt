//! Sessions of shared tables. None of their calls is refused without a cause, and all of them
//! gather.

ghost use Rattle.std.specs.Prelude.{◌≡◌, ◌≤◌, [], IfSome};

use crate::crowd::{follow_one, push_all, unlock_all};
use crate::drafts::{name_of, push_of};
use crate::idle::work_shut;
use crate::sessions::{accepted_by, refuses, turns};
use crate::waiting::ask_meanwhile;
use crate::within::within;
use crate::workers::meet;
use std::alloc::Global;
use std::marker::Brand;
use std::net::TcpListener;
use std::process::Abort;
use std::sync::Wait;
use std::sync::atomic::AtomicU64;
use std::sync::ledger::Blank;
use std::test::Fail;
use std::thread::Threads;
use std::time::Clock;
use tfs_records::{Discard, MemorySink, Sink};
use tfs_shared::{Lack, Naming, Opened, Session, Shared, Strangers, Unshared, gather, share};
use tfs_table::Table;

/// What the sessions of a shared table do.
#[derive(Clone, Copy)]
pub(crate) enum Scene<'f> {
    /// Each session makes each call once, one session after another.
    Turns,
    /// The first session pushes, and is refused an older state; both read.
    Refuses,
    /// The first session pushes, and the second one reads over synced prefixes of the journal.
    Within,
    /// The first session's change waits in the sink until the second session has its answers.
    Waits(&'f AtomicU64),
    /// Each session makes 100 forced unlocks.
    Unlocks,
    /// Each session pushes 100 serials.
    Pushes,
    /// The first session pushes while the second one makes queries.
    Follows,
    /// Each session is asked through a desk, and works without clients, alone and as a worker of
    /// this listener.
    Works(&'f TcpListener),
    /// Each session works over one connection of this listener, and waits for the request of the
    /// other session.
    Meets(&'f TcpListener),
}

/// Plays a scene with this number of sessions and gathers the table. Returns its number of entries.
pub(crate) fn play_scene<
    K: Sink + Send + Drop,
    R: Threads + Wait + Clock + Abort + Alloc<A = Global> + Sync,
>(rt: &R, table: Table<K>, number: usize, scene: Scene<'_>) -> usize
    requires { (1 ≤ number) × (number ≤ 16) }
{
    let blank = Blank::new(number as u64);
    play::<Brand, K, R>(rt, table, number, scene, blank, Opened::new())
}

fn play<
    J: Naming + Send + Sync,
    K: Sink + Send + Drop,
    R: Threads + Wait + Clock + Abort + Alloc<A = Global> + Sync,
>(rt: &R, table: Table<K>, number: usize, scene: Scene<'_>, blank: Blank, opened: Opened) -> usize
    requires number { (1 ≤ number) × (number ≤ 16) }
    requires sessions { (number ≡ J.sessions) × (J.parts ≡ J.sessions) }
    requires ledger { (blank.name ≡ J.name) × (blank.parts ≡ J.parts) }
    requires book { opened ≡ J.book }
    requires opening { table.journal ≡ J.opening }
{
    let made: Result<(Shared<J, K>, Vec<Session<J>>), Unshared<K>> = share(
        rt,
        rt.alloc(),
        table,
        number,
        blank,
        opened,
    );
    let (shared, sessions) = made.ok().expect(rt, "a shared table");
    let sessions = run_scene(rt, &shared, sessions, scene);
    let accepted = accepted_by(sessions.as_slice());
    let before: u64 = shared.opened();
    let position = before.saturating_add(accepted);
    let (shared, sessions) = without_one(rt, shared, sessions);
    entries_of(rt, shared, sessions, position)
}

/// Checks that the shared table and its sessions don't give the table back without one of the
/// sessions, and returns them all.
fn without_one<J: Naming, K: Sink + Drop, R: Wait + Abort>(
    rt: &R,
    shared: Shared<J, K>,
    mut sessions: Vec<Session<J>>,
) -> (Shared<J, K>, Vec<Session<J>>) {
    let last = sessions.pop().expect(rt, "a session");
    match gather(rt, shared, sessions) {
        Ok(_) => panic!(rt; "a session is missing"),
        Err(strangers) => whole(rt, strangers, last),
    }
}

/// Returns the shared table and all of its sessions, after the last one was missing.
fn whole<J: Naming, K: Sink>(
    rt: &impl Abort,
    strangers: Strangers<J, K>,
    last: Session<J>,
) -> (Shared<J, K>, Vec<Session<J>>) {
    let Strangers {
        shared,
        mut sessions,
        why,
    } = strangers;
    let why: Lack = why;
    assert!(rt; why == Lack::Missing && sessions.push(last).is_ok());
    (shared, sessions)
}

/// Gathers the table, checks that it has this position, and returns its number of entries.
fn entries_of<J: Naming, K: Sink + Drop, R: Wait + Abort>(
    rt: &R,
    shared: Shared<J, K>,
    sessions: Vec<Session<J>>,
    position: u64,
) -> usize {
    let gathered: Result<Table<K>, Strangers<J, K>> = gather(rt, shared, sessions);
    match gathered {
        Ok(table) => {
            assert!(rt; table.position() == position);
            table.len()
        }
        Err(strangers) => {
            let Strangers {
                shared,
                sessions: _sessions,
                why: _,
            } = strangers;
            assert!(rt; false, "all sessions are there");
            shared.close(rt).len()
        }
    }
}

/// Runs a scene with sessions. Returns the sessions.
fn run_scene<
    J: Naming + Send + Sync,
    K: Sink + Send,
    R: Threads + Wait + Clock + Abort + Alloc<A = Global> + Sync,
>(
    rt: &R,
    shared: &Shared<J, K>,
    mut sessions: Vec<Session<J>>,
    scene: Scene<'_>,
) -> Vec<Session<J>> {
    match scene {
        Scene::Works(listener) => work_shut(rt, shared, listener, sessions),
        Scene::Meets(listener) => meet(rt, shared, listener, sessions),
        _ => {
            act(rt, shared, sessions.as_mut_slice(), scene);
            sessions
        }
    }
}

/// Plays a scene whose sessions aren't workers.
fn act<
    J: Naming + Send + Sync,
    K: Sink + Send,
    R: Threads + Wait + Clock + Abort + Alloc<A = Global> + Sync,
>(rt: &R, shared: &Shared<J, K>, sessions: &mut [Session<J>], scene: Scene<'_>) {
    match scene {
        Scene::Turns => turns(rt, shared, sessions),
        Scene::Waits(flag) => ask_meanwhile(rt, shared, sessions, flag),
        Scene::Unlocks => unlock_all(rt, shared, sessions),
        Scene::Pushes => push_all(rt, shared, sessions),
        Scene::Follows => follow_one(rt, shared, sessions),
        _ => match sessions {
            [first, second] => act_both(rt, shared, first, second, scene),
            _ => panic!(rt; "two sessions"),
        },
    }
}

/// Plays a scene of two sessions that call one after the other.
fn act_both<J: Naming, K: Sink, R: Wait + Abort + Alloc<A = Global>>(
    rt: &R,
    shared: &Shared<J, K>,
    first: &mut Session<J>,
    second: &mut Session<J>,
    scene: Scene<'_>,
) {
    match scene {
        Scene::Within => within(rt, shared, first, second),
        _ => refuses(rt, shared, first, second),
    }
}

/// Returns a table over an unused sink, with a push of the chain with this serial to `a`.
pub(crate) fn table_of<K: Sink + Drop>(
    rt: &(impl Alloc<A = Global> + Abort),
    sink: K,
    serial: u64,
) -> Table<K>
    requires open { K.faults sink ≡ 0 }
    requires untold { IfSome (K.told sink) (λ bytes. bytes ≡ []) }
{
    let mut table = Table::new(rt.alloc(), sink).ok().expect(rt, "a table");
    let done = table.apply(name_of(rt), push_of(rt, serial));
    assert!(rt; done.ok() == Some(1));
    table
}

/// Returns the table that continues it from position 1, with a base.
fn later_table(rt: &(impl Alloc<A = Global> + Abort)) -> Table<Discard> {
    let table = table_of(rt, Discard, 1);
    table.rebase(Discard).ok().expect(rt, "a rebased table")
}

#[test]
fn all_sessions_gather(rt: HostRuntime) -> Result<(), Fail> {
    for number in 1..17 {
        assert!(rt;
            play_scene(&rt, table_of(&rt, Discard, 1), number, Scene::Turns) == 1 + number,
            "{number}"
        );
        assert!(rt;
            play_scene(&rt, later_table(&rt), number, Scene::Turns) == number,
            "{number}"
        );
    }
    Ok(())
}

/// Returns a table without entries.
pub(crate) fn new_table(rt: &(impl Alloc<A = Global> + Abort)) -> Table<Discard> {
    Table::new(rt.alloc(), Discard).ok().expect(rt, "a table")
}

#[test]
fn an_older_state_is_refused_and_not_seen(rt: HostRuntime) -> Result<(), Fail> {
    assert_eq!(rt; play_scene(&rt, new_table(&rt), 2, Scene::Refuses), 1);
    Ok(())
}

#[test]
fn a_read_waits_for_no_change_of_another_name(rt: HostRuntime) -> Result<(), Fail> {
    let sink = MemorySink::new(rt.alloc(), 65_536, 1_000);
    assert_eq!(rt;
        play_scene(&rt, table_of(&rt, sink, 1), 2, Scene::Within),
        4
    );
    Ok(())
}
