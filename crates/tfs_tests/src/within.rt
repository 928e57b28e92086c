//! Reads from snapshots over a synced prefix of the journal, and what sessions learn of replies.

use crate::drafts::{chain_of, name_of, push_of};
use std::alloc::Global;
use std::process::Abort;
use std::sync::Wait;
use tfs_records::Sink;
use tfs_rules::Name;
use tfs_shared::{Naming, Session, Shared};

/// Returns the name `b`.
fn other_name(rt: &(impl Alloc<A = Global> + Abort)) -> Name {
    let text = String::from_str(rt.alloc(), "b").ok().expect(rt, "a text");
    Name::read(text).expect(rt, "a name")
}

/// Has a session push the chain with this serial to a name, which must be accepted.
fn push<J: Naming, K: Sink, R: Wait + Abort + Alloc<A = Global>>(
    rt: &R,
    shared: &Shared<J, K>,
    session: &mut Session<J>,
    name: Name,
    serial: u64,
) {
    let before = session.seen();
    let answer = session.submit(rt, shared, name, push_of(rt, serial));
    assert!(rt; answer.ok() == Some(before.saturating_add(1)));
}

/// Checks that a session reads the chain with this serial for `a` if this number of bytes is
/// synced, and that it has seen the journal with this position then.
fn expect_read<J: Naming, R: Abort + Alloc<A = Global>>(
    rt: &R,
    session: &mut Session<J>,
    synced: u64,
    serial: u64,
    position: u64,
) {
    let name = name_of(rt);
    let answer = session.published_state_within(&name, synced);
    let state = answer.expect(rt, "an answer").ok().expect(rt, "a state");
    assert!(rt; state.bytes() == chain_of(rt, serial).as_bytes());
    assert!(rt; session.seen() == position);
}

/// Checks that a session finds no state of `b` if this number of bytes is synced, and that it has
/// seen the journal with this position then.
fn expect_none<J: Naming, R: Abort + Alloc<A = Global>>(
    rt: &R,
    session: &mut Session<J>,
    synced: u64,
    position: u64,
) {
    let name = other_name(rt);
    let answer = session.published_state_within(&name, synced);
    assert!(rt; answer.expect(rt, "an answer").is_err() && session.seen() == position);
}

/// Checks that the second session sees the changes of the first one at a read of their name; at a
/// read of another name once they are synced; and when the first one reported them.
pub(crate) fn within<J: Naming, K: Sink, R: Wait + Abort + Alloc<A = Global>>(
    rt: &R,
    shared: &Shared<J, K>,
    first: &mut Session<J>,
    second: &mut Session<J>,
) {
    let opened = second.mark();
    push(rt, shared, first, name_of(rt), 2);
    assert!(rt; opened < first.mark() && first.mark() < u64::MAX);
    expect_none(rt, second, opened, 1);
    expect_read(rt, second, opened, 2, 2);
    assert!(rt; second.mark() == first.mark());
    let synced = first.mark();
    push(rt, shared, first, other_name(rt), 1);
    expect_read(rt, second, synced, 2, 2);
    expect_read(rt, second, first.mark(), 2, 3);
    push(rt, shared, first, name_of(rt), 3);
    second.hear(rt, shared);
    assert!(rt; second.seen() == 3);
    first.tell(rt, shared);
    second.tell(rt, shared);
    second.hear(rt, shared);
    assert!(rt; second.seen() == 4 && second.mark() == first.mark());
}
