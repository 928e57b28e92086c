//! Compacted tables: freed names, kept states and locks, and the limit of names.

use crate::drafts::{lock_of, push_of};
use std::alloc::Global;
use std::process::Abort;
use tfs_calls::{Bytes, Draft, Raw, Refusal};
use tfs_journal::End;
use tfs_records::{Discard, MemorySink};
use tfs_rules::Name;
use tfs_table::{MAX_NAMES, Table};

/// Returns the name of a number.
fn numbered(rt: &(impl Alloc<A = Global> + Abort), number: usize) -> Name {
    let text = format!(in rt.alloc(); "n{number}")
        .ok()
        .expect(rt, "a text");
    Name::read(text).expect(rt, "a name")
}

/// Returns a forced unlock.
fn unlock_of(rt: &(impl Alloc<A = Global> + Abort)) -> Draft {
    let body = Bytes::new(Vec::new(rt.alloc()));
    let draft = Draft::read(rt.alloc(), Raw::Unlock(body, None));
    draft.ok().expect(rt, "a draft")
}

/// Returns a table with as many names as fit. The first has a state, the next three have neither a
/// state nor a lock, and the others are locked.
fn full_table(rt: &(impl Alloc<A = Global> + Abort)) -> Table<Discard> {
    let mut table = Table::new(rt.alloc(), Discard).ok().expect(rt, "a table");
    for number in 0..MAX_NAMES {
        assert!(rt; table.apply(numbered(rt, number), lock_of(rt)).is_ok());
    }
    for number in 0..4 {
        assert!(rt; table.apply(numbered(rt, number), unlock_of(rt)).is_ok());
    }
    assert!(rt; table.apply(numbered(rt, 0), push_of(rt, 1)).is_ok());
    table
}

/// Checks that a table has the position of the full one, its states and locks, and three names
/// fewer.
fn expect_compacted(rt: &(impl Alloc<A = Global> + Abort), next: &Table<Discard>, position: u64) {
    assert!(rt; next.position() == position && next.len() == 0);
    assert!(rt; next.names() == MAX_NAMES - 3 && next.base().rows().len() == MAX_NAMES - 3);
    assert!(rt; next.state(&numbered(rt, 0)).is_ok() && next.holder(&numbered(rt, 0)).is_none());
    assert!(rt; next.number(&numbered(rt, 1)).is_none() && next.holder(&numbered(rt, 4)).is_some());
}

#[test]
fn a_compaction_makes_room_for_as_many_names_as_it_frees(rt: HostRuntime) {
    let table = full_table(&rt);
    let mut next = table.compact(Discard).ok().expect(&rt, "a table");
    expect_compacted(&rt, &next, table.position());
    for number in 0..3 {
        let name = numbered(&rt, MAX_NAMES + number);
        assert!(rt; next.apply(name, lock_of(&rt)).is_ok());
    }
    let refusal = next.apply(numbered(&rt, MAX_NAMES + 3), lock_of(&rt)).err();
    assert!(rt; matches!(refusal, Some(Refusal::TableFull)));
    assert!(rt; next.apply(numbered(&rt, 4), unlock_of(&rt)).is_ok());
}

#[test]
fn a_compacted_journal_opens(rt: HostRuntime) {
    let table = full_table(&rt);
    let sink = MemorySink::new(rt.alloc(), usize::MAX, u64::MAX);
    let next = table.compact(sink).ok().expect(&rt, "a table");
    let (opened, end) = Table::open(rt.alloc(), next.sink().bytes(), Discard)
        .ok()
        .expect(&rt, "a table");
    expect_compacted(&rt, &opened, table.position());
    assert!(rt; end == End::Whole);
}
