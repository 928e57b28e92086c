//! Stopped tables that continue in a new journal.

use crate::drafts::{lock_of, name_of};
use std::alloc::Global;
use tfs_journal::End;
use tfs_records::{Discard, MemorySink};
use tfs_table::Table;

/// Returns true if bytes open as a complete journal at position 0.
fn is_opened(alloc: Global, bytes: &[u8]) -> bool {
    match Table::open(alloc, bytes, Discard) {
        Ok((table, end)) => table.position() == 0 && end == End::Whole,
        Err(_) => false,
    }
}

/// Returns true if a table is rebased to position 0, and the new journal opens.
fn is_rebased(alloc: Global, table: &Table<MemorySink>) -> bool {
    match table.rebase(MemorySink::new(alloc, usize::MAX, 1)) {
        Ok(rebased) => is_opened(alloc, rebased.sink().bytes()),
        Err(_) => false,
    }
}

#[test]
fn a_stopped_table_is_rebased(rt: HostRuntime) {
    let sink = MemorySink::new(rt.alloc(), usize::MAX, 1);
    let mut table = Table::new(rt.alloc(), sink).ok().expect(&rt, "a table");
    assert!(rt; table.apply(name_of(&rt), lock_of(&rt)).is_err() && table.stopped());
    assert!(rt; is_rebased(rt.alloc(), &table));
}
