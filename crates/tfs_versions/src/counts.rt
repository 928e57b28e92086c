//! Metrics of a journal, for monitoring.

ghost use Rattle.std.specs.Prelude.{◌≡◌, ◌≤◌, slice_get, IfOk};
ghost use Rattle.std.specs.Option.{option_map_or};
ghost use Rattle.tfs_records.specs.Journal.{names_of};
ghost use Rattle.tfs_versions.specs.Counts.{instances_at, lock_at, instances_of, locks_of, IsMeasured};

use crate::holding::oldest_lock;
use std::alloc::{AllocError, Global};
use tfs_records::Sink;
use tfs_rules::Name;
use tfs_table::Table;

/// The metrics of a journal.
#[derive(Drop)]
pub struct Measures {
    /// The size of its file in bytes.
    pub bytes: usize,
    pub entries: usize,
    pub position: u64,
    pub names: usize,
    pub instances: usize,
    pub locks: usize,
    /// The earliest time at which a lock that is held was taken, in seconds since 1970. Lock
    /// information without a valid time is ignored.
    pub oldest_lock: Option<i64>,
}

/// Returns the metrics of a table whose journal has a file of `bytes` bytes.
pub fn measure<K: Sink>(
    alloc: Global,
    bytes: usize,
    table: &Table<K>,
) -> Result<Measures, AllocError>
    ensures value { IfOk result (IsMeasured bytes table.now.journal) }
{
    Ok(Measures {
        bytes,
        entries: table.len(),
        position: table.position(),
        names: table.names(),
        instances: instances(table),
        locks: locks(table),
        oldest_lock: oldest_lock(alloc, table)?,
    })
}

/// Returns the number of instances in the states of all names of a table.
fn instances<K: Sink>(table: &Table<K>) -> usize
    ensures value { result ≡ instances_of table.now.journal }
{
    table.is_kept();
    let mut count = 0;
    for number in 0..table.names() {
        count += instances_numbered(table, number);
    }
    count
}

/// Returns the number of instances in the state of the name with this number, or 0 without such a
/// name.
fn instances_numbered<K: Sink>(table: &Table<K>, number: usize) -> usize
    ensures value { result ≡ option_map_or (instances_at table.now.journal) (slice_get (names_of table.now.journal) number) 0 }
    ensures most { result ≤ 4096 }
{
    match table.name(number) {
        Some(name) => instances_at(table, name),
        None => 0,
    }
}

/// Returns the number of instances in the state of a name, or 0 without a state.
fn instances_at<K: Sink>(table: &Table<K>, name: &Name) -> usize
    ensures value { result ≡ instances_at table.now.journal name.now }
    ensures most { result ≤ 4096 }
{
    match table.version(name) {
        Some(version) => version.doc().len(),
        None => 0,
    }
}

/// Returns the number of locks of a table that are held.
fn locks<K: Sink>(table: &Table<K>) -> usize
    ensures value { result ≡ locks_of table.now.journal }
{
    table.is_kept();
    let mut count = 0;
    for number in 0..table.names() {
        count += lock_numbered(table, number);
    }
    count
}

/// Returns 1 if the lock of the name with this number is held, and 0 otherwise.
fn lock_numbered<K: Sink>(table: &Table<K>, number: usize) -> usize
    ensures value { result ≡ option_map_or (lock_at table.now.journal) (slice_get (names_of table.now.journal) number) 0 }
    ensures most { result ≤ 1 }
{
    match table.name(number) {
        Some(name) => lock_at(table, name),
        None => 0,
    }
}

/// Returns 1 if the lock of a name is held, and 0 otherwise.
fn lock_at<K: Sink>(table: &Table<K>, name: &Name) -> usize
    ensures value { result ≡ lock_at table.now.journal name.now }
    ensures most { result ≤ 1 }
{
    match table.holder(name) {
        Some(_) => 1,
        None => 0,
    }
}
