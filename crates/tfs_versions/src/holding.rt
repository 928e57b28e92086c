//! The content of lock information, and the times at which locks were taken.

ghost use Rattle.std.specs.Prelude.{◌≡◌, Some, option_and_then, slice_get, IfOk};
ghost use Rattle.serde_json.specs.View.{view};
ghost use Rattle.tfs_json.specs.Json.{json_value};
ghost use Rattle.tfs_records.specs.Journal.{names_of};
ghost use Rattle.tfs_versions.specs.Holding.{seconds_of, created_at, taken_at, lock_times, IsEarliest, earlier};

use jiff::Timestamp;
use serde_json::Value;
use std::alloc::{AllocError, Global};
use std::str::FromStr;
use tfs_lock::LockInfo;
use tfs_records::Sink;
use tfs_rules::Name;
use tfs_table::Table;

/// Returns the content of lock information as a JSON value.
pub fn words_of(alloc: Global, info: &LockInfo) -> Result<Value, AllocError>
    ensures value { IfOk result (λ words. json_value info.now.bytes ≡ Some (view words)) }
{
    match Value::from_slice(alloc, info.bytes()) {
        Ok(words) => Ok(words),
        // Lock information is valid JSON, so the only possible error is lack of memory.
        Err(_) => Err(AllocError),
    }
}

/// Returns the earliest time at which a lock that is held was taken. Lock information without a
/// valid time is ignored.
pub(crate) fn oldest_lock<K: Sink>(
    alloc: Global,
    table: &Table<K>,
) -> Result<Option<i64>, AllocError>
    ensures { IfOk result (IsEarliest (lock_times table.now.journal)) }
{
    let mut oldest = None;
    for number in 0..table.names() {
        oldest = earlier(oldest, time_numbered(alloc, table, number)?);
    }
    Ok(oldest)
}

/// Returns the earlier of two times, or the known one if only one is known.
fn earlier(one: Option<i64>, other: Option<i64>) -> Option<i64>
    ensures { result ≡ earlier one other }
{
    match (one, other) {
        (Some(first), Some(second)) => Some(if second < first { second } else { first }),
        (Some(first), None) => Some(first),
        (None, other) => other,
    }
}

/// Returns the time at which the lock of the name with this number was taken, if it is held and its
/// information states a valid time.
fn time_numbered<K: Sink>(
    alloc: Global,
    table: &Table<K>,
    number: usize,
) -> Result<Option<i64>, AllocError>
    ensures { IfOk result (λ time. time
        ≡ option_and_then (taken_at table.now.journal) (slice_get (names_of table.now.journal) number)) }
{
    match table.name(number) {
        Some(name) => lock_time(alloc, table, name),
        None => Ok(None),
    }
}

/// Returns the time at which the lock of a name was taken, if it is held and its information states
/// a valid time.
fn lock_time<K: Sink>(
    alloc: Global,
    table: &Table<K>,
    name: &Name,
) -> Result<Option<i64>, AllocError>
    ensures { IfOk result (λ time. time ≡ taken_at table.now.journal name.now) }
{
    match table.holder(name) {
        Some(info) => created_at(alloc, info),
        None => Ok(None),
    }
}

/// Returns the time at which a lock was taken, by the member `Created` of its information.
pub fn created_at(alloc: Global, info: &LockInfo) -> Result<Option<i64>, AllocError>
    ensures value { IfOk result (λ time. time ≡ created_at info.now) }
{
    let words = words_of(alloc, info)?;
    match words.get("Created").and_then(Value::as_str) {
        Some(text) => Ok(seconds_of(text)),
        None => Ok(None),
    }
}

/// Returns the whole seconds since 1970 of a time (RFC 3339).
fn seconds_of(text: &str) -> Option<i64>
    ensures { result ≡ seconds_of text.now }
{
    match Timestamp::from_str(text) {
        Ok(time) => Some(time.as_second()),
        Err(_) => None,
    }
}
