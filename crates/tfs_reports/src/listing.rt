//! The workspaces of a folder: the state of each, and who holds its lock.

ghost use Rattle.std.specs.Prelude.{◌≡◌, List, ℕ, length, option_and_then, option_map, IfOk};
ghost use Rattle.serde_json.specs.View.{view};
ghost use Rattle.tfs_json.specs.Json.{text_at};
ghost use Rattle.tfs_rules.specs.History.{state_of, holder_of};
ghost use Rattle.tfs_records.specs.Journal.{acts_of};
ghost use Rattle.tfs_versions.specs.Changed.{IsLastChange};
ghost use Rattle.tfs_versions.specs.Holding.{word_at, taken_at};
ghost use Rattle.tfs_reports.specs.Clock.{age_of};
ghost use Rattle.tfs_reports.specs.Rows.{IsListed, name_row, whole_or_null};

use crate::clients::{records_at, with_record};
use crate::clock::{age_of, seconds_now};
use crate::fault::ReportEnd;
use crate::files::newest_journal;
use crate::kept::{missing_in, tell_missing, with_kept_from};
use crate::names::names_of;
use crate::report::{Layout, Report};
use crate::texts::member;
use serde_json::{Value, json};
use std::alloc::{AllocError, Global};
use tfs_records::Discard;
use tfs_rules::Name;
use tfs_table::Table;
use tfs_versions::{created_at, last_change, words_of};

const COLUMNS: &[&str] = &[
    "name",
    "serial",
    "instances",
    "bytes",
    "changed",
    "time",
    "address",
    "user",
    "holder",
    "who",
    "operation",
    "created",
    "held",
];

/// The options of `list`.
#[derive(Clone, Copy)]
pub struct Listing {
    /// Whether to print JSON instead of a table.
    pub is_json: bool,
    /// Whether to list only locked workspaces.
    pub is_held_only: bool,
}

/// Prints the state, the last change and the lock holder of each workspace, or only of the locked
/// ones, of the newest journal of a folder, by name. Unless versions are kept from position 0 on,
/// the first position is reported: in each row of JSON (`kept_from`), or on standard error for a
/// table and for an answer without rows.
pub fn list(rt: &HostRuntime, folder: &str, listing: Listing) -> Result<(), ReportEnd> {
    let missing = missing_in(rt, folder);
    let newest = newest_journal(rt, folder)?;
    let from = match missing {
        Some(missing) => missing.end,
        None => 0,
    };
    let now = seconds_now(rt);
    let rows = rows_of(rt.alloc(), &newest.table, listing, now)?;
    let report = report_of(rt, folder, rows, listing, from)?;
    let is_empty = report.is_empty();
    report.print(rt)?;
    if let Some(missing) = missing {
        if !listing.is_json || is_empty {
            let _ = tell_missing(rt, folder, missing);
        }
    }
    Ok(())
}

/// Returns a row for each listed workspace, by name.
fn rows_of(
    alloc: Global,
    table: &Table<Discard>,
    listing: Listing,
    now: Option<i64>,
) -> Result<Vec<Value>, AllocError> {
    let mut rows = Vec::new(alloc);
    for text in names_of(alloc, table, listing.is_held_only)? {
        if let Some(name) = Name::read(text) {
            rows.push(workspace_row(alloc, table, &name, now)?)?;
        }
    }
    Ok(rows)
}

/// Returns the report of these rows, with the record of each last change, and the position from
/// which on versions are kept.
fn report_of(
    rt: &HostRuntime,
    folder: &str,
    rows: Vec<Value>,
    listing: Listing,
    from: u64,
) -> Result<Report, ReportEnd> {
    let alloc = rt.alloc();
    let records = records_at(rt, folder, changes_in(alloc, rows.as_slice())?)?;
    let mut report = Report::new(alloc, COLUMNS, Layout::of(listing.is_json))?;
    for row in rows {
        let record = match change_in(&row) {
            Some(position) => records.at(position),
            None => None,
        };
        let row = with_kept_from(alloc, with_record(alloc, row, record)?, from)?;
        report.add(alloc, &row)?;
    }
    Ok(report)
}

/// Returns the positions of the last changes in rows.
fn changes_in(alloc: Global, rows: &[Value]) -> Result<Vec<u64>, AllocError> {
    let mut positions = Vec::with_capacity(alloc, rows.len())?;
    for row in rows {
        if let Some(position) = change_in(row) {
            positions.push(position)?;
        }
    }
    Ok(positions)
}

/// Returns the position of the last change in a row, if it is known.
fn change_in(row: &Value) -> Option<u64> {
    row.get("changed").and_then(Value::as_u64)
}

/// The position of a workspace's last change, and the age of its lock in seconds, if they are
/// known.
#[derive(Clone, Copy)]
struct Times {
    changed: Option<u64>,
    held: Option<u64>,
}

/// Returns the position of a workspace's last change, and the age of its lock at this time.
fn times_of(
    alloc: Global,
    table: &Table<Discard>,
    name: &Name,
    now: Option<i64>,
) -> Result<Times, AllocError>
    ensures changed { IfOk result (λ times. IsLastChange name.now table.now.journal times.changed) }
    ensures held { IfOk result (λ times. times.held
        ≡ age_of now (taken_at table.now.journal name.now)) }
{
    let held = age_of(now, taken_at(alloc, table, name)?);
    let changed = last_change(table, name);
    Ok(Times { changed, held })
}

/// Returns the row of a workspace at this time: its state, its last change and its lock holder.
pub fn workspace_row(
    alloc: Global,
    table: &Table<Discard>,
    name: &Name,
    now: Option<i64>,
) -> Result<Value, AllocError>
    ensures { IfOk result (λ row. IsListed name.now table.now.journal now (view row)) }
{
    let holder = words_at(alloc, table, name)?;
    let times = times_of(alloc, table, name, now)?;
    standing_row(alloc, table, name, &holder, times)
}

/// Returns the row of a workspace whose lock information has these members, with these times.
fn standing_row(
    alloc: Global,
    table: &Table<Discard>,
    name: &Name,
    holder: &Value,
    times: Times,
) -> Result<Value, AllocError>
    requires { (at : List ℕ) → text_at at (view holder.now)
        ≡ option_and_then (word_at at) (holder_of (acts_of name.now table.now.journal)) }
    ensures { IfOk result (λ row. view row
        ≡ name_row table.now.journal name.now times.changed times.held) }
{
    let (serial, instances, bytes) = numbers_of(table, name);
    let Times { changed, held } = times;
    json!(in alloc; {"name": name.text(), "serial": whole(serial), "instances": whole(instances),
        "bytes": whole(bytes), "changed": whole(changed), "holder": member(alloc, holder, "ID")?,
        "who": member(alloc, holder, "Who")?, "operation": member(alloc, holder, "Operation")?,
        "created": member(alloc, holder, "Created")?, "held": whole(held)})
}

/// Returns the time at which the lock of a workspace was taken, if it is held and its information
/// states a valid time.
fn taken_at(alloc: Global, table: &Table<Discard>, name: &Name) -> Result<Option<i64>, AllocError>
    ensures { IfOk result (λ time. time ≡ taken_at table.now.journal name.now) }
{
    match table.holder(name) {
        Some(info) => created_at(alloc, info),
        None => Ok(None),
    }
}

/// Returns the members of a workspace's lock information; null if nobody holds the lock.
fn words_at(alloc: Global, table: &Table<Discard>, name: &Name) -> Result<Value, AllocError>
    ensures { IfOk result (λ words. (at : List ℕ) → text_at at (view words)
        ≡ option_and_then (word_at at) (holder_of (acts_of name.now table.now.journal))) }
{
    match table.holder(name) {
        Some(info) => words_of(alloc, info),
        None => Ok(Value::Null),
    }
}

/// Returns the serial, the number of instances and the length in bytes of a workspace's state; none
/// without a state.
fn numbers_of(table: &Table<Discard>, name: &Name) -> (Option<u64>, Option<u64>, Option<u64>)
    ensures serial { result.0 ≡ option_map (λ d. d.serial) (state_of (acts_of name.now table.now.journal)) }
    ensures instances { result.1 ≡ option_map (λ d. length d.instances) (state_of (acts_of name.now table.now.journal)) }
    ensures bytes { result.2 ≡ option_map (λ d. length d.bytes) (state_of (acts_of name.now table.now.journal)) }
{
    match table.version(name) {
        Some(version) => {
            let doc = version.doc();
            let (instances, bytes) = (doc.len() as u64, doc.bytes().len() as u64);
            (Some(doc.serial()), Some(instances), Some(bytes))
        }
        None => (None, None, None),
    }
}

/// Returns a number as JSON; null for none.
fn whole(number: Option<u64>) -> Value
    ensures { view result ≡ whole_or_null number }
{
    match number {
        Some(number) => Value::from(number),
        None => Value::Null,
    }
}
