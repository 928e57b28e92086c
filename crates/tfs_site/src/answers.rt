//! The answers about workspaces, as JSON.

ghost use Rattle.std.specs.Prelude.{◌≡◌, ◌++◌, codes, map, option_map, slice_get, string_bytes, IfOk, OnOk};
ghost use Rattle.std.specs.Option.{option_to_list};
ghost use Rattle.serde_json.specs.View.{view};
ghost use Rattle.tfs_json.specs.Json.{text_at};
ghost use Rattle.tfs_records.specs.Journal.{names_of};
ghost use Rattle.tfs_web_answers.specs.Readers.{rights_of};
ghost use Rattle.tfs_site.specs.Workspaces.{IsChangedRow, IsList, IsShown, IsTextOr, ShowAll, Shows, list_of};

use crate::reading::Present;
use serde_json::{Value, json};
use std::alloc::{AllocError, Global};
use tfs_lock::LockInfo;
use tfs_records::Discard;
use tfs_reports::{Record, member, workspace_row};
use tfs_rules::{Act, Name};
use tfs_table::Table;
use tfs_versions::{last_change, words_of};
use tfs_web_answers::Reader;

/// Returns the workspaces that a reader may read, and the journal's position.
pub(crate) fn workspaces_text(
    alloc: Global,
    present: &Present,
    reader: &mut Reader<'_>,
    now: Option<i64>,
) -> Result<String, AllocError>
    ensures { IfOk result (λ text. IsList (rights_of reader.old) present.now.newest.table.journal now (string_bytes text)) }
{
    let rows = readable_rows(alloc, present, reader, now)?;
    let list = list_of(alloc, rows, present.newest.table.position())?;
    list.to_string(alloc)
}

/// Returns the answer with these rows.
fn list_of(alloc: Global, rows: Vec<Value>, position: u64) -> Result<Value, AllocError>
    ensures { IfOk result (λ list. view list ≡ list_of (map view rows.items) position) }
{
    json!(in alloc; {"position": position, "workspaces": rows})
}

/// Returns the rows of the workspaces that a reader may read, in the table's order.
fn readable_rows(
    alloc: Global,
    present: &Present,
    reader: &mut Reader<'_>,
    now: Option<i64>,
) -> Result<Vec<Value>, AllocError>
    ensures { IfOk result (λ rows. ShowAll (rights_of reader.old) present.now.newest.table.journal now
        (names_of present.now.newest.table.journal) (map view rows.items)) }
{
    let mut rows = Vec::with_capacity(alloc, present.newest.table.names())?;
    for number in 0..present.newest.table.names() {
        let row = row_at(alloc, present, reader, number, now)?;
        push_some(&mut rows, row)?;
    }
    Ok(rows)
}

/// Adds a row, if there is one.
fn push_some(rows: &mut Vec<Value>, row: Option<Value>) -> Result<(), AllocError>
    ensures { OnOk result (map view rows.new.items
        ≡ map view rows.old.items ++ option_to_list (option_map view row)) }
{
    if let Some(row) = row {
        rows.push(row)?;
    }
    Ok(())
}

/// Returns the row of the workspace with a number, if the reader may read it.
fn row_at(
    alloc: Global,
    present: &Present,
    reader: &mut Reader<'_>,
    number: usize,
    now: Option<i64>,
) -> Result<Option<Value>, AllocError>
    ensures row { IfOk result (λ row. ShowAll (rights_of reader.old) present.now.newest.table.journal now
        (option_to_list (slice_get (names_of present.now.newest.table.journal) number))
        (option_to_list (option_map view row))) }
    ensures rights { rights_of reader.new ≡ rights_of reader.old }
{
    match present.newest.table.name(number) {
        Some(name) => row_for(alloc, present, reader, name, now),
        None => Ok(None),
    }
}

/// Returns the row of a workspace, if the reader may read it.
fn row_for(
    alloc: Global,
    present: &Present,
    reader: &mut Reader<'_>,
    name: &Name,
    now: Option<i64>,
) -> Result<Option<Value>, AllocError>
    ensures row { IfOk result (λ row. Shows (rights_of reader.old) present.now.newest.table.journal now name.now
        (option_to_list (option_map view row))) }
    ensures rights { rights_of reader.new ≡ rights_of reader.old }
{
    if reader.may_read(alloc, name)? {
        Ok(Some(changed_row(alloc, present, name, now)?))
    } else {
        Ok(None)
    }
}

/// Returns the row of a workspace, with who made its last change and when: by the log of clients, or
/// else by the lock for the change, as far as they are known.
pub(crate) fn changed_row(
    alloc: Global,
    present: &Present,
    name: &Name,
    now: Option<i64>,
) -> Result<Value, AllocError>
    ensures { IfOk result (λ row. IsShown name.now present.now.newest.table.journal now (view row)) }
{
    let table = &present.newest.table;
    let row = workspace_row(alloc, table, name, now)?;
    let words = words_of_change(alloc, table, name)?;
    let record = record_of_change(present, name);
    row_with(alloc, row, &words, record)
}

/// Returns the log record of a workspace's last change, if there is one.
fn record_of_change<'p>(present: &'p Present, name: &Name) -> Option<&'p Record> {
    present
        .records
        .at(last_change(&present.newest.table, name)?)
}

/// Returns the members of the lock information under which a workspace was changed last; null if
/// it isn't known.
fn words_of_change(
    alloc: Global,
    table: &Table<Discard>,
    name: &Name,
) -> Result<Value, AllocError> {
    match lock_of_last_change(table, name) {
        Some(info) => words_of(alloc, info),
        None => Ok(Value::Null),
    }
}

/// Returns a row with who made a change and when.
fn row_with(
    alloc: Global,
    row: Value,
    words: &Value,
    record: Option<&Record>,
) -> Result<Value, AllocError>
    ensures { IfOk result (λ value. IsChangedRow (view row) (view words.now) (view value)) }
{
    let client = client_of(alloc, record, words)?;
    let time = time_of(alloc, record, words)?;
    json!(in alloc; {"workspace": row, "changed_by": client, "changed_at": time})
}

/// Returns who made a change: by its record, or else by lock information.
fn client_of(alloc: Global, record: Option<&Record>, words: &Value) -> Result<Value, AllocError>
    ensures { IfOk result (λ value. IsTextOr (text_at (codes "Who") (view words.now)) (view value)) }
{
    match record.and_then(Record::client) {
        Some(client) => Value::try_from_str(alloc, client),
        None => member(alloc, words, "Who"),
    }
}

/// Returns when a change was made: by its record, or else when the lock for it was taken.
fn time_of(alloc: Global, record: Option<&Record>, words: &Value) -> Result<Value, AllocError>
    ensures { IfOk result (λ value. IsTextOr (text_at (codes "Created") (view words.now)) (view value)) }
{
    if let Some(record) = record {
        if let Some(time) = record.time(alloc)? {
            return Ok(Value::String(time));
        }
    }
    member(alloc, words, "Created")
}

/// Returns the lock under which a workspace was changed last, if the newest journal has it. None
/// after a forced unlock, because another user may have made it.
fn lock_of_last_change<'t>(table: &'t Table<Discard>, name: &Name) -> Option<&'t LockInfo> {
    let mut is_last = true;
    for back in 0..table.len() {
        let entry = table.entry(table.len() - 1 - back);
        if entry.name.text() == name.text() {
            match &entry.act {
                Act::Lock(info) => return Some(&**info),
                Act::Unlock(id) => {
                    if id.is_none() || !is_last {
                        return None;
                    }
                }
                Act::Push(_, _) | Act::Delete(_) => {}
            }
            is_last = false;
        }
    }
    if is_last {
        None
    } else {
        base_holder(table, name)
    }
}

/// Returns the lock that a workspace had at the base of the newest journal.
fn base_holder<'t>(table: &'t Table<Discard>, name: &Name) -> Option<&'t LockInfo> {
    for row in table.base().rows() {
        if row.name.text() == name.text() {
            return match &row.holder {
                Some(info) => Some(&**info),
                None => None,
            };
        }
    }
    None
}

/// Returns a workspace with its history: rows of JSON, newest first.
pub(crate) fn history_text(
    alloc: Global,
    row: Option<&Value>,
    acts: &[String],
) -> Result<String, AllocError> {
    let mut text = String::from_str(alloc, "{\"current\":")?;
    match row {
        Some(row) => text.push_str(row.to_string(alloc)?.as_str())?,
        None => text.push_str("null")?,
    }
    text.push_str(",\"acts\":[")?;
    for (number, act) in acts.iter().enumerate() {
        if 0 < number {
            text.push(',')?;
        }
        text.push_str(act.as_str())?;
    }
    text.push_str("]}")?;
    Ok(text)
}
