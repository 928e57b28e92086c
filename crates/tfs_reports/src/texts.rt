//! Texts from clients, as JSON values and as cells of a table.

ghost use Rattle.std.specs.Prelude.{◌≡◌, IfOk, string_bytes, chars};
ghost use Rattle.std.specs.List.{flat_map};
ghost use Rattle.serde_json.specs.Data.{string};
ghost use Rattle.serde_json.specs.View.{view};
ghost use Rattle.tfs_json.specs.Json.{text_at};
ghost use Rattle.tfs_printed.specs.Printed.{printed};
ghost use Rattle.tfs_reports.specs.Rows.{text_or_null};

use crate::duration::duration_text;
use serde_json::Value;
use std::alloc::{AllocError, Global};
use tfs_lock::Id;
use tfs_printed::push_printed;

/// Returns an identifier as JSON; null for none.
pub(crate) fn id_text(alloc: Global, id: &Option<Id>) -> Result<Value, AllocError>
    ensures { IfOk result (λ value. view value ≡ text_or_null id.now) }
{
    match id {
        Some(id) => Value::try_from_str(alloc, id.text()),
        None => Ok(Value::Null),
    }
}

/// Returns the text of a member; null if it is absent or isn't a text.
pub fn member(alloc: Global, members: &Value, name: &str) -> Result<Value, AllocError>
    ensures { IfOk result (λ value. view value ≡ text_or_null (text_at name.now (view members.now))) }
{
    match members.get(name).and_then(Value::as_str) {
        Some(found) => Value::try_from_str(alloc, found),
        None => Ok(Value::Null),
    }
}

/// Returns the text of a cell: an escaped text, a number, a list, other JSON, or a dash for null
/// and an absent member. The seconds in the column `held` become a duration.
pub(crate) fn cell(alloc: Global, row: &Value, column: &str) -> Result<String, AllocError> {
    if column == "held" {
        if let Some(seconds) = row.get(column).and_then(Value::as_u64) {
            return duration_text(alloc, seconds);
        }
    }
    match row.get(column) {
        Some(Value::String(text)) => text_cell(alloc, text.as_str()),
        Some(Value::Number(number)) => format!(in alloc; "{number}"),
        Some(Value::Array(items)) => list_cell(alloc, items),
        Some(Value::Null) | None => String::from_str(alloc, "-"),
        Some(value) => text_cell(alloc, value.to_string(alloc)?.as_str()),
    }
}

/// Returns a text with its unprintable characters escaped.
fn text_cell(alloc: Global, text: &str) -> Result<String, AllocError>
    ensures { IfOk result (λ shown. string_bytes shown ≡ flat_map printed (chars text.now)) }
{
    let mut shown = String::with_capacity(alloc, text.len())?;
    push_printed(&mut shown, text)?;
    Ok(shown)
}

/// Returns the items of a list, separated by commas and escaped, or a dash for an empty list.
fn list_cell(alloc: Global, items: &[Value]) -> Result<String, AllocError> {
    let mut shown = String::new(alloc);
    for item in items {
        if !shown.is_empty() {
            shown.push_str(", ")?;
        }
        match item {
            Value::String(text) => push_printed(&mut shown, text.as_str())?,
            value => push_printed(&mut shown, value.to_string(alloc)?.as_str())?,
        }
    }
    if shown.is_empty() {
        shown.push('-')?;
    }
    Ok(shown)
}
