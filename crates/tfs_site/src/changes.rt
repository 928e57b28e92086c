//! The changes between two states, as JSON.

ghost use Rattle.std.specs.Prelude.{◌≡◌, ◌++◌, ◌∷◌, [], map, string_bytes, IfOk, OnOk};
ghost use Rattle.serde_json.specs.View.{view};
ghost use Rattle.tfs_site.specs.Changes.{change_row, changes_of, changes_text, word_of};

use serde_json::{Value, json};
use std::alloc::{AllocError, Global};
use tfs_versions::{Change, ChangeKind};

/// Returns the changes between two states: for each the kind and the address of the instance, and
/// no attribute.
pub(crate) fn changes_text(alloc: Global, changes: &[Change]) -> Result<String, AllocError>
    ensures { IfOk result (λ text. string_bytes text ≡ changes_text changes.now) }
{
    let rows = change_rows(alloc, changes)?;
    let answer = changes_of(alloc, rows)?;
    answer.to_string(alloc)
}

/// Returns the answer with these rows.
fn changes_of(alloc: Global, rows: Vec<Value>) -> Result<Value, AllocError>
    ensures { IfOk result (λ answer. view answer ≡ changes_of (map view rows.items)) }
{
    json!(in alloc; {"changes": rows})
}

/// Returns the rows of changes.
fn change_rows(alloc: Global, changes: &[Change]) -> Result<Vec<Value>, AllocError>
    ensures { IfOk result (λ rows. map view rows.items ≡ map change_row changes.now) }
{
    let mut rows = Vec::with_capacity(alloc, changes.len())?;
    for change in changes {
        push_change(alloc, &mut rows, change)?;
    }
    Ok(rows)
}

/// Adds the row of a change.
fn push_change(alloc: Global, rows: &mut Vec<Value>, change: &Change) -> Result<(), AllocError>
    ensures { OnOk result (map view rows.new.items ≡ map view rows.old.items ++ change_row change.now ∷ []) }
{
    rows.push(change_row(alloc, change)?)?;
    Ok(())
}

/// Returns the row of a change: its kind and the address of the instance.
fn change_row(alloc: Global, change: &Change) -> Result<Value, AllocError>
    ensures { IfOk result (λ row. view row ≡ change_row change.now) }
{
    json!(in alloc; {"change": word_of(change.kind), "instance": change.address.as_str()})
}

/// Returns the word for a kind of change.
fn word_of(kind: ChangeKind) -> &'static str
    ensures { result.now ≡ word_of kind }
{
    match kind {
        ChangeKind::Added => "added",
        ChangeKind::Removed => "removed",
        ChangeKind::Changed => "changed",
    }
}
