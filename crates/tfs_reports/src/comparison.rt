//! The differences between two versions of a workspace's state.

ghost use Rattle.std.specs.Prelude.{◌≡◌, ◌++◌, ◌∷◌, [], map, Some, IfOk, OnOk};
ghost use Rattle.serde_json.specs.Data.{string, array};
ghost use Rattle.serde_json.specs.View.{view, items_of};
ghost use Rattle.tfs_json.specs.Json.{json_value};
ghost use Rattle.tfs_reports.specs.Comparison.{change_row, instance_row, word_of};
ghost use Rattle.tfs_reports.specs.Comparison.{difference_row, value_row, value_of};

use crate::acts::name_of;
use crate::fault::ReportEnd;
use crate::report::{Layout, Report};
use crate::times::At;
use crate::versions::version_of;
use serde_json::{Value, json};
use std::alloc::{AllocError, Global};
use tfs_versions::{Change, ChangeKind, Difference, diff};

/// The columns of a report with a row for each instance.
const COLUMNS: &[&str] = &["change", "instance", "attributes"];

/// The columns of a report with a row for each attribute.
const VALUE_COLUMNS: &[&str] = &["change", "instance", "attribute", "from", "to"];

/// The options of `diff`.
#[derive(Clone, Copy)]
pub struct Comparison {
    /// The position or time of the first version.
    pub from: At,
    /// The position or time of the second version.
    pub to: At,
    /// Whether to print a row with both values for each attribute.
    pub has_values: bool,
    /// Whether to print JSON instead of a table.
    pub is_json: bool,
}

/// Prints the instances that were removed, changed or added between two versions of a workspace.
pub fn print_diff(
    rt: &HostRuntime,
    folder: &str,
    name: &str,
    comparison: Comparison,
) -> Result<(), ReportEnd> {
    let name = name_of(rt.alloc(), name)?;
    let old = version_of(rt, folder, &name, comparison.from)?;
    let new = version_of(rt, folder, &name, comparison.to)?;
    let changes = diff(rt.alloc(), &old, &new)?;
    report_of(rt.alloc(), changes.as_slice(), comparison)?.print(rt)
}

/// Returns a report with the rows of the changes.
fn report_of(
    alloc: Global,
    changes: &[Change],
    comparison: Comparison,
) -> Result<Report, AllocError> {
    let columns = if comparison.has_values {
        VALUE_COLUMNS
    } else {
        COLUMNS
    };
    let mut report = Report::new(alloc, columns, Layout::of(comparison.is_json))?;
    for change in changes {
        if comparison.has_values {
            add_values(alloc, &mut report, change)?;
        } else {
            report.add(alloc, &change_row(alloc, change)?)?;
        }
    }
    Ok(report)
}

/// Adds a row for each attribute of a change, or one row if it has none.
fn add_values(alloc: Global, report: &mut Report, change: &Change) -> Result<(), AllocError> {
    if change.attributes.is_empty() {
        return report.add(alloc, &instance_row(alloc, change)?);
    }
    for difference in &change.attributes {
        report.add(alloc, &difference_row(alloc, change, difference)?)?;
    }
    Ok(())
}

/// Returns the row of a change with the names of its attributes.
fn change_row(alloc: Global, change: &Change) -> Result<Value, AllocError>
    ensures { IfOk result (λ row. view row ≡ change_row change.now) }
{
    json!(in alloc; {"change": word_of(change.kind), "instance": change.address.as_str(),
        "attributes": names_of(alloc, &change.attributes)?})
}

/// Returns the row of a change without attributes.
fn instance_row(alloc: Global, change: &Change) -> Result<Value, AllocError>
    ensures { IfOk result (λ row. view row ≡ instance_row change.now) }
{
    json!(in alloc; {"change": word_of(change.kind), "instance": change.address.as_str(),
        "attribute": Value::Null, "from": Value::Null, "to": Value::Null})
}

/// Returns the row of an attribute of a change.
fn difference_row(
    alloc: Global,
    change: &Change,
    difference: &Difference,
) -> Result<Value, AllocError>
    ensures { IfOk result (λ row. difference_row change.now difference.now ≡ Some (view row)) }
{
    let from = value_of(alloc, &difference.from)?;
    let to = value_of(alloc, &difference.to)?;
    let name = Value::try_from_str(alloc, difference.name.as_str())?;
    value_row(alloc, change, name, from, to)
}

/// Returns the row of an attribute of a change from its name and its two values.
fn value_row(
    alloc: Global,
    change: &Change,
    name: Value,
    from: Value,
    to: Value,
) -> Result<Value, AllocError>
    ensures { IfOk result (λ row. view row
        ≡ value_row change.now (view name) (view from) (view to)) }
{
    json!(in alloc; {"change": word_of(change.kind), "instance": change.address.as_str(),
        "attribute": name, "from": from, "to": to})
}

/// Returns the value of a JSON text, or null for the empty one.
fn value_of(alloc: Global, text: &[u8]) -> Result<Value, AllocError>
    ensures { IfOk result (λ value. value_of text.now ≡ Some (view value)) }
{
    if text.is_empty() {
        Ok(Value::Null)
    } else {
        value_in(alloc, text)
    }
}

/// Returns the value of a JSON text.
fn value_in(alloc: Global, text: &[u8]) -> Result<Value, AllocError>
    ensures { IfOk result (λ value. json_value text.now ≡ Some (view value)) }
{
    match Value::from_slice(alloc, text) {
        Ok(value) => Ok(value),
        // The text is valid JSON, so the only possible error is lack of memory.
        Err(_) => Err(AllocError),
    }
}

/// Returns the names of attributes as JSON.
fn names_of(alloc: Global, differences: &[Difference]) -> Result<Value, AllocError>
    ensures { IfOk result (λ names. view names
        ≡ array (items_of (map (λ d. string d.name) differences.now))) }
{
    let names = name_values(alloc, differences)?;
    Ok(Value::Array(names))
}

/// Returns the name of each attribute as a JSON text.
fn name_values(alloc: Global, differences: &[Difference]) -> Result<Vec<Value>, AllocError>
    ensures { IfOk result (λ names. map view names.items
        ≡ map (λ d. string d.name) differences.now) }
{
    let mut names = Vec::with_capacity(alloc, differences.len())?;
    for difference in differences {
        push_name(alloc, &mut names, difference)?;
    }
    Ok(names)
}

/// Adds the name of an attribute as a JSON text.
fn push_name(
    alloc: Global,
    names: &mut Vec<Value>,
    difference: &Difference,
) -> Result<(), AllocError>
    ensures { OnOk result (map view names.new.items
        ≡ map view names.old.items ++ string difference.now.name ∷ []) }
{
    names.push(Value::try_from_str(alloc, difference.name.as_str())?)?;
    Ok(())
}

/// Returns the word for a kind of change.
fn word_of(kind: ChangeKind) -> &'static str
    ensures { result.now ≡ word_of kind }
{
    match kind {
        ChangeKind::Added => "added",
        ChangeKind::Removed => "removed",
        ChangeKind::Changed => "changed",
    }
}
