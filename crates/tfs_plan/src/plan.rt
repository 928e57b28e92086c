//! Reads a plan.

ghost use Rattle.std.specs.Prelude.{◌≡◌, ◌≢◌, ◌++◌, ◌∷◌, [], map, codes, is_some, option_map, IfOk, OnOk, IfErr, Some};
ghost use Rattle.serde_json.specs.View.{view};
ghost use Rattle.tfs_json.specs.Json.{json_value, member_at, list_at, list_given, given};
ghost use Rattle.tfs_plan.specs.Plan.{IsPlan, HasChanges, AreChanges, is_plan, has_version, plan_fault, value_fault, first_fault};
ghost use Rattle.tfs_plan.specs.declared.fault.PlanFault.TheVariants.{NoMemory};

use crate::change::{Change, read_change};
use crate::fault::PlanFault;
use serde_json::Value;
use std::alloc::{AllocError, Global};

/// The maximum number of changes in a plan.
pub const MAX_CHANGES: usize = 65_536;

/// Reads the changes of a plan, in the order of its text. An update of attributes with the ignored
/// names alone is marked.
pub fn read_plan(alloc: Global, bytes: &[u8], ignored: &[&str]) -> Result<Vec<Change>, PlanFault>
    ensures ok { IfOk result (λ changes. IsPlan (map (λ t. t.now) ignored.now) bytes.now changes.items) }
    ensures err { IfErr result (λ fault. fault ≢ NoMemory → plan_fault bytes.now ≡ Some fault) }
{
    let value = value_in(alloc, bytes)?;
    read_value(alloc, &value, ignored)
}

/// Reads a JSON text.
fn value_in(alloc: Global, bytes: &[u8]) -> Result<Value, PlanFault>
    ensures ok { IfOk result (λ value. json_value bytes.now ≡ Some (view value)) }
    ensures err { IfErr result (λ fault. fault ≢ NoMemory → plan_fault bytes.now ≡ Some fault) }
{
    match Value::from_slice(alloc, bytes) {
        Ok(value) => Ok(value),
        Err(error) => {
            if error.is_memory() {
                Err(PlanFault::NoMemory)
            } else {
                Err(PlanFault::NotJson)
            }
        }
    }
}

/// Reads the changes of a plan's value.
fn read_value(alloc: Global, value: &Value, ignored: &[&str]) -> Result<Vec<Change>, PlanFault>
    ensures ok { IfOk result (λ changes. HasChanges (map (λ t. t.now) ignored.now) (view value.now) changes.items) }
    ensures err { IfErr result (λ fault. fault ≢ NoMemory → value_fault (view value.now) ≡ Some fault) }
{
    if !is_plan(value) {
        return Err(PlanFault::NotPlan);
    }
    let Some(list) = changes_in(value) else {
        return Err(PlanFault::Changes);
    };
    if list.len() > MAX_CHANGES {
        return Err(PlanFault::TooManyChanges);
    }
    read_changes(alloc, list, ignored)
}

/// Returns true if a value is a plan of format 1.
fn is_plan(value: &Value) -> bool
    ensures { result ≡ is_plan (view value.now) }
{
    has_version(value) && is_given(value, "planned_values")
}

/// Returns true if a value has the version of a plan of format 1.
fn has_version(value: &Value) -> bool
    ensures { result ≡ has_version (view value.now) }
{
    match value.get("format_version").and_then(Value::as_str) {
        Some(version) => version.as_bytes().starts_with(b"1."),
        None => false,
    }
}

/// Returns true if a value has a member that isn't null.
fn is_given(value: &Value, name: &str) -> bool
    ensures { result ≡ is_some (member_at name.now (view value.now)) }
{
    match value.get(name) {
        Some(member) => !member.is_null(),
        None => false,
    }
}

/// Returns the changes of a plan: no changes if the member is absent or null, and `None` if it
/// isn't a list.
fn changes_in(value: &Value) -> Option<&[Value]>
    ensures { option_map (λ list. map view list.now) result ≡ list_at (codes "resource_changes") (view value.now) }
{
    match value.get("resource_changes") {
        Some(member) => list_or_null(member),
        None => Some(&[]),
    }
}

/// Returns the elements of a list, and no elements of a null; `None` for any other value.
fn list_or_null(member: &Value) -> Option<&[Value]>
    ensures { option_map (λ list. map view list.now) result ≡ list_given (given (view member.now)) }
{
    match member {
        Value::Null => Some(&[]),
        Value::Array(list) => Some(list.as_slice()),
        Value::Bool(_) | Value::Number(_) | Value::String(_) | Value::Object(_) => None,
    }
}

/// Reads changes in order.
fn read_changes(alloc: Global, list: &[Value], ignored: &[&str]) -> Result<Vec<Change>, PlanFault>
    ensures ok { IfOk result (λ changes. AreChanges (map (λ t. t.now) ignored.now) (map view list.now) changes.items) }
    ensures err { IfErr result (λ fault. fault ≢ NoMemory → first_fault 0 (map view list.now) ≡ Some fault) }
{
    let mut changes = Vec::with_capacity(alloc, list.len())?;
    for (i, value) in list.iter().enumerate() {
        let change = read_change(alloc, value, i, ignored)?;
        keep(&mut changes, change)?;
    }
    Ok(changes)
}

/// Appends a change.
fn keep(changes: &mut Vec<Change>, change: Change) -> Result<(), AllocError>
    ensures { OnOk result (changes.new.items ≡ changes.old.items ++ change ∷ []) }
{
    changes.push(change)?;
    Ok(())
}
