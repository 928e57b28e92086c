//! Updates of ignored attributes alone.

ghost use Rattle.std.specs.Prelude.{◌≡◌, map, not};
ghost use Rattle.serde_json.specs.View.{view, items_view, members_view};
ghost use Rattle.serde_json.specs.Find.{get};
ghost use Rattle.tfs_plan.specs.Ignored.{is_ignored, is_only_ignored, keeps_others, are_known, is_kept, all_others, has_same, is_named, has_true, has_true_item, has_true_member};

use crate::action::Action;
use crate::same::is_same;
use serde_json::{Map, Value};

/// Returns true if a change is an update of ignored attributes alone.
pub(crate) fn is_ignored(action: Action, change: &Value, names: &[&str]) -> bool
    ensures { result ≡ is_ignored (map (λ t. t.now) names.now) action (view change.now) }
{
    match action {
        Action::Update => is_only_ignored(change, names),
        Action::NoOp
        | Action::Create
        | Action::Read
        | Action::Delete
        | Action::Replace
        | Action::Forget => false,
    }
}

/// Returns true if names are given, and the change has no other attribute whose value differs, or
/// isn't known yet.
fn is_only_ignored(change: &Value, names: &[&str]) -> bool
    ensures { result ≡ is_only_ignored (map (λ t. t.now) names.now) (view change.now) }
{
    if names.is_empty() {
        return false;
    }
    match change.get("change") {
        Some(change) => keeps_others(change, names),
        None => false,
    }
}

/// Returns true if a change has no other attribute than the ignored ones whose value differs, or
/// isn't known yet.
fn keeps_others(change: &Value, names: &[&str]) -> bool
    ensures { result ≡ keeps_others (map (λ t. t.now) names.now) (view change.now) }
{
    are_known(change, names)
        && is_kept(change, "before", "after", names)
        && is_kept(change, "after", "before", names)
}

/// Returns true if each attribute of one side of a change, except the ignored ones, is the same on
/// the other side.
fn is_kept(change: &Value, side: &str, other: &str, names: &[&str]) -> bool
    ensures { result ≡ is_kept (map (λ t. t.now) names.now) (get side.now (view change.now)) (get other.now (view change.now)) }
{
    let (Some(side), Some(other)) = (change.get(side), change.get(other)) else {
        return false;
    };
    match side.as_object() {
        Some(attributes) => are_kept(attributes, other, names),
        None => false,
    }
}

/// Returns true if each attribute, except the ignored ones, is the same on the other side.
fn are_kept(attributes: &Map<String, Value>, other: &Value, names: &[&str]) -> bool
    ensures { result ≡ all_others (has_same (view other.now)) (map (λ t. t.now) names.now) (members_view attributes.now.entries) }
{
    for (name, value) in attributes.iter() {
        if !is_named(names, name.as_str()) && !has_same(other, name.as_str(), value) {
            return false;
        }
    }
    true
}

/// Returns true if a value has an attribute with this name and value.
fn has_same(side: &Value, name: &str, value: &Value) -> bool
    ensures { result ≡ has_same (view side.now) name.now (view value.now) }
{
    match side.get(name) {
        Some(own) => is_same(own, value),
        None => false,
    }
}

/// Returns true if a name is in a list.
fn is_named(names: &[&str], name: &str) -> bool
    ensures { result ≡ is_named (map (λ t. t.now) names.now) name.now }
{
    for own in names {
        if *own == name {
            return true;
        }
    }
    false
}

/// Returns true if each attribute, except the ignored ones, is known before the plan is applied.
fn are_known(change: &Value, names: &[&str]) -> bool
    ensures { result ≡ are_known (map (λ t. t.now) names.now) (view change.now) }
{
    match change.get("after_unknown").and_then(Value::as_object) {
        Some(unknown) => have_no_true(unknown, names),
        None => false,
    }
}

/// Returns true if no attribute, except the ignored ones, is `true` or has one inside.
fn have_no_true(unknown: &Map<String, Value>, names: &[&str]) -> bool
    ensures { result ≡ all_others (λ name value. not (has_true value)) (map (λ t. t.now) names.now) (members_view unknown.now.entries) }
{
    for (name, value) in unknown.iter() {
        if !is_named(names, name.as_str()) && has_true(value) {
            return false;
        }
    }
    true
}

/// Returns true if a value is `true` or has one inside.
#[cycle(has_true)]
fn has_true(value: &Value) -> bool
    ensures { result ≡ has_true (view value.now) }
{
    match value {
        Value::Null | Value::Number(_) | Value::String(_) => false,
        Value::Bool(is) => *is,
        Value::Array(items) => has_true_item(items),
        Value::Object(members) => has_true_member(members),
    }
}

/// Returns true if an element of a list is `true` or has one inside.
#[cycle(has_true)]
fn has_true_item(items: &Vec<Value>) -> bool
    ensures { result ≡ has_true_item (items_view items.now.items) }
{
    for item in items {
        if has_true(item) {
            return true;
        }
    }
    false
}

/// Returns true if a member of an object is `true` or has one inside.
#[cycle(has_true)]
fn has_true_member(members: &Map<String, Value>) -> bool
    ensures { result ≡ has_true_member (members_view members.now.entries) }
{
    for (_, member) in members.iter() {
        if has_true(member) {
            return true;
        }
    }
    false
}
