//! Equality of JSON values.

ghost use Rattle.std.specs.Prelude.{◌≡◌};
ghost use Rattle.serde_json.specs.View.{view, items_view, members_view, number_view};
ghost use Rattle.tfs_plan.specs.Same.{is_same, is_same_number, are_same_items, are_same_members};

use serde_json::{Map, Number, Value};

/// Returns true if two values are equal. A derived `==` of a type that has itself inside says
/// nothing.
#[cycle(is_same)]
pub(crate) fn is_same(one: &Value, other: &Value) -> bool
    ensures { result ≡ is_same (view one.now) (view other.now) }
{
    match (one, other) {
        (Value::Null, Value::Null) => true,
        (Value::Bool(one), Value::Bool(other)) => *one == *other,
        (Value::Number(one), Value::Number(other)) => is_same_number(one, other),
        (Value::String(one), Value::String(other)) => one.as_str() == other.as_str(),
        (Value::Array(one), Value::Array(other)) => are_same_items(one, other),
        (Value::Object(one), Value::Object(other)) => are_same_members(one, other),
        _ => false,
    }
}

/// Returns true if two numbers are equal.
fn is_same_number(one: &Number, other: &Number) -> bool
    ensures { result ≡ is_same_number (number_view one.now) (number_view other.now) }
{
    one == other
}

/// Returns true if two lists have equal elements.
#[cycle(is_same)]
fn are_same_items(one: &Vec<Value>, other: &Vec<Value>) -> bool
    ensures { result ≡ are_same_items (items_view one.now.items) (items_view other.now.items) }
{
    let mut rest = other.iter();
    for item in one {
        let Some(own) = rest.next() else {
            return false;
        };
        if !is_same(item, own) {
            return false;
        }
    }
    rest.next().is_none()
}

/// Returns true if two objects have equal members.
#[cycle(is_same)]
fn are_same_members(one: &Map<String, Value>, other: &Map<String, Value>) -> bool
    ensures { result ≡ are_same_members (members_view one.now.entries) (members_view other.now.entries) }
{
    let mut rest = other.iter();
    for (name, member) in one.iter() {
        let Some((own_name, own)) = rest.next() else {
            return false;
        };
        if name.as_str() != own_name.as_str() || !is_same(member, own) {
            return false;
        }
    }
    rest.next().is_none()
}
