//! A change of a plan.

ghost use Rattle.std.specs.Prelude.{◌≡◌, ◌≢◌, map, option_map, option_copied, string_bytes, IfOk, IfErr, Some};
ghost use Rattle.serde_json.specs.View.{view};
ghost use Rattle.tfs_json.specs.Json.{text_at, optional_text_at, text_given, given};
ghost use Rattle.tfs_plan.specs.Plan.{IsChangeOf, change_fault};
ghost use Rattle.tfs_plan.specs.declared.fault.PlanFault.TheVariants.{NoMemory};

use crate::action::{Action, action_of};
use crate::fault::PlanFault;
use crate::ignored::is_ignored;
use serde_json::Value;
use std::alloc::{AllocError, Global};
use std::marker::Model;

/// A change of a plan: what it does with an instance.
#[derive(Drop)]
pub struct Change {
    address: String,
    previous: Option<String>,
    is_deposed: bool,
    action: Action,
    is_ignored: bool,
}

impl Model for Change {
    ghost use Rattle.std.specs.Prelude.{option_map, string_bytes};
    ghost use Rattle.tfs_plan.specs.Plan.{ChangeValue};

    ghost Value = { ChangeValue };

    ghost view = { λ c. record {
      address = string_bytes c.address;
      previous = option_map string_bytes c.previous;
      deposed = c.is_deposed;
      action = c.action;
      ignored = c.is_ignored;
    } };
}

impl Change {
    /// Returns the instance's address in the plan.
    pub fn address(&self) -> &str
        ensures value { result.now ≡ self.now.address }
    {
        self.address.as_str()
    }

    /// Returns the address that the instance had before a move, if it is moved.
    pub fn previous(&self) -> Option<&str>
        ensures value { option_copied result ≡ self.now.previous }
    {
        match &self.previous {
            Some(previous) => Some(previous.as_str()),
            None => None,
        }
    }

    /// Returns true if the change is that of an object that was replaced earlier and is still to
    /// be destroyed.
    pub fn is_deposed(&self) -> bool
        ensures value { result ≡ self.now.deposed }
    {
        self.is_deposed
    }

    /// Returns what the plan does with the instance.
    pub fn action(&self) -> Action
        ensures value { result ≡ self.now.action }
    {
        self.action
    }

    /// Returns true if the change is an update of ignored attributes alone.
    pub fn is_ignored(&self) -> bool
        ensures value { result ≡ self.now.ignored }
    {
        self.is_ignored
    }
}

/// Reads change `i` of a plan.
pub(crate) fn read_change(
    alloc: Global,
    value: &Value,
    i: usize,
    ignored: &[&str],
) -> Result<Change, PlanFault>
    ensures ok { IfOk result (λ c. IsChangeOf (map (λ t. t.now) ignored.now) (view value.now) c) }
    ensures err { IfErr result (λ fault. fault ≢ NoMemory → change_fault i (view value.now) ≡ Some fault) }
{
    let Some(address) = value.get("address").and_then(Value::as_str) else {
        return Err(PlanFault::Address(i));
    };
    let Some(previous) = text_given(value, "previous_address") else {
        return Err(PlanFault::PreviousAddress(i));
    };
    let Some(deposed) = text_given(value, "deposed") else {
        return Err(PlanFault::Deposed(i));
    };
    let Some(action) = action_of(value) else {
        return Err(PlanFault::Actions(i));
    };
    Ok(Change {
        address: String::from_str(alloc, address)?,
        previous: copy_of(alloc, previous)?,
        is_deposed: deposed.is_some(),
        action,
        is_ignored: is_ignored(action, value, ignored),
    })
}

/// Returns the text of a member that may be absent or null: `None` if it isn't a text.
fn text_given<'v>(value: &'v Value, name: &str) -> Option<Option<&'v str>>
    ensures { option_map option_copied result ≡ optional_text_at name.now (view value.now) }
{
    match value.get(name) {
        Some(member) => text_or_null(member),
        None => Some(None),
    }
}

/// Returns the text of a value, or none for a null: `None` if it is neither.
fn text_or_null(member: &Value) -> Option<Option<&str>>
    ensures { option_map option_copied result ≡ text_given (given (view member.now)) }
{
    match member {
        Value::Null => Some(None),
        Value::String(text) => Some(Some(text.as_str())),
        Value::Bool(_) | Value::Number(_) | Value::Array(_) | Value::Object(_) => None,
    }
}

/// Copies a text, if there is one.
fn copy_of(alloc: Global, text: Option<&str>) -> Result<Option<String>, AllocError>
    ensures { IfOk result (λ copy. option_map string_bytes copy ≡ option_copied text.entry) }
{
    match text {
        Some(text) => Ok(Some(String::from_str(alloc, text)?)),
        None => Ok(None),
    }
}
