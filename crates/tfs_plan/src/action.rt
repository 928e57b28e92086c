//! What a plan does with an instance.

ghost use Rattle.std.specs.Prelude.{◌≡◌};
ghost use Rattle.serde_json.specs.View.{view, items_view};
ghost use Rattle.tfs_plan.specs.Plan.{action_at, action_in, action_named, action_of_both};

use serde_json::Value;

/// What a plan does with an instance.
#[derive(Clone, Copy, Debug, PartialEq, Eq)]
pub enum Action {
    /// Nothing.
    NoOp,
    /// Creates it.
    Create,
    /// Reads a data source.
    Read,
    /// Updates it in place.
    Update,
    /// Destroys it.
    Delete,
    /// Destroys it, and creates it anew; the order may be the other one.
    Replace,
    /// Removes it from the state, and leaves it as it is.
    Forget,
}

/// Returns the action of a change.
pub(crate) fn action_of(change: &Value) -> Option<Action>
    ensures { result ≡ action_at (view change.now) }
{
    let actions = change.get("change")?.get("actions")?.as_array()?;
    action_in(actions.as_slice())
}

/// Returns the action that a list of words names.
fn action_in(words: &[Value]) -> Option<Action>
    ensures { result ≡ action_in (items_view words.now) }
{
    match words {
        [] => None,
        [one] => action_named(one.as_str()?),
        [one, other] => action_of_both(one.as_str()?, other.as_str()?),
        [_, _, _, ..] => None,
    }
}

/// Returns the action that one word names.
fn action_named(word: &str) -> Option<Action>
    ensures { result ≡ action_named word.now }
{
    match word {
        "no-op" => Some(Action::NoOp),
        "create" => Some(Action::Create),
        "read" => Some(Action::Read),
        "update" => Some(Action::Update),
        "delete" => Some(Action::Delete),
        "forget" => Some(Action::Forget),
        _ => None,
    }
}

/// Returns the action that two words name.
fn action_of_both(one: &str, other: &str) -> Option<Action>
    ensures { result ≡ action_of_both one.now other.now }
{
    match (one, other) {
        ("delete" | "forget", "create") | ("create", "delete" | "forget") => Some(Action::Replace),
        _ => None,
    }
}
