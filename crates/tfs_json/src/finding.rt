//! The kinds of trees, and access to their members.

ghost use Rattle.std.specs.Prelude.{◌≡◌, map, is_some, option_map, option_copied, option_and_then};
ghost use Rattle.serde_json.specs.Find.{get, as_str, as_u64, as_number, as_null, as_object, as_array};
ghost use Rattle.serde_json.specs.View.{items_of};
ghost use Rattle.tfs_json.specs.Tree.{tree_view};

use crate::numbers::whole_of;
use json::Value;

/// The kept part of a JSON value. Its texts are borrowed.
pub type Tree<'t> = Value<'t>;

/// Returns the value of the member `name`.
pub(crate) fn find<'v, 't>(tree: &'v Tree<'t>, name: &str) -> Option<&'v Tree<'t>>
    ensures value { option_map (λ v. tree_view v.now) result ≡ get name.now (tree_view tree.now) }
{
    tree.get(name)
}

/// Returns the text with its escapes decoded, if the value is a text.
pub fn text_of<'t>(tree: &Tree<'t>) -> Option<&'t str>
    ensures value { option_copied result ≡ as_str (tree_view tree.now) }
{
    tree.as_str()
}

/// Returns the unsigned 64-bit integer, if the value is one. `4.0` isn't an integer.
pub fn whole_number_of(tree: &Tree<'_>) -> Option<u64>
    ensures value { result ≡ option_and_then as_u64 (as_number (tree_view tree.now)) }
{
    whole_of(tree.as_number()?)
}

/// Returns true if the value is null.
pub(crate) fn is_null(tree: &Tree<'_>) -> bool
    ensures value { result ≡ is_some (as_null (tree_view tree.now)) }
{
    tree.is_null()
}

/// Returns true if the value is an object.
pub fn is_object(tree: &Tree<'_>) -> bool
    ensures value { result ≡ is_some (as_object (tree_view tree.now)) }
{
    if let Value::Object(_) = tree {
        true
    } else {
        false
    }
}

/// Returns the elements, if the value is a list.
pub(crate) fn list_of<'v, 't>(tree: &'v Tree<'t>) -> Option<&'v [Tree<'t>]>
    ensures value { option_map (λ l. items_of (map tree_view l.now)) result ≡ as_array (tree_view tree.now) }
{
    if let Value::Array(list) = tree {
        Some(list.as_slice())
    } else {
        None
    }
}
