//! The own members of an instance.

ghost use Rattle.std.specs.Prelude.{◌≡◌, option_map, option_copied};
ghost use Rattle.tfs_json.specs.Tree.{tree_view as view};
ghost use Rattle.tfs_addr.specs.Address.{key_of};
ghost use Rattle.tfs_state.specs.Resources.{filled_text, key_given, deposed_of, instance_members};
ghost use Rattle.tfs_state.specs.Parts.{instance_view};

use tfs_addr::Key;
use tfs_json::{Tree, is_object, list_at, member_at, optional_text_at, text_of, whole_number_of};

/// The own members of an instance.
#[derive(Clone, Copy)]
pub(crate) struct InstanceParts<'v, 't> {
    pub(crate) key: Option<Key<'t>>,
    pub(crate) deposed: Option<&'t str>,
    pub(crate) dependencies: &'v [Tree<'t>],
}

/// Reads the own members of an instance, which is an object.
pub(crate) fn instance_parts<'v, 't>(value: &'v Tree<'t>) -> Option<InstanceParts<'v, 't>>
    ensures { option_map instance_view result ≡ instance_members (view value.now) }
{
    if !is_object(value) {
        return None;
    }
    let key = given_key(member_at(value, "index_key"))?;
    let deposed = given_deposed(value)?;
    let dependencies = list_at(value, "dependencies")?;
    Some(InstanceParts {
        key,
        deposed,
        dependencies,
    })
}

/// Reads a key, which is absent, an unsigned 64-bit integer or a text. Returns `None` for any other
/// value.
fn given_key<'v, 't>(member: Option<&'v Tree<'t>>) -> Option<Option<Key<'t>>>
    ensures { option_map (λ key. option_map key_of key) result
        ≡ key_given (option_map (λ v. view v.now) member.entry) }
{
    let Some(member) = member else {
        return Some(None);
    };
    match whole_number_of(member) {
        Some(number) => Some(Some(Key::Number(number))),
        None => Some(Some(Key::Text(text_of(member)?))),
    }
}

/// Reads `deposed`, which is absent or a text. An empty text counts as absent. Returns `None` for
/// any other value.
fn given_deposed<'t>(value: &Tree<'t>) -> Option<Option<&'t str>>
    ensures { option_map option_copied result ≡ deposed_of (view value.now) }
{
    match optional_text_at(value, "deposed")? {
        Some(text) => Some(non_empty(text)),
        None => Some(None),
    }
}

/// Returns the text if it isn't empty.
pub(crate) fn non_empty(text: &str) -> Option<&str>
    ensures { option_copied result ≡ filled_text text.now }
{
    if text.is_empty() { None } else { Some(text) }
}
