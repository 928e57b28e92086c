//! The own members of a resource.

ghost use Rattle.std.specs.Prelude.{◌≡◌, option_map};
ghost use Rattle.tfs_json.specs.Tree.{tree_view as view};
ghost use Rattle.tfs_state.specs.Resources.{mode_named, path_of, resource_members};
ghost use Rattle.tfs_state.specs.Parts.{resource_view};

use crate::instance::non_empty;
use tfs_addr::Mode;
use tfs_json::{Tree, list_at, optional_text_at, text_at};

/// The own members of a resource.
#[derive(Clone, Copy)]
pub(crate) struct ResourceParts<'v, 't> {
    pub(crate) path: &'t str,
    pub(crate) mode: Mode,
    pub(crate) kind: &'t str,
    pub(crate) name: &'t str,
    pub(crate) instances: &'v [Tree<'t>],
}

/// Reads the own members of a resource. Whether its module's path reads as pieces isn't checked.
pub(crate) fn resource_parts<'v, 't>(value: &'v Tree<'t>) -> Option<ResourceParts<'v, 't>>
    ensures { option_map resource_view result ≡ resource_members (view value.now) }
{
    let path = path_of(value)?;
    let mode = mode_named(text_at(value, "mode")?)?;
    let kind = non_empty(text_at(value, "type")?)?;
    let name = non_empty(text_at(value, "name")?)?;
    let instances = list_at(value, "instances")?;
    Some(ResourceParts {
        path,
        mode,
        kind,
        name,
        instances,
    })
}

/// Returns the path of the module, which is empty for the root module.
fn path_of<'t>(value: &Tree<'t>) -> Option<&'t str>
    ensures { option_map (λ path. path.now) result ≡ path_of (view value.now) }
{
    match optional_text_at(value, "module")? {
        Some(path) => Some(path),
        None => Some(""),
    }
}

/// Returns the mode that a text names.
fn mode_named(text: &str) -> Option<Mode>
    ensures { result ≡ mode_named text.now }
{
    match text {
        "managed" => Some(Mode::Managed),
        "data" => Some(Mode::DataSource),
        _ => None,
    }
}
