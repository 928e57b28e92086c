//! The names of the members that are kept.

ghost use Rattle.std.specs.Prelude.{◌≡◌};
ghost use Rattle.tfs_json.specs.Kept.{is_wanted};

/// Returns true if any reader uses a member of this name.
#[inline(always)]
pub(crate) fn is_wanted(name: &str) -> bool
    ensures { result ≡ is_wanted name.now }
{
    match name {
        "version" | "serial" | "lineage" | "resources" => true,
        "module" | "mode" | "type" | "name" | "instances" => true,
        "index_key" | "deposed" | "dependencies" => true,
        "ID" => true,
        _ => false,
    }
}
