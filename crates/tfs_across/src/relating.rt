//! The plane that relates each workspace to its readers.

ghost use Rattle.std.specs.Prelude.{◌≡◌, ◌<◌, ◌||◌, ◌&&◌, ◌==◌, ℕ, OnOk, length};
ghost use Rattle.std.specs.FinSet as set;
ghost use Rattle.std.specs.List.{list_any};
ghost use Rattle.std.specs.Str.{bytes_eq};
ghost use Rattle.tfs_across.specs.Across.{HasReaders, is_named};

use crate::reading::{Source, names_read};
use crate::workspace::Workspace;
use std::alloc::{AllocError, Global};
use tfs_planes::Plane;

/// Relates each workspace to its readers.
pub(crate) fn relate(
    alloc: Global,
    workspaces: &[Workspace<'_>],
    plane: &mut Plane,
) -> Result<(), AllocError>
    requires size { plane.old.size ≡ length workspaces.now }
    requires empty { plane.old.pairs ≡ set.empty }
    ensures { OnOk result (HasReaders workspaces.now plane.new) }
{
    for i in 0..workspaces.len() {
        let names = names_read(alloc, workspaces[i].doc())?;
        relate_reader(workspaces, plane, names.as_slice(), i);
    }
    Ok(())
}

/// Relates the workspaces with these names to workspace `i`.
fn relate_reader(workspaces: &[Workspace<'_>], plane: &mut Plane, names: &[Source], i: usize)
    requires size { plane.old.size ≡ length workspaces.now }
    requires i { i < plane.old.size }
    ensures size { plane.new.size ≡ plane.old.size }
    ensures pairs { (v w : ℕ) → set.contains plane.new.pairs (v, w)
        ≡ (set.contains plane.old.pairs (v, w) || (w == i && is_named workspaces.now names.now v)) }
{
    for j in 0..workspaces.len() {
        if is_listed(names, workspaces[j].name()) {
            plane.set(j, i);
        }
    }
}

/// Returns true if a name is one of these.
fn is_listed(names: &[Source], name: &str) -> bool
    ensures { result ≡ list_any (bytes_eq name.now) names.now }
{
    names
        .iter()
        .any(|own| name.as_bytes() == own.name.as_slice())
}
