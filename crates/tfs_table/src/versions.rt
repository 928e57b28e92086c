//! The versions of the states of workspaces.

ghost use Rattle.std.specs.Prelude.{◌≡◌, All, map, IfOk, OnOk, option_map};
ghost use Rattle.std.specs.Arc.{arc_value};
ghost use Rattle.tfs_table.specs.Workspaces.{HasVersion, row_of};

use crate::workspace::Workspace;
use std::alloc::{AllocError, Global};
use std::sync::Arc;
use tfs_index::Version;
use tfs_rules::Record;

/// Builds the version of each workspace's state.
pub(crate) fn with_versions(
    alloc: Global,
    mut workspaces: Vec<Workspace>,
) -> Result<Vec<Workspace>, AllocError>
    ensures rows { IfOk result (λ all. map row_of all.items ≡ map row_of workspaces.items) }
    ensures numbers { IfOk result (λ all. map (λ w. w.number) all.items ≡ map (λ w. w.number) workspaces.items) }
    ensures versions { IfOk result (λ all. All HasVersion all.items) }
{
    for i in 0..workspaces.len() {
        give_version(alloc, &mut workspaces[i])?;
    }
    Ok(workspaces)
}

/// Builds the version of a workspace's state.
fn give_version(alloc: Global, workspace: &mut Workspace) -> Result<(), AllocError>
    ensures row { OnOk result (row_of workspace.new ≡ row_of workspace.old) }
    ensures number { OnOk result (workspace.new.number ≡ workspace.old.number) }
    ensures version { OnOk result (HasVersion workspace.new) }
{
    workspace.version = version_of(alloc, &workspace.standing)?;
    Ok(())
}

/// Builds the version of the state of a record, if it has one.
fn version_of(alloc: Global, standing: &Record) -> Result<Option<Arc<Version>>, AllocError>
    ensures { IfOk result (λ version. option_map arc_value version ≡ standing.now.state) }
{
    match standing.state() {
        Some(doc) => {
            let version = Version::build(alloc, doc.clone()?)?;
            match Arc::new(alloc, version) {
                Ok(version) => Ok(Some(version)),
                Err(_) => Err(AllocError),
            }
        }
        None => Ok(None),
    }
}
