//! The readers of a workspace.

ghost use Rattle.std.specs.Prelude.{◌≡◌, ◌<◌, ◌≤◌, IfOk, IfErr, IfSome, filter, length};
ghost use Rattle.std.specs.FinSet as set;
ghost use Rattle.std.specs.List.{range_with_len};
ghost use Rattle.std.specs.List.Sorted.{IsStrictlyIncreasing};
ghost use Rattle.tfs_planes.specs.Walk.{Joins};
ghost use Rattle.tfs_index.specs.Impact.{IsRisingListOf};
ghost use Rattle.tfs_across.specs.Across.{AreReaders, IsCause, Reads, number_of};

use crate::fault::AcrossFault;
use crate::relating::relate;
use crate::workspace::Workspace;
use std::alloc::{AllocError, Global};
use tfs_planes::{Plane, Row, is_size};
use tfs_rules::Name;

/// The numbers of the workspaces that read a workspace, in ascending order: those whose own state
/// names it, and all that read it directly or through others. A number is a workspace's index in
/// the list that was given.
#[derive(Drop)]
pub struct Readers {
    pub direct: Vec<usize>,
    pub all: Vec<usize>,
}

/// Returns the workspaces that read outputs of the workspace of this name. If several workspaces
/// have the name, it is the first of them.
pub fn readers_of(
    alloc: Global,
    workspaces: &[Workspace<'_>],
    name: &Name,
) -> Result<Readers, AcrossFault>
    ensures ok { IfOk result (λ readers. AreReaders workspaces.now name.now readers.direct.items readers.all.items) }
    ensures err { IfErr result (IsCause workspaces.now name.now) }
{
    let Some(number) = number_of(workspaces, name.text()) else {
        return Err(AcrossFault::UnknownName);
    };
    if !is_size(workspaces.len()) {
        return Err(AcrossFault::TooManyWorkspaces);
    }
    Ok(readers_numbered(alloc, workspaces, number)?)
}

/// Returns the number of the first workspace of a name.
fn number_of(workspaces: &[Workspace<'_>], name: &str) -> Option<usize>
    ensures value { result ≡ number_of name.now workspaces.now }
    ensures within { IfSome result (λ number. number < length workspaces.now) }
{
    workspaces.iter().position(|w| w.name() == name)
}

/// Returns the workspaces that read the workspace with a number.
fn readers_numbered(
    alloc: Global,
    workspaces: &[Workspace<'_>],
    number: usize,
) -> Result<Readers, AllocError>
    requires small { length workspaces.now ≤ 4096 }
    requires within { number < length workspaces.now }
    ensures direct { IfOk result (λ readers. IsRisingListOf (λ i. Reads workspaces.now i number) readers.direct.items) }
    ensures all { IfOk result (λ readers. IsRisingListOf (λ i. Joins (Reads workspaces.now) i number) readers.all.items) }
{
    let mut plane = Plane::new(alloc, workspaces.len())?;
    relate(alloc, workspaces, &mut plane)?;
    let direct = row_of(alloc, &plane, number)?;
    plane.close();
    let all = row_of(alloc, &plane, number)?;
    Ok(Readers { direct, all })
}

/// Returns the numbers to which a number is related, in ascending order.
fn row_of(alloc: Global, plane: &Plane, number: usize) -> Result<Vec<usize>, AllocError>
    requires { number < plane.now.size }
    ensures members { IfOk result (λ numbers. numbers.items
        ≡ filter (λ i. set.contains plane.now.pairs (number, i)) (range_with_len 0 plane.now.size)) }
    ensures rising { IfOk result (λ numbers. IsStrictlyIncreasing numbers.items) }
{
    let mut row = Row::new(alloc, plane.size())?;
    plane.row_into(number, &mut row);
    row.members(alloc)
}
