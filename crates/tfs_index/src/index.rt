//! The index of a document.

ghost use Rattle.std.specs.Prelude.{◌≡◌, ℕ, ◌<◌, ◌||◌, ◌&&◌, ◌==◌, length, IfOk, OnOk};
ghost use Rattle.std.specs.FinSet as set;
ghost use Rattle.std.specs.List.{list_any};
ghost use Rattle.tfs_index.specs.Index.{HasDependents, HasReached, IsIndex};
ghost use Rattle.tfs_index.specs.Links.{has_number};

use crate::directory::Directory;
use crate::links::Links;
use std::alloc::{AllocError, Global};
use tfs_planes::Plane;
use tfs_state::{Doc, Numbers};

/// The plane relates each instance to the instances that it reaches; the directory finds the
/// instances that a text names.
#[derive(Drop)]
pub(crate) struct Index {
    pub(crate) plane: Plane,
    pub(crate) directory: Directory,
}

impl Index {
    /// Builds the index of a document.
    pub(crate) fn new(alloc: Global, doc: &Doc) -> Result<Index, AllocError>
        ensures { IfOk result (IsIndex doc.now) }
    {
        let plane = reach_plane(alloc, doc)?;
        let directory = Directory::new(alloc, doc)?;
        Ok(Index { plane, directory })
    }
}

/// Returns the plane that relates each instance to the instances that it reaches.
fn reach_plane(alloc: Global, doc: &Doc) -> Result<Plane, AllocError>
    ensures { IfOk result (HasReached doc.now) }
{
    let mut plane = Plane::new(alloc, doc.len())?;
    relate(alloc, doc, &mut plane)?;
    plane.close();
    Ok(plane)
}

/// Relates each instance to the instances that depend on it.
fn relate(alloc: Global, doc: &Doc, plane: &mut Plane) -> Result<(), AllocError>
    requires size { plane.old.size ≡ length doc.now.instances }
    requires empty { plane.old.pairs ≡ set.empty }
    ensures { OnOk result (HasDependents doc.now plane.new) }
{
    let numbers = doc.numbers();
    let links = Links::new(alloc, config_numbers(alloc, &numbers, doc.len())?)?;
    for u in 0..doc.len() {
        relate_all(plane, &links, numbers.dependencies(u), u);
    }
    Ok(())
}

/// Returns the numbers of the configuration addresses of `len` instances.
fn config_numbers(alloc: Global, numbers: &Numbers, len: usize) -> Result<Vec<u32>, AllocError>
    requires { len ≡ length numbers.now.configs }
    ensures { IfOk result (λ list. list.items ≡ numbers.now.configs) }
{
    let mut list = Vec::with_capacity(alloc, len)?;
    for v in 0..len {
        list.push(numbers.config(v))?;
    }
    Ok(list)
}

/// Relates the instances with these numbers to instance `u`.
fn relate_all(plane: &mut Plane, links: &Links, numbers: &[u32], u: usize)
    requires size { plane.old.size ≡ length links.now }
    requires u { u < plane.old.size }
    ensures size { plane.new.size ≡ plane.old.size }
    ensures pairs { (v w : ℕ) → set.contains plane.new.pairs (v, w) ≡ (set.contains plane.old.pairs (v, w)
        || (w == u && list_any (λ k. has_number links.now k v) numbers.now)) }
{
    for number in numbers {
        relate_each(plane, links, *number, u);
    }
}

/// Relates the instances with one number to instance `u`.
fn relate_each(plane: &mut Plane, links: &Links, number: u32, u: usize)
    requires size { plane.old.size ≡ length links.now }
    requires u { u < plane.old.size }
    ensures size { plane.new.size ≡ plane.old.size }
    ensures pairs { (v w : ℕ) → set.contains plane.new.pairs (v, w)
        ≡ (set.contains plane.old.pairs (v, w) || (w == u && has_number links.now number v)) }
{
    let mut place = links.last(number);
    while place > 0 {
        plane.set(place - 1, u);
        place = links.before(place - 1);
    }
}
