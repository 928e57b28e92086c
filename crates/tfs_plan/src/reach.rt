//! The instances that the changed instances reach.

ghost use Rattle.std.specs.Prelude.{◌≡◌, ◌<◌, ◌==◌, filter, length, IfOk};
ghost use Rattle.std.specs.List.{list_any};
ghost use Rattle.tfs_index.specs.Impact.{instance_numbers};
ghost use Rattle.tfs_index.specs.Reach.{reaches};
ghost use Rattle.tfs_plan.specs.Reached.{is_beyond};

use crate::effect::push_if;
use std::alloc::{AllocError, Global};
use tfs_index::Version;

/// Returns the instances that a change of any of `starts` reaches, in ascending order, without the
/// ones that are among `others`.
pub fn reached(
    alloc: Global,
    version: &Version,
    starts: &[usize],
    others: &[usize],
) -> Result<Vec<usize>, AllocError>
    ensures value { IfOk result (λ numbers. numbers.items
        ≡ filter (is_beyond version.now starts.now others.now) (instance_numbers version.now)) }
{
    let mut numbers = Vec::new(alloc);
    for u in 0..count_of(version) {
        push_if(&mut numbers, u, is_beyond(version, starts, others, u))?;
    }
    Ok(numbers)
}

/// Returns the number of instances.
fn count_of(version: &Version) -> usize
    ensures { result ≡ length version.now.instances }
{
    version.doc().len()
}

/// Returns true if a change of any of `starts` reaches an instance that isn't among `others`.
fn is_beyond(version: &Version, starts: &[usize], others: &[usize], u: usize) -> bool
    requires { u < length version.now.instances }
    ensures { result ≡ is_beyond version.now starts.now others.now u }
{
    if !is_reached(version, starts, u) {
        return false;
    }
    !has_number(others, u)
}

/// Returns true if a number is in a list.
fn has_number(numbers: &[usize], u: usize) -> bool
    ensures { result ≡ list_any (λ v. v == u) numbers.now }
{
    numbers.iter().any(|v| *v == u)
}

/// Returns true if a change of any of `starts` reaches an instance.
fn is_reached(version: &Version, starts: &[usize], u: usize) -> bool
    requires { u < length version.now.instances }
    ensures { result ≡ list_any (λ v. reaches version.now v u) starts.now }
{
    starts.iter().any(|v| reaches(version, *v, u))
}

/// Returns true if a change of instance `v` reaches instance `u`; false if there is no instance
/// `v`.
fn reaches(version: &Version, v: usize, u: usize) -> bool
    requires { u < length version.now.instances }
    ensures { result ≡ reaches version.now v u }
{
    if v < count_of(version) {
        reaches_inside(version, v, u)
    } else {
        false
    }
}

/// Returns true if a change of instance `v` reaches instance `u`.
fn reaches_inside(version: &Version, v: usize, u: usize) -> bool
    requires v { v < length version.now.instances }
    requires u { u < length version.now.instances }
    ensures { result ≡ reaches version.now v u }
{
    version.reaches(v, u)
}
