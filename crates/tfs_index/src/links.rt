//! Instances grouped by number.

ghost use Rattle.std.specs.Prelude.{◌≡◌, ℕ, ◌<◌, ◌≤◌, ◌==◌, length, slice_get, slice_index, if◌then◌else◌, replicate, IfOk, OnOk, Some};
ghost use Rattle.tfs_index.specs.Links.{IsBehindLast};

use std::alloc::{AllocError, Global};
use std::marker::Model;
use std::mem;

/// The instances with each number, linked from the last to the first. A place is an instance's
/// number plus 1, or 0 for no instance.
#[derive(Drop)]
pub(crate) struct Links {
    numbers: Vec<u32>,
    lasts: Vec<u32>,
    befores: Vec<u32>,
}

impl Model for Links {
    ghost use Rattle.std.specs.Prelude.{ℕ, List};
    ghost use Rattle.tfs_index.specs.Links.{AreLinks};

    ghost Value = { List ℕ };

    ghost view = { λ links. links.numbers.items };

    ghost invariant = { λ links. AreLinks links.numbers.items links.lasts.items links.befores.items };
}

impl Links {
    /// Creates the links of instances with these numbers.
    pub(crate) fn new(alloc: Global, numbers: Vec<u32>) -> Result<Links, AllocError>
        requires { length numbers.items ≤ 4096 }
        ensures { IfOk result (λ links. links ≡ numbers.items) }
    {
        let mut lasts = zeros(alloc, numbers.len())?;
        let mut befores = Vec::with_capacity(alloc, numbers.len())?;
        for (v, number) in numbers.iter().enumerate() {
            let before = exchange(&mut lasts, *number, (v + 1) as u32)?;
            befores.push(before)?;
        }
        Ok(Links {
            numbers,
            lasts,
            befores,
        })
    }

    /// Returns the place of the last instance with a number.
    pub(crate) fn last(&self, number: u32) -> usize
        ensures { IsBehindLast self.now number (length self.now) result }
    {
        self.lasts.get(number as usize).copied().unwrap_or(0) as usize
    }

    /// Returns the place of the last instance before `v` that has the same number as `v`.
    pub(crate) fn before(&self, v: usize) -> usize
        requires { v < length self.now }
        ensures { (number : ℕ) → slice_get self.now v ≡ Some number
            → IsBehindLast self.now number v result }
    {
        self.befores[v] as usize
    }
}

/// Returns a list of `count` zeros.
fn zeros(alloc: Global, count: usize) -> Result<Vec<u32>, AllocError>
    ensures { IfOk result (λ list. list.items ≡ replicate count 0) }
{
    vec![in alloc; 0; count]
}

/// Replaces the value at an index and returns the previous one. Values past the end of the list
/// count as 0.
fn exchange(list: &mut Vec<u32>, place: u32, value: u32) -> Result<u32, AllocError>
    ensures was { IfOk result (λ was. was ≡ slice_index list.old.items place) }
    ensures now { OnOk result ((k : ℕ) → slice_index list.new.items k
        ≡ (if k == place then value else slice_index list.old.items k)) }
{
    let place = place as usize;
    if list.len() <= place {
        list.resize(place + 1, 0)?;
    }
    Ok(mem::replace(&mut list[place], value))
}
