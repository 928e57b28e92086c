//! The closure of a relation.

ghost use Rattle.std.specs.Prelude.{◌≡◌, ◌≤◌};

use crate::measure::Measured;
use anyhow::{Result, bail};
use std::alloc::{AllocError, Global};
use std::time::{Clock, Instant};
use tfs_planes::{Plane, Row, is_size};

/// A relation as pairs of numbers of two bytes each, the low byte first. The first pair has the
/// size and 0.
#[derive(Clone, Copy)]
pub(crate) struct Relation<'a> {
    pub(crate) bytes: &'a [u8],
}

impl Relation<'_> {
    /// Makes the call with this name once.
    pub(crate) fn call(&self, rt: &(impl AllocGlobal + Clock), name: &str) -> Result<Measured> {
        let size = self.number(0);
        if name != "close" || !is_size(size) {
            bail!("the call is close, over at most 4096 numbers");
        }
        let mut plane = Plane::new(rt.alloc(), size)?;
        self.fill(&mut plane);
        let start = Instant::now(rt)?;
        plane.close();
        measure_pairs(rt, start, &plane)
    }

    /// Returns the number at a place; 0 after the last one.
    fn number(&self, place: usize) -> usize {
        let at = place.saturating_mul(2);
        match (self.bytes.get(at), self.bytes.get(at.saturating_add(1))) {
            (Some(low), Some(high)) => *low as usize + 256 * (*high as usize),
            _ => 0,
        }
    }

    /// Relates all pairs except the first.
    fn fill(&self, plane: &mut Plane) {
        for pair in 1..self.bytes.len() / 4 {
            let place = pair.saturating_mul(2);
            relate(
                plane,
                self.number(place),
                self.number(place.saturating_add(1)),
            );
        }
    }
}

/// Relates two numbers if they are below the size.
pub(crate) fn relate(plane: &mut Plane, i: usize, j: usize)
    ensures { plane.new.size ≡ plane.old.size }
{
    if i < plane.size() && j < plane.size() {
        plane.set(i, j);
    }
}

/// Measures from a start until now, and counts a plane's pairs.
pub(crate) fn measure_pairs(
    rt: &(impl AllocGlobal + Clock),
    start: Instant,
    plane: &Plane,
) -> Result<Measured> {
    let time = start.elapsed(rt)?;
    Ok(Measured::new(time, pair_count(rt.alloc(), plane)?))
}

/// Returns the number of a plane's pairs.
fn pair_count(alloc: Global, plane: &Plane) -> Result<usize, AllocError> {
    let mut row = Row::new(alloc, plane.size())?;
    let mut count: usize = 0;
    for i in 0..plane.size() {
        plane.row_into(i, &mut row);
        count = count.saturating_add(row.count());
    }
    Ok(count)
}
