//! The sizes that rows and planes may have.
ghost use Rattle.std.specs.Prelude.{◌↔◌, ◌≤◌, IsTrue};

use crate::MAX;

/// Returns true if a row or a plane may have this size.
pub fn is_size(size: usize) -> bool
    ensures small { IsTrue result ↔ (size ≤ 4096) }
{
    size <= MAX
}
