//! Cells of rows that are stored consecutively in a list of words.
ghost use Rattle.std.specs.Prelude.{◌≡◌, ℕ, ◌+◌, ◌*◌, ◌<◌, ◌≤◌, ◌||◌, ◌&&◌, ◌==◌, length};
ghost use Rattle.tfs_planes.specs.Plane.{row_words, cell_at};

use crate::bits::{bit, set_bit};

/// Returns row `i` of rows that have `stride` words each.
#[inline(always)]
pub(crate) fn row_at(words: &[u64], stride: usize, i: usize) -> &[u64]
    requires { i * stride + stride ≤ length words.now }
    ensures row { result.now ≡ row_words stride words.now i }
    ensures len { length result.now ≡ stride }
{
    &words[i * stride..i * stride + stride]
}

/// Returns true if bit `j` of row `i` is set.
#[inline(always)]
pub(crate) fn cell(words: &[u64], stride: usize, i: usize, j: usize) -> bool
    requires row { i * stride + stride ≤ length words.now }
    requires column { j < 64 * stride }
    ensures { result ≡ cell_at stride words.now i j }
{
    bit(row_at(words, stride, i), j)
}

/// Sets bit `j` of row `i` and leaves every other bit unchanged.
#[inline(always)]
pub(crate) fn set_cell(words: &mut [u64], stride: usize, i: usize, j: usize)
    requires row { i * stride + stride ≤ length words.old }
    requires column { j < 64 * stride }
    ensures { (a b : ℕ) → cell_at stride words.new a b
        ≡ (((a == i) && (b == j)) || cell_at stride words.old a b) }
{
    set_bit(&mut words[i * stride..i * stride + stride], j);
}
