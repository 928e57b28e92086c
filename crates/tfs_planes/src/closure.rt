//! The transitive closure of the rows of a plane, by Warshall's algorithm in blocks of 64 rows: the
//! rows of a block are closed over the block first, and then every other row is united with the
//! rows of the block whose bits it has.
ghost use Rattle.std.specs.Prelude.{◌≡◌, ℕ, ◌+◌, ◌*◌, ◌%◌, ◌^◌, ◌<◌, ◌≤◌, ◌==◌, ◌↔◌, Bool, false, IsTrue, length};
ghost use Rattle.tfs_planes.specs.Plane.{row_words, cell_at, row_through};
ghost use Rattle.tfs_planes.specs.Rounds.{AllJoins, BlockJoins, IsClosedBlock, TakesIn};
ghost use Rattle.tfs_planes.specs.Targets.{IsBetween, IsClosure};
ghost use Rattle.tfs_planes.specs.Row.{bit_at_word};

use crate::MAX;
use crate::bits::bit;
use crate::cells::row_at;
use crate::kernels::union_words;
use crate::order::Order;
use crate::placing::close_in_order;

/// The number of rows in a block.
const BLOCK: usize = 64;

/// The largest number of rows for which the small order is used. The small order stays in the cache
/// together with the rows.
const FEW: usize = 512;

/// Unites a row with another if its bit `column` is set.
#[inline(always)]
fn absorb(row: &mut [u64], other: &[u64], column: usize)
    requires lengths { length row.old ≡ length other.now }
    requires within { column < 64 * length other.now }
    ensures { row.new ≡ row_through other.now column row.old }
{
    if bit(row, column) {
        union_words(row, other);
    }
}

/// Unites each of `count` rows with another if its bit `column` is set.
#[inline(always)]
fn absorb_each(rows: &mut [u64], count: usize, other: &[u64], column: usize)
    requires lengths { length rows.old ≡ count * length other.now }
    requires within { column < 64 * length other.now }
    ensures { (i : ℕ) → row_words (length other.now) rows.new i
        ≡ row_through other.now column (row_words (length other.now) rows.old i) }
{
    let stride = other.len();
    for i in 0..count {
        absorb(&mut rows[i * stride..i * stride + stride], other, column);
    }
}

/// Unites every other row with row `k` if its bit `column` is set.
fn round(words: &mut [u64], count: usize, stride: usize, k: usize, column: usize)
    requires lengths { length words.old ≡ count * stride }
    requires row { k < count }
    requires column { column < 64 * stride }
    ensures kept { row_words stride words.new k ≡ row_words stride words.old k }
    ensures others { (i : ℕ) → (i == k) ≡ false → row_words stride words.new i
        ≡ row_through (row_words stride words.old k) column (row_words stride words.old i) }
{
    let (before, rest) = words.split_at_mut(k * stride);
    let (row, after) = rest.split_at_mut(stride);
    absorb_each(before, k, row, column);
    absorb_each(after, count - k - 1, row, column);
}

/// Advances the rows of a block, which begins with row `first`, from walks with inner numbers below
/// `first` to walks with inner numbers below the block's end.
fn close_block(block: &mut [u64], width: usize, stride: usize, first: usize)
    requires lengths { length block.old ≡ width * stride }
    requires columns { first + width ≤ 64 * stride }
    requires fits { first + width < 2 ^ 64 }
    ensures { (related : ℕ → ℕ → Bool)
        → BlockJoins stride block.old width first related first
        → BlockJoins stride block.new width first related (first + width) }
{
    for k in 0..width {
        round(block, width, stride, k, first + k);
    }
}

/// Unites a row with the rows of a closed block whose bits it has. A row whose bit was added with
/// another row is skipped, because it adds nothing.
#[inline(always)]
fn take_in(row: &mut [u64], block: &[u64], width: usize, first: usize)
    requires lengths { length block.now ≡ width * length row.old }
    requires columns { first + width ≤ 64 * length row.old }
    requires start { first < 64 * length row.old }
    requires aligned { first % 64 ≡ 0 }
    requires some { 0 < width }
    requires narrow { width ≤ BLOCK }
    ensures { IsClosedBlock (length row.old) block.now width first → (j : ℕ)
        → IsTrue (bit_at_word row.new j)
        ↔ TakesIn (length row.old) row.old block.now width first j }
{
    let stride = row.len();
    let mut bits = row[first / 64] & (u64::MAX >> (BLOCK - width));
    while bits != 0 {
        let k = bits.trailing_zeros() as usize;
        let other = row_at(block, stride, k);
        bits &= !(other[first / 64] | 1 << k);
        union_words(row, other);
    }
}

/// Unites each of `count` rows with the rows of a closed block whose bits it has.
#[inline(always)]
fn take_in_each(
    rows: &mut [u64],
    count: usize,
    block: &[u64],
    width: usize,
    stride: usize,
    first: usize,
)
    requires rows { length rows.old ≡ count * stride }
    requires block { length block.now ≡ width * stride }
    requires columns { first + width ≤ 64 * stride }
    requires start { first < 64 * stride }
    requires aligned { first % 64 ≡ 0 }
    requires some { 0 < width }
    requires narrow { width ≤ BLOCK }
    ensures { IsClosedBlock stride block.now width first → (i j : ℕ)
        → IsTrue (cell_at stride rows.new i j)
        ↔ TakesIn stride (row_words stride rows.old i) block.now width first j }
{
    for i in 0..count {
        take_in(
            &mut rows[i * stride..i * stride + stride],
            block,
            width,
            first,
        );
    }
}

/// Advances all rows from walks with inner numbers below `first` to walks with inner numbers below
/// the end of the block that begins at `first`.
fn advance(words: &mut [u64], count: usize, stride: usize, first: usize, width: usize)
    requires lengths { length words.old ≡ count * stride }
    requires within { first + width ≤ count }
    requires columns { count ≤ 64 * stride }
    requires start { first < 64 * stride }
    requires aligned { first % 64 ≡ 0 }
    requires some { 0 < width }
    requires narrow { width ≤ BLOCK }
    ensures { (related : ℕ → ℕ → Bool)
        → AllJoins stride words.old related first
        → AllJoins stride words.new related (first + width) }
{
    let (before, rest) = words.split_at_mut(first * stride);
    let (block, after) = rest.split_at_mut(width * stride);
    close_block(block, width, stride, first);
    take_in_each(before, first, block, width, stride, first);
    take_in_each(after, count - first - width, block, width, stride, first);
}

/// Closes the rows by blocks.
fn close_by_blocks(words: &mut [u64], count: usize, stride: usize)
    requires lengths { length words.old ≡ count * stride }
    requires columns { count ≤ 64 * stride }
    ensures { IsClosure stride words.old words.new }
{
    for block in 0..count.div_ceil(BLOCK) {
        let first = block * BLOCK;
        advance(words, count, stride, first, BLOCK.min(count - first));
    }
}

/// Closes at most `FEW` rows in an order in which targets come first, if there is one. Returns true
/// only if the rows are closed.
fn close_few(words: &mut [u64], count: usize, stride: usize) -> bool
    requires lengths { length words.old ≡ count * stride }
    requires columns { count ≤ 64 * stride }
    requires few { count ≤ FEW }
    requires wide { stride ≤ 64 }
    requires whole { stride % 8 ≡ 0 }
    ensures between { IsBetween stride words.old words.new }
    ensures closed { IsTrue result → IsClosure stride words.old words.new }
{
    let mut order = Order::<FEW>::new();
    order.find(words, count, stride) && close_in_order(words, count, stride, &order)
}

/// Does the same as `close_few` for any number of rows.
fn close_many(words: &mut [u64], count: usize, stride: usize) -> bool
    requires lengths { length words.old ≡ count * stride }
    requires columns { count ≤ 64 * stride }
    requires small { count ≤ 4096 }
    requires wide { stride ≤ 64 }
    requires whole { stride % 8 ≡ 0 }
    ensures between { IsBetween stride words.old words.new }
    ensures closed { IsTrue result → IsClosure stride words.old words.new }
{
    let mut order = Order::<MAX>::new();
    order.find(words, count, stride) && close_in_order(words, count, stride, &order)
}

/// Closes `count` rows: afterwards bit (i, j) is set if and only if a walk over the bits that were
/// set leads from i to j. The rows are closed in an order in which targets come first, or by blocks
/// if there is none.
pub(crate) fn close_rows(words: &mut [u64], count: usize, stride: usize)
    requires lengths { length words.old ≡ count * stride }
    requires columns { count ≤ 64 * stride }
    requires small { count ≤ 4096 }
    requires wide { stride ≤ 64 }
    requires whole { stride % 8 ≡ 0 }
    ensures { IsClosure stride words.old words.new }
{
    let closed = if count <= FEW {
        close_few(words, count, stride)
    } else {
        close_many(words, count, stride)
    };
    if !closed {
        close_by_blocks(words, count, stride);
    }
}
