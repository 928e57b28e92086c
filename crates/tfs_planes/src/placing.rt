//! The transitive closure of rows in an order: a row is united with the rows of its targets, which
//! are placed before it. A target whose bit was added with another target's row is skipped.
ghost use Rattle.std.specs.Prelude.{◌≡◌, ◌↔◌, ℕ, ◌+◌, ◌*◌, ◌%◌, ◌<◌, ◌≤◌, ◌==◌, Bool, false, IsTrue, length};
ghost use Rattle.std.specs.Int.{bit_at};
ghost use Rattle.tfs_planes.specs.Plane.{cell_at};
ghost use Rattle.tfs_planes.specs.Row.{bit_at_word};
ghost use Rattle.tfs_planes.specs.Targets.{IsTarget, ArePlacedClosed, HasCome, Gathers, IsPlacing, IsBetween, IsClosure};

use crate::WORDS;
use crate::bits::{are_full, bit, copy_with_bit, highest_bit, set_bit};
use crate::cells::row_at;
use crate::kernels::{LANES, clear_words, covers_lanes, union_blocks};
use crate::order::Order;

/// Returns the targets of row `row` in one word of its bits.
#[inline(always)]
fn targets_in(own: &[u64], row: usize, word: usize) -> u64
    requires { word < length own.now }
    ensures { (k : ℕ) → k < 64 → (bit_at result k ≡ 1) ↔ IsTarget own.now row (64 * word + k) }
{
    if word == row / 64 {
        own[word] & !(1 << (row % 64))
    } else {
        own[word]
    }
}

/// Adds the rows of the targets in one word, from the highest target down. Returns true only if the
/// remaining targets are placed.
#[inline(always)]
fn gather_word(
    came: &mut [u64],
    own: &[u64],
    words: &[u64],
    placed: &[u64],
    row: usize,
    word: usize,
) -> bool
    requires own { length own.now ≡ length came.old }
    requires word { word < length came.old }
    requires whole { length came.old % 8 ≡ 0 }
    requires wide { length came.old ≤ 64 }
    requires room { length came.old ≤ length placed.now }
    requires rows { (t : ℕ) → IsTrue (bit_at_word placed.now t)
        → t * length came.old + length came.old ≤ length words.now }
    ensures { IsTrue result → ArePlacedClosed (length came.old) words.now placed.now
        → HasCome (length came.old) words.now own.now row came.old
        → Gathers (length came.old) words.now own.now row came.old came.new
        (64 * word) (64 * word + 64) }
{
    if own[word] & !came[word] == 0 {
        return true;
    }
    let stride = came.len();
    let mut left = targets_in(own, row, word) & !came[word];
    let missing = left & !placed[word];
    if missing != 0 {
        return false;
    }
    while left != 0 {
        let k = highest_bit(left);
        union_blocks(came, row_at(words, stride, 64 * word + k));
        left &= !(came[word] | 1 << k);
    }
    true
}

/// Adds the rows of the targets in a lane block. Returns true only if the remaining targets are
/// placed.
#[inline(always)]
fn gather_lanes(
    came: &mut [u64],
    own: &[u64],
    words: &[u64],
    placed: &[u64],
    row: usize,
    at: usize,
) -> bool
    requires own { length own.now ≡ length came.old }
    requires block { at + 8 ≤ length came.old }
    requires whole { length came.old % 8 ≡ 0 }
    requires wide { length came.old ≤ 64 }
    requires room { length came.old ≤ length placed.now }
    requires rows { (t : ℕ) → IsTrue (bit_at_word placed.now t)
        → t * length came.old + length came.old ≤ length words.now }
    ensures { IsTrue result → ArePlacedClosed (length came.old) words.now placed.now
        → HasCome (length came.old) words.now own.now row came.old
        → Gathers (length came.old) words.now own.now row came.old came.new
        (64 * at) (64 * (at + 8)) }
{
    for word in (at..at + LANES).rev() {
        if !gather_word(came, own, words, placed, row, word) {
            return false;
        }
    }
    true
}

/// Adds the rows of a row's targets. Returns true only if the remaining targets are placed. A lane
/// block whose targets have all been added is skipped.
#[inline(always)]
fn gather(came: &mut [u64], own: &[u64], words: &[u64], placed: &[u64], row: usize) -> bool
    requires own { length own.now ≡ length came.old }
    requires whole { length came.old % 8 ≡ 0 }
    requires wide { length came.old ≤ 64 }
    requires room { length came.old ≤ length placed.now }
    requires rows { (t : ℕ) → IsTrue (bit_at_word placed.now t)
        → t * length came.old + length came.old ≤ length words.now }
    ensures { IsTrue result → ArePlacedClosed (length came.old) words.now placed.now
        → HasCome (length came.old) words.now own.now row came.old
        → Gathers (length came.old) words.now own.now row came.old came.new
        0 (64 * length came.old) }
{
    for block in (0..came.len() / LANES).rev() {
        if !covers_lanes(own, came, block * LANES)
            && !gather_lanes(came, own, words, placed, row, block * LANES)
        {
            return false;
        }
    }
    true
}

/// Begins with the row of `latest`, the target that the row waited for last, if it is a placed
/// target: it adds the most.
#[inline(always)]
fn begin(came: &mut [u64], own: &[u64], words: &[u64], placed: &[u64], row: usize, latest: usize)
    requires own { length own.now ≡ length came.old }
    requires wide { length came.old ≤ 64 }
    requires room { length came.old ≤ length placed.now }
    requires rows { (t : ℕ) → IsTrue (bit_at_word placed.now t)
        → t * length came.old + length came.old ≤ length words.now }
    ensures { ArePlacedClosed (length came.old) words.now placed.now
        → HasCome (length came.old) words.now own.now row came.new }
{
    if latest != row && latest < 64 * came.len() && bit(own, latest) && bit(placed, latest) {
        let stride = came.len();
        copy_with_bit(came, row_at(words, stride, latest), latest);
    } else {
        clear_words(came);
    }
}

/// Places a row whose targets are placed, by uniting it with their rows. Any other row stays
/// unchanged, and the result is false.
fn place(
    words: &mut [u64],
    placed: &mut [u64],
    came: &mut [u64],
    count: usize,
    row: usize,
    latest: usize,
) -> bool
    requires lengths { length words.old ≡ count * length came.old }
    requires whole { length came.old % 8 ≡ 0 }
    requires wide { length came.old ≤ 64 }
    requires room { length came.old ≤ length placed.old }
    requires columns { count ≤ 64 * length came.old }
    requires row { row < count }
    requires within { (t : ℕ) → IsTrue (bit_at_word placed.old t) → t < count }
    ensures within { (t : ℕ) → IsTrue (bit_at_word placed.new t) → t < count }
    ensures placing { (related : ℕ → ℕ → Bool)
        → IsPlacing (length came.old) words.old placed.old related
        → IsPlacing (length came.old) words.new placed.new related }
{
    let stride = came.len();
    let own = row_at(words, stride, row);
    begin(came, own, words, placed, row, latest);
    let are_placed = gather(came, own, words, placed, row);
    if !are_placed {
        return false;
    }
    union_blocks(&mut words[row * stride..row * stride + stride], came);
    set_bit(placed, row);
    true
}

/// Returns true only if all rows are placed.
fn are_all_placed(placed: &[u64], count: usize) -> bool
    requires { count ≤ 64 * length placed.now }
    ensures { IsTrue result → (i : ℕ) → i < count → IsTrue (bit_at_word placed.now i) }
{
    let whole = count / 64;
    if !are_full(placed, whole) {
        return false;
    }
    for row in 64 * whole..count {
        if !bit(placed, row) {
            return false;
        }
    }
    true
}

/// Places the rows in an order, and returns true only if they are closed afterwards. If a row comes
/// before one of its targets, the function stops, and the rows lie between what they were and their
/// closure.
pub(crate) fn close_in_order<const N: usize>(
    words: &mut [u64],
    count: usize,
    stride: usize,
    order: &Order<N>,
) -> bool
    requires lengths { length words.old ≡ count * stride }
    requires columns { count ≤ 64 * stride }
    requires room { count ≤ N }
    requires small { count ≤ 4096 }
    requires wide { stride ≤ 64 }
    requires whole { stride % 8 ≡ 0 }
    ensures between { IsBetween stride words.old words.new }
    ensures closed { IsTrue result → IsClosure stride words.old words.new }
{
    let mut placed = [0; WORDS];
    let mut room = [0; WORDS];
    for k in 0..count {
        let row = order.row(k);
        let came = &mut room[..stride];
        if row >= count || !place(words, &mut placed, came, count, row, order.latest(row)) {
            return false;
        }
    }
    are_all_placed(&placed, count)
}
