//! The search for an order of rows in which each row's targets, other than itself, come before it.
//! A row waits for one target that isn't in the order yet, and its search continues from that
//! target afterwards.
ghost use Rattle.std.specs.Prelude.{◌≡◌, ◌+◌, ◌*◌, ◌<◌, ◌≤◌, IfSome, IsTrue, length};
ghost use Rattle.tfs_planes.specs.Row.{bit_at_word};
ghost use Rattle.tfs_planes.specs.Targets.{IsTarget};

use crate::WORDS;
use crate::bits::{clear_bit, common, set_bit};
use crate::cells::row_at;

/// The value that represents no row.
const NONE: u16 = u16::MAX;

/// The rows that are placed so far, and the waiting rows.
#[derive(Drop)]
pub(crate) struct Order<const N: usize> {
    /// The placed rows, in their order.
    rows: [u16; N],
    /// The number of placed rows.
    len: usize,
    /// The set of the numbers that aren't those of placed rows.
    unplaced: [u64; WORDS],
    /// For each row, the word of its targets from which its search continues.
    words: [u8; N],
    /// For each target, the row that was the last to wait for it.
    waiting: [u16; N],
    /// For each waiting row, another row that waits for the same target; for each placed row, the
    /// target that it waited for last.
    behind: [u16; N],
}

impl<const N: usize> Order<N> {
    /// Creates an order without rows, in which none waits.
    #[inline(always)]
    pub(crate) fn new() -> Order<N> {
        Order {
            rows: [NONE; N],
            len: 0,
            unplaced: [u64::MAX; WORDS],
            words: [0; N],
            waiting: [NONE; N],
            behind: [NONE; N],
        }
    }

    /// Returns row `k` of the order.
    #[inline(always)]
    pub(crate) fn row(&self, k: usize) -> usize
        requires { k < N }
    {
        usize::from(self.rows[k])
    }

    /// Returns the target that a placed row waited for last.
    #[inline(always)]
    pub(crate) fn latest(&self, row: usize) -> usize
        requires { row < N }
    {
        usize::from(self.behind[row])
    }

    /// Searches for an order of all rows, and returns true if it found one.
    pub(crate) fn find(&mut self, words: &[u64], count: usize, stride: usize) -> bool
        requires lengths { length words.now ≡ count * stride }
        requires wide { stride ≤ 64 }
        requires room { count ≤ N }
        requires small { count ≤ 4096 }
    {
        for row in 0..count {
            self.try_row(words, stride, row, NONE);
        }
        for k in 0..count {
            if k >= self.len {
                return false;
            }
            let target = self.rows[k];
            self.wake(words, count, stride, target);
        }
        true
    }

    /// Tries the rows that wait for a target, now that it is placed.
    #[inline(always)]
    fn wake(&mut self, words: &[u64], count: usize, stride: usize, target: u16)
        requires lengths { length words.now ≡ count * stride }
        requires wide { stride ≤ 64 }
        requires room { count ≤ N }
        requires small { count ≤ 4096 }
    {
        let Some(waiting) = self.waiting.get(usize::from(target)) else {
            return;
        };
        let mut row = usize::from(*waiting);
        for _ in 0..count {
            if row >= count {
                return;
            }
            let next = usize::from(self.behind[row]);
            self.try_row(words, stride, row, target);
            row = next;
        }
    }

    /// Places a row whose targets are all placed. Any other row waits for a target that isn't.
    #[inline(always)]
    fn try_row(&mut self, words: &[u64], stride: usize, row: usize, latest: u16)
        requires fits { row * stride + stride ≤ length words.now }
        requires wide { stride ≤ 64 }
        requires room { row < N }
        requires small { row < 4096 }
    {
        match self.missing_target(row_at(words, stride, row), row) {
            None => self.push(row, latest),
            Some(target) => self.wait(row, target),
        }
    }

    /// Returns a target of a row that isn't placed, if there is one. The row itself doesn't count.
    #[inline(always)]
    fn missing_target(&mut self, targets: &[u64], row: usize) -> Option<usize>
        requires wide { length targets.now ≤ 64 }
        requires room { row < N }
        requires small { row < 4096 }
        ensures below { IfSome result (λ target. target < 64 * length targets.now) }
        ensures target { IfSome result (λ target. IsTarget targets.now row target) }
        ensures unplaced { IfSome result (λ target. IsTrue (bit_at_word self.old.unplaced target)) }
    {
        let from = usize::from(self.words[row]);
        let target = common(targets, &self.unplaced, from)?;
        if target != row {
            return Some(target);
        }
        // The row's own word may have another missing target below the row.
        clear_bit(&mut self.unplaced, row);
        let target = common(targets, &self.unplaced, from);
        set_bit(&mut self.unplaced, row);
        target
    }

    /// Appends a row to the order and marks it as placed.
    #[inline(always)]
    fn push(&mut self, row: usize, latest: u16)
        requires room { row < N }
        requires small { row < 4096 }
    {
        if let Some(last) = self.rows.get_mut(self.len) {
            *last = row as u16;
            self.len += 1;
        }
        clear_bit(&mut self.unplaced, row);
        self.behind[row] = latest;
    }

    /// Makes a row wait for a target.
    #[inline(always)]
    fn wait(&mut self, row: usize, target: usize)
        requires room { row < N }
        requires small { row < 4096 }
        requires target { target < 4096 }
    {
        self.words[row] = (target / 64) as u8;
        if let Some(last) = self.waiting.get_mut(target) {
            self.behind[row] = *last;
            *last = row as u16;
        }
    }
}
