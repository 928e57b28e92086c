//! Single bits of a list of words.
ghost use Rattle.std.specs.Prelude.{◌≡◌, ℕ, ◌+◌, ◌*◌, ◌/◌, ◌<◌, ◌≤◌, ◌||◌, ◌==◌, ◌^◌, ◌↔◌, ◌≢◌, true, false, length, count_by, replicate};
ghost use Rattle.std.specs.Prelude.{IfOk, IfSome, IfNone, IsTrue};
ghost use Rattle.std.specs.Int.{bit_at};
ghost use Rattle.std.specs.List.{range_with_len};
ghost use Rattle.tfs_planes.specs.Row.{bit_at_word, members_of, row_length};

use crate::kernels::{LANES, are_disjoint_lanes, count_words};
use std::alloc::{AllocError, Allocator};

/// Returns the number of words in a row of `size` bits.
#[inline(always)]
pub(crate) fn row_length(size: usize) -> usize
    requires { size ≤ 4096 }
    ensures { result ≡ row_length size }
{
    size.div_ceil(512) * 8
}

/// Returns true if bit `i` is set.
#[inline(always)]
pub(crate) fn bit(words: &[u64], i: usize) -> bool
    requires { i < 64 * length words.now }
    ensures { result ≡ bit_at_word words.now i }
{
    words[i / 64] >> (i % 64) & 1 == 1
}

/// Sets bit `i` and leaves every other bit unchanged.
#[inline(always)]
pub(crate) fn set_bit(words: &mut [u64], i: usize)
    requires { i < 64 * length words.old }
    ensures { (j : ℕ) → bit_at_word words.new j ≡ ((j == i) || bit_at_word words.old j) }
{
    words[i / 64] |= 1 << (i % 64);
}

/// Copies `others` into `words` and sets bit `i`. Each word is written separately, so that a read
/// right after the call doesn't wait for the store.
#[inline(always)]
fn copy_few_with_bit(words: &mut [u64], others: &[u64], i: usize)
    requires lengths { length words.old ≡ length others.now }
    requires within { i < 64 * length others.now }
    ensures { (j : ℕ) → bit_at_word words.new j ≡ ((j == i) || bit_at_word others.now j) }
{
    let one = 1 << (i % 64);
    for at in 0..words.len() {
        words[at] = if at == i / 64 {
            others[at] | one
        } else {
            others[at]
        };
    }
}

/// Copies `others` into `words` and sets bit `i`.
#[inline(always)]
pub(crate) fn copy_with_bit(words: &mut [u64], others: &[u64], i: usize)
    requires lengths { length words.old ≡ length others.now }
    requires within { i < 64 * length others.now }
    ensures { (j : ℕ) → bit_at_word words.new j ≡ ((j == i) || bit_at_word others.now j) }
{
    if words.len() <= LANES {
        copy_few_with_bit(words, others, i);
    } else {
        words.copy_from_slice(others);
        set_bit(words, i);
    }
}

/// Returns true only if all bits of the first `count` words are set.
pub(crate) fn are_full(words: &[u64], count: usize) -> bool
    requires { count ≤ length words.now }
    ensures { IsTrue result → (i : ℕ) → i < 64 * count → IsTrue (bit_at_word words.now i) }
{
    for at in 0..count {
        if words[at] != u64::MAX {
            return false;
        }
    }
    true
}

/// Clears bit `i` and leaves every other bit unchanged.
#[inline(always)]
pub(crate) fn clear_bit(words: &mut [u64], i: usize)
    requires { i < 64 * length words.old }
    ensures cleared { bit_at_word words.new i ≡ false }
    ensures others { (j : ℕ) → j ≢ i → bit_at_word words.new j ≡ bit_at_word words.old j }
{
    words[i / 64] &= !(1 << (i % 64));
}

/// Returns the highest set bit of a word that isn't 0.
#[inline(always)]
pub(crate) fn highest_bit(word: u64) -> usize
    requires { 0 < word }
    ensures below { result < 64 }
    ensures set { bit_at word result ≡ 1 }
{
    63 - word.leading_zeros() as usize
}

/// Returns a number whose bit is set in both lists, in the words from `from` to before `to`.
#[inline(always)]
fn common_singly(words: &[u64], others: &[u64], from: usize, to: usize) -> Option<usize>
    requires lengths { length words.now ≤ length others.now }
    requires wide { length words.now ≤ 64 }
    requires within { to ≤ length words.now }
    ensures below { IfSome result (λ number. number < 64 * length words.now) }
    ensures member { IfSome result (λ number. IsTrue (bit_at_word words.now number)) }
    ensures common { IfSome result (λ number. IsTrue (bit_at_word others.now number)) }
{
    for at in from..to {
        let both = words[at] & others[at];
        if both != 0 {
            return Some(at * 64 + highest_bit(both));
        }
    }
    None
}

/// Returns a number whose bit is set in both lists. The search starts at word `from`. After the
/// lane block of that word, it compares a lane block per step.
#[inline(always)]
pub(crate) fn common(words: &[u64], others: &[u64], from: usize) -> Option<usize>
    requires lengths { length words.now ≤ length others.now }
    requires wide { length words.now ≤ 64 }
    ensures below { IfSome result (λ number. number < 64 * length words.now) }
    ensures member { IfSome result (λ number. IsTrue (bit_at_word words.now number)) }
    ensures common { IfSome result (λ number. IsTrue (bit_at_word others.now number)) }
{
    let next = from / LANES + 1;
    let whole = words.len() / LANES;
    if next > whole {
        return common_singly(words, others, from, words.len());
    }
    if let Some(number) = common_singly(words, others, from, next * LANES) {
        return Some(number);
    }
    for block in next..whole {
        let at = block * LANES;
        if !are_disjoint_lanes(words, others, at) {
            return common_singly(words, others, at, at + LANES);
        }
    }
    None
}

/// Returns the bits of word `at` that represent numbers from `from` on. Word `at` isn't before the
/// word of `from`.
#[inline(always)]
fn bits_from(words: &[u64], from: usize, at: usize) -> u64
    requires word { at < length words.now }
    requires reached { from / 64 ≤ at }
    ensures { (k : ℕ) → k < 64 → (bit_at result k ≡ 1)
        ↔ ((from ≤ 64 * at + k) × IsTrue (bit_at_word words.now (64 * at + k))) }
{
    if at == from / 64 {
        words[at] & u64::MAX << (from % 64)
    } else {
        words[at]
    }
}

/// Returns the first number from `from` on whose bit is set.
pub(crate) fn next_bit(words: &[u64], from: usize) -> Option<usize>
    requires { length words.now ≤ 64 }
    ensures member { IfSome result (λ i. bit_at_word words.now i ≡ true) }
    ensures reached { IfSome result (λ i. from ≤ i) }
    ensures first { IfSome result (λ i. (k : ℕ)
        → from ≤ k → k < i → bit_at_word words.now k ≡ false) }
    ensures none { IfNone result ((k : ℕ) → from ≤ k → bit_at_word words.now k ≡ false) }
{
    for at in from / 64..words.len() {
        let bits = bits_from(words, from, at);
        if bits != 0 {
            return Some(64 * at + bits.trailing_zeros() as usize);
        }
    }
    None
}

/// Returns the number of set bits.
pub(crate) fn count_bits(words: &[u64]) -> u64
    requires { length words.now < 2 ^ 58 }
    ensures { result ≡ count_by (bit_at_word words.now) (range_with_len 0 (64 * length words.now)) }
{
    count_words(words)
}

/// Returns a list of `count` words that are all 0.
pub(crate) fn zeros<A: Allocator>(alloc: A, count: usize) -> Result<Vec<u64, A>, AllocError>
    ensures { IfOk result (λ words. words.items ≡ replicate count 0) }
{
    vec![in alloc; 0; count]
}

/// Returns the numbers below `size` whose bit is set, in ascending order.
pub(crate) fn members_of<A: Allocator>(
    alloc: A,
    words: &[u64],
    size: usize,
) -> Result<Vec<usize, A>, AllocError>
    requires { size ≤ 64 * length words.now }
    ensures { IfOk result (λ numbers. numbers.items ≡ members_of size words.now) }
{
    let mut numbers = Vec::new(alloc);
    for i in 0..size {
        if bit(words, i) {
            numbers.push(i)?;
        }
    }
    Ok(numbers)
}
