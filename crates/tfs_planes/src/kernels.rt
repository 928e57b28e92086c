//! Operations on lists of words: eight words per step, and the remaining ones singly.
ghost use Rattle.std.specs.Prelude.{◌≡◌, ℕ, ◌+◌, ◌*◌, ◌%◌, ◌^◌, ◌<◌, ◌≤◌, ◌↔◌, length, sum_by, bit_and, bit_or, count_ones, replicate, IsTrue};
ghost use Rattle.std.specs.Simd.Lanes.{zip2, chunk, put_chunk};

use std::simd::prelude::*;

/// The number of words in a lane block.
pub(crate) const LANES: usize = 8;

/// Unites one lane block with the other list's.
#[inline(always)]
fn union_lanes(words: &mut [u64], others: &[u64], at: usize)
    requires words { at + LANES ≤ length words.old }
    requires others { at + LANES ≤ length others.now }
    ensures { words.new
        ≡ put_chunk at words.old
        (zip2 bit_or (chunk at LANES words.old) (chunk at LANES others.now)) }
{
    let both = u64x8::from_slice(&words[at..]) | u64x8::from_slice(&others[at..]);
    both.copy_to_slice(&mut words[at..]);
}

/// Does the same as `union_words` for whole lane blocks.
#[inline(always)]
pub(crate) fn union_blocks(words: &mut [u64], others: &[u64])
    requires whole { length words.old % LANES ≡ 0 }
    requires lengths { length words.old ≡ length others.now }
    ensures { words.new ≡ zip2 bit_or words.old others.now }
{
    for block in 0..words.len() / LANES {
        union_lanes(words, others, block * LANES);
    }
}

/// Unites the lists word by word.
#[inline(always)]
fn union_singly(words: &mut [u64], others: &[u64])
    requires { length words.old ≡ length others.now }
    ensures { words.new ≡ zip2 bit_or words.old others.now }
{
    for i in 0..words.len() {
        words[i] |= others[i];
    }
}

/// Replaces each word by its bitwise or with the word at the same index in the other list. The
/// lists have equal lengths.
#[inline(always)]
pub fn union_words(words: &mut [u64], others: &[u64])
    requires lengths { length words.old ≡ length others.now }
    ensures union { words.new ≡ zip2 bit_or words.old others.now }
{
    let whole = words.len() / LANES * LANES;
    union_blocks(&mut words[..whole], &others[..whole]);
    union_singly(&mut words[whole..], &others[whole..]);
}

/// Intersects one lane block with the other list's.
#[inline(always)]
fn meet_lanes(words: &mut [u64], others: &[u64], at: usize)
    requires words { at + LANES ≤ length words.old }
    requires others { at + LANES ≤ length others.now }
    ensures { words.new
        ≡ put_chunk at words.old
        (zip2 bit_and (chunk at LANES words.old) (chunk at LANES others.now)) }
{
    let both = u64x8::from_slice(&words[at..]) & u64x8::from_slice(&others[at..]);
    both.copy_to_slice(&mut words[at..]);
}

/// Does the same as `meet_words` for whole lane blocks.
#[inline(always)]
fn meet_blocks(words: &mut [u64], others: &[u64])
    requires whole { length words.old % LANES ≡ 0 }
    requires lengths { length words.old ≡ length others.now }
    ensures { words.new ≡ zip2 bit_and words.old others.now }
{
    for block in 0..words.len() / LANES {
        meet_lanes(words, others, block * LANES);
    }
}

/// Intersects the lists word by word.
#[inline(always)]
fn meet_singly(words: &mut [u64], others: &[u64])
    requires { length words.old ≡ length others.now }
    ensures { words.new ≡ zip2 bit_and words.old others.now }
{
    for i in 0..words.len() {
        words[i] &= others[i];
    }
}

/// Replaces each word by its bitwise and with the word at the same index in the other list. The
/// lists have equal lengths.
#[inline(always)]
pub fn meet_words(words: &mut [u64], others: &[u64])
    requires lengths { length words.old ≡ length others.now }
    ensures meet { words.new ≡ zip2 bit_and words.old others.now }
{
    let whole = words.len() / LANES * LANES;
    meet_blocks(&mut words[..whole], &others[..whole]);
    meet_singly(&mut words[whole..], &others[whole..]);
}

/// Returns the number of set bits in one lane block.
#[inline(always)]
fn count_lanes(words: &[u64], at: usize) -> u64
    requires { at + LANES ≤ length words.now }
    ensures { result ≡ sum_by count_ones (chunk at LANES words.now) }
{
    u64x8::from_slice(&words[at..])
        .count_ones()
        .strict_reduce_sum()
}

/// Does the same as `count_words` for whole lane blocks.
#[inline(always)]
fn count_blocks(words: &[u64]) -> u64
    requires whole { length words.now % LANES ≡ 0 }
    requires fits { length words.now < 2 ^ 58 }
    ensures { result ≡ sum_by count_ones words.now }
{
    let mut count = 0;
    for block in 0..words.len() / LANES {
        count += count_lanes(words, block * LANES);
    }
    count
}

/// Does the same as `count_words`, word by word.
#[inline(always)]
fn count_singly(words: &[u64]) -> u64
    requires { length words.now < 2 ^ 58 }
    ensures { result ≡ sum_by count_ones words.now }
{
    let mut count = 0;
    for word in words {
        count += u64::from(word.count_ones());
    }
    count
}

/// Returns the number of set bits in the words. There are fewer than 2^58 words, so that the count
/// fits.
pub fn count_words(words: &[u64]) -> u64
    requires fits { length words.now < 2 ^ 58 }
    ensures count { result ≡ sum_by count_ones words.now }
{
    let whole = words.len() / LANES * LANES;
    count_blocks(&words[..whole]) + count_singly(&words[whole..])
}

/// Returns true if one lane block equals the other list's.
#[inline(always)]
fn equal_lanes(left: &[u64], right: &[u64], at: usize) -> bool
    requires left { at + LANES ≤ length left.now }
    requires right { at + LANES ≤ length right.now }
    ensures { IsTrue result ↔ (chunk at LANES left.now ≡ chunk at LANES right.now) }
{
    let differ = u64x8::from_slice(&left[at..]).simd_ne(u64x8::from_slice(&right[at..]));
    differ.to_bitmask() == 0
}

/// Does the same as `equal_words` for whole lane blocks.
#[inline(always)]
fn equal_blocks(left: &[u64], right: &[u64]) -> bool
    requires whole { length left.now % LANES ≡ 0 }
    requires lengths { length left.now ≡ length right.now }
    ensures { IsTrue result ↔ (left.now ≡ right.now) }
{
    for block in 0..left.len() / LANES {
        if !equal_lanes(left, right, block * LANES) {
            return false;
        }
    }
    true
}

/// Returns true if the lane block of `others` has every bit that the lane block of `words` has.
#[inline(always)]
pub(crate) fn covers_lanes(words: &[u64], others: &[u64], at: usize) -> bool
    requires words { at + LANES ≤ length words.now }
    requires others { at + LANES ≤ length others.now }
    ensures { IsTrue result
        ↔ (zip2 bit_or (chunk at LANES words.now) (chunk at LANES others.now)
        ≡ chunk at LANES others.now) }
{
    let other = u64x8::from_slice(&others[at..]);
    let both = u64x8::from_slice(&words[at..]) | other;
    both.simd_ne(other).to_bitmask() == 0
}

/// Returns true if no bit is set in both lane blocks.
#[inline(always)]
pub(crate) fn are_disjoint_lanes(words: &[u64], others: &[u64], at: usize) -> bool
    requires words { at + LANES ≤ length words.now }
    requires others { at + LANES ≤ length others.now }
    ensures { IsTrue result
        ↔ (zip2 bit_and (chunk at LANES words.now) (chunk at LANES others.now)
        ≡ replicate LANES 0) }
{
    let both = u64x8::from_slice(&words[at..]) & u64x8::from_slice(&others[at..]);
    both.simd_ne(u64x8::splat(0)).to_bitmask() == 0
}

/// Sets each word to 0.
#[inline(always)]
pub(crate) fn clear_words(words: &mut [u64])
    ensures { words.new ≡ replicate (length words.old) 0 }
{
    words.fill(0);
}

/// Returns true if two lists of words of equal length are equal.
pub fn equal_words(left: &[u64], right: &[u64]) -> bool
    requires lengths { length left.now ≡ length right.now }
    ensures equal { IsTrue result ↔ (left.now ≡ right.now) }
{
    let whole = left.len() / LANES * LANES;
    equal_blocks(&left[..whole], &right[..whole]) && &left[whole..] == &right[whole..]
}
