//! Rows: sets of numbers below a size, with one bit per number.
ghost use Rattle.std.specs.Prelude.{◌≡◌, ℕ, ◌<◌, ◌≤◌, ◌||◌, true, false, IfOk, IfSome, IfNone, length};
ghost use Rattle.std.specs.FinSet as set;
ghost use Rattle.std.specs.List.Sorted.{IsStrictlyIncreasing};
ghost use Rattle.tfs_planes.specs.Row.{bit_at_word, rising_members, row_length, number_set, IsClearFrom};

use crate::bits::{bit, count_bits, members_of, next_bit, row_length, set_bit, zeros};
use crate::kernels::{clear_words, meet_words, union_words};
use std::alloc::{AllocError, Global};
use std::marker::Model;

/// A set of numbers below a size.
#[derive(Drop)]
pub struct Row {
    size: usize,
    words: Vec<u64>,
}

impl Model for Row {
    ghost use Rattle.std.specs.Prelude.{vec_len};
    ghost use Rattle.tfs_planes.specs.Row.{NumberSet, number_set_code, number_set, IsRow};

    ghost Value = { NumberSet };

    ghost coded = { number_set_code };

    ghost view = { λ row. number_set row.size row.words.items };

    ghost invariant = { λ row. IsRow row.size (vec_len row.words) row.words.items };
}

impl Row {
    /// Creates the empty set of numbers below `size`. Fails only if memory is exhausted.
    pub fn new(alloc: Global, size: usize) -> Result<Row, AllocError>
        requires small { size ≤ 4096 }
        ensures empty { IfOk result (λ row. row ≡ record { size = size; members = set.empty }) }
    {
        Ok(Row {
            size,
            words: zeros(alloc, row_length(size))?,
        })
    }

    /// Returns the size. Each member is below it.
    pub fn size(&self) -> usize
        ensures size { result ≡ self.now.size }
        ensures small { result ≤ 4096 }
    {
        self.size
    }

    /// Returns true if `i` is a member.
    pub fn get(&self, i: usize) -> bool
        requires within { i < self.now.size }
        ensures member { result ≡ set.contains self.now.members i }
    {
        bit(&self.words, i)
    }

    /// Adds `i` to the members.
    pub fn set(&mut self, i: usize)
        requires within { i < self.old.size }
        ensures inserted { self.new ≡ record self.old { members = set.insert self.old.members i } }
    {
        set_bit(&mut self.words, i);
    }

    /// Removes all members.
    pub fn clear(&mut self)
        ensures empty { self.new ≡ record self.old { members = set.empty } }
    {
        clear_words(&mut self.words);
    }

    /// Adds the members of another row of this size (union).
    pub fn union_with(&mut self, other: &Row)
        requires sizes { self.old.size ≡ other.now.size }
        ensures union { self.new
            ≡ record self.old { members = set.union self.old.members other.now.members } }
    {
        union_words(&mut self.words, &other.words);
    }

    /// Keeps only the members that another row of this size has too (intersection).
    pub fn meet_with(&mut self, other: &Row)
        requires sizes { self.old.size ≡ other.now.size }
        ensures meet { self.new
            ≡ record self.old { members = set.intersection self.old.members other.now.members } }
    {
        meet_words(&mut self.words, &other.words);
    }

    /// Returns the number of members.
    pub fn count(&self) -> usize
        ensures count { result ≡ set.len self.now.members }
    {
        count_bits(&self.words) as usize
    }

    /// Returns the first member from `from` on. To iterate over all members in ascending order
    /// without allocating, call it again with the number after the last member.
    pub fn next_member(&self, from: usize) -> Option<usize>
        ensures member { IfSome result (λ i. set.contains self.now.members i ≡ true) }
        ensures within { IfSome result (λ i. i < self.now.size) }
        ensures reached { IfSome result (λ i. from ≤ i) }
        ensures first { IfSome result (λ i. (k : ℕ)
            → from ≤ k → k < i → set.contains self.now.members k ≡ false) }
        ensures none { IfNone result ((k : ℕ)
            → from ≤ k → set.contains self.now.members k ≡ false) }
    {
        next_bit(&self.words, from)
    }

    /// Returns the members in ascending order. Fails only if memory is exhausted.
    pub fn members(&self, alloc: Global) -> Result<Vec<usize>, AllocError>
        ensures members { IfOk result (λ numbers. numbers.items ≡ rising_members self.now) }
        ensures rising { IfOk result (λ numbers. IsStrictlyIncreasing numbers.items) }
    {
        members_of(alloc, &self.words, self.size)
    }

    /// Sets this row to the set of a plane's row.
    pub(crate) fn copy_words(&mut self, words: &[u64])
        requires length { length words.now ≡ row_length self.old.size }
        requires clear { IsClearFrom self.old.size words.now }
        ensures { self.new ≡ number_set self.old.size words.now }
    {
        self.words.copy_from_slice(words);
    }

    /// Adds the members of a plane's row.
    pub(crate) fn union_with_words(&mut self, words: &[u64])
        requires length { length words.now ≡ row_length self.old.size }
        requires clear { IsClearFrom self.old.size words.now }
        ensures size { self.new.size ≡ self.old.size }
        ensures members { (j : ℕ) → set.contains self.new.members j
            ≡ (set.contains self.old.members j || bit_at_word words.now j) }
    {
        union_words(&mut self.words, words);
    }
}
