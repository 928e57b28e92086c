//! Planes: relations between the numbers below a size, with one bit per pair.
ghost use Rattle.std.specs.Prelude.{◌≡◌, ℕ, ◌<◌, ◌≤◌, ◌↔◌, ◌||◌, IfOk};
ghost use Rattle.std.specs.FinSet as set;
ghost use Rattle.tfs_planes.specs.Relation.{Relates};
ghost use Rattle.tfs_planes.specs.Walk.{Joins};

use crate::bits::{row_length, zeros};
use crate::cells::{cell, row_at, set_cell};
use crate::closure::close_rows;
use crate::kernels::clear_words;
use crate::row::Row;
use std::alloc::{AllocError, Global};
use std::marker::Model;

/// A relation between the numbers below a size.
#[derive(Drop)]
pub struct Plane {
    size: usize,
    words: Vec<u64>,
}

impl Model for Plane {
    ghost use Rattle.std.specs.Prelude.{vec_len};
    ghost use Rattle.tfs_planes.specs.Relation.{Relation, relation_code};
    ghost use Rattle.tfs_planes.specs.Plane.{relation_of, IsPlane};

    ghost Value = { Relation };

    ghost coded = { relation_code };

    ghost view = { λ plane. relation_of plane.size plane.words.items };

    ghost invariant = { λ plane. IsPlane plane.size (vec_len plane.words) plane.words.items };
}

impl Plane {
    /// Creates the empty relation between the numbers below `size`. Fails only if memory is
    /// exhausted. Takes one bit per pair, with each row rounded up to a multiple of 512 bits.
    pub fn new(alloc: Global, size: usize) -> Result<Plane, AllocError>
        requires small { size ≤ 4096 }
        ensures empty { IfOk result (λ plane. plane ≡ record { size = size; pairs = set.empty }) }
    {
        Ok(Plane {
            size,
            words: zeros(alloc, size * row_length(size))?,
        })
    }

    /// Returns the size. Only numbers below it are related.
    pub fn size(&self) -> usize
        ensures size { result ≡ self.now.size }
        ensures small { result ≤ 4096 }
    {
        self.size
    }

    /// Returns true if `i` is related to `j`.
    pub fn get(&self, i: usize, j: usize) -> bool
        requires row { i < self.now.size }
        requires column { j < self.now.size }
        ensures related { result ≡ set.contains self.now.pairs (i, j) }
    {
        cell(&self.words, row_length(self.size), i, j)
    }

    /// Relates `i` to `j`.
    pub fn set(&mut self, i: usize, j: usize)
        requires row { i < self.old.size }
        requires column { j < self.old.size }
        ensures inserted { self.new ≡ record self.old { pairs = set.insert self.old.pairs (i, j) } }
    {
        set_cell(&mut self.words, row_length(self.size), i, j);
    }

    /// Removes all pairs.
    pub fn clear(&mut self)
        ensures empty { self.new ≡ record self.old { pairs = set.empty } }
    {
        clear_words(&mut self.words);
    }

    /// Sets a row of this size to the set of the numbers to which `i` is related.
    pub fn row_into(&self, i: usize, row: &mut Row)
        requires row { i < self.now.size }
        requires size { row.old.size ≡ self.now.size }
        ensures size { row.new.size ≡ row.old.size }
        ensures members { (j : ℕ)
            → set.contains row.new.members j ≡ set.contains self.now.pairs (i, j) }
    {
        row.copy_words(row_at(&self.words, row_length(self.size), i));
    }

    /// Adds the numbers to which `i` is related to a row of this size.
    pub fn union_row_into(&self, i: usize, row: &mut Row)
        requires row { i < self.now.size }
        requires size { row.old.size ≡ self.now.size }
        ensures size { row.new.size ≡ row.old.size }
        ensures members { (j : ℕ) → set.contains row.new.members j
            ≡ (set.contains row.old.members j || set.contains self.now.pairs (i, j)) }
    {
        row.union_with_words(row_at(&self.words, row_length(self.size), i));
    }

    /// Replaces the relation by its transitive closure: afterwards `i` is related to `j` if and
    /// only if a walk over the relation before the call leads from `i` to `j`.
    pub fn close(&mut self)
        ensures size { self.new.size ≡ self.old.size }
        ensures walks { (i j : ℕ) → Relates self.new i j ↔ Joins (Relates self.old) i j }
    {
        close_rows(&mut self.words, self.size, row_length(self.size));
    }
}
