//! Numbers that represent configuration addresses and dependencies.

ghost use Rattle.std.specs.Prelude.{◌≡◌, ◌<◌, Some, length, slice_get};

use crate::packed::{PackedRow, dependencies_at, packed_row_at};
use crate::tables::{Block, block_at};
use std::marker::Model;

/// The configuration addresses and the dependencies of a document's instances as numbers, borrowed:
/// an instance depends on another if and only if the number of the other's configuration address is
/// among its dependencies.
#[derive(Drop)]
pub struct Numbers<'a> {
    blocks: &'a [Block],
    rows: &'a [PackedRow],
    numbers: &'a [u32],
}

impl<'a> Model for Numbers<'a> {
    ghost use Rattle.tfs_state.specs.Numbering.{NumberTable, table_of, Fits};

    ghost Value = { NumberTable };

    ghost view = { λ n. table_of n.blocks.now n.rows.now n.numbers.now };

    ghost invariant = { λ n. Fits n.blocks.now n.rows.now n.numbers.now };
}

impl<'a> Numbers<'a> {
    ghost use Rattle.tfs_state.specs.Numbering.{table_of, Fits};

    /// Creates the numbers of these rows, whose dependencies are in one list.
    pub(crate) fn new(blocks: &'a [Block], rows: &'a [PackedRow], numbers: &'a [u32]) -> Numbers<'a>
        requires { Fits blocks.now rows.now numbers.now }
        ensures { result ≡ table_of blocks.now rows.now numbers.now }
    {
        Numbers {
            blocks,
            rows,
            numbers,
        }
    }

    /// Returns the number of the configuration address of instance `v`.
    pub fn config(&self, v: usize) -> u32
        requires { v < length self.now.configs }
        ensures value { slice_get self.now.configs v ≡ Some result }
    {
        let row = packed_row_at(self.rows, v);
        let block = block_at(self.blocks, row.block);
        block.number
    }

    /// Returns the numbers of the dependencies of instance `u`, in the order of the text.
    pub fn dependencies(&self, u: usize) -> &'a [u32]
        requires { u < length self.now.dependencies }
        ensures value { slice_get self.now.dependencies u ≡ Some result.now }
    {
        let row = packed_row_at(self.rows, u);
        dependencies_at(self.numbers, row)
    }
}
