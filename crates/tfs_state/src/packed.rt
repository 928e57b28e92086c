//! The rows that a document keeps. Their dependencies are in one list.

ghost use Rattle.std.specs.Prelude.{◌≡◌, ◌<◌, [], ◌∷◌, ◌++◌, List, IfOk, OnOk, Some, length, slice_get, take};
ghost use Rattle.tfs_state.specs.Packed.{ArePacked, IsWithin, dependencies_of};
ghost use Rattle.tfs_state.specs.declared.tables.Row.{Row as RowValue};

use crate::names::short;
use crate::tables::Row;
use std::alloc::{AllocError, Global};

/// The maximum number of rows that are kept: one more than a state may have, so that too many are
/// detected.
pub(crate) const MAX_ROWS: usize = 4097;

/// An instance: the index of its block, the end of its address, and the range of its dependencies
/// in the list of all dependencies.
#[derive(Drop)]
pub(crate) struct PackedRow {
    pub(crate) block: usize,
    pub(crate) tail: String,
    pub(crate) start: u32,
    pub(crate) end: u32,
}

/// Rows, and the numbers of the dependencies of all of them.
#[derive(Drop)]
pub(crate) struct Packed {
    pub(crate) rows: Vec<PackedRow>,
    pub(crate) numbers: Vec<u32>,
}

impl Packed {
    /// Creates an empty list with room for `room` rows.
    pub(crate) fn with_room(alloc: Global, room: usize) -> Result<Packed, AllocError>
        ensures { IfOk result (λ packed. packed.rows.items ≡ []) }
    {
        Ok(Packed {
            rows: Vec::with_capacity(alloc, room)?,
            numbers: Vec::new(alloc),
        })
    }

    /// Packs and appends a row, if it is one of the first 4,097.
    pub(crate) fn keep(&mut self, row: Row) -> Result<(), AllocError>
        ensures { OnOk result ((rows : List RowValue) → ArePacked self.old rows
            → ArePacked self.new (take 4097 (rows ++ row ∷ []))) }
    {
        if self.rows.len() < MAX_ROWS {
            return self.add(row);
        }
        self.rows.truncate(MAX_ROWS);
        Ok(())
    }

    /// Packs and appends a row.
    fn add(&mut self, row: Row) -> Result<(), AllocError>
        ensures { OnOk result ((rows : List RowValue) → ArePacked self.old rows → ArePacked self.new (rows ++ row ∷ [])) }
    {
        let start = short(self.numbers.len())?;
        self.numbers.extend_from_slice(row.dependencies.as_slice())?;
        let end = short(self.numbers.len())?;
        self.rows.push(PackedRow {
            block: row.block,
            tail: row.tail,
            start,
            end,
        })?;
        Ok(())
    }
}

/// Returns the row at index `place`.
pub(crate) fn packed_row_at(rows: &[PackedRow], place: usize) -> &PackedRow
    requires { place < length rows.now }
    ensures { slice_get rows.now place ≡ Some result.now }
{
    &rows[place]
}

/// Returns the dependencies of a row from the list of all dependencies.
pub(crate) fn dependencies_at<'a>(numbers: &'a [u32], row: &PackedRow) -> &'a [u32]
    requires { IsWithin numbers.now row.now }
    ensures { result.now ≡ dependencies_of numbers.now row.now }
{
    &numbers[row.start as usize..row.end as usize]
}
