//! The content of a state's text.

ghost use Rattle.std.specs.Prelude.{◌≡◌, ◌≢◌, ◌≤◌, ◌<◌, slice_get, Some, Ok, IfOk, IfErr, OnOk, length};
ghost use Rattle.std.specs.Str.{IsUtf8};
ghost use Rattle.tfs_json.specs.Tree.{tree_view as view};
ghost use Rattle.tfs_state.specs.StateText.{first_state_fault, instances_of, content_of};
ghost use Rattle.tfs_state.specs.Contents.{Keeps, ReadsContent, ReadsInstancesOf};
ghost use Rattle.tfs_state.specs.declared.fault.StateFault.TheVariants.{NoMemory, TooManyInstances};

use crate::fault::StateFault;
use crate::members::{lineage_of, serial_of, version_of};
use crate::packed::{Packed, PackedRow, packed_row_at};
use crate::tables::{Block, Tables, block_at};
use json::Scratch;
use std::alloc::Global;
use tfs_json::{JsonFault, Tree, list_at, read_kept};

/// The maximum number of resource instances in a state.
const MAX_INSTANCES: usize = 4096;

/// The content of a state's value.
#[derive(Drop)]
pub(crate) struct Content {
    pub(crate) serial: u64,
    pub(crate) lineage: String,
    pub(crate) blocks: Vec<Block>,
    pub(crate) packed: Packed,
}

impl Content {
    /// Returns the row at index `place`.
    pub(crate) fn row(&self, place: usize) -> &PackedRow
        requires { place < length self.now.packed.rows.items }
        ensures { slice_get self.now.packed.rows.items place ≡ Some result.now }
    {
        packed_row_at(self.packed.rows.as_slice(), place)
    }

    /// Returns the block at index `place`.
    pub(crate) fn block(&self, place: usize) -> &Block
        requires { place < length self.now.blocks.items }
        ensures { slice_get self.now.blocks.items place ≡ Some result.now }
    {
        block_at(self.blocks.as_slice(), place)
    }
}

/// Reads the content of a text, using the memory of `scratch`.
pub(crate) fn read_text(
    alloc: Global,
    bytes: &[u8],
    scratch: &mut Scratch,
) -> Result<Content, StateFault>
    requires { length bytes.now ≤ 16777216 }
    ensures ok { IfOk result (Keeps bytes.now) }
    ensures err { IfErr result (λ fault. fault ≢ NoMemory → first_state_fault bytes.now ≡ Some fault) }
    ensures memory { IfErr result (λ fault. fault ≡ NoMemory → IsUtf8 bytes.now) }
{
    match read_kept(alloc, bytes, scratch) {
        Ok(value) => read_content(alloc, &value),
        Err(JsonFault::NotJson) => Err(StateFault::NotJson),
        Err(JsonFault::NoMemory) => Err(StateFault::NoMemory),
    }
}

/// Reads the content of a value.
fn read_content(alloc: Global, value: &Tree<'_>) -> Result<Content, StateFault>
    ensures ok { IfOk result (ReadsContent (view value.now)) }
    ensures err { IfErr result (λ fault. fault ≢ NoMemory → content_of (view value.now) ≡ Err fault) }
{
    if version_of(value) != Some(4) {
        return Err(StateFault::Version);
    }
    let Some(serial) = serial_of(value) else {
        return Err(StateFault::Serial);
    };
    let Some(lineage) = lineage_of(value) else {
        return Err(StateFault::Lineage);
    };
    let Tables { blocks, packed, .. } = read_tables(alloc, value)?;
    let lineage = String::from_str(alloc, lineage)?;
    Ok(Content {
        serial,
        lineage,
        blocks,
        packed,
    })
}

/// Reads the tables of a value's instances.
fn read_tables(alloc: Global, value: &Tree<'_>) -> Result<Tables, StateFault>
    ensures ok { IfOk result (ReadsInstancesOf (view value.now)) }
    ensures err { IfErr result (λ fault. fault ≢ NoMemory → instances_of (view value.now) ≡ Err fault) }
{
    let Some(list) = list_at(value, "resources") else {
        return Err(StateFault::Resource(0));
    };
    let mut tables = Tables::read(alloc, list)?;
    check_count(tables.packed.rows.len())?;
    tables.names.apart();
    tables.blocks.shrink_to_fit();
    tables.packed.numbers.shrink_to_fit();
    Ok(tables)
}

/// Refuses more than 4,096 instances after all of them were read. `TooManyInstances` is returned
/// without a request for memory.
fn check_count(count: usize) -> Result<(), StateFault>
    ensures ok { OnOk result (count ≤ 4096) }
    ensures err { IfErr result (λ fault. (fault ≡ TooManyInstances) × (4096 < count)) }
{
    if count > MAX_INSTANCES {
        return Err(StateFault::TooManyInstances);
    }
    Ok(())
}
