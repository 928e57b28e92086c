//! The part of a document's instances that is kept, read from the resources of a JSON value.

ghost use Rattle.std.specs.Prelude.{◌≡◌, ◌≢◌, ◌<◌, ◌≤◌, [], ◌∷◌, ◌++◌, map, IfOk, IfErr, OnOk, Some, None, length, slice_get};
ghost use Rattle.tfs_json.specs.Tree.{tree_view as view};
ghost use Rattle.tfs_addr.specs.Address.{stripped_text, configuration_address};
ghost use Rattle.tfs_state.specs.Document.{Instance as InstanceValue};
ghost use Rattle.tfs_state.specs.Parts.{resource_view};
ghost use Rattle.tfs_state.specs.Resources.{read_each, dependency_of, read_dependency, read_instance, read_resource};
ghost use Rattle.tfs_state.specs.Tables.{ReadsDependency, ReadsDependencies, ReadsInstance, AddsInstances, ReadsResource, ReadsResources, ReadsBlock};
ghost use Rattle.tfs_state.specs.declared.fault.StateFault.TheVariants.{Dependency, NoMemory, Resource};

use crate::digest::{digest_beside, text_digest};
use crate::fault::StateFault;
use crate::instance::instance_parts;
use crate::names::Names;
use crate::packed::{MAX_ROWS, Packed};
use crate::resource::{ResourceParts, resource_parts};
use std::alloc::{AllocError, Global};
use tfs_addr::{AddrFault, config_text, front_text, strip, tail_text};
use tfs_json::{Tree, is_object, list_at, text_of};

/// The part that the instances of a resource share: the beginning of their addresses, and their
/// configuration address with its number. Both texts have their digests.
#[derive(Drop)]
pub(crate) struct Block {
    pub(crate) front: String,
    pub(crate) front_digest: u64,
    pub(crate) config: String,
    pub(crate) config_digest: u64,
    pub(crate) number: u32,
}

/// An instance as it is read: the index of its block, the end of its address, and the numbers of
/// its dependencies.
#[derive(Drop)]
pub(crate) struct Row {
    pub(crate) block: usize,
    pub(crate) tail: String,
    pub(crate) dependencies: Vec<u32>,
}

/// The blocks and the first 4,097 rows of the resources read so far, with the texts that their
/// numbers represent.
#[derive(Drop)]
pub(crate) struct Tables {
    pub(crate) blocks: Vec<Block>,
    pub(crate) packed: Packed,
    pub(crate) names: Names,
}

impl Tables {
    /// Creates tables without resources, with room for `room` rows.
    fn with_room(alloc: Global, room: usize) -> Result<Tables, AllocError>
        ensures { IfOk result (λ tables. tables.packed.rows.items ≡ []) }
    {
        Ok(Tables {
            blocks: Vec::new(alloc),
            packed: Packed::with_room(alloc, room)?,
            names: Names::new(alloc),
        })
    }

    /// Reads the resources of a list.
    pub(crate) fn read(alloc: Global, list: &[Tree<'_>]) -> Result<Tables, StateFault>
        ensures ok { IfOk result (ReadsResources (map view list.now)) }
        ensures err { IfErr result (λ fault. fault ≢ NoMemory
            → read_each read_resource 0 (map view list.now) ≡ Err fault) }
    {
        let mut tables = Tables::with_room(alloc, room_for(list))?;
        for (i, value) in list.iter().enumerate() {
            tables.read_resource(alloc, value, i)?;
        }
        Ok(tables)
    }

    /// Reads resource `i`.
    fn read_resource(&mut self, alloc: Global, value: &Tree<'_>, i: usize) -> Result<(), StateFault>
        ensures ok { OnOk result (ReadsResource i (view value.now) self.old self.new) }
        ensures err { IfErr result (λ fault. fault ≢ NoMemory → read_resource i (view value.now) ≡ Err fault) }
    {
        let Some(resource) = resource_parts(value) else {
            return Err(StateFault::Resource(i));
        };
        let block = read_block(alloc, resource, &mut self.names, i)?;
        if resource.instances.is_empty() {
            return Ok(());
        }
        let place = self.blocks.len();
        self.read_instances(alloc, resource.instances, place, i)?;
        keep(&mut self.blocks, block)?;
        Ok(())
    }

    /// Reads the instances of resource `i`, whose block will be at index `place`. All of them are
    /// read, and the first 4,097 rows of the document are kept.
    fn read_instances(
        &mut self,
        alloc: Global,
        list: &[Tree<'_>],
        place: usize,
        i: usize,
    ) -> Result<(), StateFault>
        ensures ok { OnOk result (AddsInstances i place (map view list.now) self.old self.new) }
        ensures err { IfErr result (λ fault. fault ≢ NoMemory
            → read_each (read_instance i) 0 (map view list.now) ≡ Err fault) }
    {
        for (j, value) in list.iter().enumerate() {
            let row = read_instance(alloc, value, &mut self.names, place, i, j)?;
            self.packed.keep(row)?;
        }
        Ok(())
    }
}

/// Returns the number of rows to reserve: one for each object among the instances of the resources,
/// at most 4,097. So the rows have no spare capacity.
fn room_for(list: &[Tree<'_>]) -> usize
    ensures { result ≤ 4097 }
{
    let count = list
        .iter()
        .map(instances_in)
        .fold(0_usize, |all, some| all.saturating_add(some));
    count.min(MAX_ROWS)
}

/// Returns the number of objects among the instances of a resource.
fn instances_in(value: &Tree<'_>) -> usize {
    match list_at(value, "instances") {
        Some(list) => list.iter().filter(|instance| is_object(instance)).count(),
        None => 0,
    }
}

/// Reads the block of resource `i`, whose module's path must read as pieces.
fn read_block(
    alloc: Global,
    resource: ResourceParts<'_, '_>,
    names: &mut Names,
    i: usize,
) -> Result<Block, StateFault>
    ensures ok { IfOk result (ReadsBlock (resource_view resource.entry) names.old names.new) }
    ensures err { IfErr result (λ fault. fault ≢ NoMemory
        → (fault ≡ Resource i) × (stripped_text resource.entry.path.now ≡ None)) }
{
    let config = match config_text(
        alloc,
        resource.path,
        resource.mode,
        resource.kind,
        resource.name,
    ) {
        Ok(config) => config,
        Err(AddrFault::NoMemory) => return Err(StateFault::NoMemory),
        Err(_) => return Err(StateFault::Resource(i)),
    };
    let front = front_text(
        alloc,
        resource.path,
        resource.mode,
        resource.kind,
        resource.name,
    )?;
    // The copy has no spare capacity.
    let copy = config.clone()?;
    let number = names.number(config)?;
    let front_digest = text_digest(front.as_str());
    let config_digest = digest_beside(copy.as_str(), front.as_str(), front_digest);
    Ok(Block {
        front,
        front_digest,
        config: copy,
        config_digest,
        number,
    })
}

/// Reads the row of instance `j` of resource `i`.
fn read_instance(
    alloc: Global,
    value: &Tree<'_>,
    names: &mut Names,
    place: usize,
    i: usize,
    j: usize,
) -> Result<Row, StateFault>
    ensures ok { IfOk result (ReadsInstance i j place (view value.now) names.old names.new) }
    ensures err { IfErr result (λ fault. fault ≢ NoMemory → read_instance i j (view value.now) ≡ Err fault) }
{
    let Some(instance) = instance_parts(value) else {
        return Err(StateFault::Instance(i, j));
    };
    let tail = tail_text(alloc, instance.key, instance.deposed)?;
    let dependencies = read_dependencies(alloc, instance.dependencies, names, i, j)?;
    Ok(Row {
        block: place,
        tail,
        dependencies,
    })
}

/// Reads the numbers of the stripped dependencies of instance `j` of resource `i`.
fn read_dependencies(
    alloc: Global,
    list: &[Tree<'_>],
    names: &mut Names,
    i: usize,
    j: usize,
) -> Result<Vec<u32>, StateFault>
    ensures ok { IfOk result (λ numbers. ReadsDependencies i j (map view list.now) names.old names.new numbers.items) }
    ensures err { IfErr result (λ fault. fault ≢ NoMemory
        → read_each (read_dependency i j) 0 (map view list.now) ≡ Err fault) }
{
    let mut numbers = Vec::with_capacity(alloc, list.len())?;
    for (k, value) in list.iter().enumerate() {
        let number = read_dependency(alloc, value, names, i, j, k)?;
        keep(&mut numbers, number)?;
    }
    Ok(numbers)
}

/// Reads the number of the stripped dependency `k` of instance `j` of resource `i`.
fn read_dependency(
    alloc: Global,
    value: &Tree<'_>,
    names: &mut Names,
    i: usize,
    j: usize,
    k: usize,
) -> Result<u32, StateFault>
    ensures ok { IfOk result (ReadsDependency (view value.now) names.old names.new) }
    ensures err { IfErr result (λ fault. fault ≢ NoMemory → read_dependency i j k (view value.now) ≡ Err fault) }
{
    let Some(text) = text_of(value) else {
        return Err(StateFault::Dependency(i, j, k));
    };
    match strip(alloc, text) {
        Ok(bare) => Ok(names.number(bare)?),
        Err(AddrFault::NoMemory) => Err(StateFault::NoMemory),
        Err(_) => Err(StateFault::Dependency(i, j, k)),
    }
}

/// Appends an element.
fn keep<T: Drop>(list: &mut Vec<T>, element: T) -> Result<(), AllocError>
    ensures { OnOk result (list.new.items ≡ list.old.items ++ element ∷ []) }
{
    list.push(element)?;
    Ok(())
}

/// Returns the block at index `place`.
pub(crate) fn block_at(blocks: &[Block], place: usize) -> &Block
    requires { place < length blocks.now }
    ensures { slice_get blocks.now place ≡ Some result.now }
{
    &blocks[place]
}
