//! The names of the workspaces that a state reads.

ghost use Rattle.std.specs.Prelude.{◌≡◌, ◌++◌, IfOk, OnOk, map, option_copied};
ghost use Rattle.std.specs.List.{flat_map};
ghost use Rattle.std.specs.Option.{option_to_list};
ghost use Rattle.tfs_json.specs.Tree.{tree_view};
ghost use Rattle.tfs_across.specs.Reads.{address_in, configured_address, has_text};
ghost use Rattle.tfs_across.specs.Reads.{is_remote_state, name_read, names_of_resource};
ghost use Rattle.tfs_across.specs.Reads.{names_of_state, names_read, address_read};

use crate::address::name_in;
use json::{Scratch, Value};
use std::alloc::{AllocError, Global};
use std::marker::Model;
use tfs_json::{Tree, list_at, member_at, text_at};
use tfs_state::Doc;

/// The name of a workspace that a state reads.
#[derive(Drop)]
pub(crate) struct Source {
    pub(crate) name: Vec<u8>,
}

impl Model for Source {
    ghost use Rattle.std.specs.Prelude.{ℕ, List};

    ghost Value = { List ℕ };

    ghost view = { λ source. source.name.items };
}

/// Returns the names that a state reads, in the order of its text.
pub(crate) fn names_read(alloc: Global, doc: &Doc) -> Result<Vec<Source>, AllocError>
    ensures { IfOk result (λ names. names.items ≡ names_read doc.now) }
{
    let mut scratch = Scratch::new(alloc);
    match Value::from_slice(alloc, doc.bytes(), &mut scratch) {
        Ok(state) => names_of_state(alloc, &state),
        // A state is valid JSON, so the only possible error is lack of memory.
        Err(_) => Err(AllocError),
    }
}

/// Returns the names that a state's value reads.
fn names_of_state(alloc: Global, state: &Tree<'_>) -> Result<Vec<Source>, AllocError>
    ensures { IfOk result (λ names. names.items ≡ names_of_state (tree_view state.now)) }
{
    match list_at(state, "resources") {
        Some(resources) => names_of_resources(alloc, resources),
        None => Ok(Vec::new(alloc)),
    }
}

/// Returns the names that the instances of resources read.
fn names_of_resources(alloc: Global, resources: &[Tree<'_>]) -> Result<Vec<Source>, AllocError>
    ensures { IfOk result (λ names. names.items
        ≡ flat_map names_of_resource (map tree_view resources.now)) }
{
    let mut names = Vec::new(alloc);
    for resource in resources {
        push_resource(alloc, &mut names, resource)?;
    }
    Ok(names)
}

/// Adds the names that the instances of a resource read.
fn push_resource(
    alloc: Global,
    names: &mut Vec<Source>,
    resource: &Tree<'_>,
) -> Result<(), AllocError>
    ensures { OnOk result (names.new.items
        ≡ names.old.items ++ names_of_resource (tree_view resource.now)) }
{
    if !is_remote_state(resource) {
        return Ok(());
    }
    match list_at(resource, "instances") {
        Some(instances) => push_instances(alloc, names, instances),
        None => Ok(()),
    }
}

/// Adds the names that instances of a data source read.
fn push_instances(
    alloc: Global,
    names: &mut Vec<Source>,
    instances: &[Tree<'_>],
) -> Result<(), AllocError>
    ensures { OnOk result (names.new.items ≡ names.old.items
        ++ flat_map (λ instance. option_to_list (name_read instance)) (map tree_view instances.now)) }
{
    for instance in instances {
        push_instance(alloc, names, instance)?;
    }
    Ok(())
}

/// Adds the name that an instance of a data source reads, if there is one.
fn push_instance(
    alloc: Global,
    names: &mut Vec<Source>,
    instance: &Tree<'_>,
) -> Result<(), AllocError>
    ensures { OnOk result (names.new.items
        ≡ names.old.items ++ option_to_list (name_read (tree_view instance.now))) }
{
    if let Some(address) = address_read(instance) {
        if let Some(name) = name_in(alloc, address)? {
            names.push(Source { name })?;
        }
    }
    Ok(())
}

/// Returns true if a resource is a data source of Terraform's remote states.
fn is_remote_state(resource: &Tree<'_>) -> bool
    ensures { result ≡ is_remote_state (tree_view resource.now) }
{
    has_text(resource, "mode", "data") && has_text(resource, "type", "terraform_remote_state")
}

/// Returns the address that an instance of a data source reads over the backend `http`.
fn address_read<'t>(instance: &Tree<'t>) -> Option<&'t str>
    ensures { option_copied result ≡ address_read (tree_view instance.now) }
{
    address_in(member_at(instance, "attributes")?)
}

/// Returns the address that a data source with these attributes reads over the backend `http`.
fn address_in<'t>(attributes: &Tree<'t>) -> Option<&'t str>
    ensures { option_copied result ≡ address_in (tree_view attributes.now) }
{
    if !has_text(attributes, "backend", "http") {
        return None;
    }
    configured_address(member_at(attributes, "config")?)
}

/// Returns the address in the configuration of a backend.
fn configured_address<'t>(config: &Tree<'t>) -> Option<&'t str>
    ensures { option_copied result ≡ configured_address (tree_view config.now) }
{
    match member_at(config, "value") {
        Some(content) => text_at(content, "address"),
        None => text_at(config, "address"),
    }
}

/// Returns true if a member is this text.
fn has_text(value: &Tree<'_>, name: &str, text: &str) -> bool
    ensures { result ≡ has_text name.now text.now (tree_view value.now) }
{
    match text_at(value, name) {
        Some(own) => own == text,
        None => false,
    }
}
