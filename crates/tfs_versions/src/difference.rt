//! The differences between two states.

ghost use Rattle.std.specs.Prelude.{◌≡◌, ◌++◌, ◌∷◌, [], option_map, IfOk, OnOk};
ghost use Rattle.std.specs.List.{flat_map};
ghost use Rattle.tfs_versions.specs.Diff.{changes_between, change_in, changed, added_to};
ghost use Rattle.tfs_versions.specs.Diff.{differences, difference_from, addition_to, text_in};
ghost use Rattle.tfs_versions.specs.Diff.{instance_in, attribute_in};

use crate::instances::{Attribute, Instance, instances_of};
use std::alloc::{AllocError, Global};
use std::marker::Model;
use tfs_state::Doc;

/// The kind of a change to an instance.
#[derive(Clone, Copy, Debug, PartialEq, Eq)]
pub enum ChangeKind {
    Added,
    Removed,
    Changed,
}

/// An attribute that differs, with both values as compact JSON. An absent value is empty.
#[derive(Drop)]
pub struct Difference {
    pub name: String,
    pub from: Vec<u8>,
    pub to: Vec<u8>,
}

impl Model for Difference {
    ghost use Rattle.std.specs.Prelude.{string_bytes};
    ghost use Rattle.tfs_versions.specs.Diff.{DifferenceValue};

    ghost Value = { DifferenceValue };

    ghost view = { λ d. record {
      name = string_bytes d.name;
      from = d.from.items;
      to = d.to.items;
    } };
}

/// An instance that was added, removed or changed. Only a changed one has differing attributes.
#[derive(Drop)]
pub struct Change {
    pub kind: ChangeKind,
    pub address: String,
    pub attributes: Vec<Difference>,
}

impl Model for Change {
    ghost use Rattle.std.specs.Prelude.{string_bytes};
    ghost use Rattle.tfs_versions.specs.Diff.{ChangeValue};

    ghost Value = { ChangeValue };

    ghost view = { λ c. record {
      kind = c.kind;
      address = string_bytes c.address;
      attributes = c.attributes.items;
    } };
}

/// Returns the changes between two states: the removed and changed instances in the order of the
/// first state, then the added ones in the order of the second.
pub fn diff(alloc: Global, from: &Doc, to: &Doc) -> Result<Vec<Change>, AllocError>
    ensures value { IfOk result (λ changes. changes.items ≡ changes_between from.now to.now) }
{
    let old = instances_of(alloc, from)?;
    let new = instances_of(alloc, to)?;
    changes_between(alloc, old.as_slice(), new.as_slice())
}

/// Returns the changes between two lists of instances.
fn changes_between(
    alloc: Global,
    old: &[Instance],
    new: &[Instance],
) -> Result<Vec<Change>, AllocError>
    ensures { IfOk result (λ changes. changes.items
        ≡ flat_map (change_in new.now) old.now ++ flat_map (added_to old.now) new.now) }
{
    let mut changes = Vec::new(alloc);
    for instance in old {
        push_change(alloc, &mut changes, instance, new)?;
    }
    for added in new {
        push_added(alloc, &mut changes, added, old)?;
    }
    Ok(changes)
}

/// Adds the change to an instance of the first state, if it was changed or removed.
fn push_change(
    alloc: Global,
    changes: &mut Vec<Change>,
    instance: &Instance,
    new: &[Instance],
) -> Result<(), AllocError>
    ensures { OnOk result (changes.new.items
        ≡ changes.old.items ++ change_in new.now instance.now) }
{
    let address = instance.address.as_str();
    match instance_in(new, address) {
        Some(later) => {
            let attributes = differences(alloc, &instance.attributes, &later.attributes)?;
            push_changed(alloc, changes, address, attributes)
        }
        None => push(alloc, changes, ChangeKind::Removed, address),
    }
}

/// Adds a changed instance with these differences, if there are any.
fn push_changed(
    alloc: Global,
    changes: &mut Vec<Change>,
    address: &str,
    attributes: Vec<Difference>,
) -> Result<(), AllocError>
    ensures { OnOk result (changes.new.items
        ≡ changes.old.items ++ changed address.now attributes.items) }
{
    if attributes.is_empty() {
        return Ok(());
    }
    let address = String::from_str(alloc, address)?;
    changes.push(Change {
        kind: ChangeKind::Changed,
        address,
        attributes,
    })?;
    Ok(())
}

/// Adds an instance of the second state, if it was added.
fn push_added(
    alloc: Global,
    changes: &mut Vec<Change>,
    instance: &Instance,
    old: &[Instance],
) -> Result<(), AllocError>
    ensures { OnOk result (changes.new.items
        ≡ changes.old.items ++ added_to old.now instance.now) }
{
    let address = instance.address.as_str();
    match instance_in(old, address) {
        Some(_) => Ok(()),
        None => push(alloc, changes, ChangeKind::Added, address),
    }
}

/// Adds a change without attributes.
fn push(
    alloc: Global,
    changes: &mut Vec<Change>,
    kind: ChangeKind,
    address: &str,
) -> Result<(), AllocError>
    ensures { OnOk result (changes.new.items ≡ changes.old.items
        ++ record { kind = kind; address = address.now; attributes = [] } ∷ []) }
{
    changes.push(Change {
        kind,
        address: String::from_str(alloc, address)?,
        attributes: Vec::new(alloc),
    })?;
    Ok(())
}

/// Returns the instance with an address.
fn instance_in<'s>(instances: &'s [Instance], address: &str) -> Option<&'s Instance>
    ensures { option_map (λ i. i.now) result ≡ instance_in instances.now address.now }
{
    instances.iter().find(|i| i.address.as_str() == address)
}

/// Returns the differences between two lists of attributes.
fn differences(
    alloc: Global,
    old: &[Attribute],
    new: &[Attribute],
) -> Result<Vec<Difference>, AllocError>
    ensures { IfOk result (λ found. found.items ≡ differences old.now new.now) }
{
    let mut found = Vec::new(alloc);
    for attribute in old {
        push_difference(alloc, &mut found, attribute, new)?;
    }
    for added in new {
        push_addition(alloc, &mut found, added, old)?;
    }
    Ok(found)
}

/// Adds an old attribute, if the new ones lack it or have it with another value.
fn push_difference(
    alloc: Global,
    found: &mut Vec<Difference>,
    attribute: &Attribute,
    new: &[Attribute],
) -> Result<(), AllocError>
    ensures { OnOk result (found.new.items
        ≡ found.old.items ++ difference_from new.now attribute.now) }
{
    let name = attribute.name.as_str();
    let to = text_in(new, name);
    if attribute.text.as_slice() == to {
        return Ok(());
    }
    found.push(Difference {
        name: String::from_str(alloc, name)?,
        from: attribute.text.clone()?,
        to: Vec::from_slice(alloc, to)?,
    })?;
    Ok(())
}

/// Adds a new attribute, if the old ones lack it.
fn push_addition(
    alloc: Global,
    found: &mut Vec<Difference>,
    attribute: &Attribute,
    old: &[Attribute],
) -> Result<(), AllocError>
    ensures { OnOk result (found.new.items
        ≡ found.old.items ++ addition_to old.now attribute.now) }
{
    let name = attribute.name.as_str();
    if attribute_in(old, name).is_some() {
        return Ok(());
    }
    found.push(Difference {
        name: String::from_str(alloc, name)?,
        from: Vec::new(alloc),
        to: attribute.text.clone()?,
    })?;
    Ok(())
}

/// Returns the text of the attribute with a name; an empty text if there is none.
fn text_in<'a>(attributes: &'a [Attribute], name: &str) -> &'a [u8]
    ensures { result.now ≡ text_in attributes.now name.now }
{
    match attribute_in(attributes, name) {
        Some(attribute) => attribute.text.as_slice(),
        None => &[],
    }
}

/// Returns the attribute with a name.
fn attribute_in<'a>(attributes: &'a [Attribute], name: &str) -> Option<&'a Attribute>
    ensures { option_map (λ a. a.now) result ≡ attribute_in attributes.now name.now }
{
    attributes.iter().find(|a| a.name.as_str() == name)
}
