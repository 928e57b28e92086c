//! The instances of a state with their attributes.

ghost use Rattle.std.specs.Prelude.{◌≡◌, ◌++◌, ◌∷◌, [], All, codes, length, map, string_bytes};
ghost use Rattle.std.specs.Prelude.{OnOk, IfOk};
ghost use Rattle.std.specs.Option.{unwrap_or};
ghost use Rattle.std.specs.List.{flat_map};
ghost use Rattle.json.specs.Tree.{HasNumbers};
ghost use Rattle.json.specs.Value.{value_view};
ghost use Rattle.tfs_state.specs.Dependency.{address_of};
ghost use Rattle.tfs_versions.specs.Diff.{list_at, list_of, objects_of};
ghost use Rattle.tfs_versions.specs.Diff.{attribute_of, attributes_in, attributes_of};
ghost use Rattle.tfs_versions.specs.Diff.{instance_of, instances_from, instances_of};

use json::{Scratch, Value, to_vec};
use std::alloc::{AllocError, Global};
use std::marker::Model;
use tfs_state::Doc;

/// An attribute: its name, and its value as compact JSON.
#[derive(Drop)]
pub(crate) struct Attribute {
    pub(crate) name: String,
    pub(crate) text: Vec<u8>,
}

impl Model for Attribute {
    ghost use Rattle.std.specs.Prelude.{string_bytes};
    ghost use Rattle.tfs_versions.specs.Diff.{AttributeValue};

    ghost Value = { AttributeValue };

    ghost view = { λ a. record { name = string_bytes a.name; text = a.text.items } };
}

/// An instance: its address, and its attributes that aren't null.
#[derive(Drop)]
pub(crate) struct Instance {
    pub(crate) address: String,
    pub(crate) attributes: Vec<Attribute>,
}

impl Model for Instance {
    ghost use Rattle.std.specs.Prelude.{string_bytes};
    ghost use Rattle.tfs_versions.specs.Diff.{InstanceValue};

    ghost Value = { InstanceValue };

    ghost view = { λ i. record {
      address = string_bytes i.address;
      attributes = i.attributes.items;
    } };
}

/// Returns the instances of a state, in the order of its text.
pub(crate) fn instances_of(alloc: Global, doc: &Doc) -> Result<Vec<Instance>, AllocError>
    ensures { IfOk result (λ instances. instances.items ≡ instances_of doc.now) }
{
    let mut scratch = Scratch::new(alloc);
    match Value::from_slice(alloc, doc.bytes(), &mut scratch) {
        Ok(state) => instances_in(alloc, doc, &state),
        // A state is valid JSON, so the only possible error is lack of memory.
        Err(_) => Err(AllocError),
    }
}

/// Returns the instances of a document whose text has this JSON value.
fn instances_in(alloc: Global, doc: &Doc, state: &Value<'_>) -> Result<Vec<Instance>, AllocError>
    requires { HasNumbers (value_view state.now) }
    ensures { IfOk result (λ instances. instances.items
        ≡ instances_from doc.now 0 (objects_of (value_view state.now))) }
{
    let mut instances = Vec::with_capacity(alloc, doc.len())?;
    let resources = list_at(state, "resources");
    for resource in resources {
        push_instances(alloc, &mut instances, doc, resource)?;
    }
    Ok(instances)
}

/// Adds the instances of a resource.
fn push_instances(
    alloc: Global,
    instances: &mut Vec<Instance>,
    doc: &Doc,
    resource: &Value<'_>,
) -> Result<(), AllocError>
    requires { HasNumbers (value_view resource.now) }
    ensures { OnOk result (instances.new.items ≡ instances.old.items
        ++ instances_from doc.now (length instances.old.items)
        (list_at (codes "instances") (value_view resource.now))) }
{
    let objects = list_at(resource, "instances");
    for object in objects {
        push_instance(alloc, instances, doc, object)?;
    }
    Ok(())
}

/// Adds the instance of an object.
fn push_instance(
    alloc: Global,
    instances: &mut Vec<Instance>,
    doc: &Doc,
    object: &Value<'_>,
) -> Result<(), AllocError>
    requires { HasNumbers (value_view object.now) }
    ensures { OnOk result (instances.new.items ≡ instances.old.items
        ++ instance_of doc.now (length instances.old.items) (value_view object.now) ∷ []) }
{
    let address = address_text(alloc, doc, instances.len())?;
    let attributes = attributes_of(alloc, object)?;
    instances.push(Instance {
        address,
        attributes,
    })?;
    Ok(())
}

/// Returns the elements of a member that is a list; none if it is absent or isn't a list.
fn list_at<'v, 't>(value: &'v Value<'t>, name: &str) -> &'v [Value<'t>]
    requires { HasNumbers (value_view value.now) }
    ensures value { map value_view result.now ≡ list_at name.now (value_view value.now) }
    ensures numbers { All (λ v. HasNumbers (value_view v)) result.now }
{
    match value.get(name) {
        Some(member) => list_of(member),
        None => no_elements(),
    }
}

/// Returns the elements of a list; none for another value.
fn list_of<'v, 't>(value: &'v Value<'t>) -> &'v [Value<'t>]
    requires { HasNumbers (value_view value.now) }
    ensures value { map value_view result.now ≡ list_of (value_view value.now) }
    ensures numbers { All (λ v. HasNumbers (value_view v)) result.now }
{
    if let Value::Array(list) = value {
        list.as_slice()
    } else {
        no_elements()
    }
}

/// Returns an empty list.
fn no_elements<'v, 't>() -> &'v [Value<'t>]
    ensures { result.now ≡ [] }
{
    &[]
}

/// Returns the address of the instance with a number; an empty text if there is none.
fn address_text(alloc: Global, doc: &Doc, number: usize) -> Result<String, AllocError>
    ensures { IfOk result (λ text. string_bytes text
        ≡ unwrap_or (address_of doc.now number) []) }
{
    let mut text = String::new(alloc);
    if number < doc.len() {
        let address = doc.address(number);
        let (front, tail) = address.parts();
        text.push_str(front)?;
        text.push_str(tail)?;
    }
    Ok(text)
}

/// Returns the attributes of an instance's JSON object.
fn attributes_of(alloc: Global, object: &Value<'_>) -> Result<Vec<Attribute>, AllocError>
    requires { HasNumbers (value_view object.now) }
    ensures { IfOk result (λ attributes. attributes.items
        ≡ attributes_of (value_view object.now)) }
{
    match object.get("attributes") {
        Some(value) => attributes_in(alloc, value),
        None => Ok(Vec::new(alloc)),
    }
}

/// Returns the members of an object as attributes; none for another value.
fn attributes_in(alloc: Global, value: &Value<'_>) -> Result<Vec<Attribute>, AllocError>
    requires { HasNumbers (value_view value.now) }
    ensures { IfOk result (λ attributes. attributes.items
        ≡ attributes_in (value_view value.now)) }
{
    if let Value::Object(members) = value {
        attributes_from(alloc, members)
    } else {
        Ok(Vec::new(alloc))
    }
}

/// Returns members as attributes, without nulls.
fn attributes_from<'t>(
    alloc: Global,
    members: &[(&'t str, Value<'t>)],
) -> Result<Vec<Attribute>, AllocError>
    requires { All (λ m. HasNumbers (value_view m.1)) members.now }
    ensures { IfOk result (λ attributes. attributes.items
        ≡ flat_map attribute_of (map (λ m. (m.0.now, value_view m.1)) members.now)) }
{
    let mut attributes = Vec::new(alloc);
    for member in members {
        push_attribute(alloc, &mut attributes, member.0, &member.1)?;
    }
    Ok(attributes)
}

/// Adds a member as an attribute, unless it is null.
fn push_attribute(
    alloc: Global,
    attributes: &mut Vec<Attribute>,
    name: &str,
    value: &Value<'_>,
) -> Result<(), AllocError>
    requires { HasNumbers (value_view value.now) }
    ensures { OnOk result (attributes.new.items
        ≡ attributes.old.items ++ attribute_of (name.now, value_view value.now)) }
{
    if value.is_null() {
        return Ok(());
    }
    let text = to_vec(alloc, value)?;
    let name = String::from_str(alloc, name)?;
    attributes.push(Attribute { name, text })?;
    Ok(())
}
