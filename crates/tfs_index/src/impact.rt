//! The instances that are reached from the instances that a query's texts name, as rows.

ghost use Rattle.std.specs.Prelude.{◌≡◌, ℕ, ◌<◌, ◌||◌, ◌&&◌, IfOk, length};
ghost use Rattle.std.specs.FinSet as set;
ghost use Rattle.std.specs.List.{list_any, list_all};
ghost use Rattle.tfs_index.specs.Impact.{is_reached, is_reached_from};
ghost use Rattle.tfs_index.specs.Index.{HasReached, IsIndex};
ghost use Rattle.tfs_index.specs.Links.{has_number};

use crate::index::Index;
use crate::links::Links;
use crate::names::{find_config, names};
use std::alloc::{AllocError, Global};
use tfs_planes::{Plane, Row};
use tfs_state::Doc;

/// Adds to a row the instances that are reached from the instances of a bucket that the text names.
fn unite_bucket(doc: &Doc, plane: &Plane, links: &Links, bucket: u32, text: &str, row: &mut Row)
    requires plane { HasReached doc.now plane.now }
    requires links { length links.now ≡ length doc.now.instances }
    requires size { row.old.size ≡ plane.now.size }
    ensures size { row.new.size ≡ row.old.size }
    ensures members { (u : ℕ) → set.contains row.new.members u ≡ (set.contains row.old.members u
        || is_reached_from doc.now text.now (has_number links.now bucket) u) }
{
    let mut place = links.last(bucket);
    while place > 0 {
        if names(doc, text, place - 1) {
            plane.union_row_into(place - 1, row);
        }
        place = links.before(place - 1);
    }
}

/// Adds to a row the instances that are reached from the instances that the text names. Instances
/// with the same configuration address reach the same instances, so one of them is enough.
fn unite(doc: &Doc, index: &Index, text: &str, row: &mut Row)
    requires index { IsIndex doc.now index.now }
    requires size { row.old.size ≡ index.now.plane.size }
    ensures size { row.new.size ≡ row.old.size }
    ensures members { (u : ℕ) → set.contains row.new.members u
        ≡ (set.contains row.old.members u || is_reached doc.now text.now u) }
{
    let directory = &index.directory;
    let bucket = directory.bucket(text);
    unite_bucket(doc, &index.plane, &directory.addresses, bucket, text, row);
    if let Some(v) = find_config(doc, &directory.configs, bucket, text) {
        index.plane.union_row_into(v, row);
    }
}

/// Keeps in a row only the instances that are reached from an instance that the text names. `other`
/// is a working row and is overwritten.
fn meet(doc: &Doc, index: &Index, text: &str, row: &mut Row, other: &mut Row)
    requires index { IsIndex doc.now index.now }
    requires size { row.old.size ≡ index.now.plane.size }
    requires other { other.old.size ≡ index.now.plane.size }
    ensures size { row.new.size ≡ row.old.size }
    ensures other { other.new.size ≡ other.old.size }
    ensures members { (u : ℕ) → set.contains row.new.members u
        ≡ (set.contains row.old.members u && is_reached doc.now text.now u) }
{
    other.clear();
    unite(doc, index, text, other);
    row.meet_with(other);
}

/// Returns the instances that are reached from an instance that any of the texts names.
pub(crate) fn any_row(
    alloc: Global,
    doc: &Doc,
    index: &Index,
    texts: &[&str],
) -> Result<Row, AllocError>
    requires { IsIndex doc.now index.now }
    ensures size { IfOk result (λ row. row.size ≡ length doc.now.instances) }
    ensures members { IfOk result (λ row. (u : ℕ) → set.contains row.members u
        ≡ list_any (λ text. is_reached doc.now text.now u) texts.now) }
{
    let mut row = Row::new(alloc, index.plane.size())?;
    for text in texts {
        unite(doc, index, text, &mut row);
    }
    Ok(row)
}

/// Returns the instances that are reached, for each text, from an instance that it names.
pub(crate) fn all_row(
    alloc: Global,
    doc: &Doc,
    index: &Index,
    texts: &[&str],
) -> Result<Row, AllocError>
    requires index { IsIndex doc.now index.now }
    requires some { 0 < length texts.now }
    ensures size { IfOk result (λ row. row.size ≡ length doc.now.instances) }
    ensures members { IfOk result (λ row. (u : ℕ) → set.contains row.members u
        ≡ list_all (λ text. is_reached doc.now text.now u) texts.now) }
{
    let mut row = Row::new(alloc, index.plane.size())?;
    let mut other = Row::new(alloc, index.plane.size())?;
    unite(doc, index, texts[0], &mut row);
    for text in texts {
        meet(doc, index, text, &mut row, &mut other);
    }
    Ok(row)
}
