//! The names of the listed workspaces.

ghost use Rattle.std.specs.Prelude.{◌≡◌, ◌++◌, filter, map, slice_get, string_bytes, IfOk, OnOk};
ghost use Rattle.std.specs.Cmp.Lexicographic.{slice_cmp};
ghost use Rattle.std.specs.List.Sorted.{IsPermutation, IsSortedByKey};
ghost use Rattle.std.specs.Option.{option_to_list};
ghost use Rattle.std.specs.Ordering.{nat_cmp};
ghost use Rattle.tfs_records.specs.Journal.{names_of};
ghost use Rattle.tfs_reports.specs.Names.{AreListed, is_listed};

use std::alloc::{AllocError, Global};
use tfs_records::Sink;
use tfs_rules::Name;
use tfs_table::Table;

/// Returns the names of a table, or only the locked ones, in the order of their bytes.
pub(crate) fn names_of<K: Sink>(
    alloc: Global,
    table: &Table<K>,
    is_held_only: bool,
) -> Result<Vec<String>, AllocError>
    ensures all { IfOk result (λ names. AreListed table.now.journal is_held_only
        (map string_bytes names.items)) }
    ensures rise { IfOk result (λ names. IsSortedByKey string_bytes (slice_cmp nat_cmp)
        names.items) }
{
    let mut names = names_numbered(alloc, table, is_held_only)?;
    sort(&mut names);
    Ok(names)
}

/// Sorts names by their bytes.
fn sort(names: &mut Vec<String>)
    ensures same { IsPermutation names.old.items names.new.items }
    ensures rise { IsSortedByKey string_bytes (slice_cmp nat_cmp) names.new.items }
{
    names.sort_unstable();
}

/// Returns the listed names in the table's order.
fn names_numbered<K: Sink>(
    alloc: Global,
    table: &Table<K>,
    is_held_only: bool,
) -> Result<Vec<String>, AllocError>
    ensures { IfOk result (λ names. map string_bytes names.items
        ≡ filter (is_listed table.now.journal is_held_only) (names_of table.now.journal)) }
{
    let mut names = Vec::with_capacity(alloc, table.names())?;
    for number in 0..table.names() {
        push_name(alloc, &mut names, table, number, is_held_only)?;
    }
    Ok(names)
}

/// Adds the name with a number, if it is listed.
fn push_name<K: Sink>(
    alloc: Global,
    names: &mut Vec<String>,
    table: &Table<K>,
    number: usize,
    is_held_only: bool,
) -> Result<(), AllocError>
    ensures { OnOk result (map string_bytes names.new.items ≡ map string_bytes names.old.items
        ++ filter (is_listed table.now.journal is_held_only)
        (option_to_list (slice_get (names_of table.now.journal) number))) }
{
    if let Some(name) = table.name(number) {
        if is_listed(table, name, is_held_only) {
            names.push(String::from_str(alloc, name.text())?)?;
        }
    }
    Ok(())
}

/// Returns true if a name is listed: any name, or only a locked one.
fn is_listed<K: Sink>(table: &Table<K>, name: &Name, is_held_only: bool) -> bool
    ensures { result ≡ is_listed table.now.journal is_held_only name.now }
{
    !is_held_only || table.holder(name).is_some()
}
