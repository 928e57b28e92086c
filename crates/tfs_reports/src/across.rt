//! The workspaces that read outputs of a workspace, directly or through others, by the newest
//! states of a folder.

ghost use Rattle.std.specs.Prelude.{◌≡◌, ◌++◌, IfOk, OnOk};
ghost use Rattle.std.specs.List.{flat_map};
ghost use Rattle.std.specs.Option.{option_to_list};
ghost use Rattle.serde_json.specs.View.{view};
ghost use Rattle.tfs_reports.specs.Across.{reader_row, workspace_in};

use crate::acts::name_of;
use crate::fault::{ReportEnd, ReportFault, ReportPlace};
use crate::files::newest_table;
use crate::names::names_of;
use crate::report::{Layout, Report};
use serde_json::{Value, json};
use std::alloc::{AllocError, Global};
use tfs_across::{AcrossFault, Readers, Workspace, readers_of};
use tfs_records::{Discard, Sink};
use tfs_rules::Name;
use tfs_table::Table;

const COLUMNS: &[&str] = &["name", "direct"];

/// Prints the workspaces of the newest journal of a folder that read outputs of a workspace,
/// directly or through others, by name.
pub fn print_across(
    rt: &HostRuntime,
    folder: &str,
    name: &str,
    is_json: bool,
) -> Result<(), ReportEnd> {
    let name = name_of(rt.alloc(), name)?;
    let table = newest_table(rt, folder)?;
    if table.number(&name).is_none() {
        return Err(ReportEnd::at(ReportPlace::Name, ReportFault::NoName));
    }
    report_of(rt.alloc(), &table, &name, is_json)?.print(rt)
}

/// Returns a report with a row for each workspace that reads a workspace.
fn report_of(
    alloc: Global,
    table: &Table<Discard>,
    name: &Name,
    is_json: bool,
) -> Result<Report, ReportEnd> {
    let names = sorted_names(alloc, table)?;
    let workspaces = workspaces_of(alloc, table, names.as_slice())?;
    match readers_of(alloc, workspaces.as_slice(), name) {
        Ok(readers) => Ok(rows_of(alloc, workspaces.as_slice(), &readers, is_json)?),
        Err(fault) => Err(ReportEnd::at(ReportPlace::Name, fault_of(fault))),
    }
}

/// Returns the names of a table, in the order of their bytes.
fn sorted_names(alloc: Global, table: &Table<Discard>) -> Result<Vec<Name>, AllocError> {
    let mut names = Vec::with_capacity(alloc, table.names())?;
    for text in names_of(alloc, table, false)? {
        if let Some(name) = Name::read(text) {
            names.push(name)?;
        }
    }
    Ok(names)
}

/// Returns the workspaces of these names that have a state in a table, in the order of the names.
fn workspaces_of<'t, K: Sink>(
    alloc: Global,
    table: &'t Table<K>,
    names: &'t [Name],
) -> Result<Vec<Workspace<'t>>, AllocError>
    ensures { IfOk result (λ workspaces. workspaces.items
        ≡ flat_map (λ name. option_to_list (workspace_in table.now.journal name)) names.now) }
{
    let mut workspaces = Vec::with_capacity(alloc, names.len())?;
    for name in names {
        push_workspace(&mut workspaces, table, name)?;
    }
    Ok(workspaces)
}

/// Adds the workspace of a name, if it has a state in a table.
fn push_workspace<'t, K: Sink>(
    workspaces: &mut Vec<Workspace<'t>>,
    table: &'t Table<K>,
    name: &'t Name,
) -> Result<(), AllocError>
    ensures { OnOk result (workspaces.new.items
        ≡ workspaces.old.items ++ option_to_list (workspace_in table.now.journal name.now)) }
{
    if let Some(version) = table.version(name) {
        workspaces.push(Workspace::new(name, version.doc()))?;
    }
    Ok(())
}

/// Returns a report with the rows of readers.
fn rows_of(
    alloc: Global,
    workspaces: &[Workspace<'_>],
    readers: &Readers,
    is_json: bool,
) -> Result<Report, AllocError> {
    let mut report = Report::new(alloc, COLUMNS, Layout::of(is_json))?;
    for number in &readers.all {
        if let Some(workspace) = workspaces.get(*number) {
            let is_direct = readers.direct.as_slice().contains(number);
            report.add(alloc, &reader_row(alloc, workspace.name(), is_direct)?)?;
        }
    }
    Ok(report)
}

/// Returns the row of a reader.
fn reader_row(alloc: Global, name: &str, is_direct: bool) -> Result<Value, AllocError>
    ensures { IfOk result (λ row. view row ≡ reader_row name.now is_direct) }
{
    json!(in alloc; {"name": name, "direct": is_direct})
}

/// Returns the fault of a search for readers. A table has at most 1,024 names.
fn fault_of(fault: AcrossFault) -> ReportFault {
    match fault {
        AcrossFault::UnknownName => ReportFault::NoState,
        AcrossFault::TooManyWorkspaces | AcrossFault::NoMemory => {
            ReportFault::Files(tfs_files::CommandFault::OutOfMemory)
        }
    }
}
