//! What the changes of a plan reach in a state.

ghost use Rattle.std.specs.Prelude.{◌≡◌, IfOk};
ghost use Rattle.std.specs.Arc.{arc_value};

use crate::acts::name_of;
use crate::fault::{ReportEnd, ReportFault, ReportPlace};
use crate::files::newest_table;
use crate::output::write;
use crate::server::state_from;
use std::alloc::{AllocError, Global};
use std::fs::File;
use std::io::{self, Read};
use std::sync::Arc;
use tfs_index::Version;
use tfs_plan::{Change, read_plan};
use tfs_plan_reports::{PlanForm, rows_of, text_of};
use tfs_state::{Doc, MAX_STATE_BYTES};

/// The name of standard input in place of a file.
const STANDARD_INPUT: &str = "-";

/// The source of a state.
#[derive(Clone, Copy)]
pub enum StateSource<'a> {
    /// A file, or standard input.
    File(&'a str),
    /// The newest state of a workspace: the folder of journals, and the name.
    Workspace(&'a str, &'a str),
    /// The newest state of a workspace of a running server: the server's address, and the name.
    Server(&'a str, &'a str),
}

/// The options of `impact --plan`.
#[derive(Clone, Copy)]
pub struct PlanAsked<'a> {
    /// The file of the plan, or standard input.
    pub plan: &'a str,
    /// The source of the state.
    pub state: StateSource<'a>,
    /// How the answer is printed.
    pub form: PlanForm,
    /// The maximum length of the output.
    pub bytes: usize,
}

/// Prints what the changes of a plan reach in a state. Updates of the ignored attributes alone are
/// left out.
pub fn print_plan_impact(
    rt: &HostRuntime,
    asked: PlanAsked<'_>,
    ignored: &[&str],
) -> Result<(), ReportEnd> {
    if asked.plan == STANDARD_INPUT && is_standard_input(asked.state) {
        return Err(ReportEnd::at(ReportPlace::Plan, ReportFault::OneInput));
    }
    let changes = changes_of(rt, asked.plan, ignored)?;
    let version = version_in(rt, asked.state)?;
    let rows = rows_of(rt.alloc(), &version, changes.as_slice())?;
    let text = text_of(rt.alloc(), &rows, asked.form, asked.bytes)?;
    write(rt, text.as_bytes())
}

/// Returns true if a state is read from standard input.
fn is_standard_input(source: StateSource<'_>) -> bool {
    match source {
        StateSource::File(path) => path == STANDARD_INPUT,
        StateSource::Workspace(_, _) | StateSource::Server(_, _) => false,
    }
}

/// Reads the changes of the plan in a file.
fn changes_of(rt: &HostRuntime, path: &str, ignored: &[&str]) -> Result<Vec<Change>, ReportEnd> {
    let bytes = bytes_in(rt, path, ReportPlace::Plan)?;
    match read_plan(rt.alloc(), bytes.as_slice(), ignored) {
        Ok(changes) => Ok(changes),
        Err(fault) => Err(ReportEnd::at(ReportPlace::Plan, ReportFault::BadPlan(fault))),
    }
}

/// Reads a state, and builds its index.
fn version_in(rt: &HostRuntime, source: StateSource<'_>) -> Result<Arc<Version>, ReportEnd> {
    match source {
        StateSource::File(path) => version_of_bytes(rt, bytes_in(rt, path, ReportPlace::State)?),
        StateSource::Server(url, name) => version_of_bytes(rt, state_from(rt, url, name)?),
        StateSource::Workspace(folder, name) => version_of_workspace(rt, folder, name),
    }
}

/// Reads the state in these bytes, and builds its index.
fn version_of_bytes(rt: &HostRuntime, bytes: Vec<u8>) -> Result<Arc<Version>, ReportEnd> {
    if MAX_STATE_BYTES < bytes.len() {
        return Err(ReportEnd::at(ReportPlace::State, ReportFault::LargeState));
    }
    match Doc::read(rt.alloc(), bytes) {
        Ok(doc) => Ok(version_of(rt.alloc(), doc)?),
        Err(fault) => Err(ReportEnd::at(ReportPlace::State, ReportFault::BadState(fault))),
    }
}

/// Builds the version of a document.
fn version_of(alloc: Global, doc: Doc) -> Result<Arc<Version>, AllocError>
    ensures { IfOk result (λ version. arc_value version ≡ doc) }
{
    let doc = Arc::new(alloc, doc)?;
    let version = Version::build(alloc, doc)?;
    Ok(Arc::new(alloc, version)?)
}

/// Returns the newest version of a workspace.
fn version_of_workspace(
    rt: &HostRuntime,
    folder: &str,
    name: &str,
) -> Result<Arc<Version>, ReportEnd> {
    let name = name_of(rt.alloc(), name)?;
    let table = newest_table(rt, folder)?;
    if table.number(&name).is_none() {
        return Err(ReportEnd::at(ReportPlace::Name, ReportFault::NoName));
    }
    match table.version(&name) {
        Some(version) => Ok(version.clone()?),
        None => Err(ReportEnd::at(ReportPlace::Name, ReportFault::NoState)),
    }
}

/// Reads a file, or standard input.
fn bytes_in(rt: &HostRuntime, path: &str, place: ReportPlace) -> Result<Vec<u8>, ReportEnd> {
    let mut bytes = Vec::new(rt.alloc());
    match read_all(rt, path, &mut bytes) {
        Ok(()) => Ok(bytes),
        Err(error) => match error.kind() {
            io::ErrorKind::NotFound => Err(ReportEnd::at(place, ReportFault::NoFile)),
            _ => Err(ReportEnd::by_system(place, &error)),
        },
    }
}

/// Appends the bytes of a file, or of standard input.
fn read_all(rt: &HostRuntime, path: &str, bytes: &mut Vec<u8>) -> Result<(), io::Error> {
    if path == STANDARD_INPUT {
        rt.reader().read_to_end(bytes)?;
    } else {
        File::open(rt, path)?.read_to_end(bytes)?;
    }
    Ok(())
}
