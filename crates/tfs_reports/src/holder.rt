//! The lock information of a workspace.

ghost use Rattle.std.specs.Prelude.{◌≡◌, ◌++◌, chars, codes, IfOk, IfErr, string_bytes};
ghost use Rattle.std.specs.List.{flat_map};
ghost use Rattle.tfs_printed.specs.Printed.{json};
ghost use Rattle.tfs_reports.specs.Holder.{IsHolderOf, IsHolderFault, IsPrinted};

use crate::acts::name_of;
use crate::fault::{ReportEnd, ReportFault, ReportPlace};
use crate::files::newest_table;
use crate::output::write;
use json::{Scratch, Value, to_vec};
use std::alloc::{AllocError, Global};
use tfs_lock::LockInfo;
use tfs_printed::push_json;
use tfs_records::Sink;
use tfs_rules::Name;
use tfs_table::Table;

/// Prints the lock information of a workspace in the newest journal of a folder, as one line of
/// JSON.
pub fn print_holder(rt: &HostRuntime, folder: &str, name: &str) -> Result<(), ReportEnd> {
    let name = name_of(rt.alloc(), name)?;
    let table = newest_table(rt, folder)?;
    match holder_text(rt.alloc(), &table, &name) {
        Ok(text) => write(rt, text.as_bytes()),
        Err(fault) => Err(ReportEnd::at(ReportPlace::Name, fault)),
    }
}

/// Returns the lock information of a workspace as a line. Reports NotLocked if nobody holds the
/// lock, and NoName if the journal has no workspace of this name.
fn holder_text<K: Sink>(alloc: Global, table: &Table<K>, name: &Name) -> Result<String, ReportFault>
    ensures ok { IfOk result (λ text. IsHolderOf name.now table.now.journal (string_bytes text)) }
    ensures err { IfErr result (IsHolderFault name.now table.now.journal) }
{
    match table.holder(name) {
        Some(info) => match line_of(alloc, info) {
            Ok(line) => Ok(line),
            Err(_) => Err(ReportFault::Files(tfs_files::CommandFault::OutOfMemory)),
        },
        None => match table.number(name) {
            Some(_) => Err(ReportFault::NotLocked),
            None => Err(ReportFault::NoName),
        },
    }
}

/// Returns lock information as one line of compact JSON with unprintable characters escaped.
fn line_of(alloc: Global, info: &LockInfo) -> Result<String, AllocError>
    ensures { IfOk result (λ line. IsPrinted info.now.bytes (string_bytes line)) }
{
    let mut scratch = Scratch::new(alloc);
    match Value::from_slice(alloc, info.bytes(), &mut scratch) {
        Ok(members) => line_with(alloc, to_vec(alloc, &members)?.as_slice()),
        // Lock information is valid JSON, so the only possible error is lack of memory.
        Err(_) => Err(AllocError),
    }
}

/// Returns a JSON text as a line with unprintable characters escaped.
fn line_with(alloc: Global, text: &[u8]) -> Result<String, AllocError>
    ensures { IfOk result (λ line. string_bytes line
        ≡ flat_map json (chars text.now) ++ codes "\n") }
{
    let mut line = String::with_capacity(alloc, text.len())?;
    match str::from_utf8(text) {
        Ok(text) => push_json(&mut line, text)?,
        Err(_) => return Err(AllocError),
    }
    line.push('\n')?;
    Ok(line)
}
