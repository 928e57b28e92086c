//! The command `serve`: workers that answer connections, over a journal file.

ghost use Rattle.std.specs.Prelude.{◌≡◌, ◌≤◌, false, length, IfOk};

use crate::command::Serving;
use crate::fault::{end_by, end_with, end_without_file};
use std::alloc::AllocError;
use std::fs::{self, File, Files};
use std::io::{self, Write};
use std::net::{Net, TcpListener, TcpStream};
use std::process::ExitCode;
use std::sync::Wait;
use std::thread::Threads;
use std::time::Clock;
use tfs_conversation::RunFault;
use tfs_ends::ProgramFault;
use tfs_records::FileSink;
use tfs_serve::{Obstacle, Open, let_wait, serve};
use tfs_table::{OpenFault, Table};

/// Reads the old journal, if there is one, creates the new file, continues the old journal in it,
/// and has workers answer connections. Ends by the first fault. Returns the program's exit status.
pub(crate) fn run<
    R: AllocGlobal
        + Files<File = File>
        + Net<Stream = TcpStream, Listener = TcpListener>
        + Print
        + Eprint
        + Threads
        + Wait
        + Clock
        + Sync,
>(rt: &R, asked: &Serving) -> ExitCode {
    let table = match table_of(rt, asked) {
        Ok(table) => table,
        Err(status) => return status,
    };
    let Ok(gates) = gates_of(rt, asked.workers) else {
        return end_by(rt, ProgramFault::NoMemory);
    };
    let address = asked.address.as_str();
    let fault = match serve(rt, rt.alloc(), table, gates, || listen(rt, address)) {
        Ok(_run) => ProgramFault::AcceptFault,
        Err(unserved) => fault_of(unserved.why),
    };
    end_by(rt, fault)
}

/// Returns the table over the new file.
fn table_of<R: AllocGlobal + Files<File = File> + Eprint>(
    rt: &R,
    asked: &Serving,
) -> Result<Table<FileSink>, ExitCode> {
    let old = old_journal(rt, asked)?;
    let sink = match FileSink::create_new(rt, asked.new.as_str()) {
        Ok(sink) => sink,
        Err(error) => return Err(end_without_file(rt, ProgramFault::CannotCreate, &error)),
    };
    match open_table(rt, old, sink) {
        Ok(table) => Ok(table),
        Err(fault) => Err(end_with(rt, RunFault::Opening(fault))),
    }
}

/// Returns the bytes of the old journal, if one is named.
fn old_journal<R: AllocGlobal + Files<File = File> + Eprint>(
    rt: &R,
    asked: &Serving,
) -> Result<Option<Vec<u8>>, ExitCode> {
    let Some(old) = &asked.old else {
        return Ok(None);
    };
    match fs::read(rt, old.as_str()) {
        Ok(bytes) => Ok(Some(bytes)),
        Err(error) => Err(end_without_file(rt, ProgramFault::CannotRead, &error)),
    }
}

/// Returns the table that continues the old journal over a sink, or a new table.
fn open_table(
    rt: &impl AllocGlobal,
    old: Option<Vec<u8>>,
    sink: FileSink,
) -> Result<Table<FileSink>, OpenFault>
    requires open { sink.has_failed ≡ false }
{
    match old {
        Some(bytes) => {
            let (table, _) = Table::open(rt.alloc(), bytes.as_slice(), sink)?;
            Ok(table)
        }
        None => Table::new(rt.alloc(), sink),
    }
}

/// Returns a gate for each worker, which admits every connection.
fn gates_of(rt: &impl AllocGlobal, number: usize) -> Result<Vec<Open>, AllocError>
    ensures as_many { IfOk result (λ gates. length gates.items ≡ number) }
{
    let mut gates = Vec::with_capacity(rt.alloc(), number)?;
    for made in 0..number {
        gates.push(Open)?;
    }
    Ok(gates)
}

/// Listens on an address, and reports it on standard output.
fn listen<R: Net<Stream = TcpStream, Listener = TcpListener> + Print>(
    rt: &R,
    address: &str,
) -> Result<TcpListener, ProgramFault> {
    let Ok(listener) = TcpListener::bind(rt, address) else {
        return Err(ProgramFault::CannotBind);
    };
    let_wait(&listener);
    match tell(rt, address) {
        Ok(()) => Ok(listener),
        Err(_) => Err(ProgramFault::Write),
    }
}

/// Prints the address that the program listens on.
fn tell(rt: &impl Print, address: &str) -> io::Result<()> {
    let mut writer = io::writer(rt);
    write!(writer, "listening {address}\n")?;
    writer.flush()
}

/// Returns the fault that the program reports for the end of a run. NoCopy, after which the journal
/// may lack what a worker had seen, is reported as AcceptFault: the workers have ended.
fn fault_of(why: Obstacle<ProgramFault>) -> ProgramFault {
    match why {
        Obstacle::NoMemory => ProgramFault::NoMemory,
        Obstacle::NoPlace => ProgramFault::NoPlace,
        Obstacle::NoListener(fault) => fault,
        Obstacle::NoCopy => ProgramFault::AcceptFault,
    }
}
