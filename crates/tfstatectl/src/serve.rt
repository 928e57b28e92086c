//! The command `serve`: workers answer connections on a folder's next journal, which is compacted
//! while they run.

use crate::command::Serving;
use crate::start::Ready;
use std::process::ExitCode;
use std::sync::Wait;
use std::sync::atomic::{AtomicBool, Ordering};
use std::thread::{self, Threads};
use std::time::Clock;
use tfs_files::{CommandEnd, CommandFault, FaultPlace, FolderLock, Made, end_by, status_of};
use tfs_metrics::Meter;
use tfs_serve::{AcceptFault, AnyListener};
use tfs_server::{Left, Plan, StartedFolder, serve_folder, serve_numbers};

/// Serves a folder until an error ends the server. Returns the program's exit status.
pub(crate) fn run<R: AllocGlobal + Threads + Wait + Clock + Sync>(
    rt: &R,
    host: &HostRuntime,
    asked: &Serving<'_>,
    ready: Ready<'_>,
    numbers: Option<AnyListener>,
) -> ExitCode {
    let Ready {
        lock,
        listener,
        least,
        made: Made { journal, table },
    } = ready;
    let begun = StartedFolder {
        listener,
        least,
        journal,
        table,
        meter: None,
    };
    let left = match numbers {
        None => serve_folder(rt, host, &lock, &plan_of(asked), begun),
        Some(numbers) => serve_with_numbers(rt, host, &plan_of(asked), (&lock, begun), &numbers),
    };
    end_of(host, asked.start.folder, left.fault, left.accepting)
}

/// Serves what a start has made until an error ends the server, and answers requests for the
/// server's numbers meanwhile.
fn serve_with_numbers<R: AllocGlobal + Threads + Wait + Clock + Sync>(
    rt: &R,
    host: &HostRuntime,
    plan: &Plan<'_>,
    begun: (&FolderLock, StartedFolder<'_>),
    numbers: &AnyListener,
) -> Left {
    let (lock, begun) = begun;
    let meter = Meter::new(rt.alloc());
    let begun = StartedFolder {
        meter: Some(&meter),
        ..begun
    };
    let ended = AtomicBool::new(false);
    let (meter, ended) = (&meter, &ended);
    thread::scope(thread::scope_env(), rt, move |scope| {
        let thread = scope.spawn(move || serve_numbers(rt, host, numbers, meter, ended));
        if thread.is_err() {
            let _ = eprintln!(host;
                "tfstatectl: no thread could be started for the server's numbers"
            );
        }
        let left = serve_folder(rt, host, lock, plan, begun);
        ended.store(true, Ordering::SeqCst);
        left
    })
}

/// Reports the error that ended the server. Returns the program's exit status.
fn end_of(
    host: &HostRuntime,
    folder: &str,
    fault: CommandFault,
    accepting: Option<AcceptFault>,
) -> ExitCode {
    match (fault, accepting) {
        (CommandFault::AcceptFault, Some(fault)) => end_by_accepting(host, folder, fault),
        (fault, _) => end_by(host, folder, CommandEnd::at(FaultPlace::Folder, fault)),
    }
}

/// Reports the error of a listener that can't accept connections any more. Returns the program's
/// exit status.
fn end_by_accepting(rt: &impl Eprint, folder: &str, fault: AcceptFault) -> ExitCode {
    let _ = eprintln!(rt; "tfstatectl: {folder}: AcceptFault: {fault}. Start again");
    ExitCode::from(status_of(CommandFault::AcceptFault))
}

/// Returns how to serve the folder.
fn plan_of<'a>(asked: &Serving<'a>) -> Plan<'a> {
    Plan {
        folder: asked.start.folder,
        address: asked.listen,
        keep: asked.start.keep,
        bounds: asked.bounds,
        workers: asked.workers,
        serves_reads: asked.serve_reads,
        client_fields: asked.client_fields,
    }
}
