//! Progress of commands that take long, on standard error.

use crate::run_reading;
use clap::ArgMatches;
use std::fs::File;
use std::io::{self, IsTerminal, Read};
use std::process::ExitCode;
use std::sync::Wait;
use std::sync::atomic::{AtomicBool, Ordering};
use std::thread::{self, Threads};
use std::time::{Clock, Duration};

/// Seconds before the first line, and between two lines.
const PAUSE_SECONDS: u64 = 2;

/// Milliseconds after which the end of the command is looked for.
const LOOK_MILLISECONDS: u64 = 10;

/// Runs a command. If it takes over 2 s and standard error is a terminal, prints each 2 s how many
/// bytes the program has read.
pub(crate) fn run<R: AllocGlobal + Threads + Wait + Clock + Sync>(
    rt: &R,
    host: &HostRuntime,
    command: &str,
    given: &ArgMatches<'_>,
) -> ExitCode {
    if !host.stderr().is_terminal() {
        return run_reading(host, command, given);
    }
    let ended = AtomicBool::new(false);
    let ended = &ended;
    thread::scope(thread::scope_env(), rt, move |scope| {
        // Without a thread there is no progress to see.
        let _ = scope.spawn(move || show(rt, host, ended));
        let status = run_reading(host, command, given);
        ended.store(true, Ordering::SeqCst);
        status
    })
}

/// Prints the progress until the command has ended, or the clock fails.
fn show<R: Wait + Clock>(rt: &R, host: &HostRuntime, ended: &AtomicBool) {
    let Ok(mut shown) = rt.monotonic() else {
        return;
    };
    let (pause, look) = (
        Duration::from_secs(PAUSE_SECONDS),
        Duration::from_millis(LOOK_MILLISECONDS),
    );
    for _ in rt.forever() {
        if ended.load(Ordering::SeqCst) {
            return;
        }
        rt.sleep(look);
        let Ok(now) = rt.monotonic() else {
            return;
        };
        if pause <= now.saturating_sub(shown) {
            shown = now;
            print(host);
        }
    }
}

/// Prints how many bytes the program has read.
fn print(host: &HostRuntime) {
    let read = bytes_read(host).unwrap_or(0);
    let (whole, tenths) = (read / 1_000_000, read / 100_000 % 10);
    let _ = eprintln!(host; "tfstatectl: {whole}.{tenths} MB read so far");
}

/// Returns the number of bytes that the program has read from files. (proc(5), /proc/pid/io.)
fn bytes_read(host: &HostRuntime) -> io::Result<u64> {
    let mut text = String::new(host.alloc());
    File::open(host, "/proc/self/io")?.read_to_string(&mut text)?;
    let found = text
        .as_str()
        .lines()
        .find_map(|line| line.strip_prefix("rchar: ")?.parse().ok());
    Ok(found.unwrap_or(0))
}
