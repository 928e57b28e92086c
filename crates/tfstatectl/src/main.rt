//! The program `tfstatectl`: creates a folder of journals (`init`), runs the server on it
//! (`serve`), reports on a folder (`check`, `list`, `holder`, `history`, `show`, `diff`, `restore`,
//! `impact`, `stats`), copies it (`copy`), and shows it as a page (`web`).
#![tactic(auto)]

mod argument;
mod arguments;
mod check;
mod command;
mod commands;
mod copy;
mod init;
mod listening;
mod numbers;
mod progress;
mod proxy_arguments;
mod reading;
mod serve;
mod start;
mod web;
mod web_arguments;

use crate::command::{Copying, Serving, folder_of, matches_of, words_of};
use crate::listening::listen;
use clap::{ArgMatches, Error};
use std::process::ExitCode;
use std::sync::Wait;
use std::thread::Threads;
use std::time::Clock;
use tfs_files::{CommandEnd, CommandFault, FaultPlace, end_by, status_of};
use tfs_serve::AnyListener;

fn main(rt: HostRuntime) -> ExitCode {
    match words_of(&rt) {
        Ok(words) => run(&rt, &rt, words.as_slice()),
        Err(status) => status,
    }
}

/// Runs the command that the words of the command line request.
fn run<R: AllocGlobal + Threads + Wait + Clock + Sync>(
    rt: &R,
    host: &HostRuntime,
    words: &[String],
) -> ExitCode {
    match matches_of(host.alloc(), words) {
        Ok(matches) => run_command(rt, host, &matches),
        Err(error) => {
            let _ = error.print(host);
            end_of_words(&error)
        }
    }
}

/// Runs a parsed command.
fn run_command<R: AllocGlobal + Threads + Wait + Clock + Sync>(
    rt: &R,
    host: &HostRuntime,
    matches: &ArgMatches<'_>,
) -> ExitCode {
    match matches.subcommand() {
        Some((command, given)) => run_named(rt, host, command, given),
        None => end_by(
            host,
            "",
            CommandEnd::at(FaultPlace::Command, CommandFault::Arguments),
        ),
    }
}

/// Runs the command with this name.
fn run_named<R: AllocGlobal + Threads + Wait + Clock + Sync>(
    rt: &R,
    host: &HostRuntime,
    command: &str,
    given: &ArgMatches<'_>,
) -> ExitCode {
    match command {
        "serve" => run_server(rt, host, &Serving::of(given)),
        "web" => web::run(rt, host, given),
        _ => progress::run(rt, host, command, given),
    }
}

/// Runs the command with this name, which is neither `serve` nor `web`.
fn run_reading(host: &HostRuntime, command: &str, given: &ArgMatches<'_>) -> ExitCode {
    match command {
        "copy" => copy::run(host, &Copying::of(given)),
        "init" => init::run(host, folder_of(given)),
        "check" => check::run(host, folder_of(given)),
        _ => reading::run(host, command, given),
    }
}

/// Prepares a folder, and serves it.
fn run_server<R: AllocGlobal + Threads + Wait + Clock + Sync>(
    rt: &R,
    host: &HostRuntime,
    asked: &Serving<'_>,
) -> ExitCode {
    let numbers = match listen_for_numbers(host, asked) {
        Ok(numbers) => numbers,
        Err(end) => return end_by(host, asked.metrics.unwrap_or(""), end),
    };
    match start::start(host, asked) {
        Ok(ready) => serve::run(rt, host, asked, ready, numbers),
        Err(end) => end_by(host, asked.name_at(end.place()), end),
    }
}

/// Listens at the address of the server's numbers, if the arguments have one.
fn listen_for_numbers(
    host: &HostRuntime,
    asked: &Serving<'_>,
) -> Result<Option<AnyListener>, CommandEnd> {
    match asked.metrics {
        Some(place) => Ok(Some(listen(host, place)?)),
        None => Ok(None),
    }
}

/// Returns the exit status after the parser's text: the one for invalid arguments after an error, 0
/// after help or a version.
fn end_of_words(error: &Error) -> ExitCode {
    if error.use_stderr() {
        ExitCode::from(status_of(CommandFault::Arguments))
    } else {
        ExitCode::SUCCESS
    }
}
