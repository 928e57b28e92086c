//! The command line: what the arguments request.

ghost use Rattle.std.specs.Prelude.{◌≡◌, ◌≤◌};

use crate::commands::program;
use crate::numbers::expand_numbers;
use clap::{ArgMatches, Error};
use std::alloc::{AllocError, Global};
use std::env;
use std::process::ExitCode;
use std::rt::Env;
use tfs_files::{CommandEnd, CommandFault, FaultPlace, Limits, Retention, Start, end_by};
use tfs_serve::ClientFields;
use tfs_server::Bounds;

/// The request of `serve`.
#[derive(Drop)]
pub(crate) struct Serving<'a> {
    /// The request for the start.
    pub(crate) start: Start<'a>,
    /// The address to listen on.
    pub(crate) listen: &'a str,
    /// The number of workers.
    pub(crate) workers: usize,
    /// The file of the least position, which applies in addition to the argument's.
    pub(crate) least_file: Option<&'a str>,
    /// The address where to answer requests for the server's numbers.
    pub(crate) metrics: Option<&'a str>,
    /// The fields with which requests name their clients.
    pub(crate) client_fields: ClientFields<'a>,
    /// Whether to answer reads after the journal can't be written any more.
    pub(crate) serve_reads: bool,
    /// How much a journal may grow before it is compacted.
    pub(crate) bounds: Bounds,
    ghost some: { 1 ≤ workers },
    ghost few: { workers ≤ 16 },
}

impl<'a> Serving<'a> {
    /// Returns the request of the arguments of `serve`.
    pub(crate) fn of(given: &ArgMatches<'a>) -> Serving<'a> {
        Serving {
            start: start_of(given),
            listen: given.get_str("listen").unwrap_or("127.0.0.1:8080"),
            workers: workers_in(given.get_one::<usize>("workers")),
            least_file: given.get_str("at-least-file"),
            metrics: given.get_str("metrics"),
            client_fields: ClientFields {
                user: given.get_str("user-header"),
                address: given.get_str("address-header"),
            },
            serve_reads: given.get_flag("serve-reads"),
            bounds: bounds_of(given),
        }
    }

    /// Returns the path or address that an error is about.
    pub(crate) fn name_at(&self, place: FaultPlace) -> &'a str {
        match place {
            FaultPlace::Command
            | FaultPlace::Folder
            | FaultPlace::Old
            | FaultPlace::Journal(_)
            | FaultPlace::OldJournal(_)
            | FaultPlace::Identity
            | FaultPlace::OriginalIdentity => self.start.folder,
            FaultPlace::First => self.start.first.unwrap_or(""),
            FaultPlace::Past => self.start.past.unwrap_or(""),
            FaultPlace::Position => self.least_file.unwrap_or(""),
            FaultPlace::Address => self.listen,
        }
    }
}

/// Returns how much a journal may grow by the arguments of `serve`.
fn bounds_of(given: &ArgMatches<'_>) -> Bounds {
    Bounds {
        bytes: given.get_one::<u64>("compact-bytes").unwrap_or(u64::MAX),
        entries: given.get_one::<u64>("compact-entries").unwrap_or(32_768),
    }
}

/// Returns the request for the start by the arguments of `serve`.
fn start_of<'a>(given: &ArgMatches<'a>) -> Start<'a> {
    Start {
        folder: folder_of(given),
        first: given.get_str("first"),
        past: given.get_str("accept-past"),
        least: given.get_one::<u64>("at-least").unwrap_or(0),
        keep: keep_in(given),
    }
}

/// Returns which files of `old/` to keep by the arguments: the newest ones alone if their number is
/// given, otherwise the newest 10 and others within limits.
fn keep_in(given: &ArgMatches<'_>) -> Retention {
    if let Some(newest) = given.get_one::<u64>("keep") {
        return Retention {
            newest,
            limits: None,
        };
    }
    let days = given.get_one::<u64>("keep-days").unwrap_or(90);
    let bytes = given.get_one::<u64>("keep-bytes").unwrap_or(u64::MAX);
    Retention {
        newest: 10,
        limits: Some(Limits {
            seconds: days.saturating_mul(86_400),
            bytes,
        }),
    }
}

/// The request of `copy`.
#[derive(Drop)]
pub(crate) struct Copying<'a> {
    /// The folder to copy.
    pub(crate) from: &'a str,
    /// The folder of the copies.
    pub(crate) to: &'a str,
    /// Which files of `old/` to keep.
    pub(crate) keep: Retention,
    /// The file of the least position, which `copy` raises.
    pub(crate) least_file: Option<&'a str>,
}

impl<'a> Copying<'a> {
    /// Returns the request of the arguments of `copy`.
    pub(crate) fn of(given: &ArgMatches<'a>) -> Copying<'a> {
        Copying {
            from: given.get_str("FROM").unwrap_or("."),
            to: given.get_str("TO").unwrap_or("."),
            keep: keep_in(given),
            least_file: given.get_str("at-least-file"),
        }
    }

    /// Returns the path that an error is about: the folder of copies, the file of the least
    /// position, or the folder that is copied.
    pub(crate) fn name_at(&self, place: FaultPlace) -> &'a str {
        match place {
            FaultPlace::Position => self.least_file.unwrap_or(""),
            FaultPlace::OriginalIdentity => self.from,
            FaultPlace::Command
            | FaultPlace::Folder
            | FaultPlace::Old
            | FaultPlace::Journal(_)
            | FaultPlace::OldJournal(_)
            | FaultPlace::Identity
            | FaultPlace::First
            | FaultPlace::Past
            | FaultPlace::Address => self.to,
        }
    }
}

/// Returns the number of workers, from 1 to 16, the range of the option.
fn workers_in(given: Option<usize>) -> usize
    ensures some { 1 ≤ result }
    ensures few { result ≤ 16 }
{
    match given {
        Some(workers) => workers.max(1).min(16),
        None => 16,
    }
}

/// Returns the folder that the arguments name.
pub(crate) fn folder_of<'a>(given: &ArgMatches<'a>) -> &'a str {
    given.get_str("FOLDER").unwrap_or(".")
}

/// Returns the words of the command line. Their numbers with K, M or G are written out.
pub(crate) fn words_of(rt: &(impl AllocGlobal + Env + Eprint)) -> Result<Vec<String>, ExitCode> {
    let Ok(words) = env::args(rt) else {
        return Err(end_by(
            rt,
            "",
            CommandEnd::at(FaultPlace::Command, CommandFault::Arguments),
        ));
    };
    match collect_words(rt.alloc(), words) {
        Ok(words) => Ok(words),
        Err(_) => Err(end_by(
            rt,
            "",
            CommandEnd::at(FaultPlace::Command, CommandFault::OutOfMemory),
        )),
    }
}

/// Collects the words, and writes out their numbers with K, M or G.
fn collect_words(alloc: Global, words: env::Args) -> Result<Vec<String>, AllocError> {
    expand_numbers(alloc, words.collect(alloc)?)
}

/// Returns the parsed words, or the text that reports what is wrong with them.
pub(crate) fn matches_of(alloc: Global, words: &[String]) -> Result<ArgMatches<'_>, Error> {
    program(alloc)?.try_get_matches_from(words)
}
