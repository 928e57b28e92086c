//! Metrics of a folder, in the text format of Prometheus. (Prometheus, 'Exposition formats'.)

use crate::clock::{age_of, seconds_now};
use crate::fault::{ReportEnd, ReportFault, ReportPlace};
use crate::files::TRIES;
use crate::measures::measures_of;
use crate::output::write;
use jiff::Timestamp;
use std::alloc::{AllocError, Global};
use std::time::SystemTime;
use std::{fs, io};
use tfs_files::{journal_path, numbers_in};
use tfs_table::MAX_NAMES;
use tfs_versions::Measures;

/// A metric: its name, and its help text.
#[derive(Clone, Copy)]
struct Metric {
    name: &'static str,
    help: &'static str,
}

const LOCK_AGE: Metric = Metric {
    name: "tfstated_oldest_lock_age_seconds",
    help: "For how long the oldest lock has been held, by its holder's clock.",
};

const COPY_AGE: Metric = Metric {
    name: "tfstated_newest_copy_age_seconds",
    help: "For how long the newest journal of the copies has been as it is.",
};

/// Prints the metrics of the valid part of a folder's newest journal, and the age of the newest
/// copy if a folder of copies is given. Leaves out an age that isn't known, such as that of copies
/// before the first one is made.
pub fn stats(rt: &HostRuntime, folder: &str, copies: Option<&str>) -> Result<(), ReportEnd> {
    let (measures, fault) = measures_of(rt, folder)?;
    let (copied, copies_fault) = match copies {
        Some(copies) => match newest_copy_time(rt, copies) {
            Ok(copied) => (copied, None),
            Err(end) => (None, Some(end)),
        },
        None => (None, None),
    };
    tell(rt, &measures, copied)?;
    match fault.or(copies_fault) {
        Some(end) => Err(end),
        None => Ok(()),
    }
}

/// Prints the metrics, with ages if there is a clock.
fn tell(rt: &HostRuntime, measures: &Measures, copied: Option<i64>) -> Result<(), ReportEnd> {
    let mut text = String::new(rt.alloc());
    add_numbers(rt.alloc(), &mut text, measures)?;
    let now = seconds_now(rt);
    let held_for = age_of(now, measures.oldest_lock);
    add_age(rt.alloc(), &mut text, LOCK_AGE, held_for)?;
    add_age(rt.alloc(), &mut text, COPY_AGE, age_of(now, copied))?;
    write(rt, text.as_bytes())
}

/// Returns when the newest journal of a folder of copies was modified, in seconds since 1970; none
/// before the first copy.
fn newest_copy_time(rt: &HostRuntime, copies: &str) -> Result<Option<i64>, ReportEnd> {
    for _ in 0..TRIES {
        let Some(number) = newest_copy(rt, copies)? else {
            return Ok(None);
        };
        if let Some(time) = written_at(rt, copies, number)? {
            return Ok(Some(time));
        }
    }
    Err(ReportEnd::at(ReportPlace::Copies, ReportFault::Changing))
}

/// Returns the number of the newest journal of a folder of copies; none if the folder has no
/// journal or doesn't exist.
fn newest_copy(rt: &HostRuntime, copies: &str) -> Result<Option<u64>, ReportEnd> {
    match numbers_in(rt, copies) {
        Ok(numbers) => Ok(numbers.as_slice().last().copied()),
        Err(error) => match error.kind() {
            io::ErrorKind::NotFound => Ok(None),
            _ => Err(ReportEnd::by_system(ReportPlace::Copies, &error)),
        },
    }
}

/// Returns when the journal with a number was modified, in seconds since 1970; none if it went
/// away.
fn written_at(rt: &HostRuntime, copies: &str, number: u64) -> Result<Option<i64>, ReportEnd> {
    let path = journal_path(rt, copies, number)?;
    let place = ReportPlace::Copy(number);
    match modified_at(rt, path.as_str()) {
        Ok(time) => match Timestamp::try_from(time) {
            Ok(time) => Ok(Some(time.as_second())),
            Err(_) => Err(ReportEnd::of_files(place, tfs_files::CommandFault::CannotRead)),
        },
        Err(error) => match error.kind() {
            io::ErrorKind::NotFound => Ok(None),
            _ => Err(ReportEnd::by_system(place, &error)),
        },
    }
}

/// Returns when a file was last modified.
fn modified_at(rt: &HostRuntime, path: &str) -> io::Result<SystemTime> {
    fs::metadata(rt, path)?.modified()
}

/// Adds the metrics of a journal.
fn add_numbers(alloc: Global, text: &mut String, of: &Measures) -> Result<(), AllocError> {
    let changes = Metric {
        name: "tfstated_changes_total",
        help: "Changes of all workspaces over all journals: the position.",
    };
    let gauges = [
        (
            "tfstated_journal_bytes",
            "Bytes of the newest journal.",
            of.bytes,
        ),
        (
            "tfstated_journal_entries",
            "Changes in the newest journal.",
            of.entries,
        ),
        ("tfstated_workspaces", "Names of workspaces.", of.names),
        (
            "tfstated_workspaces_limit",
            "The greatest number of names of workspaces.",
            MAX_NAMES,
        ),
        (
            "tfstated_instances",
            "Resource instances of the newest states.",
            of.instances,
        ),
        ("tfstated_locks", "Locks that are held.", of.locks),
    ];
    add(alloc, text, changes, "counter", of.position)?;
    for (name, help, value) in gauges {
        add(alloc, text, Metric { name, help }, "gauge", value as u64)?;
    }
    Ok(())
}

/// Adds an age, if it is known.
fn add_age(
    alloc: Global,
    text: &mut String,
    metric: Metric,
    age: Option<u64>,
) -> Result<(), AllocError> {
    match age {
        Some(age) => add(alloc, text, metric, "gauge", age),
        None => Ok(()),
    }
}

/// Adds the lines of a metric of a type.
fn add(
    alloc: Global,
    text: &mut String,
    metric: Metric,
    kind: &str,
    value: u64,
) -> Result<(), AllocError> {
    let (name, help) = (metric.name, metric.help);
    let lines = format!(in alloc; "# HELP {name} {help}\n# TYPE {name} {kind}\n{name} {value}\n")?;
    text.push_str(lines.as_str())
}
