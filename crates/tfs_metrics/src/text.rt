//! Text of numbers, in the text format of Prometheus. (Prometheus, 'Exposition formats'.)

use crate::answers::{Answers, AnswersRow};
use crate::durations::{BOUNDS, Durations};
use crate::kind::Kind;
use crate::meter::{Compactions, Journal};
use std::alloc::{AllocError, Global};

/// A metric: its name, its type, and its help text.
#[derive(Clone, Copy)]
pub(crate) struct Metric {
    pub(crate) name: &'static str,
    pub(crate) kind: &'static str,
    pub(crate) help: &'static str,
}

const REQUESTS: Metric = Metric {
    name: "tfstated_requests_total",
    kind: "counter",
    help: "Requests by method, route, HTTP status and refusal; without method and route if they were refused before they reached the table.",
};

const DURATIONS: Metric = Metric {
    name: "tfstated_request_duration_seconds",
    kind: "histogram",
    help: "Time from the call of a request to its reply, with the sync of its journal.",
};

const SYNCS: Metric = Metric {
    name: "tfstated_sync_duration_seconds",
    kind: "histogram",
    help: "Time of the syncs of the journal, each of which may serve several changes.",
};

/// Appends the lines of a metric before its values.
pub(crate) fn add_head(alloc: Global, text: &mut String, metric: Metric) -> Result<(), AllocError> {
    let Metric { name, kind, help } = metric;
    let lines = format!(in alloc; "# HELP {name} {help}\n# TYPE {name} {kind}\n")?;
    text.push_str(lines.as_str())
}

/// Appends the lines of a metric with one value.
pub(crate) fn add_value(
    alloc: Global,
    text: &mut String,
    metric: Metric,
    value: u64,
) -> Result<(), AllocError> {
    add_head(alloc, text, metric)?;
    let name = metric.name;
    let line = format!(in alloc; "{name} {value}\n")?;
    text.push_str(line.as_str())
}

/// Appends the lines of a metric with one value in thousandths of a second.
fn add_seconds(
    alloc: Global,
    text: &mut String,
    metric: Metric,
    millis: u64,
) -> Result<(), AllocError> {
    add_head(alloc, text, metric)?;
    let name = metric.name;
    let (seconds, part) = (millis / 1_000, millis % 1_000);
    let line = format!(in alloc; "{name} {seconds}.{part:03}\n")?;
    text.push_str(line.as_str())
}

/// Appends the numbers of answered requests, and their durations.
pub(crate) fn add_answers(
    alloc: Global,
    text: &mut String,
    answers: &Answers,
) -> Result<(), AllocError> {
    add_head(alloc, text, REQUESTS)?;
    for row in answers.rows() {
        add_row(alloc, text, row)?;
    }
    add_head(alloc, text, DURATIONS)?;
    for kind in Kind::ALL {
        let (method, route) = (kind.method(), kind.route());
        let labels = format!(in alloc; "method=\"{method}\",route=\"{route}\"")?;
        add_durations(
            alloc,
            text,
            DURATIONS.name,
            labels.as_str(),
            answers.durations(kind),
        )?;
    }
    Ok(())
}

/// Appends the durations of syncs.
pub(crate) fn add_syncs(
    alloc: Global,
    text: &mut String,
    durations: &Durations,
) -> Result<(), AllocError> {
    add_head(alloc, text, SYNCS)?;
    add_durations(alloc, text, SYNCS.name, "", durations)
}

/// Appends the line of a row of answers.
fn add_row(alloc: Global, text: &mut String, row: &AnswersRow) -> Result<(), AllocError> {
    let (name, method, route) = (REQUESTS.name, row.kind.method(), row.kind.route());
    let (status, refusal, count) = (row.status, row.refusal, row.count);
    let line = format!(in alloc;
        "{name}{{method=\"{method}\",route=\"{route}\",status=\"{status}\",refusal=\"{refusal}\"}} {count}\n"
    )?;
    text.push_str(line.as_str())
}

/// Appends the lines of the durations of a metric with these labels: for each bound how many don't
/// exceed it, their sum, and their number.
fn add_durations(
    alloc: Global,
    text: &mut String,
    name: &str,
    labels: &str,
    durations: &Durations,
) -> Result<(), AllocError> {
    let (comma, all) = if labels.is_empty() {
        ("", String::new(alloc))
    } else {
        (",", format!(in alloc; "{{{labels}}}")?)
    };
    let mut count: u64 = 0;
    for (bound, bucket) in BOUNDS.iter().zip(&durations.buckets) {
        count = count.saturating_add(*bucket);
        let (seconds, part) = (bound / 1_000_000, bound % 1_000_000);
        let line = format!(in alloc;
            "{name}_bucket{{{labels}{comma}le=\"{seconds}.{part:06}\"}} {count}\n"
        )?;
        text.push_str(line.as_str())?;
    }
    count = count.saturating_add(durations.buckets[BOUNDS.len()]);
    let (seconds, part) = (durations.micros / 1_000_000, durations.micros % 1_000_000);
    let lines = format!(in alloc;
        "{name}_bucket{{{labels}{comma}le=\"+Inf\"}} {count}\n{name}_sum{all} {seconds}.{part:06}\n{name}_count{all} {count}\n"
    )?;
    text.push_str(lines.as_str())
}

/// Appends the numbers of compactions.
pub(crate) fn add_compactions(
    alloc: Global,
    text: &mut String,
    compactions: Compactions,
) -> Result<(), AllocError> {
    let made = Metric {
        name: "tfstated_compactions_total",
        kind: "counter",
        help: "Compactions of the journal.",
    };
    let failed = Metric {
        name: "tfstated_failed_compactions_total",
        kind: "counter",
        help: "Compactions that failed.",
    };
    let waited = Metric {
        name: "tfstated_compaction_wait_seconds_total",
        kind: "counter",
        help: "For how long requests waited for compactions.",
    };
    let longest = Metric {
        name: "tfstated_longest_compaction_wait_seconds",
        kind: "gauge",
        help: "For how long requests waited for a compaction at most.",
    };
    add_value(alloc, text, made, compactions.made)?;
    add_value(alloc, text, failed, compactions.failed)?;
    add_seconds(alloc, text, waited, compactions.waited)?;
    add_seconds(alloc, text, longest, compactions.longest)
}

/// Appends the numbers of the served journal.
pub(crate) fn add_journal(
    alloc: Global,
    text: &mut String,
    journal: Journal,
) -> Result<(), AllocError> {
    let changes = Metric {
        name: "tfstated_changes_total",
        kind: "counter",
        help: "Changes of all workspaces over all journals: the position.",
    };
    let bytes = Metric {
        name: "tfstated_journal_bytes",
        kind: "gauge",
        help: "Durable bytes of the served journal.",
    };
    add_value(alloc, text, changes, journal.position)?;
    add_value(alloc, text, bytes, journal.bytes)
}
