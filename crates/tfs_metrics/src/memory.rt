//! The memory of the running process, as Linux reports it (proc(5)).

use crate::text::{Metric, add_value};
use std::alloc::{AllocError, Global};
use std::fs;

/// Bytes of a page of memory on x86-64.
const PAGE: u64 = 4_096;

const RESIDENT: Metric = Metric {
    name: "process_resident_memory_bytes",
    kind: "gauge",
    help: "Resident memory of the server.",
};

const LIMIT: Metric = Metric {
    name: "process_virtual_memory_max_bytes",
    kind: "gauge",
    help: "The limit of the server's address space.",
};

/// Appends the resident memory, and the limit of the address space if there is one. Leaves out what
/// the system doesn't report.
pub(crate) fn add_memory(
    rt: &HostRuntime,
    alloc: Global,
    text: &mut String,
) -> Result<(), AllocError> {
    if let Ok(statm) = fs::read_to_string(rt, "/proc/self/statm") {
        if let Some(pages) = resident_in(statm.as_str()) {
            add_value(alloc, text, RESIDENT, pages.saturating_mul(PAGE))?;
        }
    }
    if let Ok(limits) = fs::read_to_string(rt, "/proc/self/limits") {
        if let Some(limit) = limit_in(limits.as_str()) {
            add_value(alloc, text, LIMIT, limit)?;
        }
    }
    Ok(())
}

/// Returns the resident pages in the text of `statm`: its second number.
fn resident_in(statm: &str) -> Option<u64> {
    statm.split_ascii_whitespace().nth(1)?.parse().ok()
}

/// Returns the limit of the address space in the text of `limits`, if it is a number.
fn limit_in(limits: &str) -> Option<u64> {
    for line in limits.lines() {
        if let Some(rest) = line.strip_prefix("Max address space") {
            return rest.split_ascii_whitespace().next()?.parse().ok();
        }
    }
    None
}
