//! Metrics of a folder's newest journal.

use crate::fault::{ReportEnd, ReportFault, ReportPlace};
use crate::files::{Kept, Newest, Opening, Source, fault_of, newest_opening, source_of};
use std::alloc::Global;
use tfs_versions::{Measures, measure, whole_part};

/// Returns the metrics of the valid part of a folder's newest journal, and the fault that follows
/// that part, if any.
pub(crate) fn measures_of(
    rt: &HostRuntime,
    folder: &str,
) -> Result<(Measures, Option<ReportEnd>), ReportEnd> {
    match newest_opening(rt, folder, Kept::Entries)? {
        Opening::Whole(Newest { len, table }) => Ok((measure(rt.alloc(), len, &table)?, None)),
        Opening::Broken(number, end) => match source_of(rt, folder, number)? {
            Some(source) => match measures_in(rt.alloc(), &source)? {
                Some(measures) => Ok((measures, Some(end))),
                None => Err(end),
            },
            None => Err(changing()),
        },
        Opening::Cut | Opening::Gone => Err(changing()),
    }
}

/// Returns the end by journals that went away while they were read.
fn changing() -> ReportEnd {
    ReportEnd::at(ReportPlace::Folder, ReportFault::Changing)
}

/// Returns the metrics of the valid part of a journal; none if its base isn't valid.
fn measures_in(alloc: Global, source: &Source) -> Result<Option<Measures>, ReportEnd> {
    let bytes = source.bytes.as_slice();
    match whole_part(alloc, bytes) {
        Ok(Some(table)) => Ok(Some(measure(alloc, bytes.len(), &table)?)),
        Ok(None) => Ok(None),
        Err(fault) => Err(ReportEnd::of_files(source.place, fault_of(fault))),
    }
}
