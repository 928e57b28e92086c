//! Standard output.

use crate::fault::{ReportEnd, ReportPlace};
use std::io::Write;

/// Writes bytes to standard output unchanged.
pub(crate) fn write(rt: &HostRuntime, bytes: &[u8]) -> Result<(), ReportEnd> {
    match rt.stdout().write_all(bytes) {
        Ok(()) => Ok(()),
        Err(_) => Err(ReportEnd::of_files(ReportPlace::Command, tfs_files::CommandFault::Write)),
    }
}
