//! What a run reports when it starts.

use crate::serve::Plan;
use std::io::{self, Write};
use tfs_files::{CommandFault, JournalName};

/// A compaction that was done: the number and the position of the new journal, the number of its
/// names, and the lengths of the old and the new journal in bytes.
#[derive(Clone, Copy)]
pub(crate) struct Compaction {
    pub(crate) number: u64,
    pub(crate) position: u64,
    pub(crate) names: usize,
    pub(crate) before: u64,
    pub(crate) after: u64,
}

/// What to report.
#[derive(Clone, Copy)]
pub(crate) enum Notice {
    /// The first run starts.
    First,
    /// The journal was compacted.
    Compaction(Compaction),
    /// The old journal is still served, because the one of this number couldn't be made.
    Stayed(u64, CommandFault),
    /// There is nothing to report.
    Nothing,
}

impl Notice {
    /// Prints the report, with the milliseconds that requests waited. Only the first one, which has
    /// the server's address, can fail.
    pub(crate) fn tell(self, host: &HostRuntime, plan: &Plan<'_>, waited: u64) -> io::Result<()> {
        let folder = plan.folder;
        match self {
            Notice::First => tell_address(host, plan.address),
            Notice::Compaction(compact) => {
                let _ = compact.tell(host, folder, waited);
                Ok(())
            }
            Notice::Stayed(number, fault) => {
                let name = JournalName(number);
                let _ = eprintln!(host;
                    "tfstatectl: {folder}/{name}: {fault}. The server keeps the present journal, and compacts it in a minute"
                );
                Ok(())
            }
            Notice::Nothing => Ok(()),
        }
    }
}

impl Compaction {
    /// Prints the report of a compaction on standard error.
    fn tell(self, host: &HostRuntime, folder: &str, waited: u64) -> io::Result<()> {
        let Compaction {
            number,
            position,
            names,
            before,
            after,
        } = self;
        let (name, seconds, millis) = (JournalName(number), waited / 1_000, waited % 1_000);
        eprintln!(host;
            "tfstatectl: serving {folder}/{name} from position {position}: {after} bytes instead of {before}, {names} names, \
requests waited {seconds}.{millis:03} s"
        )
    }
}

/// Prints the server's address on standard output.
fn tell_address(host: &HostRuntime, address: &str) -> io::Result<()> {
    let mut writer = io::writer(host);
    write!(writer, "listening {address}\n")?;
    writer.flush()
}
