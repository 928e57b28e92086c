//! The start of a server: the lock, the address, the least position, and the table.

use crate::command::Serving;
use crate::listening::listen;
use std::fs;
use tfs_files::{
    CommandEnd, CommandFault, FaultPlace, FolderLock, Made, PositionFile, Start, least_position,
    lock_folder, raise_least, refuse_small_stack, start_journal,
};
use tfs_serve::AnyListener;

/// A folder that is ready to be served: its lock, the listener, the file of the least position, and
/// its next journal with the table over it.
#[derive(Drop)]
pub(crate) struct Ready<'f> {
    pub(crate) lock: FolderLock,
    pub(crate) listener: AnyListener,
    pub(crate) least: Option<PositionFile>,
    pub(crate) made: Made<'f>,
}

/// Checks the stack size of threads, takes the folder's lock, listens, and makes the folder's next
/// journal. Returns the first error.
pub(crate) fn start<'f>(rt: &HostRuntime, asked: &Serving<'f>) -> Result<Ready<'f>, CommandEnd> {
    if let Err(fault) = refuse_small_stack() {
        return Err(CommandEnd::at(FaultPlace::Command, fault));
    }
    let begins = asked.start.first.is_some();
    if begins {
        let _ = fs::create_dir_all(rt, asked.start.folder);
    }
    let lock = lock_folder(rt, asked.start.folder)?;
    let listener = listen(rt, asked.listen)?;
    let (least, made) = begin(rt, asked, begins)?;
    Ok(Ready {
        lock,
        listener,
        least,
        made,
    })
}

/// Returns the file of the least position, raised to the table's position, and the folder's next
/// journal.
fn begin<'f>(
    rt: &HostRuntime,
    asked: &Serving<'f>,
    begins: bool,
) -> Result<(Option<PositionFile>, Made<'f>), CommandEnd> {
    let least = PositionFile::open_if_given(rt, asked.least_file, begins)?;
    let made = start_from(rt, asked, least_position(asked.start.least, &least))?;
    let least = raise_least(rt, least, made.table.position())?;
    Ok((least, made))
}

/// Makes the folder's next journal, which starts at this position or a higher one.
fn start_from<'f>(
    rt: &HostRuntime,
    asked: &Serving<'f>,
    least: u64,
) -> Result<Made<'f>, CommandEnd> {
    let start = Start {
        least,
        ..asked.start
    };
    start_journal(rt, &start)
}
