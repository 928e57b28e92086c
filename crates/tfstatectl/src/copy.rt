//! The command `copy`: brings a folder of copies up to date with the journals of another folder,
//! which may be served meanwhile.

use crate::command::Copying;
use std::process::ExitCode;
use std::{fs, io};
use tfs_files::{
    CommandEnd, CommandFault, CopyEnd, CopyFolders, DurableJournal, FaultPlace, FolderLock, Gap,
    JournalName, Parts, PositionFile, choose_parts, end_by, least_position, lock_folder,
    mark_copies, name_parts, numbers_here, raise_least, refuse_other_copies, refuse_other_original,
    refuse_served, remove_expired, retire, write_parts,
};
use tfs_folder::Chosen;

/// A folder of copies: its lock, its journals, and the file of the least position.
#[derive(Drop)]
struct Copies {
    lock: FolderLock,
    here: Vec<u64>,
    least: Option<PositionFile>,
}

/// The newest journal that was copied, and its position.
#[derive(Clone, Copy)]
struct Newest {
    number: u64,
    position: u64,
}

impl Newest {
    /// Returns the number and the position of the chosen journal.
    fn of(chosen: &Chosen) -> Newest {
        Newest {
            number: chosen.number,
            position: chosen.table.position(),
        }
    }
}

/// The result of copying: the numbers of the parts, the newest journal, and what is missing between
/// the copies and the parts, if a new chain of copies begins.
#[derive(Drop)]
struct Copied {
    parts: Vec<u64>,
    newest: Newest,
    gap: Option<Gap>,
}

/// Copies, and prints the position up to which it copied. Returns the program's exit status.
pub(crate) fn run(rt: &HostRuntime, asked: &Copying<'_>) -> ExitCode {
    match copies_in(rt, asked) {
        Ok(copies) => copy_to(rt, asked, copies),
        Err(end) => end_by(rt, asked.name_at(end.place()), end),
    }
}

/// Copies into a locked folder of copies, and prints the position up to which it copied. Returns
/// the program's exit status.
fn copy_to(rt: &HostRuntime, asked: &Copying<'_>, copies: Copies) -> ExitCode {
    let least = least_position(0, &copies.least);
    match copy_files(rt, asked, copies.here.as_slice(), least) {
        Ok(copied) => name_copied(rt, asked, copies, copied),
        Err(status) => status,
    }
}

/// Writes parts for the journals that are to be copied, and chooses the newest one. `here` has the
/// numbers of the copies' journals.
fn copy_files(
    rt: &HostRuntime,
    asked: &Copying<'_>,
    here: &[u64],
    least: u64,
) -> Result<Copied, ExitCode> {
    let folders = CopyFolders {
        from: asked.from,
        to: asked.to,
        copies: here,
    };
    let Parts { numbers, gap } = match write_parts(rt, &folders) {
        Ok(parts) => parts,
        Err(CopyEnd { folder, end }) => return Err(end_by(rt, folder, end)),
    };
    match own_among(rt, asked, numbers.as_slice(), least) {
        Ok(newest) => Ok(Copied {
            parts: numbers,
            newest,
            gap,
        }),
        Err(end) => Err(end_by(rt, asked.from, end)),
    }
}

/// Returns the newest journal of these parts. It must be the copied folder's own, and its position
/// must be at least this one.
fn own_among(
    rt: &HostRuntime,
    asked: &Copying<'_>,
    parts: &[u64],
    least: u64,
) -> Result<Newest, CommandEnd> {
    let newest = Newest::of(&choose_parts(rt, asked.from, asked.to, parts, least)?);
    refuse_other_original(rt, asked.from, newest.number)?;
    Ok(newest)
}

/// Gives the copied parts their names, and prints the position up to which was copied. Returns the
/// program's exit status.
fn name_copied(rt: &HostRuntime, asked: &Copying<'_>, copies: Copies, copied: Copied) -> ExitCode {
    let Copies {
        lock: _lock,
        here: _,
        least,
    } = copies;
    match keep(rt, asked, least, &copied) {
        Ok(()) => {
            if let Some(gap) = copied.gap {
                let _ = tell_gap(rt, asked, gap);
            }
            tell(rt, copied.newest)
        }
        Err(end) => end_by(rt, asked.name_at(end.place()), end),
    }
}

/// Takes the lock of the folder of copies, which is created if it doesn't exist. Refuses a folder
/// that was served, because it may have changes of its own.
fn copies_in(rt: &HostRuntime, asked: &Copying<'_>) -> Result<Copies, CommandEnd> {
    let _ = fs::create_dir_all(rt, asked.to);
    let lock = lock_folder(rt, asked.to)?;
    let here = unserved_numbers(rt, asked.to)?;
    refuse_other_copies(rt, asked.from, asked.to)?;
    let least = PositionFile::open_if_given(rt, asked.least_file, here.is_empty())?;
    Ok(Copies { lock, here, least })
}

/// Returns the numbers of the journals of a folder, unless the folder was served.
fn unserved_numbers(rt: &HostRuntime, folder: &str) -> Result<Vec<u64>, CommandEnd> {
    refuse_served(rt, folder)?;
    numbers_here(rt, folder)
}

/// Gives the parts their names, up to the newest one, retires the journals before it, and raises
/// the least position.
fn keep(
    rt: &HostRuntime,
    asked: &Copying<'_>,
    least: Option<PositionFile>,
    copied: &Copied,
) -> Result<(), CommandEnd> {
    mark_copies(rt, asked.from, asked.to, copied.parts.as_slice())?;
    let named = name_parts(rt, asked.to, copied.parts.as_slice(), copied.newest.number)?;
    if let Some(journal) = named {
        tidy(rt, asked, journal)?;
    }
    let _least = raise_least(rt, least, copied.newest.position)?;
    Ok(())
}

/// Retires the journals before this one, which continues the last of them, and removes expired
/// ones.
fn tidy(
    rt: &HostRuntime,
    asked: &Copying<'_>,
    journal: DurableJournal<'_>,
) -> Result<(), CommandEnd> {
    let here = numbers_here(rt, journal.folder())?;
    retire(rt, here.as_slice(), journal)?;
    let _ = remove_expired(rt, journal.folder(), asked.keep);
    Ok(())
}

/// Reports on standard error that a new chain of copies begins, because the source no longer has
/// what the earlier one needs. Nothing is reported if the new one begins at the position at which
/// the earlier one ends.
fn tell_gap(rt: &HostRuntime, asked: &Copying<'_>, gap: Gap) -> io::Result<()> {
    let (from, to) = (asked.from, asked.to);
    if gap.is_empty() {
        return Ok(());
    }
    match (gap.end, gap.begin) {
        (Some(end), Some(begin)) => eprintln!(rt;
            "tfstatectl: {from}: the source no longer has the journals between position {end} and {begin}: a new chain of copies begins; the earlier one is in {to}/old"
        ),
        (_, _) => eprintln!(rt;
            "tfstatectl: {from}: the source no longer has the journals after the copies: a new chain of copies begins; the earlier one is in {to}/old"
        ),
    }
}

/// Prints the newest journal and the position up to which was copied.
fn tell(rt: &HostRuntime, newest: Newest) -> ExitCode {
    let (name, position) = (JournalName(newest.number), newest.position);
    match println!(rt; "copied {name} up to position {position}") {
        Ok(()) => ExitCode::SUCCESS,
        Err(_) => end_by(
            rt,
            "",
            CommandEnd::at(FaultPlace::Command, CommandFault::Write),
        ),
    }
}
