//! A folder's own journals: which journals a start refuses, and which ones are marked.

use crate::fault::{CommandEnd, CommandFault, FaultPlace};
use crate::folder::{journal_path, numbers_in, old_numbers, old_path};
use crate::identity::{Identity, load_identity, new_identity, read_identity, write_identity};
use crate::marks::{MOST_MARKED, first_bytes};
use crate::next::part_path;
use crate::start::Start;
use std::fs::File;
use std::io;

/// The number of retired journals whose marks are kept.
const OLD_JOURNALS: usize = 3;

/// Refuses the chosen journal with this number, which is open, if it is another folder's. Creates
/// the folder's identity if it is missing, and marks the journal if there are no marks. Also marks
/// a journal without a mark that the operator prefers to a discarded one.
pub(crate) fn refuse_other(
    rt: &HostRuntime,
    asked: &Start<'_>,
    chosen: Option<&File>,
    number: u64,
) -> Result<(), CommandEnd> {
    let known = read_identity(rt, asked.folder)?;
    let is_own = match (chosen, &known) {
        (None, Some(_)) => Some(true),
        (None, None) => None,
        (Some(_), None) => None,
        (Some(_), Some(identity)) => is_own(rt, asked.folder, identity, number)?,
    };
    let has_marks = known
        .as_ref()
        .is_some_and(|identity| !identity.marks().is_empty());
    match is_own {
        Some(true) => Ok(()),
        None if !has_marks || asked.past.is_some() => complete(rt, asked.folder, chosen, number),
        _ => Err(CommandEnd::at(FaultPlace::Journal(number), CommandFault::OtherIdentity)),
    }
}

/// Returns whether the journal with this number is the folder's own. Returns `None` if the folder's
/// identity has no mark with that number.
fn is_own(
    rt: &HostRuntime,
    folder: &str,
    identity: &Identity,
    number: u64,
) -> Result<Option<bool>, CommandEnd> {
    match first_of(rt, folder, number).and_then(|first| identity.has(
        rt.alloc(),
        number,
        first.as_slice(),
    )) {
        Ok(is_own) => Ok(is_own),
        Err(error) => Err(CommandEnd::by_system(
            FaultPlace::Journal(number),
            CommandFault::CannotRead,
            &error,
        )),
    }
}

/// Reads the first bytes of the journal with this number from the folder or, since a server may
/// have retired it meanwhile, from its `old/`.
fn first_in(rt: &HostRuntime, folder: &str, number: u64) -> io::Result<Vec<u8>> {
    match first_of(rt, folder, number) {
        Ok(first) => Ok(first),
        Err(error) => match error.kind() {
            io::ErrorKind::NotFound => first_of(rt, old_path(rt, folder)?.as_str(), number),
            _ => Err(error),
        },
    }
}

/// Reads the first bytes of the journal with this number.
fn first_of(rt: &HostRuntime, folder: &str, number: u64) -> io::Result<Vec<u8>> {
    first_bytes(rt, journal_path(rt, folder, number)?.as_str(), MOST_MARKED)
}

/// Creates the folder's identity if it has none, and marks the journal with this number in it if
/// the journal is open.
fn complete(
    rt: &HostRuntime,
    folder: &str,
    chosen: Option<&File>,
    number: u64,
) -> Result<(), CommandEnd> {
    match complete_mark(rt, folder, chosen, number) {
        Ok(()) => Ok(()),
        Err(error) => Err(CommandEnd::by_system(
            FaultPlace::Identity,
            CommandFault::CannotWrite,
            &error,
        )),
    }
}

/// Does the work of [`complete`]. Only durable bytes are marked.
fn complete_mark(
    rt: &HostRuntime,
    folder: &str,
    chosen: Option<&File>,
    number: u64,
) -> io::Result<()> {
    let mut identity = new_identity(rt, folder)?;
    if let Some(file) = chosen {
        file.sync_all()?;
        let first = first_of(rt, folder, number)?;
        identity.mark(rt.alloc(), number, first.as_slice())?;
    }
    write_identity(rt, folder, &identity)
}

/// Marks a part file durably, before it gets the name of the journal with this number. Only the
/// marks of the newest journals are kept.
pub(crate) fn mark_part(rt: &HostRuntime, folder: &str, part: u64, number: u64) -> io::Result<()> {
    let mut identity = new_identity(rt, folder)?;
    identity.keep(newest_of(rt, folder)?.as_slice());
    let part = part_path(rt, folder, part)?;
    let first = first_bytes(rt, part.as_str(), MOST_MARKED)?;
    identity.mark(rt.alloc(), number, first.as_slice())?;
    write_identity(rt, folder, &identity)
}

/// Marks the journal with this number, which has its name, by at most `durable` of its first bytes,
/// which must all be durable. Does nothing if the folder has no identity, or if the journal doesn't
/// match its mark.
pub fn mark_grown(rt: &HostRuntime, folder: &str, number: u64, durable: usize) -> io::Result<()> {
    let Some(mut identity) = load_identity(rt, folder)? else {
        return Ok(());
    };
    let path = journal_path(rt, folder, number)?;
    let first = first_bytes(rt, path.as_str(), durable)?;
    if identity.has(rt.alloc(), number, first.as_slice())? != Some(true) {
        return Ok(());
    }
    identity.mark(rt.alloc(), number, first.as_slice())?;
    write_identity(rt, folder, &identity)
}

/// Returns the numbers of a folder's own journals and of the newest retired ones.
fn newest_of(rt: &HostRuntime, folder: &str) -> io::Result<Vec<u64>> {
    let mut numbers = numbers_in(rt, folder)?;
    let old = old_numbers(rt, folder)?;
    let fewer = old.len().saturating_sub(OLD_JOURNALS);
    numbers.extend_from_slice(old.as_slice().get(fewer..).unwrap_or(&[]))?;
    Ok(numbers)
}

/// Refuses to copy a folder into one with another identity. A folder without an identity is never
/// refused.
pub fn refuse_other_copies(rt: &HostRuntime, from: &str, to: &str) -> Result<(), CommandEnd> {
    let original = match read_identity(rt, from) {
        Ok(original) => original,
        Err(end) => return Err(end.of_original()),
    };
    let copy = read_identity(rt, to)?;
    if are_different(original.as_ref(), copy.as_ref()) {
        return Err(CommandEnd::at(FaultPlace::Identity, CommandFault::OtherIdentity));
    }
    Ok(())
}

/// Refuses to copy the journal with this number if it isn't the copied folder's own according to
/// its identity. Accepts every journal of a folder without marks, and a journal that was retired so
/// long ago that its mark or its file is gone.
pub fn refuse_other_original(rt: &HostRuntime, from: &str, number: u64) -> Result<(), CommandEnd> {
    let Some(identity) = read_identity(rt, from)? else {
        return Ok(());
    };
    let place = FaultPlace::Journal(number);
    if identity.ends_before(number) {
        return Err(CommandEnd::at(place, CommandFault::OtherIdentity));
    }
    match first_in(rt, from, number).and_then(|first| identity.has(
        rt.alloc(),
        number,
        first.as_slice(),
    )) {
        Ok(Some(false)) => Err(CommandEnd::at(place, CommandFault::OtherIdentity)),
        Ok(_) => Ok(()),
        Err(error) => match error.kind() {
            io::ErrorKind::NotFound => Ok(()),
            _ => Err(CommandEnd::by_system(place, CommandFault::CannotRead, &error)),
        },
    }
}

/// Returns true if two folders have different identities.
fn are_different(one: Option<&Identity>, other: Option<&Identity>) -> bool {
    match (one, other) {
        (Some(one), Some(other)) => one.value() != other.value(),
        _ => false,
    }
}

/// Gives a folder of copies the identity of the copied folder if that has one, unless the folder of
/// copies has its own. Marks its journals, and the part files with these numbers whose journals it
/// lacks, before they get their names.
pub fn mark_copies(
    rt: &HostRuntime,
    from: &str,
    to: &str,
    parts: &[u64],
) -> Result<(), CommandEnd> {
    let known = match read_identity(rt, to)? {
        Some(identity) => Some(identity),
        None => read_identity(rt, from)?,
    };
    let Some(known) = known else {
        return Ok(());
    };
    match write_marks(rt, to, &known, parts) {
        Ok(()) => Ok(()),
        Err(error) => Err(CommandEnd::by_system(
            FaultPlace::Identity,
            CommandFault::CannotWrite,
            &error,
        )),
    }
}

/// Does the work of [`mark_copies`] for an identity.
fn write_marks(rt: &HostRuntime, to: &str, known: &Identity, parts: &[u64]) -> io::Result<()> {
    let mut identity = known.with_no_marks(rt.alloc())?;
    let here = numbers_in(rt, to)?;
    for number in here.as_slice() {
        identity.mark(rt.alloc(), *number, first_of(rt, to, *number)?.as_slice())?;
    }
    for number in parts {
        if !here.as_slice().contains(number) {
            let part = part_path(rt, to, *number)?;
            let first = first_bytes(rt, part.as_str(), MOST_MARKED)?;
            identity.mark(rt.alloc(), *number, first.as_slice())?;
        }
    }
    write_identity(rt, to, &identity)
}
