//! Readers of the journals and of the part files of a folder.

ghost use Rattle.std.specs.Prelude.{◌≡◌, ◌++◌, map, IfOk, OnOk};
ghost use Rattle.std.specs.Io.Take.{take_limit};
ghost use Rattle.tfs_files.specs.Zeros.{limit_of};

use crate::fault::{CommandEnd, CommandFault, FaultPlace};
use crate::folder::journal_path;
use crate::late::LateFile;
use crate::next::part_path;
use crate::zeros::{Zeros, limit_of};
use std::fs::File;
use std::io::{Read, Take};
use tfs_folder::{JournalReader, StartPlan};
use tfs_stream::Watched;

/// The reader of a journal, or of its first bytes.
type Reader<'r> = JournalReader<Watched<Take<LateFile<'r>>>>;

/// Readers of journals.
pub(crate) type Readers<'r> = Vec<Reader<'r>>;

/// Returns readers of the planned journals, one each and in order. Each of them can be opened. Zeros
/// that are cut aren't read.
pub(crate) fn readers_of<'r>(
    rt: &'r HostRuntime,
    folder: &str,
    plan: &StartPlan<'_>,
    zeros: Option<Zeros>,
) -> Result<Readers<'r>, CommandEnd>
    ensures all { IfOk result (λ readers. map (λ one. one.number) readers.items ≡ plan.now.before.now ++ plan.now.after.now) }
    ensures limits { IfOk result (λ readers. map (λ one. take_limit one.reader.inner) readers.items
        ≡ map (limit_of zeros) (plan.now.before.now ++ plan.now.after.now)) }
{
    let mut readers = Vec::new(rt.alloc());
    add_readers(rt, folder, plan.before, zeros, &mut readers)?;
    add_readers(rt, folder, plan.after, zeros, &mut readers)?;
    Ok(readers)
}

/// Appends readers of the journals with these numbers.
fn add_readers<'r>(
    rt: &'r HostRuntime,
    folder: &str,
    numbers: &[u64],
    zeros: Option<Zeros>,
    readers: &mut Readers<'r>,
) -> Result<(), CommandEnd>
    ensures added { OnOk result (map (λ one. one.number) readers.new.items ≡ map (λ one. one.number) readers.old.items ++ numbers.now) }
    ensures limits { OnOk result (map (λ one. take_limit one.reader.inner) readers.new.items
        ≡ map (λ one. take_limit one.reader.inner) readers.old.items ++ map (limit_of zeros) numbers.now) }
{
    let mut rest = numbers;
    while let Some((number, more)) = rest.split_first() {
        let path = path_of(rt, folder, *number)?;
        let reader = reader_at(rt, path, *number, limit_of(zeros, *number))?;
        if readers.push(reader).is_err() {
            return Err(CommandEnd::at(FaultPlace::Folder, CommandFault::OutOfMemory));
        }
        rest = more;
    }
    Ok(())
}

/// Returns readers of the part files with these numbers, one each and in order. Each of them can be
/// opened. Zeros that are cut aren't read.
pub(crate) fn part_readers<'r>(
    rt: &'r HostRuntime,
    folder: &str,
    parts: &[u64],
    zeros: Option<Zeros>,
) -> Result<Readers<'r>, CommandEnd>
    ensures all { IfOk result (λ readers. map (λ one. one.number) readers.items ≡ parts.now) }
    ensures limits { IfOk result (λ readers. map (λ one. take_limit one.reader.inner) readers.items ≡ map (limit_of zeros) parts.now) }
{
    let mut readers = Vec::new(rt.alloc());
    let mut rest = parts;
    while let Some((number, more)) = rest.split_first() {
        let path = path_of_part(rt, folder, *number)?;
        let reader = reader_at(rt, path, *number, limit_of(zeros, *number))?;
        if readers.push(reader).is_err() {
            return Err(CommandEnd::at(FaultPlace::Folder, CommandFault::OutOfMemory));
        }
        rest = more;
    }
    Ok(readers)
}

/// Returns a reader of at most `limit` first bytes of the file at a path, which can be opened, as
/// the journal with this number.
fn reader_at<'r>(
    rt: &'r HostRuntime,
    path: String,
    number: u64,
    limit: u64,
) -> Result<Reader<'r>, CommandEnd>
    ensures number { IfOk result (λ one. one.number ≡ number) }
    ensures limit { IfOk result (λ one. take_limit one.reader.inner ≡ limit) }
{
    match File::open(rt, path.as_str()) {
        Ok(_) => Ok(JournalReader {
            number,
            reader: Watched::new(LateFile::new(rt, path).take(limit)),
        }),
        Err(error) => Err(CommandEnd::by_system(
            FaultPlace::Journal(number),
            CommandFault::CannotRead,
            &error,
        )),
    }
}

/// Returns the path of the folder's journal with this number.
pub(crate) fn path_of(rt: &HostRuntime, folder: &str, number: u64) -> Result<String, CommandEnd> {
    match journal_path(rt, folder, number) {
        Ok(path) => Ok(path),
        Err(_) => Err(CommandEnd::at(FaultPlace::Folder, CommandFault::OutOfMemory)),
    }
}

/// Returns the path of the part file with this number.
pub(crate) fn path_of_part(
    rt: &HostRuntime,
    folder: &str,
    number: u64,
) -> Result<String, CommandEnd> {
    match part_path(rt, folder, number) {
        Ok(path) => Ok(path),
        Err(_) => Err(CommandEnd::at(FaultPlace::Folder, CommandFault::OutOfMemory)),
    }
}
