//! Part files of copies: the journals of a folder, copied in pieces.

use crate::copies::{CopyFolders, Gap, Originals, file_in, push};
use crate::fault::{CommandEnd, CommandFault, FaultPlace};
use crate::folder::journal_path;
use crate::next::{has_front, part_of, part_path, remove_part};
use std::alloc::Global;
use std::fs::File;
use std::io::{self, BufRead, BufReader, Write};

/// The number of times that a folder is listed if its journals move while they are read.
const TRIES: usize = 10;

/// The maximum number of bytes that are copied at once.
const PIECE_BYTES: usize = 65_536;

/// The part files that were written: their rising numbers, and the gap between the copies and them,
/// if a new chain of copies begins.
#[derive(Drop)]
pub struct Parts {
    pub numbers: Vec<u64>,
    pub gap: Option<Gap>,
}

/// The end of a copy, and the folder that it is about.
#[derive(Clone, Copy)]
pub struct CopyEnd<'a> {
    pub folder: &'a str,
    pub end: CommandEnd,
}

impl<'a> CopyFolders<'a> {
    /// Creates the end of a copy by the folder that is copied.
    fn end_from(&self, end: CommandEnd) -> CopyEnd<'a> {
        CopyEnd {
            folder: self.from,
            end,
        }
    }

    /// Creates the end of a copy by the folder of copies.
    fn end_to(&self, end: CommandEnd) -> CopyEnd<'a> {
        CopyEnd {
            folder: self.to,
            end,
        }
    }
}

/// Copies journals as part files: the folder's retired journals from the first copy's number on
/// (none without copies), and its own journals. Each copy whose journal the folder may still have
/// must be a prefix of it. Lists the journals again if one of them moves while they are read.
pub fn write_parts<'a>(rt: &HostRuntime, folders: &CopyFolders<'a>) -> Result<Parts, CopyEnd<'a>> {
    let mut gone = 0;
    for _ in 0..TRIES {
        match parts_now(rt, folders)? {
            Written::All(parts) => return Ok(parts),
            Written::Gone(number) => gone = number,
        }
    }
    let place = FaultPlace::Journal(gone);
    Err(folders.end_from(CommandEnd::at(place, CommandFault::CannotRead)))
}

/// The outcome of copying listed journals.
#[derive(Drop)]
enum Written {
    /// All journals were copied.
    All(Parts),
    /// The journal with this number is gone.
    Gone(u64),
}

/// Lists the journals, and copies them as part files.
fn parts_now<'a>(rt: &HostRuntime, folders: &CopyFolders<'a>) -> Result<Written, CopyEnd<'a>> {
    let originals = match Originals::list(rt, folders) {
        Ok(originals) => originals,
        Err(end) => return Err(folders.end_from(end)),
    };
    let gap = originals.gap_before(rt, folders);
    let shared = originals.shared(folders.copies, gap);
    if let Some(number) = first_lacking(shared, originals.numbers.as_slice()) {
        return Err(folders.end_to(not_beginning(number)));
    }
    write_all(rt, folders, originals, shared, gap)
}

/// Returns the first number that isn't among others.
fn first_lacking(numbers: &[u64], others: &[u64]) -> Option<u64> {
    numbers
        .iter()
        .copied()
        .find(|number| !others.contains(number))
}

/// Creates the end by a copy that isn't a prefix of a journal.
fn not_beginning(number: u64) -> CommandEnd {
    CommandEnd::at(FaultPlace::Journal(number), CommandFault::NotBeginning)
}

/// Copies the originals as part files, one after the other. The part files are removed if one of the
/// journals is gone, or doesn't begin with its shared copy.
fn write_all<'a>(
    rt: &HostRuntime,
    folders: &CopyFolders<'a>,
    originals: Originals,
    shared: &[u64],
    gap: Option<Gap>,
) -> Result<Written, CopyEnd<'a>> {
    let mut numbers = Vec::new(rt.alloc());
    for number in originals.numbers {
        if !write_one(rt, folders, number)? {
            remove_parts(rt, folders.to, numbers.as_slice());
            return Ok(Written::Gone(number));
        }
        match push(&mut numbers, number) {
            Ok(()) => {}
            Err(end) => return Err(folders.end_to(end)),
        }
        if shared.contains(&number) && !begins(rt, folders, number)? {
            remove_parts(rt, folders.to, numbers.as_slice());
            return Err(folders.end_to(not_beginning(number)));
        }
    }
    Ok(Written::All(Parts { numbers, gap }))
}

/// Removes part files. A file that can't be removed stays; a later copy removes it first.
fn remove_parts(rt: &HostRuntime, folder: &str, numbers: &[u64]) {
    for number in numbers {
        let _ = remove_part(rt, folder, *number);
    }
}

/// Copies the journal with this number durably as a part file. Returns false if it is gone.
fn write_one<'a>(
    rt: &HostRuntime,
    folders: &CopyFolders<'a>,
    number: u64,
) -> Result<bool, CopyEnd<'a>> {
    let file = match file_in(rt, folders.from, number) {
        Ok(Some(file)) => file,
        Ok(None) => return Ok(false),
        Err(end) => return Err(folders.end_from(end)),
    };
    match write_part(rt, folders.to, number, file) {
        Ok(()) => Ok(true),
        Err(PieceFault::Read(error)) => Err(folders.end_from(CommandEnd::by_system(
            FaultPlace::Journal(number),
            CommandFault::CannotRead,
            &error,
        ))),
        Err(PieceFault::Write(error)) => Err(folders.end_to(CommandEnd::by_system(
            FaultPlace::Folder,
            CommandFault::CannotWrite,
            &error,
        ))),
    }
}

/// Why a piece wasn't copied.
#[derive(Drop)]
enum PieceFault {
    /// It couldn't be read.
    Read(io::Error),
    /// It couldn't be written.
    Write(io::Error),
}

/// Writes the bytes of a file durably as a part file.
fn write_part(rt: &HostRuntime, folder: &str, number: u64, from: File) -> Result<(), PieceFault> {
    let mut part = part_of(rt, folder, number).map_err(PieceFault::Write)?;
    copy_pieces(rt.alloc(), from, &mut part)?;
    part.sync_all().map_err(PieceFault::Write)
}

/// Appends the bytes of a file to another one, piece by piece.
fn copy_pieces(alloc: Global, from: File, to: &mut File) -> Result<(), PieceFault> {
    let mut from = in_pieces(alloc, from).map_err(PieceFault::Read)?;
    for _ in 0..u64::MAX {
        let piece = from.fill_buf().map_err(PieceFault::Read)?;
        let count = piece.len();
        if count == 0 {
            return Ok(());
        }
        to.write_all(piece).map_err(PieceFault::Write)?;
        from.consume(count);
    }
    Ok(())
}

/// Returns a reader of a file by pieces.
fn in_pieces(alloc: Global, file: File) -> io::Result<BufReader<File>> {
    BufReader::with_capacity(alloc, PIECE_BYTES, file)
}

/// Returns true if the part file with this number begins with the copy of the same number.
fn begins<'a>(
    rt: &HostRuntime,
    folders: &CopyFolders<'a>,
    number: u64,
) -> Result<bool, CopyEnd<'a>> {
    match part_begins(rt, folders.to, number) {
        Ok(begins) => Ok(begins),
        Err(error) => Err(folders.end_to(CommandEnd::by_system(
            FaultPlace::Journal(number),
            CommandFault::CannotRead,
            &error,
        ))),
    }
}

/// Returns true if a part file begins with the journal of the same number.
fn part_begins(rt: &HostRuntime, folder: &str, number: u64) -> io::Result<bool> {
    let part = File::open(rt, part_path(rt, folder, number)?.as_str())?;
    let copy = File::open(rt, journal_path(rt, folder, number)?.as_str())?;
    if part.metadata()?.len() < copy.metadata()?.len() {
        return Ok(false);
    }
    has_front(in_pieces(rt.alloc(), part)?, in_pieces(rt.alloc(), copy)?)
}
