//! Outlines of journals, which are read in pieces.

ghost use Rattle.std.specs.Prelude.{◌≡◌, None, IfOk, OnOk};

use crate::ahead::framed_base;
use crate::choosing::{choice_of, refuse_twice};
use crate::fault::{CommandEnd, CommandFault, FaultPlace};
use crate::folder::{journal_path, old_path};
use crate::synced::synced_bytes;
use crate::zeros::tail_in;
use std::alloc::AllocError;
use std::fs::File;
use std::io::{self, Read};
use tfs_folder::{
    Chosen, JournalSummary, JournalTail, ReadAlone, StartPlan, Unchosen, choose_alone,
};
use tfs_journal::End;
use tfs_records::Discard;
use tfs_replay::{StartFault, rebase_from};
use tfs_stream::Watched;
use tfs_table::OpenFault;

/// What a journal has: the position of its base, its own position, the number of its names, how its
/// bytes end, and the number of zeros after them that a start cuts.
#[derive(Clone, Copy, Debug, PartialEq, Eq)]
pub struct JournalOutline {
    pub base: u64,
    pub position: u64,
    pub names: usize,
    pub end: End,
    pub zeros: u64,
}

/// The outline of a journal, or why it doesn't open.
pub type Outlined = Result<JournalOutline, OpenFault>;

/// The only journal of a folder, which was read once: its outline, and the journal that a start
/// continues.
#[derive(Drop)]
pub struct OutlinedAlone {
    pub outlined: Outlined,
    pub choice: Result<Chosen, CommandEnd>,
}

/// Reads the outline of a folder's journal with this number.
pub fn outline_here(rt: &HostRuntime, folder: &str, number: u64) -> Result<Outlined, CommandEnd> {
    let place = FaultPlace::Journal(number);
    match journal_path(rt, folder, number) {
        Ok(path) => match outline_at(rt, path.as_str(), synced_bytes(rt, folder, number)) {
            Ok(outlined) => Ok(outlined),
            Err(error) => Err(CommandEnd::by_system(place, CommandFault::CannotRead, &error)),
        },
        Err(AllocError) => Err(CommandEnd::at(place, CommandFault::OutOfMemory)),
    }
}

/// Reads the folder's journal with this number, which is the only planned one. Reads it once for its
/// outline and for the choice. Refuses a number that is used twice.
pub fn outline_alone(
    rt: &HostRuntime,
    folder: &str,
    plan: &StartPlan<'_>,
    number: u64,
) -> Result<OutlinedAlone, CommandEnd>
    ensures once { IfOk result (λ read. OnOk read.choice (plan.now.twice ≡ None)) }
{
    let place = FaultPlace::Journal(number);
    let (base, read) = match journal_path(rt, folder, number) {
        Ok(path) => match read_alone(rt, path.as_str(), number) {
            Ok(read) => read,
            Err(error) => {
                return Err(CommandEnd::by_system(place, CommandFault::CannotRead, &error));
            }
        },
        Err(AllocError) => return Err(CommandEnd::at(place, CommandFault::OutOfMemory)),
    };
    let ReadAlone { summary, choice } = read;
    Ok(OutlinedAlone {
        outlined: summary.map(|summary| outline_by(base, summary)),
        choice: chosen_once(plan, choice),
    })
}

/// Returns the chosen journal. Refuses a number that is used twice.
fn chosen_once(plan: &StartPlan<'_>, choice: Result<Chosen, Unchosen>) -> Result<Chosen, CommandEnd>
    ensures once { OnOk result (plan.now.twice ≡ None) }
{
    let chosen = choice_of(choice, 0)?;
    refuse_twice(plan)?;
    Ok(chosen)
}

/// Reads the only journal of a folder at a path. Returns the position of its base and what was read.
fn read_alone(rt: &HostRuntime, path: &str, number: u64) -> io::Result<(u64, ReadAlone)> {
    let file = File::open(rt, path)?;
    let base = framed_base(&file)?.unwrap_or(0);
    match choose_alone(rt.alloc(), number, &mut Watched::new(file), 0) {
        Ok(read) => Ok((base, read)),
        Err(_) => Err(io::Error::from(io::ErrorKind::Other)),
    }
}

/// Returns the outline of a journal with this base and summary.
fn outline_by(base: u64, summary: JournalSummary) -> JournalOutline {
    let JournalSummary {
        position,
        names,
        end,
    } = summary;
    JournalOutline {
        base,
        position,
        names,
        end,
        zeros: 0,
    }
}

/// Reads the outline of a retired journal with this number. Returns `None` if it doesn't exist.
pub fn outline_old(
    rt: &HostRuntime,
    folder: &str,
    number: u64,
) -> Result<Option<Outlined>, CommandEnd> {
    let place = FaultPlace::OldJournal(number);
    match outline_in_old(rt, folder, number) {
        Ok(outlined) => Ok(Some(outlined)),
        Err(error) => match error.kind() {
            io::ErrorKind::NotFound => Ok(None),
            _ => Err(CommandEnd::by_system(place, CommandFault::CannotRead, &error)),
        },
    }
}

/// Reads the outline of a retired journal with this number.
fn outline_in_old(rt: &HostRuntime, folder: &str, number: u64) -> io::Result<Outlined> {
    let old = old_path(rt, folder)?;
    let path = journal_path(rt, old.as_str(), number)?;
    outline_at(rt, path.as_str(), synced_bytes(rt, folder, number))
}

/// Reads the outline of the journal at a path, without zeros that a start cuts. `synced` is the
/// recorded number of synced bytes.
fn outline_at(rt: &HostRuntime, path: &str, synced: Option<u64>) -> io::Result<Outlined> {
    let outlined = outline_of(rt, File::open(rt, path)?)?;
    let Err(OpenFault::Damaged(at)) = outlined else {
        return Ok(outlined);
    };
    match tail_in(rt, File::open(rt, path)?, at, synced)? {
        JournalTail::Cut(zeros) => outline_before(rt, File::open(rt, path)?, at, zeros),
        JournalTail::Synced(_) | JournalTail::Unknown | JournalTail::Kept => Ok(outlined),
    }
}

/// Reads the outline of the journal in a file.
pub(crate) fn outline_of(rt: &HostRuntime, file: File) -> io::Result<Outlined> {
    outline_front(rt, file, u64::MAX)
}

/// Reads the outline of the journal in a file before this number of zeros, which begin at an offset.
fn outline_before(rt: &HostRuntime, file: File, at: usize, zeros: u64) -> io::Result<Outlined> {
    match outline_front(rt, file, at as u64)? {
        Ok(outline) => Ok(Ok(JournalOutline { zeros, ..outline })),
        Err(fault) => Ok(Err(fault)),
    }
}

/// Reads the outline of the journal in at most this many first bytes of a file.
fn outline_front(rt: &HostRuntime, file: File, limit: u64) -> io::Result<Outlined> {
    let base = framed_base(&file)?.unwrap_or(0);
    match rebase_from(rt.alloc(), &mut Watched::new(file.take(limit)), Discard) {
        Ok((table, end)) => Ok(Ok(JournalOutline {
            base,
            position: table.position(),
            names: table.names(),
            end,
            zeros: 0,
        })),
        Err(StartFault::Opening(fault)) => Ok(Err(fault)),
        Err(StartFault::Source | StartFault::TooLong) => {
            Err(io::Error::from(io::ErrorKind::Other))
        }
    }
}
