//! Zeros that a power cut has left at the end of a journal.

ghost use Rattle.std.specs.Prelude.{◌≡◌};
ghost use Rattle.tfs_files.specs.Zeros.{limit_of};

use crate::fault::{CommandEnd, CommandFault, FaultPlace};
use crate::folder::JournalName;
use crate::synced::{SyncedName, synced_bytes};
use std::fs::File;
use std::io::{self, Seek, SeekFrom};
use tfs_folder::{JournalTail, tail_of};
use tfs_stream::{ReadFault, Watched};

/// Zeros at the end of a journal, which a start cuts.
#[derive(Clone, Copy, Debug, PartialEq, Eq)]
pub struct Zeros {
    /// The number of the journal.
    pub number: u64,
    /// The number of bytes before them.
    pub from: u64,
    /// How many there are.
    pub count: u64,
}

/// A damaged journal: its number, and the offset of the first record that can't be read.
#[derive(Clone, Copy, Debug, PartialEq, Eq)]
pub(crate) struct Damage {
    pub(crate) number: u64,
    pub(crate) at: usize,
}

/// Returns how many first bytes of the journal with a number are read: those before the zeros that
/// are cut, or all.
pub(crate) fn limit_of(zeros: Option<Zeros>, number: u64) -> u64
    ensures value { result ≡ limit_of zeros number }
{
    match zeros {
        Some(zeros) => {
            if zeros.number == number {
                zeros.from
            } else {
                u64::MAX
            }
        }
        None => u64::MAX,
    }
}

/// Decides what becomes of the bytes of a journal's file from this offset on. `synced` is the
/// recorded number of synced bytes.
pub(crate) fn tail_in(
    rt: &HostRuntime,
    file: File,
    end: usize,
    synced: Option<u64>,
) -> io::Result<JournalTail> {
    let mut file = file;
    file.seek(SeekFrom::Start(end as u64))?;
    match tail_of(rt.alloc(), end, &mut Watched::new(file), synced) {
        Ok(tail) => Ok(tail),
        Err(ReadFault::NoMemory) => Err(io::Error::from(io::ErrorKind::OutOfMemory)),
        Err(ReadFault::Source | ReadFault::TooLong) => {
            Err(io::Error::from(io::ErrorKind::Other))
        }
    }
}

/// Returns true if a start cuts the bytes of the folder's journal with this number, which is in a
/// file, from this offset on.
pub fn is_cut(
    rt: &HostRuntime,
    folder: &str,
    number: u64,
    file: File,
    end: usize,
) -> io::Result<bool> {
    let tail = tail_in(rt, file, end, synced_bytes(rt, folder, number))?;
    Ok(matches!(tail, JournalTail::Cut(_)))
}

/// Returns the zeros that a start cuts off a damaged journal, whose file has this path. The folder
/// has the journal's record of synced bytes. Reports on standard error why zeros aren't cut.
pub(crate) fn zeros_of(
    rt: &HostRuntime,
    folder: &str,
    path: &str,
    damage: Damage,
) -> Result<Option<Zeros>, CommandEnd> {
    let Damage { number, at } = damage;
    let synced = synced_bytes(rt, folder, number);
    let tail = File::open(rt, path).and_then(|file| tail_in(rt, file, at, synced));
    match tail {
        Ok(JournalTail::Cut(count)) => Ok(Some(Zeros {
            number,
            from: at as u64,
            count,
        })),
        Ok(tail) => {
            let _ = tell_kept(rt, folder, damage, tail);
            Ok(None)
        }
        Err(error) => Err(CommandEnd::by_system(
            FaultPlace::Journal(number),
            CommandFault::CannotRead,
            &error,
        )),
    }
}

/// Reports on standard error why the zeros at the end of a journal aren't cut.
fn tell_kept(rt: &HostRuntime, folder: &str, damage: Damage, tail: JournalTail) -> io::Result<()> {
    let Damage { number, at } = damage;
    let (name, record) = (JournalName(number), SyncedName(number));
    match tail {
        JournalTail::Synced(synced) => eprintln!(rt;
            "tfstatectl: {folder}/{name} has only zeros from byte {at} on, but {synced} bytes were synced by {record}"
        ),
        JournalTail::Unknown => eprintln!(rt;
            "tfstatectl: {folder}/{name} has only zeros from byte {at} on, but {record} can't be read"
        ),
        JournalTail::Cut(_) | JournalTail::Kept => Ok(()),
    }
}

/// Reports on standard error the zeros that a start has cut, if any.
pub(crate) fn tell_cut(rt: &HostRuntime, folder: &str, zeros: Option<Zeros>) {
    let Some(
        Zeros {
            number,
            from,
            count,
        },
    ) = zeros
    else {
        return;
    };
    let name = JournalName(number);
    let _ = eprintln!(rt;
        "tfstatectl: {folder}/{name} ends in {count} bytes of zeros, which a power cut leaves: they are cut at byte {from}"
    );
}
