//! The ends of commands: the message on standard error, and the exit status.

ghost use Rattle.std.specs.Prelude.{◌≡◌};
ghost use Rattle.std.specs.IoError.{error_kind};
ghost use Rattle.tfs_files.specs.Faults.{by_kind, is_folder};
ghost use Rattle.tfs_files.specs.Status.{status_of};
ghost use Rattle.tfs_files.specs.Zeros.{damage_of};

use crate::folder::JournalName;
use crate::zeros::Damage;
use std::io;
use std::process::ExitCode;
use tfs_folder::Unchosen;
use thiserror::Error;

/// The reason why a command ended before its work was done.
#[derive(Clone, Copy, Debug, PartialEq, Eq, Error)]
pub enum CommandFault {
    #[error("invalid arguments: tfstatectl --help lists them")]
    Arguments,
    #[error("OutOfMemory: a request for memory was refused. Raise the memory limit")]
    OutOfMemory,
    #[error("SmallStack: threads have a stack of {0} bytes, and a request may need 524288. Raise the limit (ulimit -s)")]
    SmallStack(u64),
    #[error("NoFolder: the folder doesn't exist. Mount it, or create a new one with tfstatectl init")]
    NoFolder,
    #[error("NotFolder: the path is a file, or leads through a file. Give the folder of the journals")]
    NotFolder,
    #[error("NotAllowed: permission denied. Give this user read and write access")]
    NotAllowed,
    #[error("Locked: another start, server or copy holds the lock. Stop it, or wait until it ends")]
    Locked,
    #[error("CannotRead: reading failed. Check the disk, and try again")]
    CannotRead,
    #[error("CannotWrite: writing failed. Make room on the disk, and try again")]
    CannotWrite,
    #[error("NoJournal: the folder has no journal. Mount its volume, or create a new folder with tfstatectl init")]
    NoJournal,
    #[error("NotFirst: the folder has, or had, a journal. Serve it without --first, or restore it from a copy")]
    NotFirst,
    #[error("Damaged: invalid at byte {0}. Restore it from a copy")]
    Damaged(usize),
    #[error("Unlawful: the rules refuse record {0}. Restore it from a copy")]
    Unlawful(u64),
    #[error("TornBase: it ends inside its header or base, and not because a start failed. Restore it from a copy")]
    TornBase,
    #[error("Diverged: it does not continue the journal before it. Move away the one that should not count")]
    Diverged,
    #[error("TooFar: its position or number is too high to continue. Push its states to a new folder")]
    TooFar,
    #[error("NotAtLeast: its position is {0}, below the required {1}. Mount or restore the folder with the later changes")]
    NotAtLeast(u64, u64),
    #[error("NoPosition: the file has no decimal position. Write the least position into it, or 0")]
    NoPosition,
    #[error("NotPast: not a journal of the folder before the newest one. Name one that is")]
    NotPast,
    #[error("TwoOfName: old/ has a journal of the same name. Move one of them away")]
    TwoOfName,
    #[error("NotBeginning: not a prefix of a journal of the folder that is copied. Copy into a new folder")]
    NotBeginning,
    #[error("Served: a server has run on this folder, which may have changes of its own. Copy into a new folder")]
    Served,
    #[error("Write: the output could not be written. Check the program that reads it")]
    Write,
    #[error("NoPlace: no reader's slot is left for a worker. Use fewer --workers")]
    NoPlace,
    #[error("CannotBind: cannot listen there. Check whether another program does, and whether this machine has the address, or the socket's folder")]
    CannotBind,
    #[error("NotSocket: the path is a file of another kind. Move it away, or choose another path")]
    NotSocket,
    #[error("SocketPath: a socket's path must have 1 to 107 bytes. Choose another one")]
    SocketPath,
    #[error("JournalFault: the journal can no longer be written. Check its disk, and start again")]
    JournalFault,
    #[error("SyncFault: the journal can no longer be synced. Check its disk, and start again")]
    SyncFault,
    #[error("OldAhead: it has changes that the folder's newest journal lacks. Stop the program that wrote it, and move away the one that should not count")]
    OldAhead,
    #[error("OtherIdentity: by the file identity it belongs to another folder. Bring back the folder's own journal, and copy into a new folder. \
To accept this journal, remove all lines but the first of that file")]
    OtherIdentity,
    #[error("BadIdentity: not 32 hexadecimal digits and lines of journals. Restore it from a copy, or remove it")]
    BadIdentity,
    #[error("Replaced: the folder, its journal or its lock file is no longer the one that this server opened. \
Stop what moved it, find the journal with the highest position, and start again")]
    Replaced,
    #[error("AcceptFault: the listener has failed. Start again")]
    AcceptFault,
}

impl CommandFault {
    /// Returns the fault of a failed operation on a file: `OutOfMemory` or `NotAllowed` if the
    /// system's error says so, `NoFolder` or `NotFolder` if it says so of the folder of journals,
    /// and otherwise `fault`.
    pub fn by_system(is_folder: bool, fault: CommandFault, error: &io::Error) -> CommandFault
        ensures fault { result ≡ by_kind is_folder fault (error_kind error.now) }
    {
        match error.kind() {
            io::ErrorKind::OutOfMemory => CommandFault::OutOfMemory,
            io::ErrorKind::PermissionDenied => CommandFault::NotAllowed,
            io::ErrorKind::NotFound if is_folder => CommandFault::NoFolder,
            io::ErrorKind::NotADirectory if is_folder => CommandFault::NotFolder,
            _ => fault,
        }
    }
}

/// Returns the exit status of a fault.
pub fn status_of(fault: CommandFault) -> u8
    ensures status { result ≡ status_of fault }
{
    match fault {
        CommandFault::Locked
        | CommandFault::CannotRead
        | CommandFault::CannotWrite
        | CommandFault::Write
        | CommandFault::NoPlace
        | CommandFault::CannotBind
        | CommandFault::SyncFault
        | CommandFault::AcceptFault => 20,
        CommandFault::Arguments
        | CommandFault::NotPast
        | CommandFault::NotSocket
        | CommandFault::SocketPath => 21,
        CommandFault::TornBase => 22,
        CommandFault::Damaged(_) => 23,
        CommandFault::Unlawful(_) => 24,
        CommandFault::NoJournal
        | CommandFault::NotFirst
        | CommandFault::Diverged
        | CommandFault::TooFar
        | CommandFault::TwoOfName
        | CommandFault::NotBeginning
        | CommandFault::Served
        | CommandFault::Replaced
        | CommandFault::OldAhead
        | CommandFault::OtherIdentity
        | CommandFault::BadIdentity => 25,
        CommandFault::NotAtLeast(_, _) | CommandFault::NoPosition => 26,
        CommandFault::NoFolder | CommandFault::NotFolder | CommandFault::NotAllowed => 27,
        CommandFault::OutOfMemory | CommandFault::SmallStack(_) => 28,
        CommandFault::JournalFault => 29,
    }
}

/// Returns the fault if no journal was chosen with at least this position.
fn fault_of(why: tfs_folder::ChoiceFault, least: u64) -> CommandFault {
    match why {
        tfs_folder::ChoiceFault::NoJournal => CommandFault::NoJournal,
        tfs_folder::ChoiceFault::Damaged(at) => CommandFault::Damaged(at),
        tfs_folder::ChoiceFault::Unlawful(number) => CommandFault::Unlawful(number),
        tfs_folder::ChoiceFault::TornBase => CommandFault::TornBase,
        tfs_folder::ChoiceFault::Diverged => CommandFault::Diverged,
        tfs_folder::ChoiceFault::TooFar => CommandFault::TooFar,
        tfs_folder::ChoiceFault::NotAtLeast(position) => CommandFault::NotAtLeast(position, least),
        tfs_folder::ChoiceFault::OutOfMemory => CommandFault::OutOfMemory,
    }
}

/// The subject of a fault.
#[derive(Clone, Copy, Debug, PartialEq, Eq)]
pub enum FaultPlace {
    /// The command itself.
    Command,
    /// The folder.
    Folder,
    /// The folder's `old/`.
    Old,
    /// The folder's journal with this number.
    Journal(u64),
    /// The journal with this number in the folder's `old/`.
    OldJournal(u64),
    /// The folder's file `identity`.
    Identity,
    /// The file `identity` of the copied folder.
    OriginalIdentity,
    /// The file from which a new folder starts.
    First,
    /// The journal to discard.
    Past,
    /// The file with the least position.
    Position,
    /// The address to listen on.
    Address,
}

impl FaultPlace {
    /// Returns true if the subject is the folder.
    fn is_folder(self) -> bool
        ensures value { result ≡ is_folder self }
    {
        match self {
            FaultPlace::Folder => true,
            FaultPlace::Command
            | FaultPlace::Old
            | FaultPlace::Journal(_)
            | FaultPlace::OldJournal(_)
            | FaultPlace::Identity
            | FaultPlace::OriginalIdentity
            | FaultPlace::First
            | FaultPlace::Past
            | FaultPlace::Position
            | FaultPlace::Address => false,
        }
    }
}

/// The end of a command: a fault and its subject.
#[derive(Clone, Copy, Debug, PartialEq, Eq)]
pub struct CommandEnd {
    place: FaultPlace,
    fault: CommandFault,
}

impl CommandEnd {
    /// Creates the end by a fault with this subject.
    pub fn at(place: FaultPlace, fault: CommandFault) -> CommandEnd
        ensures value { result ≡ record { place = place; fault = fault } }
    {
        CommandEnd { place, fault }
    }

    /// Returns the subject of the fault.
    pub fn place(&self) -> FaultPlace {
        self.place
    }

    /// Returns the folder's damaged journal if the fault is that it is damaged.
    pub(crate) fn damage(&self) -> Option<Damage>
        ensures value { result ≡ damage_of self.now }
    {
        match (self.place, self.fault) {
            (FaultPlace::Journal(number), CommandFault::Damaged(at)) => Some(Damage { number, at }),
            _ => None,
        }
    }

    /// Returns true if the fault is that two journals have diverged.
    pub(crate) fn is_diverged(&self) -> bool {
        self.fault == CommandFault::Diverged
    }

    /// Creates the end if no journal was chosen with at least this position.
    pub fn choice_failed(unchosen: Unchosen, least: u64) -> CommandEnd {
        let place = match unchosen.number {
            Some(number) => FaultPlace::Journal(number),
            None => FaultPlace::Folder,
        };
        CommandEnd::at(place, fault_of(unchosen.why, least))
    }

    /// Returns the same end, with the file from which a new folder starts as its subject.
    pub fn of_first(self) -> CommandEnd {
        CommandEnd::at(FaultPlace::First, self.fault)
    }

    /// Returns the same end, with the file `identity` of the copied folder as its subject.
    pub fn of_original(self) -> CommandEnd {
        CommandEnd::at(FaultPlace::OriginalIdentity, self.fault)
    }

    /// Creates the end after a failed operation on a file, by the system's error.
    pub fn by_system(place: FaultPlace, fault: CommandFault, error: &io::Error) -> CommandEnd
        ensures at { result ≡ record { place = place; fault = by_kind (is_folder place) fault (error_kind error.now) } }
    {
        let fault = CommandFault::by_system(place.is_folder(), fault, error);
        CommandEnd { place, fault }
    }
}

/// Ends a command. Prints the fault on standard error after the name of its subject: the folder, or
/// the value of another argument. If standard error can't be written, nothing is reported.
pub fn end_by(rt: &impl Eprint, name: &str, end: CommandEnd) -> ExitCode {
    let fault = end.fault;
    let _ = match end.place {
        FaultPlace::Command => eprintln!(rt; "tfstatectl: {fault}"),
        FaultPlace::Folder
        | FaultPlace::First
        | FaultPlace::Past
        | FaultPlace::Position
        | FaultPlace::Address => { eprintln!(rt; "tfstatectl: {name}: {fault}") }
        FaultPlace::Old => eprintln!(rt; "tfstatectl: {name}/old: {fault}"),
        FaultPlace::Identity | FaultPlace::OriginalIdentity => eprintln!(rt;
            "tfstatectl: {name}/identity: {fault}"
        ),
        FaultPlace::OldJournal(number) => {
            eprintln!(rt; "tfstatectl: {name}/old/{}: {fault}", JournalName(number))
        }
        FaultPlace::Journal(number) => {
            eprintln!(rt; "tfstatectl: {name}/{}: {fault}", JournalName(number))
        }
    };
    ExitCode::from(status_of(fault))
}
