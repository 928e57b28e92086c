//! The end of a reading command: the report on standard error, and the exit status.

ghost use Rattle.std.specs.Prelude.{◌≡◌};
ghost use Rattle.tfs_reports.specs.Status.{status_of};

use std::alloc::AllocError;
use std::io;
use std::process::ExitCode;
use tfs_files::JournalName;
use tfs_plan::PlanFault;
use tfs_state::StateFault;
use tfs_stream::ReadFault;
use tfs_versions::RestoreFault;
use thiserror::Error;

/// Why a reading command ended early.
#[derive(Clone, Copy, Debug, Error)]
pub enum ReportFault {
    /// A fault that all commands share.
    #[error("{0}")]
    Files(tfs_files::CommandFault),
    #[error("Changing: the journals were replaced while they were read, ten times. Try again")]
    Changing,
    #[error("NoName: no journal of the folder has this workspace. `list` prints the names")]
    NoName,
    #[error("NoState: the workspace has no state there. `history` prints the positions of its states")]
    NoState,
    #[error("BeforeOldest: versions before position {0} are no longer kept. Look in an older copy of the folder")]
    BeforeOldest(u64),
    #[error("BehindNewest: the newest position is {0}. Give that or a lower one")]
    BehindNewest(u64),
    #[error("NotKept: no journal of the folder has this position. Look in a copy of the folder")]
    NotKept,
    #[error("LineageDiffers: the newest state has another lineage. Delete it first")]
    LineageDiffers,
    #[error("SerialAtLimit: the newest state has the highest serial. Delete it first")]
    SerialAtLimit,
    #[error("TooLong: with the next serial the state is too long. `show` prints it unchanged")]
    TooLong,
    #[error("Unplaced: its serial was not found in the text. `show` prints it unchanged")]
    Unplaced,
    #[error("NoAddress: no address was given. Give at least one")]
    NoAddress,
    #[error("TooManyAddresses: more than 64 addresses were given. Divide them")]
    TooManyAddresses,
    #[error("UnknownAddress: the state has no instance of address {0}, counted from 0. `terraform state list` prints them")]
    UnknownAddress(usize),
    #[error("BadTime: invalid time. Write it as 2026-02-03T04:05:06Z")]
    BadTime,
    #[error("NoTime: no act of the workspace has this time or an earlier one. `history` prints when locks were taken")]
    NoTime,
    #[error("NoFile: the file doesn't exist. Write the plan with `terraform show -json`, and the state with `terraform state pull`")]
    NoFile,
    #[error("BadPlan: {0}")]
    BadPlan(PlanFault),
    #[error("BadState: {0}. Give what `terraform state pull` prints")]
    BadState(StateFault),
    #[error("LargeState: the state has more than 16777216 bytes. The server accepts no such state")]
    LargeState,
    #[error("OneInput: both the plan and the state are to be read from standard input. Write one of them to a file")]
    OneInput,
    #[error("NoSource: no state was given. Give --state FILE, --folder FOLDER NAME, or --url URL NAME")]
    NoSource,
    #[error("BadUrl: invalid address. Write it as http://HOST:PORT or unix:PATH")]
    BadUrl,
    #[error("NoReply: the server's reply isn't complete. Try again")]
    NoReply,
    #[error("Status: the server replied with status {0}. Check the address")]
    Status(u16),
    #[error("NotLocked: nobody holds the lock of the workspace")]
    NotLocked,
}

/// Returns the exit status of a fault.
pub fn status_of(fault: ReportFault) -> u8
    ensures status { result ≡ status_of fault }
{
    match fault {
        ReportFault::Files(fault) => tfs_files::status_of(fault),
        ReportFault::Changing | ReportFault::NoReply | ReportFault::Status(_) => 20,
        ReportFault::NoName => 30,
        ReportFault::NoState => 31,
        ReportFault::BeforeOldest(_)
        | ReportFault::BehindNewest(_)
        | ReportFault::NotKept
        | ReportFault::NoTime => 32,
        ReportFault::LineageDiffers => 33,
        ReportFault::SerialAtLimit | ReportFault::TooLong | ReportFault::Unplaced => 34,
        ReportFault::NoAddress | ReportFault::TooManyAddresses | ReportFault::UnknownAddress(_) =>
            35,
        ReportFault::NotLocked => 36,
        ReportFault::BadTime
        | ReportFault::OneInput
        | ReportFault::NoSource
        | ReportFault::BadUrl => 21,
        ReportFault::NoFile
        | ReportFault::BadPlan(_)
        | ReportFault::BadState(_)
        | ReportFault::LargeState => 37,
    }
}

/// What a fault is about.
#[derive(Clone, Copy)]
pub enum ReportPlace {
    /// The command itself.
    Command,
    /// The folder of journals.
    Folder,
    /// The folder's `old/`.
    Old,
    /// The journal with this number in the folder.
    Journal(u64),
    /// The journal with this number in the folder's `old/`.
    OldJournal(u64),
    /// The requested workspace.
    Name,
    /// The folder of copies.
    Copies,
    /// The newest journal of the copies, which has this number.
    Copy(u64),
    /// The plan.
    Plan,
    /// The state.
    State,
    /// The address of a server.
    Url,
}

impl ReportPlace {
    /// Returns true if a fault is about a folder of journals.
    fn is_folder(self) -> bool {
        match self {
            ReportPlace::Folder | ReportPlace::Copies => true,
            ReportPlace::Command
            | ReportPlace::Old
            | ReportPlace::Journal(_)
            | ReportPlace::OldJournal(_)
            | ReportPlace::Name
            | ReportPlace::Copy(_)
            | ReportPlace::Plan
            | ReportPlace::State
            | ReportPlace::Url => false,
        }
    }
}

/// The fault that ended a command, and what it is about.
#[derive(Clone, Copy)]
pub struct ReportEnd {
    place: ReportPlace,
    fault: ReportFault,
}

impl ReportEnd {
    /// Returns the end by a fault, and what it is about.
    pub fn at(place: ReportPlace, fault: ReportFault) -> ReportEnd {
        ReportEnd { place, fault }
    }

    /// Returns the fault.
    pub fn fault(&self) -> ReportFault
        ensures value { result ≡ self.now.fault }
    {
        self.fault
    }

    /// Returns the end by a fault that all commands share.
    pub(crate) fn of_files(place: ReportPlace, fault: tfs_files::CommandFault) -> ReportEnd {
        ReportEnd::at(place, ReportFault::Files(fault))
    }

    /// Returns the end by an error that the system reported for a read.
    pub(crate) fn by_system(place: ReportPlace, error: &io::Error) -> ReportEnd {
        let fault = tfs_files::CommandFault::by_system(
            place.is_folder(),
            tfs_files::CommandFault::CannotRead,
            error,
        );
        ReportEnd::of_files(place, fault)
    }

    /// Returns the end by a journal that couldn't be read to its end.
    pub(crate) fn unread(place: ReportPlace, why: ReadFault) -> ReportEnd {
        match why {
            ReadFault::NoMemory => ReportEnd::from(AllocError),
            ReadFault::Source | ReadFault::TooLong => {
                ReportEnd::of_files(place, tfs_files::CommandFault::CannotRead)
            }
        }
    }

    /// Returns the end by a version that couldn't be restored.
    pub(crate) fn restore_failed(why: RestoreFault) -> ReportEnd {
        let fault = match why {
            RestoreFault::LineageDiffers => ReportFault::LineageDiffers,
            RestoreFault::SerialAtLimit => ReportFault::SerialAtLimit,
            RestoreFault::TooLong => ReportFault::TooLong,
            RestoreFault::Unplaced => ReportFault::Unplaced,
            RestoreFault::NoMemory => ReportFault::Files(tfs_files::CommandFault::OutOfMemory),
        };
        ReportEnd::at(ReportPlace::Name, fault)
    }
}

impl From<AllocError> for ReportEnd {
    fn from(_error: AllocError) -> ReportEnd {
        ReportEnd::of_files(ReportPlace::Command, tfs_files::CommandFault::OutOfMemory)
    }
}

/// Reports a fault on standard error with what it is about, and returns the exit status. A fault is
/// about the folder, a file in it, or what `name` names: a workspace or a folder of copies. A
/// failure to write the report is ignored, because there is nowhere left to report it.
pub fn end_by(rt: &impl Eprint, folder: &str, name: &str, end: ReportEnd) -> ExitCode {
    let fault = end.fault;
    let _ = match end.place {
        ReportPlace::Command => eprintln!(rt; "tfstatectl: {fault}"),
        ReportPlace::Folder => tell(rt, folder, "", fault),
        ReportPlace::Old => tell(rt, folder, "/old", fault),
        ReportPlace::Journal(number) => tell_journal(rt, folder, "", number, fault),
        ReportPlace::OldJournal(number) => tell_journal(rt, folder, "/old", number, fault),
        ReportPlace::Name => eprintln!(rt; "tfstatectl: {folder}: {name}: {fault}"),
        ReportPlace::Copies => tell(rt, name, "", fault),
        ReportPlace::Copy(number) => tell_journal(rt, name, "", number, fault),
        ReportPlace::Plan => eprintln!(rt; "tfstatectl: --plan: {fault}"),
        ReportPlace::State => eprintln!(rt; "tfstatectl: --state: {fault}"),
        ReportPlace::Url => eprintln!(rt; "tfstatectl: --url: {fault}"),
    };
    ExitCode::from(status_of(fault))
}

/// Reports a fault of a folder, or of a folder below it.
fn tell(rt: &impl Eprint, folder: &str, below: &str, fault: ReportFault) -> io::Result<()> {
    eprintln!(rt; "tfstatectl: {folder}{below}: {fault}")
}

/// Reports a fault of a journal in a folder, or in a folder below it.
fn tell_journal(
    rt: &impl Eprint,
    folder: &str,
    below: &str,
    number: u64,
    fault: ReportFault,
) -> io::Result<()> {
    eprintln!(rt;
        "tfstatectl: {folder}{below}/{}: {fault}",
        JournalName(number)
    )
}
