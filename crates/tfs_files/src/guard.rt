//! The lock of a folder, and checks that the files that a server or a copy has opened are still in
//! place.

use crate::fault::{CommandEnd, CommandFault, FaultPlace};
use crate::folder::journal_path;
use crate::next::part_path;
use std::fs::{self, File, Metadata, OpenOptions, TryLockError};
use std::io;
use std::os::unix::fs::MetadataExt;
use std::sync::atomic::{AtomicBool, Ordering};

/// The identity of a file for the system, and the number of its names.
#[derive(Clone, Copy, PartialEq, Eq)]
struct FileId {
    device: u64,
    inode: u64,
    links: u64,
}

impl FileId {
    /// Returns the identity of the file with this metadata.
    fn of(metadata: &Metadata) -> FileId {
        FileId {
            device: metadata.dev(),
            inode: metadata.ino(),
            links: metadata.nlink(),
        }
    }

    /// Returns the identity of the directory with this metadata. Its links aren't compared, since
    /// they change with the directories in it.
    fn of_directory(metadata: &Metadata) -> FileId {
        FileId {
            links: 0,
            ..FileId::of(metadata)
        }
    }

    /// Returns true if this file is at the path, with the same number of names.
    fn is_file_at(self, rt: &HostRuntime, path: &str) -> bool {
        match fs::metadata(rt, path) {
            Ok(metadata) => FileId::of(&metadata) == self,
            Err(_) => false,
        }
    }

    /// Returns true if this directory is at the path.
    fn is_directory_at(self, rt: &HostRuntime, path: &str) -> bool {
        match fs::metadata(rt, path) {
            Ok(metadata) => FileId::of_directory(&metadata) == self,
            Err(_) => false,
        }
    }
}

/// A locked folder: the folder itself and its file `lock`, which are locked as long as they are
/// open.
#[derive(Drop)]
pub struct FolderLock {
    folder: String,
    folder_id: FileId,
    lock: String,
    lock_id: FileId,
    is_lost: AtomicBool,
    _files: (File, File),
}

impl FolderLock {
    /// Locks a folder. The folder itself is locked first, so that no file is created in a folder
    /// that is already locked.
    fn take(rt: &HostRuntime, folder: &str) -> Result<FolderLock, CommandEnd> {
        let directory = lock_opened(File::open(rt, folder), FaultPlace::Folder)?;
        let file = lock_opened(lock_file(rt, folder), FaultPlace::Folder)?;
        match FolderLock::of(rt, folder, directory, file) {
            Ok(lock) => Ok(lock),
            Err(error) => Err(CommandEnd::by_system(
                FaultPlace::Folder,
                CommandFault::CannotRead,
                &error,
            )),
        }
    }

    /// Creates the lock of a folder from these locked files.
    fn of(rt: &HostRuntime, folder: &str, directory: File, file: File) -> io::Result<FolderLock> {
        Ok(FolderLock {
            folder: String::from_str(rt.alloc(), folder)?,
            folder_id: FileId::of_directory(&directory.metadata()?),
            lock: lock_path(rt, folder)?,
            lock_id: FileId::of(&file.metadata()?),
            is_lost: AtomicBool::new(false),
            _files: (directory, file),
        })
    }

    /// Returns true if the folder, its lock file and the served journal are still the opened ones.
    pub fn holds(&self, rt: &HostRuntime, journal: &ServedJournal) -> bool {
        let holds = self.folder_id.is_directory_at(rt, self.folder.as_str())
            && self.lock_id.is_file_at(rt, self.lock.as_str())
            && journal.id.is_file_at(rt, journal.path.as_str());
        if !holds {
            self.is_lost.store(true, Ordering::SeqCst);
        }
        holds
    }

    /// Returns true if a check has found the folder, its lock file or the journal replaced.
    pub fn is_lost(&self) -> bool {
        self.is_lost.load(Ordering::SeqCst)
    }
}

/// The served journal: its path, and the identity of its file.
#[derive(Drop)]
pub struct ServedJournal {
    path: String,
    id: FileId,
}

impl ServedJournal {
    /// Identifies the folder's journal with this number, which has its name.
    pub fn identify(rt: &HostRuntime, folder: &str, number: u64) -> io::Result<ServedJournal> {
        let path = journal_path(rt, folder, number)?;
        let id = FileId::of(&fs::metadata(rt, path.as_str())?);
        Ok(ServedJournal { path, id })
    }

    /// Identifies the folder's journal with this number, which is still a part file.
    pub fn identify_part(rt: &HostRuntime, folder: &str, number: u64) -> io::Result<ServedJournal> {
        let part = part_path(rt, folder, number)?;
        let id = FileId::of(&fs::metadata(rt, part.as_str())?);
        let path = journal_path(rt, folder, number)?;
        Ok(ServedJournal { path, id })
    }
}

/// Locks a folder for a start and for the journals that it makes, until the lock is dropped.
pub fn lock_folder(rt: &HostRuntime, folder: &str) -> Result<FolderLock, CommandEnd> {
    FolderLock::take(rt, folder)
}

/// Locks the folder's journal with this number, from which a start continues, so that no other
/// server writes it.
pub fn lock_journal(rt: &HostRuntime, folder: &str, number: u64) -> Result<File, CommandEnd> {
    let place = FaultPlace::Journal(number);
    match journal_path(rt, folder, number) {
        Ok(path) => lock_opened(File::open(rt, path.as_str()), place),
        Err(_) => Err(CommandEnd::at(place, CommandFault::OutOfMemory)),
    }
}

/// Locks an opened file. Never waits for the lock.
fn lock_opened(opened: io::Result<File>, place: FaultPlace) -> Result<File, CommandEnd> {
    let file = match opened {
        Ok(file) => file,
        Err(error) => return Err(CommandEnd::by_system(place, CommandFault::CannotWrite, &error)),
    };
    match file.try_lock() {
        Ok(()) => Ok(file),
        Err(TryLockError::WouldBlock) => Err(CommandEnd::at(place, CommandFault::Locked)),
        Err(TryLockError::Error(error)) => Err(CommandEnd::by_system(
            place,
            CommandFault::CannotWrite,
            &error,
        )),
    }
}

/// Opens the folder's file `lock`, which is created if it doesn't exist.
fn lock_file(rt: &HostRuntime, folder: &str) -> io::Result<File> {
    OpenOptions::new()
        .read(true)
        .write(true)
        .create(true)
        .open(rt, lock_path(rt, folder)?.as_str())
}

/// Returns the path of the folder's file `lock`.
fn lock_path(rt: &HostRuntime, folder: &str) -> io::Result<String> {
    Ok(format!(in rt.alloc(); "{folder}/lock")?)
}
