//! The identity of a folder: a random value, and marks of its journals.

use crate::fault::{CommandEnd, CommandFault, FaultPlace};
use crate::folder::sync_names;
use crate::marks::{Mark, mark_line, mark_of};
use std::alloc::{AllocError, Global};
use std::fs::{self, File, OpenOptions};
use std::io::{self, Read, Write};
use std::os::unix::fs::OpenOptionsExt;

/// The number of hexadecimal digits of a value: 128 bits.
const DIGITS: usize = 32;

/// The contents of a folder's file `identity`: the folder's value, and marks of its journals.
#[derive(Drop)]
pub struct Identity {
    value: String,
    marks: Vec<Mark>,
}

impl Identity {
    /// Creates an identity with a new random value and no marks.
    fn make(rt: &HostRuntime) -> io::Result<Identity> {
        let mut bytes = [0; DIGITS / 2];
        File::open(rt, "/dev/urandom")?.read_exact(&mut bytes)?;
        Ok(Identity {
            value: hex::encode(rt.alloc(), bytes.as_slice())?,
            marks: Vec::new(rt.alloc()),
        })
    }

    /// Returns an identity with the same value and no marks.
    pub(crate) fn with_no_marks(&self, alloc: Global) -> Result<Identity, AllocError> {
        Ok(Identity {
            value: String::from_str(alloc, self.value.as_str())?,
            marks: Vec::new(alloc),
        })
    }

    /// Returns the folder's value.
    pub(crate) fn value(&self) -> &str {
        self.value.as_str()
    }

    /// Returns the marks of its journals.
    pub(crate) fn marks(&self) -> &[Mark] {
        self.marks.as_slice()
    }

    /// Marks the journal with this number by its first bytes. Replaces an earlier mark.
    pub(crate) fn mark(&mut self, alloc: Global, number: u64, first: &[u8]) -> io::Result<()> {
        self.marks.retain(|mark| mark.number != number);
        self.marks.push(Mark::new(alloc, number, first)?)?;
        Ok(())
    }

    /// Removes all marks except the marks of these journals.
    pub(crate) fn keep(&mut self, numbers: &[u64]) {
        self.marks.retain(|mark| numbers.contains(&mark.number));
    }

    /// Returns true if there are marks and all marked journals have lower numbers. Since a journal
    /// is marked before it gets its name, a journal with this number isn't the folder's then.
    pub(crate) fn ends_before(&self, number: u64) -> bool {
        match self.marks.iter().map(|mark| mark.number).max() {
            Some(newest) => newest < number,
            None => false,
        }
    }

    /// Returns whether a journal with this number and these first bytes is the folder's own.
    /// Returns `None` if the folder has no mark with that number.
    pub(crate) fn has(&self, alloc: Global, number: u64, first: &[u8]) -> io::Result<Option<bool>> {
        for mark in self.marks.as_slice() {
            if mark.number == number {
                return Ok(Some(mark.is_of(alloc, first)?));
            }
        }
        Ok(None)
    }

    /// Returns the text of the file.
    fn text(&self, alloc: Global) -> io::Result<String> {
        let mut text = format!(in alloc; "{}\n", self.value)?;
        for mark in self.marks.as_slice() {
            text.push_str(mark_line(alloc, mark)?.as_str())?;
        }
        Ok(text)
    }

    /// Parses the text of the file. Returns `None` if it isn't an identity.
    fn of_text(alloc: Global, text: &str) -> Result<Option<Identity>, AllocError> {
        let Some((value, rest)) = text.split_once('\n') else {
            return Ok(None);
        };
        if !is_hex(value) || !(rest.is_empty() || rest.ends_with('\n')) {
            return Ok(None);
        }
        let mut marks = Vec::new(alloc);
        for line in rest.lines() {
            match mark_of(alloc, line)? {
                Some(mark) => marks.push(mark)?,
                None => return Ok(None),
            }
        }
        Ok(Some(Identity {
            value: String::from_str(alloc, value)?,
            marks,
        }))
    }
}

/// Returns true if a text is 32 lowercase hexadecimal digits.
pub(crate) fn is_hex(text: &str) -> bool {
    let bytes = text.as_bytes();
    bytes.len() == DIGITS
        && bytes
            .iter()
            .all(|byte| matches!(byte, b'0'..=b'9' | b'a'..=b'f'))
}

/// Returns the path of a folder's file `identity`.
fn identity_path(rt: &HostRuntime, folder: &str) -> Result<String, AllocError> {
    format!(in rt.alloc(); "{folder}/identity")
}

/// Reads the identity of a folder, if it has one.
pub(crate) fn read_identity(
    rt: &HostRuntime,
    folder: &str,
) -> Result<Option<Identity>, CommandEnd> {
    match load_identity(rt, folder) {
        Ok(identity) => Ok(identity),
        Err(error) => match error.kind() {
            io::ErrorKind::InvalidData => Err(CommandEnd::at(
                FaultPlace::Identity,
                CommandFault::BadIdentity,
            )),
            _ => Err(CommandEnd::by_system(FaultPlace::Identity, CommandFault::CannotRead, &error)),
        },
    }
}

/// Reads the identity of a folder, if it has one. Fails with `InvalidData` if the file isn't an
/// identity. A file in place of the folder has none.
pub(crate) fn load_identity(rt: &HostRuntime, folder: &str) -> io::Result<Option<Identity>> {
    match fs::read_to_string(rt, identity_path(rt, folder)?.as_str()) {
        Ok(text) => match Identity::of_text(rt.alloc(), text.as_str())? {
            Some(identity) => Ok(Some(identity)),
            None => Err(io::Error::from(io::ErrorKind::InvalidData)),
        },
        Err(error) => match error.kind() {
            io::ErrorKind::NotFound | io::ErrorKind::NotADirectory => Ok(None),
            _ => Err(error),
        },
    }
}

/// Returns the identity of a folder, or a new one if it has none.
pub(crate) fn new_identity(rt: &HostRuntime, folder: &str) -> io::Result<Identity> {
    match load_identity(rt, folder)? {
        Some(identity) => Ok(identity),
        None => Identity::make(rt),
    }
}

/// Writes the identity of a folder durably. A kill leaves either the earlier or the new file.
pub(crate) fn write_identity(
    rt: &HostRuntime,
    folder: &str,
    identity: &Identity,
) -> io::Result<()> {
    let text = identity.text(rt.alloc())?;
    let path = identity_path(rt, folder)?;
    let part = format!(in rt.alloc(); "{path}.part")?;
    if let Err(error) = write_new(rt, part.as_str(), text.as_bytes()) {
        let _ = fs::remove_file(rt, part.as_str());
        return Err(error);
    }
    fs::rename(rt, part.as_str(), path.as_str())?;
    sync_names(rt, folder)
}

/// Writes a new file durably. A file that an earlier attempt left is removed first.
fn write_new(rt: &HostRuntime, path: &str, bytes: &[u8]) -> io::Result<()> {
    let _ = fs::remove_file(rt, path);
    let mut file = OpenOptions::new()
        .write(true)
        .create_new(true)
        .mode(0o600)
        .open(rt, path)?;
    file.write_all(bytes)?;
    file.sync_all()
}
