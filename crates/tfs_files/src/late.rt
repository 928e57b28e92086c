//! Files that are opened when they are read.

use std::fs::File;
use std::io::{self, Read};

/// A file that is opened by its first read, so that few of many files are open at the same time.
#[derive(Drop)]
pub(crate) struct LateFile<'r> {
    rt: &'r HostRuntime,
    path: String,
    file: Option<File>,
}

impl<'r> LateFile<'r> {
    /// Creates the reader of the file at a path, which isn't open yet.
    pub(crate) fn new(rt: &'r HostRuntime, path: String) -> LateFile<'r> {
        LateFile {
            rt,
            path,
            file: None,
        }
    }
}

impl Read for LateFile<'_> {
    fn read(&mut self, buf: &mut [u8]) -> io::Result<usize> {
        if let Some(file) = &mut self.file {
            return file.read(buf);
        }
        let mut file = File::open(self.rt, self.path.as_str())?;
        let read = file.read(buf);
        self.file = Some(file);
        read
    }
}
