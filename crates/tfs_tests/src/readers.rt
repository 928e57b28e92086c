//! A reader whose bytes come in pieces, and that may fail.

use std::io;

/// A reader that gives its bytes in reads of at most `most`, and then reports its end, or fails. It
/// counts the reads, and records whether it reported its end.
#[derive(Drop)]
pub(crate) struct Pieces<'i> {
    rest: &'i [u8],
    most: usize,
    fails: bool,
    pub(crate) calls: u64,
    pub(crate) told_end: bool,
}

impl<'i> Pieces<'i> {
    /// Returns a reader of these bytes before its first read.
    pub(crate) fn new(rest: &'i [u8], most: usize, fails: bool) -> Pieces<'i> {
        Pieces {
            rest,
            most,
            fails,
            calls: 0,
            told_end: false,
        }
    }
}

impl<'i> io::Read for Pieces<'i> {
    fn read(&mut self, buf: &mut [u8]) -> io::Result<usize> {
        self.calls = self.calls.saturating_add(1);
        if self.fails && self.rest.is_empty() {
            return Err(io::Error::from(io::ErrorKind::ConnectionReset));
        }
        let count = self.most.min(buf.len()).min(self.rest.len());
        let (piece, rest) = self.rest.split_at(count);
        buf[..count].copy_from_slice(piece);
        self.rest = rest;
        self.told_end = count == 0;
        Ok(count)
    }
}
