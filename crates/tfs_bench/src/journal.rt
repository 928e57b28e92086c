//! Reads and opens a journal, compared with reading its states, and encodes a record, compared with
//! copying its bytes.

use crate::input::{doc_of, entry_of};
use crate::measure::Measured;
use anyhow::{Result, bail};
use md5::{Digest, Md5};
use std::alloc::Global;
use std::time::{Clock, Instant};
use tfs_journal::{Decoded, decode};
use tfs_records::{Base, Discard, Entry, MemorySink, Out, encode, encode_base};
use tfs_rules::Act;
use tfs_state::Doc;
use tfs_table::Table;

/// The bytes of a journal, and what they decode to.
#[derive(Drop)]
pub(crate) struct Journal<'a> {
    bytes: &'a [u8],
    read: Decoded,
}

impl<'a> Journal<'a> {
    /// Decodes a journal.
    pub(crate) fn read(alloc: Global, bytes: &'a [u8]) -> Result<Journal<'a>> {
        let read = decode(alloc, bytes)?;
        Ok(Journal { bytes, read })
    }

    /// Makes the call with this name once.
    pub(crate) fn call(
        &self,
        rt: &(impl AllocGlobal + Clock + Print),
        name: &str,
    ) -> Result<Measured> {
        match name {
            "decode" => self.decode(rt),
            "keep" => self.keep(rt),
            "parts" => self.parts(rt),
            "open" => self.open(rt),
            "encode" => self.encode(rt),
            "copy" => copy(rt, self.record(rt.alloc())?.as_slice()),
            "append" => append(rt, self.record(rt.alloc())?.as_slice()),
            _ => bail!("the calls are decode, keep, parts, open, encode, copy and append"),
        }
    }

    /// Returns the record of the first entry.
    fn record(&self, alloc: Global) -> Result<Vec<u8>> {
        match self.read.entries.as_slice().first() {
            Some(entry) => Ok(encode(alloc, entry)?),
            None => bail!("the journal has no entry"),
        }
    }

    /// Decodes the journal. Counts its entries.
    fn decode(&self, rt: &(impl AllocGlobal + Clock)) -> Result<Measured> {
        let start = Instant::now(rt)?;
        let read = decode(rt.alloc(), self.bytes)?;
        Measured::since(rt, start, read.entries.as_slice().len())
    }

    /// Prints a line with the number of bytes before the journal is decoded, and one with the
    /// number of entries while the result is in memory.
    fn keep(&self, rt: &(impl AllocGlobal + Print)) -> Result<Measured> {
        Measured::print_count(rt, "journal", self.bytes.len())?;
        let read = decode(rt.alloc(), self.bytes)?;
        Measured::print_count(rt, "journal", read.entries.as_slice().len())
    }

    /// Reads a copy of each state, and computes one MD5 of the journal's bytes. Counts the states.
    fn parts(&self, rt: &(impl AllocGlobal + Clock)) -> Result<Measured> {
        let start = Instant::now(rt)?;
        let docs = docs_of(rt.alloc(), self.read.entries.as_slice())?;
        let _digest = Md5::digest(self.bytes);
        Measured::since(rt, start, docs.len())
    }

    /// Opens a table of the journal that keeps no bytes. Counts its entries.
    fn open(&self, rt: &(impl AllocGlobal + Clock)) -> Result<Measured> {
        let start = Instant::now(rt)?;
        let (table, _end) = Table::open(rt.alloc(), self.bytes, Discard)?;
        Measured::since(rt, start, table.len())
    }

    /// Encodes the record of the first entry. Counts its bytes.
    fn encode(&self, rt: &(impl AllocGlobal + Clock)) -> Result<Measured> {
        let start = Instant::now(rt)?;
        let record = self.record(rt.alloc())?;
        Measured::since(rt, start, record.len())
    }
}

/// Copies a record, and computes its MD5. Counts the bytes.
fn copy(rt: &(impl AllocGlobal + Clock), record: &[u8]) -> Result<Measured> {
    let start = Instant::now(rt)?;
    let copy = record.to_vec(rt.alloc())?;
    let _digest = Md5::digest(copy.as_slice());
    Measured::since(rt, start, copy.len())
}

/// Appends a record to a new sink in memory. Counts the sink's bytes.
fn append(rt: &(impl AllocGlobal + Clock), record: &[u8]) -> Result<Measured> {
    let mut out = Out::new(MemorySink::new(rt.alloc(), usize::MAX, u64::MAX));
    let start = Instant::now(rt)?;
    out.append(record)?;
    Measured::since(rt, start, out.sink().bytes().len())
}

/// Returns the documents of pushes, each read again.
fn docs_of(alloc: Global, entries: &[Entry]) -> Result<Vec<Doc>> {
    let mut docs = Vec::new(alloc);
    for entry in entries {
        if let Act::Push(_, doc) = &entry.act {
            docs.push(doc_of(alloc, doc.bytes())?)?;
        }
    }
    Ok(docs)
}

/// Returns the text of a journal that has the push of a state.
pub(crate) fn text_of(alloc: Global, state: &str) -> Result<Vec<u8>> {
    let mut text = b"TFJ2\n".to_vec(alloc)?;
    push_base(&mut text, alloc)?;
    push_record(&mut text, alloc, state)?;
    Ok(text)
}

/// Appends the base of a journal without a history.
fn push_base(text: &mut Vec<u8>, alloc: Global) -> Result<()> {
    let base = encode_base(alloc, &Base::empty(alloc))?;
    Ok(text.extend_from_slice(base.as_slice())?)
}

/// Appends the record of the push of a state.
fn push_record(text: &mut Vec<u8>, alloc: Global, state: &str) -> Result<()> {
    let record = record_of(alloc, state)?;
    Ok(text.extend_from_slice(record.as_slice())?)
}

/// Returns the record of the push of a state.
fn record_of(alloc: Global, state: &str) -> Result<Vec<u8>> {
    let entry = entry_of(alloc, state)?;
    Ok(encode(alloc, &entry)?)
}
