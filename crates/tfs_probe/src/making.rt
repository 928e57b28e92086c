//! Makes tables over a sink that counts, so that tests can refuse their requests for memory: a new
//! table, one opened from a journal, and one rebased from that.

use anyhow::{Result, bail};
use std::alloc::Global;
use std::sync::atomic::{AtomicU64, Ordering};
use tfs_records::{Discard, Sink, SinkFault};
use tfs_table::{OpenFault, Table};

/// A sink that counts its bytes, and keeps none.
#[derive(Drop)]
struct Counting<'c> {
    bytes: &'c AtomicU64,
}

impl<'c> Sink for Counting<'c> {
    ghost use Rattle.std.specs.Prelude.{None};

    ghost told = { λ _. None };

    ghost faults = { λ _. 0 };

    fn write(&mut self, piece: &[u8]) -> Result<usize, SinkFault> {
        self.bytes.fetch_add(piece.len() as u64, Ordering::SeqCst);
        Ok(piece.len())
    }
}

/// Makes a table as the word says from a journal in hex digits. Prints a line with its position or
/// the fault, and the number of bytes that the sink was given.
pub(crate) fn print_made(rt: &(impl AllocGlobal + Print), word: &str, digits: &str) -> Result<()> {
    let journal = hex::decode(rt.alloc(), digits)?;
    let bytes = AtomicU64::new(0);
    let sink = Counting { bytes: &bytes };
    let made = match word {
        "new" => create(rt.alloc(), sink),
        "open" => open(rt.alloc(), journal.as_slice(), sink),
        "rebase" => rebase(rt.alloc(), journal.as_slice(), sink),
        _ => bail!("the word is none of read, apply, new, open and rebase"),
    };
    let given = bytes.load(Ordering::SeqCst);
    match made {
        Ok(position) => println!(rt; "made at {position}, {given} bytes")?,
        Err(fault) => println!(rt; "{fault:?}, {given} bytes")?,
    }
    Ok(())
}

/// Makes a new table. Returns its position.
fn create(alloc: Global, sink: Counting) -> Result<u64, OpenFault> {
    Ok(Table::new(alloc, sink)?.position())
}

/// Opens a table from a journal. Returns its position.
fn open(alloc: Global, journal: &[u8], sink: Counting) -> Result<u64, OpenFault> {
    let (table, _end) = Table::open(alloc, journal, sink)?;
    Ok(table.position())
}

/// Opens a table from a journal and rebases it. Returns the new table's position.
fn rebase(alloc: Global, journal: &[u8], sink: Counting) -> Result<u64, OpenFault> {
    let (table, _end) = Table::open(alloc, journal, Discard)?;
    Ok(table.rebase(sink)?.position())
}
