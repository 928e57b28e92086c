//! Prints what journals decode to, in lines.

use anyhow::Result;
use std::alloc::{AllocError, Global};
use tfs_journal::{Decoded, End, decode};
use tfs_lock::Id;
use tfs_records::{BaseRow, Entry, encode, encode_base};
use tfs_rules::Act;

/// Prints how the bytes of each line, in hex digits, decode, and the text of the result.
pub(crate) fn print_readings(rt: &(impl AllocGlobal + Print), text: &str) -> Result<()> {
    for line in text.lines() {
        let bytes = hex::decode(rt.alloc(), line)?;
        print_reading(rt, &decode(rt.alloc(), bytes.as_slice())?)?;
    }
    Ok(())
}

/// Prints a decoded journal, and its text.
fn print_reading(rt: &(impl AllocGlobal + Print), read: &Decoded) -> Result<()> {
    let values = reading_line(rt.alloc(), read)?;
    println!(rt; "{values}")?;
    let text = text_line(rt.alloc(), read)?;
    println!(rt; "{text}")?;
    Ok(())
}

/// Returns the header, the base and the record of each entry of a decoded journal, encoded again.
fn text_line(alloc: Global, read: &Decoded) -> Result<String, AllocError> {
    let mut line = String::from_str(alloc, "text")?;
    if read.format == 1 {
        push_hex(&mut line, b"TFJ1\n")?;
    } else {
        push_hex(&mut line, b"TFJ2\n")?;
        push_hex(&mut line, encode_base(alloc, &read.base)?.as_slice())?;
    }
    for entry in read.entries.as_slice() {
        push_hex(&mut line, encode(alloc, entry)?.as_slice())?;
    }
    Ok(line)
}

/// Returns the format, the position and the rows of the base, the entries, and the end of a decoded
/// journal.
fn reading_line(alloc: Global, read: &Decoded) -> Result<String, AllocError> {
    let position = read.base.position();
    let mut line = format!(in alloc; "format {} base {position}", read.format)?;
    for row in read.base.rows() {
        push_row(&mut line, row)?;
    }
    for entry in read.entries.as_slice() {
        push_entry(&mut line, entry)?;
    }
    match read.end {
        End::Whole => line.push_str(" whole")?,
        End::Torn(at) => write!(line, " torn {at}")?,
        End::Damaged(at) => write!(line, " damaged {at}")?,
    }
    Ok(line)
}

/// Appends the name, the holder and the state of a row.
fn push_row(line: &mut String, row: &BaseRow) -> Result<(), AllocError> {
    let name = row.name.text();
    write!(line, " row {name}")?;
    match &row.holder {
        Some(info) => push_hex(line, info.bytes())?,
        None => push_hex(line, b"")?,
    }
    match &row.state {
        Some(doc) => push_hex(line, doc.bytes()),
        None => push_hex(line, b""),
    }
}

/// Appends the kind and the name of an entry, and the contents of its act.
fn push_entry(line: &mut String, entry: &Entry) -> Result<(), AllocError> {
    let name = entry.name.text();
    match &entry.act {
        Act::Lock(info) => {
            write!(line, " lock {name}")?;
            push_hex(line, info.bytes())
        }
        Act::Unlock(id) => {
            write!(line, " unlock {name}")?;
            push_id(line, id)
        }
        Act::Push(id, doc) => {
            write!(line, " push {name}")?;
            push_id(line, id)?;
            push_hex(line, doc.bytes())
        }
        Act::Delete(id) => {
            write!(line, " delete {name}")?;
            push_id(line, id)
        }
    }
}

/// Appends an identifier.
fn push_id(line: &mut String, id: &Option<Id>) -> Result<(), AllocError> {
    match id {
        Some(id) => push_hex(line, id.text().as_bytes()),
        None => push_hex(line, b""),
    }
}

/// Appends a space and the hex digits of bytes; a dash if there are none.
pub(crate) fn push_hex(line: &mut String, bytes: &[u8]) -> Result<(), AllocError> {
    line.push(' ')?;
    if bytes.is_empty() {
        line.push('-')?;
        return Ok(());
    }
    let digits = hex::encode(*line.allocator(), bytes)?;
    line.push_str(digits.as_str())?;
    Ok(())
}
