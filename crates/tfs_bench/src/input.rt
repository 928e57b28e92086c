//! Input, and the values that are made of it.

ghost use Rattle.std.specs.Prelude.{◌≤◌, length, IfOk};

use anyhow::{Result, bail};
use std::alloc::{AllocError, Global};
use std::sync::Arc;
use tfs_records::Entry;
use tfs_rules::{Act, Name};
use tfs_state::{Doc, MAX_STATE_BYTES};

/// Returns the text of bytes.
pub(crate) fn text_of(bytes: &[u8]) -> Result<&str> {
    match str::from_utf8(bytes) {
        Ok(text) => Ok(text),
        Err(_) => bail!("the input is no UTF-8"),
    }
}

/// Returns the lines of a text.
pub(crate) fn lines_of(alloc: Global, text: &str) -> Result<Vec<&str>, AllocError> {
    let mut lines = Vec::new(alloc);
    for line in text.lines() {
        lines.push(line)?;
    }
    Ok(lines)
}

/// Returns the state in the first line, and the text after it.
pub(crate) fn split_state(input: &[u8]) -> Result<(&str, &str)> {
    match text_of(input)? {
        "" => bail!("there is no state"),
        text => Ok(text.split_once('\n').unwrap_or((text, ""))),
    }
}

/// Returns the document of a state.
pub(crate) fn doc_of(alloc: Global, state: &[u8]) -> Result<Doc> {
    if MAX_STATE_BYTES < state.len() {
        bail!("the state is too long");
    }
    Ok(Doc::read(alloc, state.to_vec(alloc)?)?)
}

/// Returns the entry of the push of a state to the workspace `a`.
pub(crate) fn entry_of(alloc: Global, state: &str) -> Result<Entry> {
    let Some(name) = Name::read(String::from_str(alloc, "a")?) else {
        bail!("there is no name");
    };
    let doc = Arc::new(alloc, doc_of(alloc, state.as_bytes())?)?;
    Ok(Entry {
        name,
        act: Act::Push(None, doc),
    })
}
