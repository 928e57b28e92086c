//! Reads names and pushes from texts.

use anyhow::{Result, bail};
use std::alloc::Global;
use tfs_calls::{Bytes, Draft, Raw};
use tfs_rules::Name;
use tfs_state::MAX_STATE_BYTES;

/// Returns the text of bytes.
pub(crate) fn text_of(bytes: &[u8]) -> Result<&str> {
    match str::from_utf8(bytes) {
        Ok(text) => Ok(text),
        Err(_) => bail!("the input is no UTF-8"),
    }
}

/// Returns the push of a state.
fn push_of(alloc: Global, state: &[u8]) -> Result<Draft> {
    if MAX_STATE_BYTES < state.len() {
        bail!("the state is too long");
    }
    let body = Bytes::new(state.to_vec(alloc)?);
    match Draft::read(alloc, Raw::Push(None, body)) {
        Ok(draft) => Ok(draft),
        Err(refusal) => bail!("the push is no draft: {}", refusal.name()),
    }
}

/// Returns the push of a state to the workspace `a`.
pub(crate) fn named_push(alloc: Global, state: &[u8]) -> Result<(Name, Draft)> {
    let name = name_of(alloc, "a")?;
    Ok((name, push_of(alloc, state)?))
}

/// Returns a workspace's name.
fn name_of(alloc: Global, text: &str) -> Result<Name> {
    match Name::read(String::from_str(alloc, text)?) {
        Some(name) => Ok(name),
        None => bail!("the name is none"),
    }
}
