//! Reads a state, builds its index, and answers queries.

use anyhow::{Result, bail};
use std::alloc::{AllocError, Global};
use std::sync::Arc;
use tfs_index::Version;
use tfs_state::{Doc, MAX_STATE_BYTES};

/// Reads a state, and prints its number of instances.
pub(crate) fn print_count(rt: &(impl AllocGlobal + Print), state: &str) -> Result<()> {
    let doc = doc_of(rt.alloc(), state)?;
    println!(rt; "{} instances", doc.len())?;
    Ok(())
}

/// Reads the state in the first line, builds its index, and queries it for any and all of the
/// addresses in the other lines.
pub(crate) fn print_answers(rt: &(impl AllocGlobal + Print), text: &str) -> Result<()> {
    let Some((state, addresses)) = text.split_once('\n') else {
        bail!("there are no addresses");
    };
    print_impacts(rt, state, addresses)
}

/// Does the same for a state and for addresses in lines.
pub(crate) fn print_impacts(
    rt: &(impl AllocGlobal + Print),
    state: &str,
    addresses: &str,
) -> Result<()> {
    let version = build_version(rt, state)?;
    print_chosen(rt, &version, addresses)
}

/// Builds the index of a state. Prints a line when the state is read, and one when the index is
/// built.
fn build_version(rt: &(impl AllocGlobal + Print), state: &str) -> Result<Version> {
    let doc = doc_of(rt.alloc(), state)?;
    println!(rt; "read")?;
    let version = version_of(rt.alloc(), doc)?;
    println!(rt; "built")?;
    Ok(version)
}

/// Returns the index of a state.
fn version_of(alloc: Global, doc: Doc) -> Result<Version> {
    Ok(Version::build(alloc, Arc::new(alloc, doc)?)?)
}

/// Returns the lines of a text.
fn lines_of(alloc: Global, text: &str) -> Result<Vec<&str>, AllocError> {
    let mut lines = Vec::new(alloc);
    for line in text.lines() {
        lines.push(line)?;
    }
    Ok(lines)
}

/// Prints the numbers of the instances that an index chooses for any and all of the addresses, one
/// a line.
fn print_chosen(rt: &(impl AllocGlobal + Print), version: &Version, addresses: &str) -> Result<()> {
    let texts = lines_of(rt.alloc(), addresses)?;
    let texts = texts.as_slice();
    print_numbers(rt, "any", version.any(rt.alloc(), texts)?.as_slice())?;
    print_numbers(rt, "all", version.all(rt.alloc(), texts)?.as_slice())
}

/// Prints a line for each number.
fn print_numbers(rt: &impl Print, word: &str, numbers: &[usize]) -> Result<()> {
    for number in numbers {
        println!(rt; "{word} {number}")?;
    }
    Ok(())
}

/// Returns the document of a text.
fn doc_of(alloc: Global, text: &str) -> Result<Doc> {
    if MAX_STATE_BYTES < text.len() {
        bail!("the state is too long");
    }
    Ok(Doc::read(alloc, text.as_bytes().to_vec(alloc)?)?)
}
