//! Prints what addresses, states and lock texts read as. A text is written in hex digits.

ghost use Rattle.std.specs.Prelude.{◌<◌, length};

use crate::input::text_of;
use crate::reading::push_hex;
use anyhow::{Result, bail};
use json::Scratch;
use std::alloc::{AllocError, Global};
use tfs_addr::{AddrFault, Key, Mode, config_text, instance_text, strip};
use tfs_lock::LockInfo;
use tfs_state::{Doc, MAX_STATE_BYTES, text_digest};

/// Prints the answer to each line of the input: a word, and texts after it. All states are read
/// with one scratch buffer.
pub(crate) fn print_texts(rt: &(impl AllocGlobal + Print), input: &str) -> Result<()> {
    let mut scratch = Scratch::new(rt.alloc());
    for line in input.lines() {
        print_answer(rt, line, &mut scratch)?;
    }
    Ok(())
}

/// Prints the answer to a line.
fn print_answer(rt: &(impl AllocGlobal + Print), line: &str, scratch: &mut Scratch) -> Result<()> {
    let mut words = Vec::new(rt.alloc());
    for word in line.split(" ") {
        words.push(word)?;
    }
    let answer = match words.as_slice() {
        ["state", digits] => state_line(rt.alloc(), digits, scratch)?,
        words => answer_of(rt.alloc(), words)?,
    };
    println!(rt; "{answer}")?;
    Ok(())
}

/// Returns the answer to words about an address, a lock text or a digest.
fn answer_of(alloc: Global, words: &[&str]) -> Result<String> {
    match words {
        ["strip", digits] => address_line(alloc, strip(alloc, text_in(alloc, digits)?.as_str())),
        ["config", mode, module] => config_line(alloc, mode, module),
        ["instance", module, key, deposed] => instance_line(alloc, module, key, deposed),
        ["lock", digits] => lock_line(alloc, digits),
        ["digest", digits] => {
            Ok(format!(in alloc; "digest {}", text_digest(text_in(alloc, digits)?.as_str()))?)
        }
        _ => bail!("a line has one of strip, config, instance, state, lock and digest, and texts"),
    }
}

/// Returns the text of hex digits.
fn text_in(alloc: Global, digits: &str) -> Result<String> {
    let bytes = hex::decode(alloc, digits)?;
    Ok(String::from_str(alloc, text_of(bytes.as_slice())?)?)
}

/// Returns the text of the hex digits after a `t`; none if the word doesn't begin with `t`.
fn marked_text(alloc: Global, word: &str) -> Result<Option<String>> {
    match word.strip_prefix('t') {
        Some(digits) => Ok(Some(text_in(alloc, digits)?)),
        None => Ok(None),
    }
}

/// Returns the line of an address, or of its fault.
fn address_line(alloc: Global, read: Result<String, AddrFault>) -> Result<String> {
    match read {
        Ok(text) => hex_line(alloc, "text", text.as_str()),
        Err(fault) => Ok(format!(in alloc; "fault {fault}")?),
    }
}

/// Returns a word and a text in hex digits; a dash if the text is empty.
fn hex_line(alloc: Global, word: &str, text: &str) -> Result<String> {
    let mut line = String::from_str(alloc, word)?;
    push_hex(&mut line, text.as_bytes())?;
    Ok(line)
}

/// Returns the line of the configuration address of t.n in a module.
fn config_line(alloc: Global, mode: &str, module: &str) -> Result<String> {
    let mode = match mode {
        "managed" => Mode::Managed,
        "data" => Mode::DataSource,
        _ => bail!("the mode is none of managed and data"),
    };
    let module = text_in(alloc, module)?;
    address_line(alloc, config_text(alloc, module.as_str(), mode, "t", "n"))
}

/// Returns the line of the address of an instance of the managed resource t.n. The key is a number
/// after an `n` or a text after a `t`; the key of a deposed object is a text after a `t`.
fn instance_line(alloc: Global, module: &str, key: &str, deposed: &str) -> Result<String> {
    let module = text_in(alloc, module)?;
    let text = marked_text(alloc, key)?;
    let key = key_of(key, &text);
    let deposed = marked_text(alloc, deposed)?;
    let deposed = deposed.as_ref().map(|text| text.as_str());
    let read = instance_text(
        alloc,
        module.as_str(),
        Mode::Managed,
        "t",
        "n",
        key,
        deposed,
    );
    hex_line(alloc, "text", read?.as_str())
}

/// Returns the key of a word, given its text if it is one.
fn key_of<'t>(word: &str, text: &'t Option<String>) -> Option<Key<'t>> {
    match text {
        Some(text) => Some(Key::Text(text.as_str())),
        None => Some(Key::Number(word.strip_prefix('n')?.parse::<u64>().ok()?)),
    }
}

/// Returns the line of lock information, with its identifier, or of its fault.
fn lock_line(alloc: Global, digits: &str) -> Result<String> {
    match LockInfo::read(alloc, hex::decode(alloc, digits)?) {
        Ok(info) => hex_line(alloc, "lock", info.id().text()),
        Err(fault) => Ok(format!(in alloc; "fault {fault:?}")?),
    }
}

/// Returns the line of a state, or of its fault.
fn state_line(alloc: Global, digits: &str, scratch: &mut Scratch) -> Result<String> {
    let bytes = hex::decode(alloc, digits)?;
    if MAX_STATE_BYTES < bytes.len() {
        bail!("the state is too long");
    }
    match Doc::read_over(alloc, bytes, scratch) {
        Ok(doc) => Ok(doc_line(alloc, &doc)?),
        Err(fault) => Ok(format!(in alloc; "fault {fault:?}: {fault}")?),
    }
}

/// Returns the serial and the lineage of a document, and its instances.
fn doc_line(alloc: Global, doc: &Doc) -> Result<String, AllocError> {
    let mut line = format!(in alloc; "state {}", doc.serial())?;
    push_hex(&mut line, doc.lineage().as_bytes())?;
    for u in 0..doc.len() {
        push_instance(&mut line, doc, u)?;
    }
    Ok(line)
}

/// Appends the address of an instance, its configuration address, and the numbers of its
/// dependencies.
fn push_instance(line: &mut String, doc: &Doc, u: usize) -> Result<(), AllocError>
    requires { u < length doc.now.instances }
{
    line.push_str(" instance")?;
    let address = format!(in *line.allocator(); "{}", doc.address(u))?;
    push_hex(line, address.as_bytes())?;
    push_hex(line, doc.config(u).as_bytes())?;
    for v in 0..doc.len() {
        push_number(line, doc, u, v)?;
    }
    Ok(())
}

/// Appends the number of an instance that another depends on, and a question mark if the document's
/// numbers of texts disagree.
fn push_number(line: &mut String, doc: &Doc, u: usize, v: usize) -> Result<(), AllocError>
    requires u { u < length doc.now.instances }
    requires v { v < length doc.now.instances }
{
    let numbers = doc.numbers();
    let is_said = numbers.dependencies(u).contains(&numbers.config(v));
    match doc.depends(u, v) {
        depends if depends != is_said => write!(line, " {v}?"),
        true => write!(line, " {v}"),
        false => Ok(()),
    }
}
