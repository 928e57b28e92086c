//! Makes calls of the libraries that black-box tests can't observe in the built program, over input
//! from standard input, and prints the results. README.md lists the words. Without a word, makes a
//! few calls of each kind except `append` and `texts`.
#![tactic(auto)]

mod addresses;
mod files;
mod input;
mod making;
mod reading;
mod state;
mod table;
mod texts;

use crate::input::text_of;
use crate::table::push;
use anyhow::{Result, bail};
use std::alloc::Global;
use std::env;
use std::io::Read;

fn main(rt: HostRuntime) -> Result<()> {
    let mut words = Vec::new(rt.alloc());
    for word in env::args(&rt)?.skip(1) {
        words.push(word)?;
    }
    let words = lent(rt.alloc(), words.as_slice())?;
    if let ["append", how, path] = words.as_slice() {
        return files::append_to(&rt, how, path);
    }
    let mut input = Vec::new(rt.alloc());
    rt.reader().read_to_end(&mut input)?;
    probe(&rt, words.as_slice(), text_of(input.as_slice())?)
}

/// Returns slices of these words.
fn lent(alloc: Global, words: &[String]) -> Result<Vec<&str>> {
    let mut list = Vec::new(alloc);
    for word in words {
        list.push(word.as_str())?;
    }
    Ok(list)
}

/// Makes the calls that the words name, over a text.
fn probe<R: AllocGlobal + Print>(rt: &R, words: &[&str], text: &str) -> Result<()> {
    match words {
        [] => probe_all(rt, text),
        ["addresses"] => addresses::print_answers(rt),
        ["texts"] => texts::print_texts(rt, text),
        ["state"] => state::print_count(rt, text),
        ["index"] => state::print_answers(rt, text),
        ["journal"] => reading::print_readings(rt, text),
        ["table", "read"] => push(rt, false, text.as_bytes()),
        ["table", "apply"] => push(rt, true, text.as_bytes()),
        ["table", word] => making::print_made(rt, word, text.trim_end()),
        _ => bail!(
            "the words are addresses, texts, state, index, journal, append or table, and the arguments in README.md"
        ),
    }
}

/// Makes a few calls of each kind: over a state in the first line, with the address in the second,
/// and over journals in the lines after them.
fn probe_all<R: AllocGlobal + Print>(rt: &R, text: &str) -> Result<()> {
    let Some((state, rest)) = text.split_once('\n') else {
        bail!("the input has one line");
    };
    addresses::print_answers(rt)?;
    state::print_count(rt, state)?;
    push(rt, true, state.as_bytes())?;
    let Some((address, journals)) = rest.split_once('\n') else {
        bail!("the input has two lines");
    };
    state::print_impacts(rt, state, address)?;
    let first = journals.lines().next();
    making::print_made(rt, "rebase", first.unwrap_or(""))?;
    reading::print_readings(rt, journals)
}
