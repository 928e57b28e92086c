//! Measures the calls of the repository's libraries, one subject after another, over input from
//! standard input. README.md lists the subjects, their calls and their input. Without arguments,
//! makes each call once over a small state, and prints the results that don't vary.
#![tactic(auto)]

mod index;
mod input;
mod journal;
mod measure;
mod planes;
mod state;
mod subject;

use crate::index::Impacts;
use crate::input::{split_state, text_of};
use crate::journal::Journal;
use crate::planes::Relation;
use crate::state::StateText;
use crate::subject::{Subject, print_calls};
use anyhow::{Result, bail};
use std::env;
use std::io::Read;
use std::time::Clock;

fn main(rt: HostRuntime) -> Result<()> {
    let mut input = Vec::new(rt.alloc());
    rt.reader().read_to_end(&mut input)?;
    let words = words_of(&rt)?;
    run(&rt, words.as_str(), input.as_slice())
}

/// Returns the arguments of the program, one a line.
fn words_of(rt: &HostRuntime) -> Result<String> {
    let mut words = String::new(rt.alloc());
    for word in env::args(rt)?.skip(1) {
        writeln!(words, "{word}")?;
    }
    Ok(words)
}

/// Measures the calls of a subject; without arguments, makes all calls once.
fn run<R: Clock + Print + AllocGlobal>(rt: &R, words: &str, input: &[u8]) -> Result<()> {
    if words.is_empty() {
        return make_all(rt, input);
    }
    let (subject, rest) = words.split_once('\n').unwrap_or((words, ""));
    let Some((rounds, names)) = rest.split_once('\n') else {
        bail!("the words are a subject, a number of rounds, and calls");
    };
    measure_subject(rt, subject, input, Some(rounds.parse()?), names)
}

/// Measures calls of a subject in this number of rounds, or makes them once.
fn measure_subject<R: Clock + Print + AllocGlobal>(
    rt: &R,
    subject: &str,
    input: &[u8],
    rounds: Option<usize>,
    names: &str,
) -> Result<()> {
    match subject {
        "planes" => {
            let relation = Relation { bytes: input };
            print_calls(rt, Subject::Planes(relation), rounds, names)
        }
        "index" => measure_index(rt, input, rounds, names),
        "state" => {
            let text = text_of(input)?;
            print_calls(rt, Subject::State(StateText { text }), rounds, names)
        }
        "journal" => measure_journal(rt, input, rounds, names),
        _ => bail!("the subjects are planes, index, state and journal"),
    }
}

/// Measures calls of the index of a state.
fn measure_index<R: Clock + Print + AllocGlobal>(
    rt: &R,
    input: &[u8],
    rounds: Option<usize>,
    names: &str,
) -> Result<()> {
    let impacts = Impacts::read(rt.alloc(), input)?;
    print_calls(rt, Subject::Index(&impacts), rounds, names)
}

/// Measures calls of a journal.
fn measure_journal<R: Clock + Print + AllocGlobal>(
    rt: &R,
    input: &[u8],
    rounds: Option<usize>,
    names: &str,
) -> Result<()> {
    let journal = Journal::read(rt.alloc(), input)?;
    print_calls(rt, Subject::Journal(&journal), rounds, names)
}

/// A relation of four numbers in a row, as `planes` takes it.
const ROW: &[u8] = &[4, 0, 0, 0, 0, 0, 1, 0, 1, 0, 2, 0, 2, 0, 3, 0];

/// Makes each call once over a small input: the first line is a state, the others are its
/// addresses.
fn make_all<R: Clock + Print + AllocGlobal>(rt: &R, input: &[u8]) -> Result<()> {
    let (state, _) = split_state(input)?;
    measure_subject(rt, "planes", ROW, None, "close")?;
    measure_subject(rt, "state", state.as_bytes(), None, "document\nvalue\ntree")?;
    measure_subject(
        rt,
        "index",
        input,
        None,
        "build\nplane\nany\nall\nany_listed\nall_listed",
    )?;
    let journal = journal::text_of(rt.alloc(), state)?;
    let calls = "decode\nparts\nopen\nencode\ncopy\nappend";
    measure_subject(rt, "journal", journal.as_slice(), None, calls)
}
