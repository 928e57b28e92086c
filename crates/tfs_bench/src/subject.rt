//! The subjects whose calls are measured, and how.

use crate::index::Impacts;
use crate::input::lines_of;
use crate::journal::Journal;
use crate::measure::Measured;
use crate::planes::Relation;
use crate::state::StateText;
use anyhow::Result;
use std::alloc::Global;
use std::time::{Clock, Duration};

/// A subject: it has calls, over some input.
#[derive(Clone, Copy)]
pub(crate) enum Subject<'s, 'a> {
    Planes(Relation<'a>),
    Index(&'s Impacts<'a>),
    State(StateText<'a>),
    Journal(&'s Journal<'a>),
}

impl Subject<'_, '_> {
    /// Makes the call with this name once.
    fn call<R: Clock + Print + AllocGlobal>(&self, rt: &R, name: &str) -> Result<Measured> {
        match self {
            Subject::Planes(relation) => relation.call(rt, name),
            Subject::Index(impacts) => impacts.call(rt, name),
            Subject::State(text) => text.call(rt, name),
            Subject::Journal(journal) => journal.call(rt, name),
        }
    }
}

/// Makes each call once in each round, and prints the nanoseconds of the shortest of each call, and
/// its last count. Without a number of rounds, makes each call once, and prints its count. With 0
/// rounds only the input is made.
pub(crate) fn print_calls<R: Clock + Print + AllocGlobal>(
    rt: &R,
    subject: Subject,
    rounds: Option<usize>,
    names: &str,
) -> Result<()> {
    let names = lines_of(rt.alloc(), names)?;
    let longest = Measured::new(Duration::MAX, 0);
    let mut all = vec![in rt.alloc(); longest; names.len()]?;
    for _ in 0..rounds.unwrap_or(1) {
        take_turns(rt, subject, names.as_slice(), all.as_mut_slice())?;
    }
    print_all(rt, names.as_slice(), all.as_slice(), rounds.is_some())
}

/// Makes each call once, and keeps the shorter times.
fn take_turns<R: Clock + Print + AllocGlobal>(
    rt: &R,
    subject: Subject,
    names: &[&str],
    all: &mut [Measured],
) -> Result<()> {
    for (i, least) in all.iter_mut().enumerate() {
        if let Some(name) = names.get(i) {
            let Measured { time, count } = subject.call(rt, name)?;
            let time = least.time.min(time);
            *least = Measured { time, count };
        }
    }
    Ok(())
}

/// Prints the count of each call, after its time if that is wanted.
fn print_all(rt: &impl Print, names: &[&str], all: &[Measured], is_timed: bool) -> Result<()> {
    for (i, Measured { time, count }) in all.iter().enumerate() {
        let name = names.get(i).unwrap_or(&"");
        let nanos = time.as_nanos();
        if is_timed {
            println!(rt; "{name} {nanos} {count}")?;
        } else {
            println!(rt; "{name} {count}")?;
        }
    }
    Ok(())
}
