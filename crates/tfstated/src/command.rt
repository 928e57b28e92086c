//! The commands of the program.

ghost use Rattle.std.specs.Prelude.{◌≡◌, ◌≤◌, IfSome};

use std::env;
use std::rt::Env;

const USAGE: &str =
    "usage: tfstated stdio | check FILE | rebase OLD NEW | serve ADDR WORKERS NEW [OLD]";

/// The maximum number of workers of `serve`.
const MAX_WORKERS: usize = 16;

/// A command with its arguments.
#[derive(Drop)]
pub(crate) enum Command {
    /// A conversation over standard input and output.
    Stdio,
    /// The records of the journal in a file, and its end.
    Check(String),
    /// A journal in the second file that continues the one in the first.
    Rebase(String, String),
    /// Workers that answer connections.
    Serve(Serving),
}

/// The arguments of `serve`: the address to listen on, the number of workers, from 1 to 16, the
/// file of the new journal, and that of the old one, if any.
#[derive(Drop)]
pub(crate) struct Serving {
    pub(crate) address: String,
    pub(crate) workers: usize,
    pub(crate) new: String,
    pub(crate) old: Option<String>,
    ghost some: { 1 ≤ workers },
    ghost few: { workers ≤ 16 },
}

/// Returns the command of the arguments; none if they are invalid, aren't UTF-8, or can't be read.
pub(crate) fn read(rt: &(impl AllocGlobal + Env)) -> Option<Command> {
    let Ok(mut words) = env::args(rt) else {
        return None;
    };
    let word = words.nth(1)?;
    let first = words.next();
    let second = words.next();
    let third = words.next();
    let fourth = words.next();
    if words.next().is_some() {
        return None;
    }
    match (word.as_str(), first, second, third, fourth) {
        ("stdio", None, None, None, None) => Some(Command::Stdio),
        ("check", Some(file), None, None, None) => Some(Command::Check(file)),
        ("rebase", Some(old), Some(new), None, None) => Some(Command::Rebase(old, new)),
        ("serve", Some(address), Some(number), Some(new), old) => {
            serve_with(address, number.as_str(), new, old)
        }
        _ => None,
    }
}

/// Returns the command `serve` with these arguments; none if the number of workers is invalid.
fn serve_with(address: String, number: &str, new: String, old: Option<String>) -> Option<Command> {
    let workers = workers_in(number)?;
    Some(Command::Serve(Serving {
        address,
        workers,
        new,
        old,
    }))
}

/// Returns the number of workers in a text: decimal, without leading zeros or a sign, from 1 to 16.
fn workers_in(text: &str) -> Option<usize>
    ensures { IfSome result (λ workers. (1 ≤ workers) × (workers ≤ 16)) }
{
    if text.starts_with('0') || text.starts_with('+') {
        return None;
    }
    match text.parse::<usize>() {
        Ok(workers) => {
            if 1 <= workers && workers <= MAX_WORKERS {
                Some(workers)
            } else {
                None
            }
        }
        Err(_) => None,
    }
}

/// Prints the commands on standard error. A failure to write is ignored, because there is nowhere
/// left to report it.
pub(crate) fn print_usage(rt: &impl Eprint) {
    let _ = rt.eprintln(USAGE);
}
