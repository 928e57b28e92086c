//! Successive runs of workers. Between two runs the journal is compacted into a new sink.
#![tactic(auto)]

mod runs;
mod tally;

pub use runs::{Finish, NotCompacted, Runs, serve_runs};
pub use tally::Tally;
