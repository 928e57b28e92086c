//! Serving a folder in runs: a server that compacts its journal while it runs.
#![tactic(auto)]

mod fault;
mod folder_runs;
mod gate;
mod hold;
mod listening;
mod log;
mod log_line;
mod moments;
mod notice;
mod numbers;
mod placing;
mod serve;
mod watch;

pub use numbers::serve_numbers;
pub use serve::{Bounds, Left, Plan, StartedFolder, serve_folder};
