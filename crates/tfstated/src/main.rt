//! The program `tfstated`: a server for Terraform's state. Its commands are `serve`, workers over a
//! listener, `stdio`, a conversation over standard input and output, and `check` and `rebase`,
//! which read a journal file.
#![tactic(auto)]

use crate::command::Command;
use std::process::ExitCode;

mod check;
mod command;
mod fault;
mod rebase;
mod serve;
mod stdio;

fn main(rt: HostRuntime) -> ExitCode {
    match command::read(&rt) {
        Some(Command::Stdio) => stdio::run(&rt),
        Some(Command::Check(file)) => check::run(&rt, file.as_str()),
        Some(Command::Rebase(old, new)) => rebase::run(&rt, old.as_str(), new.as_str()),
        Some(Command::Serve(asked)) => serve::run(&rt, &asked),
        None => {
            command::print_usage(&rt);
            ExitCode::from(2)
        }
    }
}
